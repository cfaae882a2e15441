//! Paths of robots, thinned so that their memory is bounded.

ghost use Rattle.std.specs.Prelude.{◌≡◌, ℕ, ◌*◌, ◌/◌, ◌≤◌, ◌<◌, List, [], ◌∷◌, ◌++◌, length, slice_get};
ghost use Rattle.watching.specs.Path.{Keeps};
ghost use Rattle.watching.specs.declared.places.Place.{Place};

use crate::places::Place;
use arrayvec::ArrayVec;
use std::marker::Model;

/// The most places of a path, an even number.
pub const MOST_PLACES: usize = 2000;

/// The greatest stride. A path that is full with it takes no more places; no match is long enough for that.
pub const MOST_STRIDE: u32 = 1 << 20;

/// The places of a robot over time, one an update. Each is kept until there are `MOST_PLACES`. Then each second one is
/// dropped, and the stride doubles: of the places to come only each second one is kept. So it goes on.
#[derive(Drop)]
pub struct Path {
    places: ArrayVec<Place, MOST_PLACES>,
    stride: u32,
    skip: u32,
}

impl Model for Path {
    ghost use Rattle.std.specs.Prelude.{◌≤◌, ◌<◌, length};
    ghost use Rattle.watching.specs.Path.{Path};

    ghost Value = { Path };

    ghost view = { λ p. record { places = p.places.items; stride = p.stride; skip = p.skip } };

    ghost invariant = { λ p. (length p.places.items ≤ 2000) × (p.skip < p.stride) × (p.stride ≤ 1048576) };
}

impl Default for Path {
    fn default() -> Path {
        Path::new()
    }
}

impl Path {
    /// Makes a path without places.
    pub fn new() -> Path
        ensures value { result ≡ record { places = []; stride = 1; skip = 0 } }
        ensures keeps { Keeps result [] }
    {
        Path {
            places: ArrayVec::new(),
            stride: 1,
            skip: 0,
        }
    }

    /// Adds the robot's next place, and keeps it if it is due.
    pub fn add(&mut self, place: Place)
        ensures { (places : List Place) → self.old.stride ≤ MOST_STRIDE / 2 → Keeps self.old places
            → Keeps self.new (places ++ place ∷ []) }
    {
        if self.skip > 0 {
            self.skip -= 1;
            return;
        }
        if self.places.is_full() {
            if self.stride > MOST_STRIDE / 2 {
                return;
            }
            self.thin();
        }
        self.places.push(place);
        self.skip = self.stride - 1;
    }

    /// Drops each second place, and doubles the stride.
    fn thin(&mut self)
        requires { self.old.stride ≤ MOST_STRIDE / 2 }
        ensures each { (n : ℕ) → n < length self.old.places / 2
            → slice_get self.new.places n ≡ slice_get self.old.places (2 * n) }
        ensures half { length self.new.places ≡ length self.old.places / 2 }
        ensures stride { self.new.stride ≡ 2 * self.old.stride }
        ensures skip { self.new.skip ≡ self.old.skip }
    {
        self.places = each_second(self.places.as_slice());
        self.stride *= 2;
    }

    /// Returns the places that are kept: number n is that of update n times the stride.
    pub fn places(&self) -> &[Place]
        ensures value { result.now ≡ self.now.places }
        ensures most { length result.now ≤ MOST_PLACES }
    {
        self.places.as_slice()
    }

    /// Returns the number of updates after which the robot was at the place of this index.
    pub fn update_of(&self, place: usize) -> u32
        requires { place < length self.now.places }
        ensures { result ≡ place * self.now.stride }
    {
        let stride = self.stride;
        stride * place as u32
    }

    /// Returns the stride: one place is kept out of this number.
    pub fn stride(&self) -> u32
        ensures value { result ≡ self.now.stride }
        ensures least { 1 ≤ result }
        ensures most { result ≤ MOST_STRIDE }
    {
        self.stride
    }
}

/// Returns each second place, from the first on; of an odd number the last one is dropped, too.
fn each_second(places: &[Place]) -> ArrayVec<Place, MOST_PLACES>
    requires { length places.now ≤ MOST_PLACES }
    ensures each { (n : ℕ) → n < length places.now / 2 → slice_get result.items n ≡ slice_get places.now (2 * n) }
    ensures half { length result.items ≡ length places.now / 2 }
{
    let mut kept = ArrayVec::new();
    for n in 0..places.len() / 2 {
        kept.push(places[2 * n]);
    }
    kept
}
