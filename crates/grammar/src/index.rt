//! An index of the functions by their names: the function from which on a name is searched for.

ghost use Rattle.std.specs.Prelude.{◌≡◌, ◌<◌, []};
ghost use Rattle.grammar.specs.Laws.Index.{IsIndexed, Notes, bucket_of, start_of};

use crate::name_limits::MOST_NAMES;
use tokens::Name;

/// How many buckets there are for the names.
const BUCKETS: usize = 256;

/// The number of the earliest function with a name in each bucket, or one past all functions.
#[derive(Drop)]
pub(crate) struct Index {
    earliest: [u8; BUCKETS],
}

impl Index {
    /// Makes an index of no functions, by which each search begins at the first one until the index is cleared. It is
    /// all zeros, so that blank names are cheap to make and never moved.
    pub(crate) fn new() -> Index
        ensures { IsIndexed [] result.earliest }
    {
        Index {
            earliest: [0; BUCKETS],
        }
    }

    /// Forgets all functions.
    pub(crate) fn clear(&mut self)
        ensures { IsIndexed [] self.new.earliest }
    {
        self.earliest = [MOST_NAMES as u8; BUCKETS];
    }

    /// Returns a number before which no function has this name.
    #[inline(always)]
    pub(crate) fn first_candidate(&self, name: &Name) -> usize
        ensures { result ≡ start_of name.now self.now.earliest }
    {
        self.earliest[bucket(name)] as usize
    }

    /// Notes that the function of this number has this name.
    #[inline(always)]
    #[tactic(auto, using(crate::proofs::IndexLaws::notes))]
    pub(crate) fn note(&mut self, name: &Name, number: u8)
        ensures { Notes name.now number self.old.earliest self.new.earliest }
    {
        let bucket = bucket(name);
        if number < self.earliest[bucket] {
            self.earliest[bucket] = number;
        }
    }
}

/// Returns the bucket of a name. Most names that differ have another.
#[inline(always)]
#[tactic(auto, unfolding(crate::specs::Laws::Index::bucket_of))]
fn bucket(name: &Name) -> usize
    ensures value { result ≡ bucket_of name.now }
    ensures within { result < BUCKETS }
{
    let bytes = name.as_bytes();
    if bytes.is_empty() {
        return 0;
    }
    let last = bytes[bytes.len() - 1] as usize;
    let middle = bytes[bytes.len() / 2] as usize;
    (last + 16 * middle + bytes.len()) % BUCKETS
}
