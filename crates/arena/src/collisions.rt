//! Which robots collide in an update.

ghost use Rattle.std.specs.Prelude.{◌≡◌, ℕ, ◌<◌, false, All, count_by, length};
ghost use Rattle.arena.specs.Collisions.{moves, is_close, is_no_further, collides, collision_count};

use crate::points::Point;
use crate::rules::NEAR;

/// A robot, live or not before an update: its place then, and its candidate for the place after the update.
#[derive(Clone, Copy, Default, Drop)]
pub struct AttemptedMove {
    pub live: bool,
    pub from: Point,
    pub to: Point,
}

impl AttemptedMove {
    /// Reports whether the robot would leave its place.
    #[tactic(auto, unfolding(crate::specs::Collisions::moves))]
    fn moves(&self) -> bool
        ensures { result ≡ moves self.now }
    {
        self.to.x() != self.from.x() || self.to.y() != self.from.y()
    }

    /// Reports whether the candidates are less than a metre apart on both axes.
    #[tactic(auto, unfolding(crate::specs::Collisions::is_close))]
    fn is_close(&self, other: &AttemptedMove) -> bool
        ensures { result ≡ is_close self.now other.now }
    {
        self.to.x().abs_diff(other.to.x()) < NEAR && self.to.y().abs_diff(other.to.y()) < NEAR
    }

    /// Reports whether two robots don't come further apart.
    #[tactic(auto, unfolding(crate::specs::Collisions::is_no_further))]
    fn is_no_further(&self, other: &AttemptedMove) -> bool
        ensures { result ≡ is_no_further self.now other.now }
    {
        self.to.square_to(other.to) <= self.from.square_to(other.from)
    }

    /// Reports whether two robots collide.
    #[tactic(auto, unfolding(crate::specs::Collisions::collides))]
    pub fn collides(&self, other: &AttemptedMove) -> bool
        ensures { result ≡ collides self.now other.now }
    {
        self.live
            && other.live
            && self.is_close(other)
            && (self.moves() || other.moves())
            && self.is_no_further(other)
    }
}

/// Returns how many of some robots a robot collides with.
fn collision_count(mover: &AttemptedMove, others: &[AttemptedMove]) -> usize
    ensures { result ≡ count_by (collides mover.now) others.now }
{
    others.iter().filter(|other| mover.collides(other)).count()
}

/// Returns how many others a robot collides with.
#[tactic(auto, unfolding(crate::specs::Collisions::collision_count, crate::specs::Collisions::others))]
pub fn robot_collision_count(movers: &[AttemptedMove], robot: usize) -> usize
    requires { robot < length movers.now }
    ensures value { result ≡ collision_count movers.now robot }
    ensures most { result < length movers.now }
{
    let mover = &movers[robot];
    collision_count(mover, &movers[..robot]) + collision_count(mover, &movers[robot + 1..])
}

/// Reports whether a robot's candidate is close to that of one of the others.
fn is_close_to_any(mover: &AttemptedMove, others: &[AttemptedMove]) -> bool
    ensures { result ≡ false → All (λ other. is_close mover.now other ≡ false) others.now }
{
    for other in others {
        if mover.is_close(other) {
            return true;
        }
    }
    false
}

/// Reports whether the candidates of two robots are close, each pair judged once: if none are, no robots collide.
pub fn any_are_close(movers: &[AttemptedMove]) -> bool
    ensures { result ≡ false → (i : ℕ) → i < length movers.now → collision_count movers.now i ≡ 0 }
{
    for (i, mover) in movers.iter().enumerate() {
        if is_close_to_any(mover, &movers[i + 1..]) {
            return true;
        }
    }
    false
}
