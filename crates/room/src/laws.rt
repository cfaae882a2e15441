//! Laws of room, each stated as the contract of a function.

ghost use Rattle.room.specs.KnownNeeds.{KnownNeeds};
ghost use Rattle.room.specs.Laws.{RestartsAtReturn, RoomIsEnough};

/// Proves what small files need, which was worked out by hand.
pub fn known_needs()
    ensures { KnownNeeds }
{}

/// Proves that a file that has the room that it needs wants, along all replies, what it wants with any more room.
pub fn room_is_enough()
    ensures { RoomIsEnough }
{}

/// Proves that a robot that has the room that it needs restarts only where main returns, along all replies.
pub fn restarts_at_return()
    ensures { RestartsAtReturn }
{}
