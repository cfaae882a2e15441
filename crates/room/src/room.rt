//! Room on a robot's stack, as it is counted: up to 65,535 words and frames.

ghost use Rattle.std.specs.Prelude.{◌≡◌};
ghost use Rattle.room.specs.Counting.{counted};
ghost use Rattle.room.specs.Rooms.{above as above_room, both as both_rooms, words as word_room};

/// Words of the stack, and frames open at once.
#[derive(Clone, Copy, Default, PartialEq, Eq)]
pub struct Room {
    /// The words.
    pub words: u16,
    /// The frames.
    pub frames: u16,
}

/// Returns words alone.
pub fn words(count: u16) -> Option<Room>
    ensures { result ≡ word_room count }
{
    Some(Room {
        words: count,
        frames: 0,
    })
}

/// Returns what two need that begin at the same depth: of each the greater.
pub fn both(one: Option<Room>, other: Option<Room>) -> Option<Room>
    ensures { result ≡ both_rooms one other }
{
    let (one, other) = (one?, other?);
    Some(Room {
        words: one.words.max(other.words),
        frames: one.frames.max(other.frames),
    })
}

/// Returns what is needed from below a number of words and frames.
pub fn above(words: u16, frames: u16, need: Option<Room>) -> Option<Room>
    ensures { result ≡ counted (above_room words frames need) }
{
    let need = need?;
    Some(Room {
        words: need.words.saturating_add(words),
        frames: need.frames.saturating_add(frames),
    })
}
