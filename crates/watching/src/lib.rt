//! Matches that are watched, for the programs and the page that tell or draw what robots do.
//!
//! Pilots play a game cycle by cycle before a watcher. Of what that sees, the other modules make what is reported: a
//! picture's paths and shots, the events of a film, sums over a match, and where a robot is after a cycle.
#![tactic(auto)]

// the plain loop, and what a watcher gets of it
mod games;
mod pilot;
mod watcher;

pub use battles::UPDATE_CYCLES;
pub use games::{Game, PlayEnd, play};
pub use pilot::{Pilot, pilots};
pub use watcher::{Exchange, Nobody, Turn, Watcher, word_of};

// what a picture keeps of a match, and where it has it
mod paths;
mod places;
mod scale;
mod shots;

pub use paths::{MOST_PLACES, MOST_STRIDE, Path};
pub use places::Place;
pub use scale::{
    FAINTEST, MARGIN, SIDE, STRIP_LEFT, STRIP_PERCENT, STRIP_TOP, STRIP_WIDTH, column,
    mark_spacing, opacity, row, strip_column, strip_row,
};
pub use shots::{MOST_SHOTS, Shot, Shots};

// events of a match, and the film of them
mod cameras;
mod events;
mod runs;
mod seen;
mod update_losses;

pub use cameras::{Camera, FILM_COLUMNS, FilmRows};
pub use events::{Event, Field, Listener, MOST_FIELDS};
pub use runs::{Displacement, News, Run, Stance};
pub use seen::Seen;
pub use update_losses::{Loss, MOST_LOSSES, Source, losses};

// sums over a match: where a robot's time goes, which ways it goes, and where it waits
mod counts;
mod directions;
mod shares;
mod streaks;

pub use counts::largest;
pub use directions::{DIRECTION_DEGREES, DIRECTIONS, direction_of};
pub use shares::{Purpose, Shares, percent, purpose_of};
pub use streaks::{Call, Streak};

// a robot after a cycle, and the cycles in which something happens to it
mod asked;
mod hits;
mod moment;
mod searches;
mod sought;

pub use asked::Asked;
pub use moment::{Moment, moment_at};
pub use searches::{SoughtCycle, sought_cycle};
pub use sought::{Sought, happens};
