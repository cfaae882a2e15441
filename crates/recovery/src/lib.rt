//! A source behind its faults: what has a fault is left out, and the rest is compiled again; and its tokens past bytes that
//! begin none.
#![tactic(auto)]

mod cuts;
mod parts;
mod rests;

pub use cuts::{located_past_faults, past_fault};
pub use parts::is_head_at;
pub use rests::{Lines, MOST_BYTES, MOST_FAULTS, Rest};
