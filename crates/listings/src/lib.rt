//! Listings: a program and its names as text.
#![tactic(auto)]

mod instructions;
mod listing;
mod worked_listings;

pub use instructions::{instruction_text, put_instruction};
pub use listing::{put_code, put_listing};
pub use worked_listings::known_listings;
