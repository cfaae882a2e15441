//! What a run is asked to do, and how the values of the command line decide it.
#![tactic(auto)]

mod faults;
mod given;
mod numbers;
mod settings;
mod settings_limits;
mod worked_settings;

pub use faults::UseFault;
pub use given::{Given, settings_given};
pub use numbers::value_number;
pub use settings::{Mode, Numbers, Settings};
pub use settings_limits::{
    CYCLES_DEFAULT, FIRST_DEFAULT, MATCHES_DEFAULT, MOST_CYCLES, MOST_FILES, MOST_FIRST_MATCH,
    MOST_MATCHES, PROFILE_DEFAULT, SEED_DEFAULT,
};
pub use worked_settings::known_settings;
