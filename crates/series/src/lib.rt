//! Series of robots: their listings, diagnostics, matches and totals, written on two channels piece by piece.
#![tactic(auto)]

mod compiling;
mod diagnostic_lines;
mod keeping;
pub mod laws;
mod reports;
mod robot_names;
mod run_results;
mod runs;
mod series;
mod totals;
mod worked_outputs;

pub use battles::Programs;
pub use compiling::compile_all;
pub use diagnostic_lines::put_diagnostic;
pub use keeping::TakesPrograms;
pub use listings::put_listing;
pub use run_results::{RunFault, SeriesFault, Status, Step};
pub use runs::{compile_files, run};
pub use series::Series;
pub use settings::{
    CYCLES_DEFAULT, MOST_CYCLES, MOST_FILES, MOST_FIRST_MATCH, MOST_MATCHES, Mode, Numbers,
    SEED_DEFAULT, Settings,
};
pub use sinks::{BUFFER_BYTES, MemorySink, Pen, Sink, file_name, put_all};
pub use tokens::{DeviceFault, Feed};
pub use worked_outputs::known_outputs;
