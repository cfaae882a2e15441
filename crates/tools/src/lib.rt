//! What the programs beside the main one share: the frame of words, options and statuses, files and their
//! programs, the match that is asked for, and output in large pieces.
#![tactic(auto)]

mod command_line;
mod complaints;
mod diagnostics;
mod faults;
mod file_tellers;
mod files;
mod frames;
mod helps;
mod json;
mod known;
mod options;
mod outputs;
mod rows;
mod shown;
mod spans;
mod texts;
mod token_kinds;
mod version;
mod wishes;

pub use diagnostics::{name_of, tell_diagnostic};
pub use faults::{Fault, Wrong};
pub use file_tellers::{TellsOfFile, tell_files};
pub use files::source_of;
pub use frames::{ProgramFrame, Work};
pub use json::{Array, Object, add_number_or_null};
pub use known::{COMMON_OPTIONS, Known, OUTPUT_OPTIONS};
pub use options::{Misread, Options, read_options};
pub use outputs::{Output, write_text, write_to};
pub use rows::{add_intrinsics, begin_row};
pub use shown::{Dashed, Plain, visible};
pub use spans::{SPAN_OPTIONS, Span};
pub use texts::{Draft, Text, add_left, add_right, add_signed};
pub use token_kinds::kind_of;
pub use version::VERSION;
pub use wishes::{MATCH_OPTIONS, PROFILE_OPTIONS, file_of, number_of, profile, wish};
