//! Writes the rules of the game as rows of JSON: what a run and a source may be, the field, the profiles, and all
//! diagnostics, intrinsic functions, punctuators and words. All else that has these numbers is made of them, or compared
//! with them.
#![tactic(auto)]

mod field_rows;
mod language_rows;
mod limit_rows;
mod punctuators;
mod rows;

use crate::field_rows::add_field;
use crate::language_rows::{add_diagnostics, add_punctuators, add_words};
use crate::limit_rows::{add_defaults, add_most, add_profiles};
use std::process::ExitCode;
use tools::{Draft, Fault, Options, ProgramFrame, Work, add_intrinsics, write_text};

/// The program's name, its line of wrong usage, and its options.
const FRAME: ProgramFrame = ProgramFrame {
    name: "rules",
    about: "Writes the rules of the game as rows of JSON.",
    usage: "",
    known: &[],
};

/// Writes all rows, and returns the status.
fn main(rt: HostRuntime) -> ExitCode {
    FRAME.run(&rt, &Rules)
}

/// The work of this program.
struct Rules;

impl Work for Rules {
    /// Writes all rows. A word of the command line is wrong usage.
    fn work(&self, rt: &HostRuntime, options: &Options<'_>) -> Result<(), Fault> {
        if !options.files().is_empty() {
            return Err(Fault::Usage);
        }
        let mut text = Draft::new(rt.alloc());
        add_most(&mut text);
        add_defaults(&mut text);
        add_profiles(&mut text);
        add_field(&mut text);
        add_diagnostics(&mut text);
        add_intrinsics(&mut text);
        add_punctuators(&mut text)?;
        add_words(&mut text);
        write_text(rt, text.finish()?.as_str())
    }
}
