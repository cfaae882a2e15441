//! Plays one match, and writes a picture of it as SVG: the robots' paths, their shots, their damage over time, and how
//! it ended.
#![tactic(auto)]

mod field;
mod ink;
mod legend;
mod matches;
mod paths;
mod picture;
mod requests;
mod scenes;
mod shots;
mod strip;

use crate::matches::record;
use crate::picture::drawn;
use crate::requests::{Request, VIEW_OPTIONS};
use notes::compiled;
use std::process::ExitCode;
use tools::{
    Fault, MATCH_OPTIONS, OUTPUT_OPTIONS, Options, ProgramFrame, SPAN_OPTIONS, Work, write_to,
};
use watching::pilots;

/// The program's name, its line of wrong usage, and its options.
const FRAME: ProgramFrame = ProgramFrame {
    name: "crobots-tracks",
    about: "Plays one match, and draws it as SVG.",
    usage: "[-kMATCH] [-lCYCLES] [-sSEED] [-pPROFILE] [--robot N] [--from CYCLE] [--to CYCLE] [--no-shots] [-o FILE] FILE..",
    known: &[
        &MATCH_OPTIONS,
        &SPAN_OPTIONS,
        &VIEW_OPTIONS,
        &OUTPUT_OPTIONS,
    ],
};

/// Draws the match that the command line asks for, and returns the status.
fn main(rt: HostRuntime) -> ExitCode {
    FRAME.run(&rt, &Tracks)
}

/// The work of this program.
struct Tracks;

impl Work for Tracks {
    /// Plays the match, and writes its picture at once when it is whole.
    fn work(&self, rt: &HostRuntime, options: &Options<'_>) -> Result<(), Fault> {
        let request = Request::read(options)?;
        let sources = compiled(rt, FRAME.name, &request.wish)?;
        let mut pilots = pilots(rt.alloc(), sources.programs.as_slice())?;
        let recording = record(pilots.as_mut_slice(), &request.wish, request.view);
        let picture = drawn(rt.alloc(), &request, &recording)?;
        write_to(rt, options, picture.as_str())
    }
}
