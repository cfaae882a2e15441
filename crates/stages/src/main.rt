//! Shows what the compiler does with a robot, stage by stage: its tokens, its derivation, its tree, its code below or
//! beside its lines, its operations, its control flow, what is known of it before it fights, and the cycles of its
//! machine. Of the grammar itself it shows FIRST and FOLLOW.
#![tactic(auto)]

mod chapters;
mod charts;
mod code_objects;
mod code_rows;
mod cuts;
mod derivation_rows;
mod derivation_trees;
mod drawings;
mod execution;
mod first_rows;
mod flow;
mod flow_rows;
mod forms;
mod items;
mod labels;
mod lookaheads;
mod looks;
mod markup;
mod operation_rows;
mod origins;
mod outlines;
mod pages;
mod pictures;
mod replies;
mod robots;
mod table_rows;
mod terminals;
mod texts;
mod token_rows;

use crate::code_objects::add_code_object;
use crate::code_rows::add_listing;
use crate::cuts::add_listing_to_limit;
use crate::derivation_rows::add_derivation_rows;
use crate::derivation_trees::derivation_tree;
use crate::drawings::tree_of;
use crate::execution::add_execution;
use crate::first_rows::add_first_rows;
use crate::flow_rows::add_flow_rows;
use crate::forms::{Form, OPTIONS, Request};
use crate::operation_rows::add_operation_rows;
use crate::pages::Page;
use crate::pictures::add_picture_file;
use crate::robots::Robot;
use crate::token_rows::add_token_rows;
use derivations::{CompiledSource, compile_source};
use facts::{Facts, add_rows};
use grammar::{Code, Diagnostic, ParseFault, Profile};
use std::alloc::{AllocError, Global};
use std::process::ExitCode;
use tools::{
    Draft, Fault, OUTPUT_OPTIONS, Options, PROFILE_OPTIONS, Plain, ProgramFrame, Work, name_of,
    source_of, tell_diagnostic, write_to,
};

/// The program's name, its line of wrong usage, and its options.
const FRAME: ProgramFrame = ProgramFrame {
    name: "crobots-stages",
    about: "Shows what the compiler makes of a robot, stage by stage.",
    usage: "(--tokens | --derivation | --tree | --dot | --svg | --code [--json] | --operations | --flow | --bounds | --html [--chapters LIST] | --run CYCLES [--replies LIST..]) [-pPROFILE] [-o FILE] FILE | --first [-o FILE]",
    known: &[&OPTIONS, &PROFILE_OPTIONS, &OUTPUT_OPTIONS],
};

/// The largest source of which a stage is shown, in bytes. A robot's whole code comes from a part of that, and what is
/// shown of a source can take over a thousand times its bytes in memory.
const MOST_SHOWN_BYTES: usize = 40_960;

/// Shows what the command line asks for, and returns the status.
fn main(rt: HostRuntime) -> ExitCode {
    FRAME.run(&rt, &Stages)
}

/// The work of this program.
struct Stages;

impl Work for Stages {
    /// Reads the source, and writes the text that was asked for at once when it is whole.
    fn work(&self, rt: &HostRuntime, options: &Options<'_>) -> Result<(), Fault> {
        let mut text = String::new(rt.alloc());
        let Some(mut request) = Request::read(rt.alloc(), options)? else {
            add_first_rows(&mut text)?;
            return write_to(rt, options, text.as_str());
        };
        let source = source_of(rt, FRAME.name, request.file)?;
        let source = source.as_slice();
        let is_shown = source.len() <= MOST_SHOWN_BYTES;
        match compile_source(request.profile, source) {
            Ok(_) if !is_shown => {
                let file = Plain(name_of(request.file));
                let _ = eprintln!(rt; "{file}: over {MOST_SHOWN_BYTES} bytes: no stage is shown");
                Err(Fault::Source)
            }
            Ok(made) => {
                add_form(&mut text, &mut request, source, made)?;
                write_to(rt, options, text.as_str())
            }
            Err(ParseFault::Source(fault)) => {
                if is_shown {
                    add_before_fault(&mut text, &request, source, fault)?;
                }
                if !text.is_empty() {
                    write_to(rt, options, text.as_str())?;
                }
                tell_diagnostic(rt, request.file, &fault);
                Err(Fault::Source)
            }
            // (a source in memory never fails to be read)
            Err(ParseFault::Device) => Err(Fault::Read),
            Err(ParseFault::Memory) => Err(Fault::Memory),
        }
    }
}

/// Adds the form that is asked for of a source that compiles. The only fault is that memory is refused.
fn add_form(
    text: &mut String,
    request: &mut Request<'_>,
    source: &[u8],
    made: CompiledSource,
) -> Result<(), Fault> {
    let (alloc, profile) = (*text.allocator(), request.profile);
    let robot = Robot::new(alloc, made, usize::MAX)?;
    match request.form {
        Form::Tokens => add_token_rows(text, source, None)?,
        Form::Derivation => add_derivation_rows(text, source, None)?,
        Form::Tree => tree_of(alloc, source, profile, &robot)?.add_indented(text)?,
        Form::Dot => tree_of(alloc, source, profile, &robot)?.add_graph(text)?,
        Form::Svg => {
            let tree = tree_of(alloc, source, profile, &robot)?;
            add_picture_file(text, &derivation_tree(alloc, source)?, &tree)?;
        }
        Form::Code => add_listing(text, source, &robot)?,
        Form::CodeObject => add_code_object(text, request.file, &robot)?,
        Form::Operations => add_operation_rows(text, &robot)?,
        Form::Flow => add_flow_rows(text, &robot)?,
        Form::Bounds => {
            let mut rows = Draft::new(alloc);
            add_rows(&mut rows, request.file, &known(alloc, source, profile)?);
            rows.move_behind(text)?;
        }
        Form::Html => add_page(text, request, source, &robot)?,
        Form::Run(cycles) => add_execution(text, &robot, cycles, &mut request.replies)?,
    }
    Ok(())
}

/// Adds the page of a robot.
fn add_page(
    text: &mut String,
    request: &Request<'_>,
    source: &[u8],
    robot: &Robot,
) -> Result<(), Fault> {
    let facts = known(*text.allocator(), source, request.profile)?;
    let page = Page {
        name: name_of(request.file),
        source,
        profile: request.profile,
        robot,
        facts: &facts,
        chapters: request.chapters,
    };
    page.add(text)?;
    Ok(())
}

/// Returns what is known before a match of the robot of a source that compiles.
fn known(alloc: Global, source: &[u8], profile: Profile) -> Result<Facts, Fault> {
    Facts::of(alloc, source, profile).map_err(|_| Fault::Memory)
}

/// Adds what can be shown of a source with a fault: its tokens, and the steps of its derivation, up to the first that
/// doesn't fit; of one with too much code the code up to the limit.
fn add_before_fault(
    text: &mut String,
    request: &Request<'_>,
    source: &[u8],
    fault: Diagnostic,
) -> Result<(), AllocError> {
    match request.form {
        Form::Tokens => add_token_rows(text, source, Some(fault)),
        Form::Derivation => add_derivation_rows(text, source, Some(fault)),
        Form::Code if fault.code == Code::TooMuchCode => {
            add_listing_to_limit(text, source, request.profile)
        }
        Form::Code
        | Form::CodeObject
        | Form::Tree
        | Form::Dot
        | Form::Svg
        | Form::Operations
        | Form::Flow
        | Form::Bounds
        | Form::Html
        | Form::Run(_) => Ok(()),
    }
}
