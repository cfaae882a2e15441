//! Explanations of sources in memory: a fault's, with the warnings before it; or of a source without one the warnings, or
//! what its loops take.

ghost use Rattle.page.specs.Explaining.{Explains, ExplainsRobots};
ghost use Rattle.page.specs.Sheets.{Adds, AddsSome};

use crate::endings::Ending;
use crate::loop_turns::tell_turns;
use crate::orders::Order;
use crate::robots::RobotFile;
use crate::running::settings_of;
use crate::sheets::{FRAME_BYTES, Sheet};
use crate::sources::SourceFeed;
use derivations::{Located, Tokens, compile, locate_in};
use explanations::{Warnings, explain, warnings_before, warnings_of};
use grammar::{ParseFault, Profile};
use series::Mode;

/// What is reported of a source beside a fault.
#[derive(Clone, Copy, PartialEq, Eq)]
pub enum Topic {
    /// The warnings about it, or about what stands before its fault.
    Warnings,
    /// What the turns of its loops take, if it has no fault.
    Turns,
}

/// Explains the source of the first robot in the profile that an order asks for, on a sheet that is blank before: a line
/// for each warning, up to the first fault, or a row for each loop; and the first fault.
#[tactic(auto, using(crate::proofs::ExplainingLemmas::explained))]
pub fn explain_robot(order: &Order, robots: &[RobotFile], topic: Topic, sheet: &mut Sheet) -> Ending
    ensures { ExplainsRobots order.now robots.now result sheet.new }
{
    sheet.clear();
    let Some(settings) = settings_of(order, Mode::Listing, robots) else {
        return Ending::Refused;
    };
    let ending = explain_source(settings.profile(), robots[0].source(), topic, sheet);
    if sheet.is_full() {
        return Ending::Full;
    }
    ending
}

/// Explains a source on a blank sheet.
fn explain_source(profile: Profile, source: &[u8], topic: Topic, sheet: &mut Sheet) -> Ending
    ensures { Explains profile source.now result sheet.new }
{
    let mut tokens = Tokens::new();
    if !locate_in(&mut tokens, source) {
        return Ending::Full;
    }
    let tokens = tokens.as_slice();
    match compile(profile, &mut SourceFeed::new(source)) {
        Ok(_) => {
            match topic {
                Topic::Warnings => tell_warnings(
                    &warnings_of(source, tokens, profile),
                    tokens,
                    sheet,
                ),
                Topic::Turns => tell_turns(tokens, profile, sheet),
            }
            Ending::Done
        }
        Err(ParseFault::Source(diagnostic)) => {
            if topic == Topic::Warnings {
                let warnings = warnings_before(source, tokens, profile, &diagnostic);
                tell_warnings(&warnings, tokens, sheet);
            }
            let note = explain(source, tokens, profile, &diagnostic);
            tell(note.as_str(), sheet);
            Ending::Faulty
        }
        // neither is so: the device never fails, and no memory is asked for
        Err(ParseFault::Device) => Ending::Full,
        Err(ParseFault::Memory) => Ending::Full,
    }
}

/// Writes warnings about a source, a line each.
fn tell_warnings(warnings: &Warnings, tokens: &[Located], sheet: &mut Sheet)
    ensures { AddsSome sheet.old sheet.new }
{
    for warning in warnings.list() {
        let note = warning.note(tokens);
        tell(note.as_str(), sheet);
    }
}

/// Writes a text.
fn tell(text: &str, sheet: &mut Sheet)
    ensures { Adds sheet.old sheet.new text.now }
{
    let mut rest = text.as_bytes();
    for _piece in 0..text.len() {
        let (part, behind) = rest.split_at(rest.len().min(FRAME_BYTES));
        sheet.add(part);
        rest = behind;
    }
}
