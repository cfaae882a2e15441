//! What a fault of a source is explained by.

ghost use Rattle.std.specs.Prelude.{◌≡◌, Err};
ghost use Rattle.grammar.specs.Compiled.{compiled};
ghost use Rattle.explanations.specs.Faults.{IsOn, first_line};

use crate::arrows::on_arrows;
use crate::carets::{add_marked, add_shown};
use crate::chosen::on_chosen_values;
use crate::comments::{is_unbegun, nested, nested_end, swallowing};
use crate::conditions::on_ended_conditions;
use crate::declaring::{on_parameters, on_prototypes, on_reserved_names};
use crate::foreign::foreign_at;
use crate::functions::on_head_ends;
use crate::hints::Hint;
use crate::letters::name_around;
use crate::marks::on_character;
use crate::members::on_members;
use crate::misfits::{hint_on, on_headed_colons};
use crate::misnamed::add_misnamed;
use crate::named::on_named_arguments;
use crate::notes::Note;
use crate::remarks::on_remarks;
use crate::scenes::Scene;
use crate::searches::Search;
use crate::sizes::add_sizes;
use crate::told::add_token;
use crate::wanted::add_wanted;
use derivations::{Located, fitting};
use grammar::{Code, Diagnostic, MOST_NAMES, MOST_NESTED, Profile};
use tokens::{MOST_CONSTANT_VALUE, MOST_NAME_BYTES, MOST_SOURCE_BYTES};

/// A fault whose token is found.
#[derive(Clone, Copy)]
pub struct Found<'a> {
    /// The source's bytes.
    pub source: &'a [u8],
    /// Its tokens.
    pub tokens: &'a [Located],
    /// The index of the fault's token.
    pub index: usize,
    /// That token.
    pub met: Located,
    /// What the fault is.
    pub code: Code,
    /// The language profile.
    pub profile: Profile,
}

/// Explains the first fault of a source, which `compile` found by the same profile; the tokens are the source's. The note
/// has the line with the column, in bytes from 1, the source's line with a caret, what was met and what fits there, and a
/// hint.
pub fn explain(source: &[u8], tokens: &[Located], profile: Profile, diagnostic: &Diagnostic) -> Note
    requires { compiled profile source.now ≡ Err diagnostic.now }
    ensures { IsOn diagnostic.now result.text.bytes }
{
    explain_left(source, tokens, profile, diagnostic)
}

/// Explains a fault of what is left of a source, as `explain` does, by the lines of the whole source. The tokens are of
/// what is left.
pub fn explain_left(
    source: &[u8],
    tokens: &[Located],
    profile: Profile,
    diagnostic: &Diagnostic,
) -> Note
    ensures { IsOn diagnostic.now result.text.bytes }
{
    explain_found(source, &mut Search::of(tokens, profile), diagnostic)
}

/// Explains a fault of what is left of a source, as `explain_left` does, by a search along what is left that hasn't begun.
/// The search is at the fault then, or behind it.
pub fn explain_found(source: &[u8], search: &mut Search<'_>, diagnostic: &Diagnostic) -> Note
    ensures { IsOn diagnostic.now result.text.bytes }
{
    let index = search.find(diagnostic);
    let tokens = search.tokens();
    let found = Found {
        source,
        tokens,
        index,
        met: tokens.get(index).copied().unwrap_or_default(),
        code: diagnostic.code,
        profile: search.profile(),
    };
    let mut reason = Note::new();
    add_marked(&mut reason, found.source, found.met.start());
    add_reason(&mut reason, &found, search);
    let mut note = head_of(diagnostic, found.met.column);
    note.add(reason.as_str());
    note
}

/// Adds what is known of a fault beside its position.
fn add_reason(note: &mut Note, found: &Found<'_>, search: &mut Search<'_>) {
    match found.code {
        Code::SyntaxError | Code::ReservedWord | Code::BadCharacter => {
            add_misfit(note, found, search);
        }
        Code::FunctionDefinedTwice
        | Code::IntrinsicRedefined
        | Code::BadParameterDeclaration
        | Code::FunctionNotDefined
        | Code::NoMainFunction => add_misnamed(note, found, search.defined()),
        Code::CommentNotClosed
        | Code::NameTooLong
        | Code::ConstantTooLarge
        | Code::SourceTooLong
        | Code::NestedTooDeeply
        | Code::TooManyVariables
        | Code::TooManyFunctions
        | Code::TooMuchCode => add_limit(note, found, search),
    }
    if ends_lines_by_return(found.source) {
        note.add(
            "  hint: the lines end in CR alone, and count as one: save the file with LF at their ends\n",
        );
    }
}

/// Reports whether the first line of a source ends in CR alone.
fn ends_lines_by_return(source: &[u8]) -> bool {
    for (index, byte) in source.iter().enumerate() {
        match byte {
            b'\n' => return false,
            b'\r' => return source.get(index.saturating_add(1)) != Some(&b'\n'),
            _ => {}
        }
    }
    false
}

/// Returns a note of the first line on a diagnostic.
fn head_of(diagnostic: &Diagnostic, column: u32) -> Note
    ensures { result.text.bytes ≡ first_line diagnostic.now column }
{
    let mut note = Note::new();
    note.position(diagnostic.line, column);
    note.add(diagnostic.code.text());
    note.push('\n');
    note
}

/// Adds what was met instead of what fits, and the hint on it.
fn add_misfit(note: &mut Note, found: &Found<'_>, search: &Search<'_>) {
    let fits = fitting(found.tokens, found.index);
    add_met(note, found);
    note.add("  fits: ");
    add_wanted(note, fits.as_slice());
    note.push('\n');
    let scene = Scene::at(
        found.source,
        found.tokens,
        search.derivation(),
        fits.as_slice(),
    );
    if let Some((begin, end)) = name_of(found) {
        note.add("  hint: a name has letters of ASCII, digits and `_` alone, and `");
        add_shown(note, found.source.get(begin..end).unwrap_or(&[]));
        note.add("` has others\n");
    } else if let Some(hint) = hint_for(found, &scene) {
        note.add("  hint: ");
        hint.add(note, found.source, found.tokens);
        note.push('\n');
    }
}

/// Returns where the name begins and ends that has the character of a fault.
fn name_of(found: &Found<'_>) -> Option<(usize, usize)> {
    if found.code == Code::BadCharacter {
        name_around(found.source, found.met.start())
    } else {
        None
    }
}

/// Returns the hint on what was met: words and characters that aren't known have their own, but for a comment that was
/// meant to go on.
fn hint_for(found: &Found<'_>, scene: &Scene<'_>) -> Option<Hint> {
    let at = found.met.start();
    if let Some(line) = nested(found.source, at).or(nested_end(found.source, at)) {
        return Some(Hint::Nested(line));
    }
    if let Some(line) = swallowing(found.source, found.met.start()) {
        return Some(Hint::Swallowing(line));
    }
    if is_unbegun(found.source, found.met.start()) {
        return Some(Hint::Text("a comment begins with `/*`: it is missing before this text"));
    }
    if let Some(hint) = on_remarks(found.source, found.met.start())
        .or(on_prototypes(scene))
        .or(on_reserved_names(scene))
        .or(on_parameters(scene))
        .or(on_head_ends(scene))
        .or(on_ended_conditions(scene))
        .or(on_arrows(scene))
        .or(on_members(scene))
    {
        return Some(hint);
    }
    if let Some(foreign) = foreign_at(scene) {
        return Some(Hint::Foreign(foreign));
    }
    match found.code {
        Code::BadCharacter => match on_headed_colons(scene)
            .or(on_named_arguments(scene))
            .or(on_chosen_values(scene))
        {
            Some(hint) => Some(hint),
            None => Some(Hint::Text(on_character(found, scene)?)),
        },
        // of any other fault that has a hint here, the token doesn't fit
        _ => hint_on(scene),
    }
}

/// Adds the token that was met.
pub fn add_met(note: &mut Note, found: &Found<'_>) {
    note.add("  met: ");
    add_token(note, found.source, &found.met);
    note.push('\n');
}

/// Adds the limit that a source exceeds.
fn add_limit(note: &mut Note, found: &Found<'_>, search: &mut Search<'_>) {
    note.add("  hint: ");
    match found.code {
        Code::CommentNotClosed => note.add("the comment that begins here has no `*/`"),
        Code::NameTooLong => {
            let length = found.met.end().saturating_sub(found.met.start());
            note.count("a name has at most ", MOST_NAME_BYTES as u64, " letters");
            note.count(", and this one has ", length as u64, "");
        }
        Code::ConstantTooLarge => {
            note.count(
                "the greatest number is ",
                u64::from(MOST_CONSTANT_VALUE),
                "",
            );
        }
        Code::SourceTooLong => note.count(
            "a source has at most ",
            u64::from(MOST_SOURCE_BYTES),
            " bytes",
        ),
        Code::TooMuchCode => add_sizes(note, found, search),
        _ => add_greatest_count(note, found.code),
    }
    note.push('\n');
}

/// Adds how many things may be open, or may be in a file.
fn add_greatest_count(note: &mut Note, code: Code) {
    match code {
        Code::NestedTooDeeply => note.count(
            "at most ",
            u64::from(MOST_NESTED),
            " blocks, branches, loops, assignments, brackets and calls are open at once",
        ),
        Code::TooManyVariables => {
            note.count("a function has at most ", MOST_NAMES as u64, " variables");
            note.count(
                ", and a file at most ",
                MOST_NAMES as u64,
                " outside its functions",
            );
        }
        Code::TooManyFunctions => {
            note.count("a file has at most ", MOST_NAMES as u64, " functions");
        }
        // no other fault exceeds such a limit: `add_limit` has the words of the others
        _ => {}
    }
}
