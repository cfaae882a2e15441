//! What is asked for by the words of the command line.

use crate::chapters::Chapters;
use crate::replies::{Replies, begins_replies};
use grammar::Profile;
use std::alloc::Global;
use tools::{Fault, Known, Options, Wrong, number_of, profile};

/// The most cycles of a run.
const MOST_CYCLES: u64 = 10_000;

/// The options.
pub const OPTIONS: [Known; 15] = [
    Known::Flag("tokens", "its tokens"),
    Known::Flag("derivation", "the steps of its derivation"),
    Known::Flag("first", "FIRST and FOLLOW of the grammar, of no file"),
    Known::Flag("tree", "its tree"),
    Known::Flag("dot", "its tree as a graph, for Graphviz"),
    Known::Flag("svg", "its derivation tree and its tree, as a picture"),
    Known::Flag("code", "its code below its lines"),
    Known::Flag("json", "with --code: its code with names, as JSON"),
    Known::Flag("operations", "its operations beside its code"),
    Known::Flag("flow", "its blocks of code, and where each leads"),
    Known::Flag("bounds", "what is known of it before a match"),
    Known::Flag("html", "its code beside its lines, as a page"),
    Known::Valued(
        "chapters",
        "LIST",
        "with --html: what the page has, as tokens,tree",
    ),
    Known::Valued("run", "CYCLES", "the first cycles of its machine"),
    Known::Valued(
        "replies",
        "LIST",
        "with --run: what intrinsic functions reply, as scan=500,0",
    ),
];

/// What is shown of a source.
#[derive(Clone, Copy)]
pub enum Form {
    /// Its tokens.
    Tokens,
    /// The steps of its derivation.
    Derivation,
    /// Its tree, indented.
    Tree,
    /// Its tree as a graph.
    Dot,
    /// Its derivation tree and its tree, as pictures.
    Svg,
    /// Its code, below its lines.
    Code,
    /// Its code with names, as an object of JSON.
    CodeObject,
    /// Its three-address operations, beside its code.
    Operations,
    /// The control flow graph of each function.
    Flow,
    /// What is known of it before it fights.
    Bounds,
    /// Chapters of it as a page.
    Html,
    /// The given number of cycles of its machine.
    Run(u32),
}

/// The forms with the names of their options, and the option that asks for no form of a source. How many cycles a run
/// has is their value.
const FORMS: [(&str, Option<Form>); 12] = [
    ("tokens", Some(Form::Tokens)),
    ("derivation", Some(Form::Derivation)),
    ("first", None),
    ("tree", Some(Form::Tree)),
    ("dot", Some(Form::Dot)),
    ("svg", Some(Form::Svg)),
    ("code", Some(Form::Code)),
    ("operations", Some(Form::Operations)),
    ("flow", Some(Form::Flow)),
    ("bounds", Some(Form::Bounds)),
    ("html", Some(Form::Html)),
    ("run", Some(Form::Run(0))),
];

/// What is asked for: a form of one source.
#[derive(Drop)]
pub struct Request<'a> {
    /// What is shown.
    pub form: Form,
    /// The language profile.
    pub profile: Profile,
    /// The chapters of a page.
    pub chapters: Chapters,
    /// The replies of intrinsic functions in a run.
    pub replies: Replies,
    /// The word of the file.
    pub file: &'a str,
}

impl<'a> Request<'a> {
    /// Reads what options ask for: one form, one file, `-p`, the profile, only with a run `--replies`, and only with a
    /// page `--chapters`. Behind `--replies` words as `damage=1` are replies too. Answers nothing if FIRST and FOLLOW are
    /// asked for, which have no file and no profile. Everything else is wrong usage.
    pub fn read(alloc: Global, options: &Options<'a>) -> Result<Option<Request<'a>>, Fault> {
        let form = form_of(options)?;
        let mut replies = Replies::new(alloc);
        match (options.value("replies"), form) {
            (Some(list), Some(Form::Run(_))) => replies.add(list)?,
            (Some(_), _) => return Err(Fault::Wrong(Wrong::Alone("replies", "run"))),
            (None, _) => {}
        }
        let chapters = chapters_of(options, form)?;
        let Some(form) = form else {
            check_alone(options)?;
            return Ok(None);
        };
        let file = file_of(options, &mut replies)?;
        match profile(options) {
            Ok(profile) => Ok(Some(Request {
                form,
                profile,
                chapters,
                replies,
                file,
            })),
            Err(fault) => Err(fault),
        }
    }
}

/// Checks that no file and no profile is given.
fn check_alone(options: &Options<'_>) -> Result<(), Fault> {
    if options.has("p") {
        return Err(Fault::Wrong(Wrong::Both("first", "p")));
    }
    if options.files().is_empty() {
        Ok(())
    } else {
        Err(Fault::Wrong(Wrong::Files(0)))
    }
}

/// Returns the chapters of a page.
fn chapters_of(options: &Options<'_>, form: Option<Form>) -> Result<Chapters, Fault> {
    match (options.value("chapters"), form) {
        (Some(list), Some(Form::Html)) => {
            Chapters::listed(list).ok_or(Fault::Wrong(Wrong::Unlike("chapters", "tokens,tree")))
        }
        (Some(_), _) => Err(Fault::Wrong(Wrong::Alone("chapters", "html"))),
        (None, _) => Ok(Chapters::usual()),
    }
}

/// Returns the only file among the words that aren't options. With replies, words that begin with a function's name and
/// `=` are more of them.
fn file_of<'a>(options: &Options<'a>, replies: &mut Replies) -> Result<&'a str, Fault> {
    let mut file = None;
    for word in options.files() {
        if options.has("replies") && begins_replies(word) {
            replies.add(word)?;
        } else if file.replace(*word).is_some() {
            return Err(Fault::Wrong(Wrong::Files(1)));
        }
    }
    file.ok_or(Fault::Usage)
}

/// Returns the form that options ask for, which have to ask for exactly one thing: nothing if it is none of a source. Only
/// code is written as JSON.
fn form_of(options: &Options<'_>) -> Result<Option<Form>, Fault> {
    match options.only(&FORMS)? {
        Some(Some(Form::Code)) if options.has("json") => Ok(Some(Form::CodeObject)),
        Some(_) if options.has("json") => Err(Fault::Wrong(Wrong::Alone("json", "code"))),
        Some(Some(Form::Run(_))) => {
            let cycles = number_of(options, "run", 1, MOST_CYCLES, 1)?;
            Ok(Some(Form::Run(cycles as u32)))
        }
        Some(form) => Ok(form),
        None => Err(Fault::Usage),
    }
}
