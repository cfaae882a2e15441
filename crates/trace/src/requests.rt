//! What is asked for: a match, a form, and a span of it.

use notes::Sources;
use settings::{MATCHES_DEFAULT, MOST_CYCLES, MOST_MATCHES, Settings};
use tools::{Fault, Known, Options, Span, Wrong, number_of, wish};

/// The options that a form is asked for by.
pub const FORM_OPTIONS: [Known; 11] = [
    Known::Flag("sum", "sums of each robot, which is the default"),
    Known::Flag("json", "the sums as an object of JSON, a line a match"),
    Known::Valued(
        "m",
        "MATCHES",
        "the sums of so many matches, one after the other (default 1)",
    ),
    Known::Flag("events", "a row for each event"),
    Known::Flag("asks", "a row for each call of an intrinsic function"),
    Known::Flag("steps", "a row for each cycle of a robot"),
    Known::Flag("film", "the events, and where the robots were and looked"),
    Known::Flag("inside", "a film, and the robots' lines and last questions"),
    Known::Valued("at", "CYCLE", "where each robot is after this cycle"),
    Known::Valued(
        "watch",
        "NAMES",
        "a row for each change of these variables, as a,main.b",
    ),
    Known::Valued(
        "columns",
        "N",
        "the most characters of a line of sums (default 80)",
    ),
];

/// In which form a match is reported.
#[derive(Clone, Copy)]
pub enum Form {
    /// Sums of each robot.
    Sum,
    /// Sums of each robot as an object of JSON.
    Objects,
    /// A row for each event.
    Events,
    /// A row for each question.
    Asks,
    /// A row for each cycle.
    Steps,
    /// The events, and where the robots were.
    Film,
    /// A film, and where the robots were in their sources.
    Inside,
    /// Where the robots are after a cycle.
    At,
    /// The changes of variables.
    Watch,
}

/// The forms by the names of their options.
const FORMS: [(&str, Form); 8] = [
    ("sum", Form::Sum),
    ("events", Form::Events),
    ("asks", Form::Asks),
    ("steps", Form::Steps),
    ("film", Form::Film),
    ("inside", Form::Inside),
    ("at", Form::At),
    ("watch", Form::Watch),
];

/// The fewest and the most characters that a line of sums may be given.
const LEAST_COLUMNS: u64 = 80;

const MOST_COLUMNS: u64 = 1000;

/// What is asked for.
#[derive(Drop)]
pub struct Request<'a> {
    /// The match, the first one of several.
    pub wish: Settings<'a>,
    /// How many matches there are.
    pub matches: u32,
    /// The form.
    pub form: Form,
    /// Which robot and which cycles are reported.
    pub span: Span,
    /// The cycle after which the robots are shown, if that is the form.
    pub at: u32,
    /// The names of the variables that are watched, with commas between them, if that is the form.
    pub names: &'a str,
    /// The most characters of a line of sums.
    pub columns: usize,
}

impl<'a> Request<'a> {
    /// Reads what options ask for: a match, a span of it, and a form, sums by default. Two forms are wrong usage, and
    /// several matches of another form than sums.
    pub fn read(options: &Options<'a>) -> Result<Request<'a>, Fault> {
        let wish = wish(options)?;
        let form = form_of(options)?;
        let (fewest, many) = (u64::from(MATCHES_DEFAULT), u64::from(MOST_MATCHES));
        let matches = number_of(options, "m", fewest, many, fewest)?;
        let span = Span::read(options, wish.file_words().len().max(2))?;
        let at = number_of(options, "at", 0, u64::from(MOST_CYCLES), 0)? as u32;
        let (least, most) = (LEAST_COLUMNS, MOST_COLUMNS);
        let columns = number_of(options, "columns", least, most, least)?;
        Ok(Request {
            wish,
            matches: matches as u32,
            form,
            span,
            at,
            names: options.value("watch").unwrap_or(""),
            columns: columns as usize,
        })
    }
}

/// Returns the form that options ask for: sums by default, as objects with `--json`. Of no other form there are objects or
/// several matches.
fn form_of(options: &Options<'_>) -> Result<Form, Fault> {
    let form = options.only(&FORMS)?.unwrap_or(Form::Sum);
    for name in ["json", "m"] {
        if let Some(other) = other_form(options)
            && options.has(name)
        {
            return Err(Fault::Wrong(Wrong::Both(name, other)));
        }
    }
    Ok(if options.has("json") {
        Form::Objects
    } else {
        form
    })
}

/// Returns the name of the form that is asked for, if it is another one than sums.
fn other_form(options: &Options<'_>) -> Option<&'static str> {
    for (name, _) in &FORMS {
        if *name != "sum" && options.has(name) {
            return Some(*name);
        }
    }
    None
}

/// A match that is to be reported.
#[derive(Clone, Copy)]
pub struct Task<'a> {
    /// The runtime, by which the report is written.
    pub rt: &'a HostRuntime,
    /// What is asked for.
    pub request: &'a Request<'a>,
    /// The programs, and what is known beside them.
    pub sources: &'a Sources,
}
