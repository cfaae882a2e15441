//! What is asked for: a match, and what of it is drawn.

use settings::Settings;
use tools::{Fault, Known, Options, Span, wish};

/// The options of what is drawn besides a span.
pub const VIEW_OPTIONS: [Known; 1] = [Known::Flag("no-shots", "don't draw the shots")];

/// What is asked for.
#[derive(Drop)]
pub struct Request<'a> {
    /// The match.
    pub wish: Settings<'a>,
    /// What of it is drawn.
    pub view: View,
}

impl<'a> Request<'a> {
    /// Reads what options ask for.
    pub fn read(options: &Options<'a>) -> Result<Request<'a>, Fault> {
        let wish = wish(options)?;
        let span = Span::read(options, wish.file_words().len().max(2))?;
        let has_shots = !options.has("no-shots");
        let view = View { span, has_shots };
        Ok(Request { wish, view })
    }
}

/// What of a match is drawn: the paths and the shots of these robots in these cycles.
#[derive(Clone, Copy)]
pub struct View {
    /// The robots, and the cycles.
    pub span: Span,
    /// Whether shots are drawn.
    pub has_shots: bool,
}

impl View {
    /// Reports whether all of a match of this length, in cycles, is drawn.
    pub fn is_whole(&self, cycles: u32) -> bool {
        self.span.is_whole(cycles) && self.has_shots
    }
}
