//! What is said of a file with a fault.

use crate::shown::Plain;
use grammar::Diagnostic;

/// Writes the diagnostic of the file of a word on standard error, as crobots does: its name, the line, the text.
/// Control characters of the name are shown as question marks.
pub fn tell_diagnostic(rt: &HostRuntime, word: &str, diagnostic: &Diagnostic) {
    let Diagnostic { line, code } = diagnostic;
    let _ = eprintln!(rt; "{}:{line}: {}", Plain(name_of(word)), code.text());
}

/// Returns the name that texts give the file of this word: what follows its last `/`.
pub fn name_of(word: &str) -> &str {
    word.rsplit('/').next().unwrap_or(word)
}
