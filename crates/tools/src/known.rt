//! The options that a program knows.

/// An option that a program knows: `-k` if its name is one letter, else `--name`.
#[derive(Clone, Copy)]
pub enum Known {
    /// An option without a value: its name, and what it does.
    Flag(&'static str, &'static str),
    /// An option with a value: its name, what its value is called, and what it does. It is given as `-kVALUE`, `-k
    /// VALUE`,
    /// `--name=VALUE` or `--name VALUE`.
    Valued(&'static str, &'static str, &'static str),
    /// A name that stands for another option: this name, and that of the option.
    Also(&'static str, &'static str),
}

impl Known {
    /// Returns its name.
    pub fn name(self) -> &'static str {
        match self {
            Known::Flag(name, _) | Known::Valued(name, _, _) | Known::Also(name, _) => name,
        }
    }
}

/// The options that each program knows: its help, by two names, and its version.
pub const COMMON_OPTIONS: [Known; 3] = [
    Known::Flag("h", "show this page"),
    Known::Also("help", "h"),
    Known::Flag("version", "show the version"),
];

/// The option of programs that write one file.
pub const OUTPUT_OPTIONS: [Known; 1] = [Known::Valued(
    "o",
    "FILE",
    "write into this file, and not on standard output",
)];

/// An option that is given, and the name by which it is.
#[derive(Clone, Copy)]
pub struct Meant {
    /// The option, which is none that stands for another.
    pub option: Known,
    /// The name that was typed.
    pub typed: &'static str,
}

/// Returns the option that this name stands for, if one of these lists has it, or if each program has it.
pub fn known_by(known: &[&'static [Known]], name: &str) -> Option<Meant> {
    let found = named(known, name)?;
    let option = match found {
        Known::Also(_, other) => named(known, other)?,
        option => option,
    };
    let typed = found.name();
    Some(Meant { option, typed })
}

/// Reports whether the option of this name asks for a page, which asking twice doesn't change.
pub fn asks_for_page(name: &str) -> bool {
    COMMON_OPTIONS.iter().any(|option| option.name() == name)
}

/// Returns what has this name.
fn named(known: &[&'static [Known]], name: &str) -> Option<Known> {
    for options in known {
        for option in *options {
            if option.name() == name {
                return Some(*option);
            }
        }
    }
    for option in &COMMON_OPTIONS {
        if option.name() == name {
            return Some(*option);
        }
    }
    None
}
