//! Options: which ones a program knows, and how words give them.

ghost use Rattle.std.specs.Prelude.{◌≡◌};
ghost use Rattle.std.specs.Option.{option_map};
ghost use Rattle.tools.specs.Given.{option_of, value_of};

use crate::faults::{Fault, Wrong};
use crate::known::{Known, asks_for_page, known_by};
use std::alloc::Global;

/// What the words of a command line gave: options, each at most once, and files, in order.
#[derive(Drop)]
pub struct Options<'a> {
    given: Vec<GivenOption<'a>>,
    files: Vec<&'a str>,
}

/// An option that was given.
#[derive(Clone, Copy)]
struct GivenOption<'a> {
    name: &'static str,
    /// The name by which it was given.
    typed: &'static str,
    /// The empty text if it has no value.
    value: &'a str,
    /// Whether its value is a word by itself.
    took_word: bool,
}

impl<'a> Options<'a> {
    /// Makes what no words give.
    pub fn none(alloc: Global) -> Options<'a> {
        Options {
            given: Vec::new(alloc),
            files: Vec::new(alloc),
        }
    }

    /// Reports whether the option of this name was given.
    pub fn has(&self, name: &str) -> bool {
        self.value(name).is_some()
    }

    /// Returns the value of the option of this name, if it was given: the empty text for one that has no value.
    pub fn value(&self, name: &str) -> Option<&'a str>
        ensures { option_map (λ value. value.now) result ≡ value_of self.now name.now }
    {
        self.found(name).map(|given| given.value)
    }

    /// Returns the name by which the option of this name was given.
    pub fn typed(&self, name: &'static str) -> &'static str {
        self.found(name).map_or(name, |given| given.typed)
    }

    /// Returns the last option that took a word for its value, and that word, unless it is a number: it may be the file
    /// that is missing.
    pub fn taken(&self) -> Option<(&'static str, &'a str)> {
        let mut taken = None;
        for given in &self.given {
            if given.took_word && !given.value.bytes().all(|byte| byte.is_ascii_digit()) {
                taken = Some((given.typed, given.value));
            }
        }
        taken
    }

    /// Returns the option of this name, if it was given.
    fn found(&self, name: &str) -> Option<GivenOption<'a>>
        ensures { result ≡ option_of self.now name.now }
    {
        for given in &self.given {
            if given.name == name {
                return Some(*given);
            }
        }
        None
    }

    /// Returns which of these options was given, by what stands beside its name: none if none was. Two of them are
    /// wrong usage.
    pub fn only<T: Copy>(&self, choices: &[(&'static str, T)]) -> Result<Option<T>, Fault> {
        let mut found = None;
        for (name, choice) in choices {
            if self.has(name) {
                if let Some((other, _)) = found {
                    return Err(Fault::Wrong(Wrong::Both(other, *name)));
                }
                found = Some((*name, *choice));
            }
        }
        Ok(found.map(|(_, choice)| choice))
    }

    /// Returns the files, in order.
    pub fn files(&self) -> &[&'a str] {
        self.files.as_slice()
    }

    /// Keeps an option, unless it was given before.
    fn keep(&mut self, option: GivenOption<'a>) -> Result<(), Misread<'a>> {
        match self.found(option.name) {
            Some(_) if asks_for_page(option.name) => Ok(()),
            Some(before) => Err(Misread::Twice(before.typed, option.typed)),
            None => match self.given.push(option) {
                Ok(()) => Ok(()),
                Err(_) => Err(Misread::Memory),
            },
        }
    }

    /// Keeps an option with a value, which is a word by itself or not.
    fn keep_value(
        &mut self,
        option: OptionName,
        value: &'a str,
        took_word: bool,
    ) -> Result<(), Misread<'a>> {
        let OptionName { name, typed } = option;
        if value.is_empty() {
            return Err(Misread::Empty(typed));
        }
        self.keep(GivenOption {
            name,
            typed,
            value,
            took_word,
        })
    }

    /// Keeps an option that has no value.
    fn keep_flag(&mut self, option: OptionName) -> Result<(), Misread<'a>> {
        let OptionName { name, typed } = option;
        self.keep(GivenOption {
            name,
            typed,
            value: "",
            took_word: false,
        })
    }
}

/// Why words give no options and files.
#[derive(Clone, Copy, PartialEq, Eq)]
pub enum Misread<'a> {
    /// This word is no option that the program knows.
    Unknown(&'a str),
    /// This word asks for a number of matches, of a program that plays one.
    Series(&'a str),
    /// An option is given twice, by these names.
    Twice(&'static str, &'static str),
    /// This option is the last word, and lacks its value.
    Lacking(&'static str),
    /// The value of this option is empty.
    Empty(&'static str),
    /// This option is given a value, and takes none.
    Valued(&'static str),
    /// Memory was refused.
    Memory,
}

/// Reads the words after the program's name: options of these lists and of each program, and files, in any order. After
/// `--` each word is a file.
pub fn read_options<'a>(
    alloc: Global,
    words: &'a [String],
    known: &[&'static [Known]],
) -> Result<Options<'a>, Misread<'a>> {
    let mut options = Options::none(alloc);
    let mut expected = Expected::Any;
    for word in words {
        expected = options.take(word.as_str(), known, expected)?;
    }
    match expected {
        Expected::Value(option) => Err(Misread::Lacking(option.typed)),
        Expected::Any | Expected::File => Ok(options),
    }
}

/// The name of an option, and the one by which it was given.
#[derive(Clone, Copy)]
struct OptionName {
    name: &'static str,
    typed: &'static str,
}

/// What the next word may be.
#[derive(Clone, Copy)]
enum Expected {
    /// An option or a file.
    Any,
    /// The value of this option.
    Value(OptionName),
    /// A file.
    File,
}

impl<'a> Options<'a> {
    /// Takes a word. Returns what the next one may be.
    fn take(
        &mut self,
        word: &'a str,
        known: &[&'static [Known]],
        expected: Expected,
    ) -> Result<Expected, Misread<'a>> {
        match expected {
            Expected::Value(option) => {
                self.keep_value(option, word, true)?;
                Ok(Expected::Any)
            }
            Expected::Any if word == "--" => Ok(Expected::File),
            Expected::Any if word.starts_with('-') && word != "-" => self.take_option(word, known),
            _ => match self.files.push(word) {
                Ok(()) => Ok(expected),
                Err(_) => Err(Misread::Memory),
            },
        }
    }

    /// Takes the word of an option. Returns what the next one may be.
    fn take_option(
        &mut self,
        word: &'a str,
        known: &[&'static [Known]],
    ) -> Result<Expected, Misread<'a>> {
        let (name, value) = parted(word).ok_or(Misread::Unknown(word))?;
        let meant = known_by(known, name).ok_or(unknown(word, name, known))?;
        let typed = meant.typed;
        match (meant.option, value) {
            (Known::Valued(name, _, _), None) => return Ok(Expected::Value(OptionName {
                name,
                typed,
            })),
            (Known::Valued(name, _, _), Some(value)) => {
                self.keep_value(OptionName { name, typed }, value, false)?;
            }
            (Known::Flag(name, _), None) => self.keep_flag(OptionName { name, typed })?,
            (Known::Flag(..), Some(_)) => return Err(Misread::Valued(typed)),
            (Known::Also(..), _) => return Err(Misread::Unknown(word)),
        }
        Ok(Expected::Any)
    }
}

/// Returns why the word of an option of this name is none that is known.
fn unknown<'a>(word: &'a str, name: &str, known: &[&'static [Known]]) -> Misread<'a> {
    if name == "m" && known_by(known, "k").is_some() {
        Misread::Series(word)
    } else {
        Misread::Unknown(word)
    }
}

/// Parts the word of an option into its name and the value that is attached: `-kVALUE` or `--name=VALUE`.
fn parted(word: &str) -> Option<(&str, Option<&str>)> {
    if let Some(long) = word.strip_prefix("--") {
        return match long.split_once('=') {
            Some((name, value)) => Some((name, Some(value))),
            None => Some((long, None)),
        };
    }
    let name = word.get(1..2)?;
    match word.get(2..)? {
        "" => Some((name, None)),
        value => Some((name, Some(value))),
    }
}
