//! The page of help of a program.

use crate::frames::ProgramFrame;
use crate::known::{COMMON_OPTIONS, Known};
use crate::shown::Dashed;
use crate::texts::{Draft, Text};
use std::alloc::{AllocError, Global};

/// The column at which the text about an option begins.
const COLUMN: usize = 20;

/// Returns the page of help of a program: its usage, what it does, and its options, in the order of its lists.
pub fn help_page(alloc: Global, frame: &ProgramFrame) -> Result<String, AllocError> {
    let mut page = Draft::new(alloc);
    page.add("usage: ");
    page.add(frame.name);
    page.add(" ");
    page.add(frame.usage);
    page.add("\n\n");
    page.add(frame.about);
    page.add("\n\noptions:\n");
    for options in frame.known {
        add_options(&mut page, options);
    }
    add_options(&mut page, &COMMON_OPTIONS);
    page.add("\nMore: man ");
    page.add(frame.name);
    page.add("\n");
    page.finish()
}

/// Adds a line for each option of a list, with all its names.
fn add_options(page: &mut Draft, options: &[Known]) {
    for option in options {
        match *option {
            Known::Flag(name, about) => add_option(page, options, name, "", about),
            Known::Valued(name, value, about) => add_option(page, options, name, value, about),
            Known::Also(..) => (),
        }
    }
}

/// Adds the line of an option of this name, with the other names that the list has for it, and with its value unless
/// that is called nothing.
fn add_option(
    page: &mut Draft,
    options: &[Known],
    name: &'static str,
    value: &'static str,
    about: &str,
) {
    let mut column = add_name(page, "  ", name);
    for option in options {
        if let Known::Also(other, of) = *option
            && of == name
        {
            column = column.saturating_add(add_name(page, ", ", other));
        }
    }
    if !value.is_empty() {
        page.push(' ');
        page.add(value);
        column = column.saturating_add(value.len()).saturating_add(1);
    }
    for _ in column..COLUMN {
        page.push(' ');
    }
    page.add(about);
    page.push('\n');
}

/// Adds an option's name after these words. Returns how many columns both take.
fn add_name(page: &mut Draft, before: &str, name: &'static str) -> usize {
    let dashes = Dashed(name).dashes();
    page.add(before);
    page.add(dashes);
    page.add(name);
    before
        .len()
        .saturating_add(dashes.len())
        .saturating_add(name.len())
}
