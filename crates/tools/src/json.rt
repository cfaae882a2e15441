//! Objects and arrays of JSON, which are added to a text on one line.

use crate::shown::visible;
use crate::texts::{Draft, Text, add_signed};

/// An object that is added to a text field by field.
#[derive(Drop)]
pub struct Object<'t> {
    text: &'t mut Draft,
    is_empty: bool,
}

impl<'t> Object<'t> {
    /// Begins an object at the end of a text.
    pub fn begin(text: &'t mut Draft) -> Object<'t> {
        text.add("{");
        Object {
            text,
            is_empty: true,
        }
    }

    /// Begins the field of a name, and returns the text that its value is to be added to.
    pub fn field(&mut self, name: &str) -> &mut Draft {
        if !self.is_empty {
            self.text.add(", ");
        }
        self.is_empty = false;
        add_string(self.text, name);
        self.text.add(": ");
        self.text
    }

    /// Adds a number.
    pub fn number(&mut self, name: &str, number: u64) {
        self.field(name).number(number);
    }

    /// Adds a number, or null for none.
    pub fn number_or_null(&mut self, name: &str, number: Option<u64>) {
        add_number_or_null(self.field(name), number);
    }

    /// Adds a number that may be negative.
    pub fn signed(&mut self, name: &str, number: i64) {
        add_signed(self.field(name), number);
    }

    /// Adds a number that may be negative, or null for none.
    pub fn signed_or_null(&mut self, name: &str, number: Option<i64>) {
        match number {
            Some(number) => self.signed(name, number),
            None => self.field(name).add("null"),
        }
    }

    /// Adds words as a string.
    pub fn words(&mut self, name: &str, words: &str) {
        add_string(self.field(name), words);
    }

    /// Adds `true` or `false`.
    pub fn truth(&mut self, name: &str, is_so: bool) {
        self.field(name).add(if is_so { "true" } else { "false" });
    }

    /// Adds an array of numbers.
    pub fn numbers(&mut self, name: &str, numbers: &[u64]) {
        let mut array = Array::begin(self.field(name));
        for number in numbers {
            array.item().number(*number);
        }
        array.end();
    }

    /// Ends the object.
    pub fn end(self) {
        self.text.add("}");
    }
}

/// An array that is added to a text item by item.
#[derive(Drop)]
pub struct Array<'t> {
    text: &'t mut Draft,
    is_empty: bool,
}

impl<'t> Array<'t> {
    /// Begins an array at the end of a text.
    pub fn begin(text: &'t mut Draft) -> Array<'t> {
        text.add("[");
        Array {
            text,
            is_empty: true,
        }
    }

    /// Begins an item, and returns the text that it is to be added to.
    pub fn item(&mut self) -> &mut Draft {
        if !self.is_empty {
            self.text.add(", ");
        }
        self.is_empty = false;
        self.text
    }

    /// Ends the array.
    pub fn end(self) {
        self.text.add("]");
    }
}

/// Adds a number, or null for none.
pub fn add_number_or_null(text: &mut Draft, number: Option<u64>) {
    match number {
        Some(number) => text.number(number),
        None => text.add("null"),
    }
}

/// Adds words as a string. A control character of them is shown as everywhere.
fn add_string(text: &mut Draft, words: &str) {
    text.push('"');
    for character in words.chars() {
        match character {
            '"' => text.add("\\\""),
            '\\' => text.add("\\\\"),
            other => text.push(visible(other)),
        }
    }
    text.push('"');
}
