//! FIRST and FOLLOW of the grammar's symbols and productions as rows.

use crate::items::{add_item, add_items};
use crate::lookaheads::Lookaheads;
use crate::table_rows::Table;
use crate::terminals::{TerminalSet, terminal_of};
use derivations::Item;
use std::alloc::AllocError;

/// Adds for each symbol of the grammar FIRST, FOLLOW, and below it FIRST of each of its productions.
pub fn add_first_rows(text: &mut String) -> Result<(), AllocError> {
    let alloc = *text.allocator();
    let table = Table::find(alloc)?;
    let found = Lookaheads::find(alloc, &table)?;
    for symbol in &table.symbols {
        let mut name = String::new(alloc);
        add_item(&mut name, Item::Part(*symbol))?;
        add_row(text, name.as_str(), "FIRST", &table, &found.first(*symbol))?;
        add_row(text, "", "FOLLOW", &table, &found.follow(*symbol))?;
        for row in table.rows.iter().filter(|row| row.symbol == *symbol) {
            let mut production = String::new(alloc);
            production.push_str("  ->")?;
            add_items(&mut production, row.items.as_slice())?;
            let first = found.first_of(row.items.as_slice());
            add_row(text, production.as_str(), "FIRST", &table, &first)?;
        }
    }
    Ok(())
}

/// Adds the row of a set: what it is of, which one it is, and the tokens in it.
fn add_row(
    text: &mut String,
    of: &str,
    name: &str,
    table: &Table,
    set: &TerminalSet,
) -> Result<(), AllocError> {
    write!(text, "{of:<45} {name:<7}")?;
    for (number, located) in table.terminals.iter().enumerate() {
        if set.has(number)
            && let Some(item) = terminal_of(&located.token)
        {
            text.push(' ')?;
            add_item(text, item)?;
        }
    }
    if set.has_nothing {
        text.push_str(" nothing")?;
    }
    text.push_str(if set.is_empty() { " none\n" } else { "\n" })
}
