//! The grammar's productions, as they are found in its table.

use crate::terminals::{plain, terminals};
use arrayvec::ArrayVec;
use derivations::{Item, Located, MOST_ITEMS, Production, Role, Symbol, choice};
use std::alloc::{AllocError, Global};

/// A production of a symbol: only what a source may look like counts.
#[derive(Drop)]
pub struct TableRow {
    /// The symbol that it replaces.
    pub symbol: Symbol,
    /// What comes in its place.
    pub items: ArrayVec<Item, MOST_ITEMS>,
    // for how many pairs of tokens it is chosen
    pairs: usize,
}

/// The grammar: its symbols, from the first one of a file on, and the productions of each, in this order.
#[derive(Drop)]
pub struct Table {
    /// The tokens.
    pub terminals: Vec<Located>,
    /// The symbols.
    pub symbols: Vec<Symbol>,
    /// The productions, by their symbols. Of one symbol those come first that the fewest tokens choose.
    pub rows: Vec<TableRow>,
}

impl Table {
    /// Finds all productions: the table is asked for each symbol that is in one of those found before, with all pairs of
    /// tokens.
    pub fn find(alloc: Global) -> Result<Table, AllocError> {
        let mut table = Table {
            terminals: Vec::new(alloc),
            symbols: Vec::new(alloc),
            rows: Vec::new(alloc),
        };
        table.terminals = terminals(alloc)?;
        table.symbols.push(Symbol::Source)?;
        for number in 0..usize::MAX {
            let Some(&symbol) = table.symbols.get(number) else {
                break;
            };
            let rows = rows_of(alloc, table.terminals.as_slice(), symbol)?;
            for row in rows {
                table.add_symbols(&row)?;
                table.rows.push(row)?;
            }
        }
        Ok(table)
    }

    /// Adds the symbols of a production that weren't met before.
    fn add_symbols(&mut self, row: &TableRow) -> Result<(), AllocError> {
        for item in &row.items {
            if let Item::Part(symbol) = item
                && !self.symbols.contains(symbol)
            {
                self.symbols.push(*symbol)?;
            }
        }
        Ok(())
    }

    /// Returns the number of a symbol.
    pub fn number(&self, symbol: Symbol) -> usize {
        let found = self.symbols.iter().position(|other| *other == symbol);
        found.unwrap_or(0)
    }
}

/// Returns the productions of a symbol.
fn rows_of(
    alloc: Global,
    terminals: &[Located],
    symbol: Symbol,
) -> Result<Vec<TableRow>, AllocError> {
    let mut rows = Vec::new(alloc);
    for next in terminals {
        for after in terminals {
            if let Some(production) = choice(symbol, &next.token, &after.token) {
                note(&mut rows, symbol, &production)?;
            }
        }
    }
    rows.sort_by_key(|row: &TableRow| row.pairs)?;
    Ok(rows)
}

/// Counts a production, or adds it if it is a new one.
fn note(
    rows: &mut Vec<TableRow>,
    symbol: Symbol,
    production: &Production,
) -> Result<(), AllocError> {
    let mut items = ArrayVec::new();
    for item in production.items() {
        if let Some(item) = plain(*item) {
            let _ = items.try_push(item);
        }
    }
    for row in rows.iter_mut() {
        if row.items.as_slice() == items.as_slice() {
            row.pairs = row.pairs.saturating_add(1);
            return Ok(());
        }
    }
    rows.push(TableRow {
        symbol,
        items,
        pairs: 1,
    })?;
    Ok(())
}
