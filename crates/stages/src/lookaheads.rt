//! FIRST and FOLLOW: by which tokens what derives from a symbol may begin, and which may come after it.

ghost use Rattle.std.specs.Prelude.{◌≡◌, false};

use crate::table_rows::{Table, TableRow};
use crate::terminals::{TerminalSet, plain, terminal_of};
use derivations::{Item, Symbol};
use std::alloc::{AllocError, Global};

/// The sets of all symbols of a grammar, by their numbers.
#[derive(Drop)]
pub struct Lookaheads<'a> {
    table: &'a Table,
    firsts: Vec<TerminalSet>,
    follows: Vec<TerminalSet>,
}

impl<'a> Lookaheads<'a> {
    /// Finds the least sets to which no production adds.
    pub fn find(alloc: Global, table: &'a Table) -> Result<Lookaheads<'a>, AllocError> {
        let count = table.symbols.len();
        let firsts = vec![in alloc; TerminalSet::none(); count]?;
        let follows = vec![in alloc; TerminalSet::none(); count]?;
        let mut found = Lookaheads {
            table,
            firsts,
            follows,
        };
        for _ in 0..u64::MAX {
            if !found.grow_firsts() {
                break;
            }
        }
        for _ in 0..u64::MAX {
            if !found.grow_follows() {
                break;
            }
        }
        Ok(found)
    }

    /// Returns FIRST of a symbol: nothing is in it if the symbol may derive nothing.
    pub fn first(&self, symbol: Symbol) -> TerminalSet {
        set_at(self.firsts.as_slice(), self.table.number(symbol))
    }

    /// Returns FOLLOW of a symbol.
    pub fn follow(&self, symbol: Symbol) -> TerminalSet {
        set_at(self.follows.as_slice(), self.table.number(symbol))
    }

    /// Returns FIRST of items: that of the first one, and of each one that those before it leave as the first.
    pub fn first_of(&self, items: &[Item]) -> TerminalSet {
        let mut found = TerminalSet::none();
        for item in items {
            let first = self.first_of_item(*item);
            found.add(&first.tokens());
            if !first.has_nothing {
                return found;
            }
        }
        found.add(&TerminalSet::nothing());
        found
    }

    /// Returns FIRST of an item.
    fn first_of_item(&self, item: Item) -> TerminalSet {
        if let Item::Part(symbol) = item {
            return self.first(symbol);
        }
        let wanted = plain(item);
        let mut terminals = self.table.terminals.iter();
        match terminals.position(|located| terminal_of(&located.token) == wanted) {
            Some(number) => TerminalSet::of(number),
            None => TerminalSet::nothing(),
        }
    }

    /// Adds to FIRST of each symbol what each of its productions begins with. Reports whether something was new.
    fn grow_firsts(&mut self) -> bool
        ensures still { result ≡ false → self.new.firsts.items ≡ self.old.firsts.items }
    {
        let mut grows = false;
        let table = self.table;
        for row in &table.rows {
            let first = self.first_of(row.items.as_slice());
            let number = table.number(row.symbol);
            if add_at(self.firsts.as_mut_slice(), number, &first) {
                grows = true;
            }
        }
        grows
    }

    /// Adds to FOLLOW of each symbol what comes after it in each production. Reports whether something was new.
    fn grow_follows(&mut self) -> bool
        ensures still { result ≡ false → self.new.follows.items ≡ self.old.follows.items }
    {
        let mut grows = false;
        let table = self.table;
        for row in &table.rows {
            if self.grow_by_row(row) {
                grows = true;
            }
        }
        grows
    }

    /// Adds to FOLLOW of each symbol of a production what comes after it there. If that may be nothing, what follows the
    /// production's own symbol comes after it too. Reports whether something was new.
    fn grow_by_row(&mut self, row: &TableRow) -> bool
        ensures still { result ≡ false → self.new.follows.items ≡ self.old.follows.items }
    {
        let mut grows = false;
        for (index, item) in row.items.iter().enumerate() {
            if let Item::Part(symbol) = *item {
                let rest = row.items.get(index.saturating_add(1)..).unwrap_or(&[]);
                let after = self.after(rest, row.symbol);
                let number = self.table.number(symbol);
                if add_at(self.follows.as_mut_slice(), number, &after) {
                    grows = true;
                }
            }
        }
        grows
    }

    /// Returns what may come where these items are, the last ones of a symbol's production: what they begin with, and if
    /// they may be nothing what follows the symbol.
    fn after(&self, rest: &[Item], symbol: Symbol) -> TerminalSet
        ensures { result.has_nothing ≡ false }
    {
        let mut after = self.first_of(rest);
        if after.has_nothing {
            after.add(&self.follow(symbol));
        }
        after.tokens()
    }
}

/// Returns the set of a number.
fn set_at(sets: &[TerminalSet], number: usize) -> TerminalSet {
    sets.get(number).copied().unwrap_or(TerminalSet::none())
}

/// Adds to the set of a number, and reports whether something was new.
fn add_at(sets: &mut [TerminalSet], number: usize, other: &TerminalSet) -> bool
    ensures still { result ≡ false → sets.new ≡ sets.old }
{
    let mut set = match sets.get(number) {
        Some(set) => *set,
        None => return false,
    };
    if !set.add(other) {
        return false;
    }
    if let Some(place) = sets.get_mut(number) {
        *place = set;
    }
    true
}
