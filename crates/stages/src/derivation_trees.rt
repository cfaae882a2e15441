//! The derivation tree of a source: below each symbol is the production that replaced it.

use crate::items::add_item;
use crate::outlines::{Outline, Standing};
use crate::terminals::plain;
use crate::token_rows::spelling;
use derivations::{Derivation, Item, StepEnd, locate};
use std::alloc::{AllocError, Global};

/// Returns the derivation tree of a source that compiles: its symbols, and its tokens as they are spelled.
pub fn derivation_tree(alloc: Global, source: &[u8]) -> Result<Outline, AllocError> {
    let tokens = locate(alloc, source)?;
    let mut derivation = Derivation::start(tokens.as_slice());
    let mut tree = Outline::new(alloc);
    // by item that is pending, the node that it is below
    let mut pending_below = Vec::new(alloc);
    for _ in 0..u64::MAX {
        let (Some(pending), Some(located)) = (
            derivation.front(),
            tokens.as_slice().get(derivation.place()),
        ) else {
            break;
        };
        let production = derivation.production();
        if derivation.step() != StepEnd::Stepped {
            break;
        }
        let above = pending_below.pop();
        match (pending.item, production) {
            (Item::Part(_), Some(production)) => {
                let number = add_symbol(&mut tree, above, pending.item, production.items())?;
                for _ in production.items() {
                    pending_below.push(number)?;
                }
            }
            (Item::Make(_) | Item::Close, _) => {}
            _ => {
                tree.add(above, Standing::Word, spelling(source, located))?;
            }
        }
    }
    Ok(tree)
}

/// Adds a symbol, and if no token comes from these items of its production, that too.
fn add_symbol(
    tree: &mut Outline,
    above: Option<usize>,
    symbol: Item,
    items: &[Item],
) -> Result<usize, AllocError> {
    let mut label = String::new(tree.alloc());
    add_item(&mut label, symbol)?;
    let number = tree.add(above, Standing::Part, label)?;
    if items.iter().all(|item| plain(*item).is_none()) {
        tree.add(Some(number), Standing::Nothing, "nothing")?;
    }
    Ok(number)
}
