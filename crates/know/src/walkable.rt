//! The tokens of a source, as they can be walked along from the first to the last one, whatever its faults are.

ghost use Rattle.std.specs.Prelude.{◌≡◌, IfOk};
ghost use Rattle.know.specs.Names.{names_of};

use crate::crumbs::Crumbs;
use crate::parts_left_out::{Fate, LeftOut};
use derivations::Located;
use std::alloc::{AllocError, Global};
use tokens::Token;

/// Makes a list of tokens that fit one after the other, in which all names of a source stand in their order: what is
/// left out is replaced by a statement or a declaration for each of its names. The only error is that memory is refused.
pub fn walkable(
    alloc: Global,
    source: &[u8],
    tokens: &[Located],
    left_out: &LeftOut,
) -> Result<Vec<Located>, AllocError>
    ensures { IfOk result (λ list. names_of list.items ≡ names_of tokens.now) }
{
    let end = left_out.end(source, tokens);
    let mut crumbs = Crumbs::new(alloc);
    for (index, located) in tokens.iter().enumerate() {
        let is_told = index < end || located.token == Token::End;
        let fate = if is_told {
            left_out.fate(source, located)
        } else {
            Fate::Goes
        };
        crumbs.take(tokens, index, located, fate)?;
    }
    Ok(crumbs.finish())
}
