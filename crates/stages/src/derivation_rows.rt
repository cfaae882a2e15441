//! The steps of a source's derivation as rows.

use crate::items::{action_word, add_item, add_production};
use crate::token_rows::{end_misfit, spelling};
use derivations::{Derivation, Emission, Item, Production, StepEnd, locate};
use grammar::{Action, Diagnostic, operator_punctuator};
use std::alloc::AllocError;

/// Adds a line for each step of a source's derivation, up to the first token that doesn't fit: its number, the next
/// token with its line and column, and what is done. A symbol is replaced by its production, a token is taken, or a
/// semantic action is done; behind it are the actions that the step emits. Of a source with a fault the last line has
/// what is wanted.
pub fn add_derivation_rows(
    text: &mut String,
    source: &[u8],
    fault: Option<Diagnostic>,
) -> Result<(), AllocError> {
    text.push_str("  step  line   col next token       step\n")?;
    let tokens = locate(*text.allocator(), source)?;
    let mut derivation = Derivation::start(tokens.as_slice());
    for number in 1..u64::MAX {
        let (Some(pending), Some(located)) = (
            derivation.front(),
            tokens.as_slice().get(derivation.place()),
        ) else {
            break;
        };
        let (line, column, token) = (located.line, located.column, spelling(source, located));
        write!(text, "{number:>6}{line:>6}{column:>6} {token:<16} ")?;
        let (production, emission) = (derivation.production(), derivation.emission());
        if derivation.step() != StepEnd::Stepped {
            text.push_str("wants ")?;
            add_item(text, pending.item)?;
            return end_misfit(text, located, fault);
        }
        add_step(text, pending.item, production, &emission)?;
    }
    Ok(())
}

/// Adds what a step does with an item, by the production of a symbol, and what it emits.
fn add_step(
    text: &mut String,
    item: Item,
    production: Option<Production>,
    emission: &Emission,
) -> Result<(), AllocError> {
    match (item, production) {
        (Item::Part(_), Some(production)) => add_production(text, item, &production)?,
        (Item::Make(action), _) => text.push_str(action_word(action))?,
        (Item::Close, _) => text.push_str("ends a nested construct")?,
        _ => {
            text.push_str("takes ")?;
            add_item(text, item)?;
        }
    }
    for (index, action) in emission.actions().iter().enumerate() {
        text.push_str(if index == 0 { "  ; emits " } else { ", " })?;
        add_action(text, *action)?;
    }
    text.push('\n')
}

/// Adds an action by its name, with its operator. A derivation knows neither names nor constants.
fn add_action(text: &mut String, action: Action) -> Result<(), AllocError> {
    let word = match action {
        Action::ApplyBinop(op) => return write!(text, "ApplyBinop {}", operator_punctuator(op)),
        Action::LogicMiddle(op) => return write!(text, "LogicMiddle {}", operator_punctuator(op)),
        Action::PushConstant(_) => "PushConstant",
        Action::FetchVariable(_) => "FetchVariable",
        Action::StoreVariable(..) => "StoreVariable",
        Action::BeginCall => "BeginCall",
        Action::EndCall(_) => "EndCall",
        Action::IfTest => "IfTest",
        Action::ElsePart => "ElsePart",
        Action::EndIf => "EndIf",
        Action::BeginWhile => "BeginWhile",
        Action::WhileTest => "WhileTest",
        Action::EndWhile => "EndWhile",
        Action::GiveBack => "GiveBack",
        Action::Chop => "Chop",
        Action::BeginFunction(..) => "BeginFunction",
        Action::EndFunction(_) => "EndFunction",
    };
    text.push_str(word)
}
