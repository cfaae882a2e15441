//! The chain of calls that needs most room: from `main` on, the callee that decides what its caller needs.

ghost use Rattle.std.specs.Prelude.{◌≡◌, ◌⊎◌, ◌++◌, ◌∷◌, [], None, ℕ, IfOk, IfSome, OnOk};
ghost use Rattle.grammar.specs.Resolved.{IsAmong};
ghost use Rattle.trees.specs.Laws.{without_names, told_trees};
ghost use Rattle.trees.specs.Trees.{function_tree};
ghost use Rattle.room.specs.Chains.{CallNoOthers, Decides, IsChain, IsLast, IsLink, MayEnd, StandsAlone};
ghost use Rattle.room.specs.Chains.{measured, numbers, only, scarce};

use crate::constructs::{Calls, NUMBERS, callee_need, function_need};
use crate::room::{Room, words};
use crate::tables::all_needs;
use grammar::{Callee, Profile};
use std::alloc::{AllocError, Global};
use trees::{Function, TreeMaker};

/// What room is measured by.
#[derive(Clone, Copy)]
enum Measure {
    /// By its words.
    Words,
    /// By its frames.
    Frames,
}

impl Measure {
    /// Returns what there is too much of: frames, if only they are too many, and else words.
    fn most(need: Option<Room>, profile: Profile) -> Measure
        ensures { result ≡ scarce profile need }
    {
        match need {
            Some(room) if room.words <= profile.words() && room.frames > profile.frames() => {
                Measure::Frames
            }
            _ => Measure::Words,
        }
    }

    /// Measures a need.
    fn of(self, need: Option<Room>) -> Option<u16>
        ensures { result ≡ measured self need }
    {
        match (need, self) {
            (None, _) => None,
            (Some(room), Measure::Words) => Some(room.words),
            (Some(room), Measure::Frames) => Some(room.frames),
        }
    }
}

/// Returns the numbers of the functions that call one another where `main` needs what it needs, from its own on.
///
/// # Errors
///
/// A request of memory that was refused.
pub fn chain_of(
    alloc: Global,
    maker: &TreeMaker,
    main: u8,
    profile: Profile,
) -> Result<Vec<u8>, AllocError>
    ensures { CallNoOthers (told_trees maker.now.functions) → IsAmong main (numbers (told_trees maker.now.functions))
        → IfOk result (λ chain. IsChain profile (told_trees maker.now.functions) main chain.items) }
{
    let functions = maker.functions();
    let calls = all_needs(functions, profile);
    let measure = Measure::most(calls.needs[main as usize], profile);
    let mut chain = Vec::new(alloc);
    let mut next = lengthen(&mut chain, main, functions, &calls, measure)?;
    for _round in 0..functions.len() {
        next = match next {
            Some(number) => lengthen(&mut chain, number, functions, &calls, measure)?,
            None => None,
        };
    }
    Ok(chain)
}

/// Adds a function to a chain, and returns the next one; none after one that was there before.
fn lengthen(
    chain: &mut Vec<u8>,
    number: u8,
    functions: &[Function],
    calls: &Calls,
    measure: Measure,
) -> Result<Option<u8>, AllocError>
    ensures added { OnOk result (chain.new.items ≡ chain.old.items ++ number ∷ []) }
    ensures next { IfOk result (λ next. IfSome next (IsLink measure calls.now (told_trees functions.now) number)) }
    ensures new { IfOk result (λ next. IfSome next (λ j. IsAmong number chain.old.items → ⊥)) }
    ensures last { IfOk result (λ next. next ≡ None
        → MayEnd measure calls.now (told_trees functions.now) chain.old.items number) }
{
    let is_back = chain.contains(&number);
    chain.push(number)?;
    if is_back {
        return Ok(None);
    }
    Ok(behind(number, functions, calls, measure))
}

/// Returns the function by whose call that of this number needs what it needs, if there is one.
fn behind(number: u8, functions: &[Function], calls: &Calls, measure: Measure) -> Option<u8>
    ensures next { IfSome result (IsLink measure calls.now (told_trees functions.now) number) }
    ensures last { result ≡ None → CallNoOthers (told_trees functions.now)
        → IsAmong number (numbers (told_trees functions.now))
        → IsLast measure calls.now (told_trees functions.now) number }
{
    for caller in functions {
        if caller.number == number {
            return needed_by(caller, functions, calls, measure);
        }
    }
    None
}

/// Returns the first function by whose call one needs what it needs; none if it needs that without any call.
fn needed_by(
    caller: &Function,
    functions: &[Function],
    calls: &Calls,
    measure: Measure,
) -> Option<u8>
    ensures some { IfSome result (Decides measure calls.now functions.now caller.now) }
    ensures less { IfSome result (λ j. StandsAlone measure calls.now
        (without_names caller.now.number (function_tree caller.now)) → ⊥) }
    ensures none { result ≡ None → StandsAlone measure calls.now
        (without_names caller.now.number (function_tree caller.now))
        ⊎ ((j : ℕ) → Decides measure calls.now functions.now caller.now j → ⊥) }
{
    let need = measure.of(function_need(caller, calls));
    let alone = Calls {
        short: calls.short,
        needs: [words(0); NUMBERS],
    };
    if measure.of(function_need(caller, &alone)) == need {
        return None;
    }
    decider(caller, functions, calls, measure)
}

/// Returns the first function by whose call alone one needs what it needs.
fn decider(caller: &Function, functions: &[Function], calls: &Calls, measure: Measure) -> Option<u8>
    ensures some { IfSome result (Decides measure calls.now functions.now caller.now) }
    ensures none { result ≡ None → (j : ℕ) → Decides measure calls.now functions.now caller.now j → ⊥ }
{
    let need = measure.of(function_need(caller, calls));
    for callee in functions {
        let by_this = calls.only(callee.number);
        if measure.of(function_need(caller, &by_this)) == need {
            return Some(callee.number);
        }
    }
    None
}

impl Calls {
    /// Returns what functions would need if all but one needed nothing.
    fn only(&self, number: u8) -> Calls
        ensures short { result.short ≡ self.now.short }
        ensures needs { result.needs ≡ only number self.now.needs }
    {
        let nothing = words(0);
        let need = callee_need(Callee::Function(number), self);
        let mut needs = [nothing; NUMBERS];
        needs[number as usize] = need;
        Calls {
            short: self.short,
            needs,
        }
    }
}
