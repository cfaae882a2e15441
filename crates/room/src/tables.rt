//! What the functions of a robot need, round by round: in each, one more may call another.

ghost use Rattle.std.specs.Prelude.{◌≡◌, ◌<◌, IsTrue, ℕ, length, List, Option, zero, suc};
ghost use Rattle.grammar.specs.Profile.{Profile as ProfileValue};
ghost use Rattle.grammar.specs.Resolved.{IsResolved};
ghost use Rattle.grammar.specs.Tree.{File};
ghost use Rattle.trees.specs.Laws.{told_functions, told_trees};
ghost use Rattle.room.specs.Counting.{counted};
ghost use Rattle.room.specs.Functions.{need_of};
ghost use Rattle.room.specs.Tables.{blank, entered, needs_in, table_within};

use crate::constructs::{Calls, NUMBERS, function_need};
use crate::room::Room;
use grammar::Profile;
use trees::{Function, TreeMaker};

/// Returns what the function of a number needs as `main`: no room is enough if it can come back to itself.
///
/// It is counted up to 65,535 words, far more than any profile gives.
#[inline(never)]
pub fn need(maker: &TreeMaker, main: u8, profile: Profile) -> Option<Room>
    ensures { (file : File) → IsResolved file → file.main ≡ main
        → told_functions file.functions file.order ≡ told_trees maker.now.functions
        → result ≡ counted (need_of profile file) }
{
    all_needs(maker.functions(), profile).needs[main as usize]
}

/// Returns what functions need, each by those that it calls: no room is enough for one that can come back to itself, or
/// that calls one that can.
pub fn all_needs(functions: &[Function], profile: Profile) -> Calls
    ensures short { result.short ≡ profile.short_circuit }
    ensures needs { result.needs ≡
        table_within profile.short_circuit (told_trees functions.now) (length functions.now) }
{
    let mut calls = Calls {
        short: profile.short_circuit(),
        needs: no_needs(),
    };
    for _round in 0..functions.len() {
        calls.needs = next_needs(functions, &calls);
    }
    calls
}

/// Returns what functions need, by what those need that they call.
#[tactic(auto, using(crate::proofs::TableLaws::entered_more, crate::proofs::TableLaws::entered_all))]
fn next_needs(functions: &[Function], calls: &Calls) -> [Option<Room>; NUMBERS]
    ensures { result ≡ entered calls.now.short (needs_in calls.now.needs) (told_trees functions.now) blank }
{
    let mut needs = no_needs();
    for function in functions {
        needs[function.number as usize] = function_need(function, calls);
    }
    needs
}

/// Returns a table of no function.
#[tactic(auto, unfolding(crate::specs::Tables::blank))]
fn no_needs() -> [Option<Room>; NUMBERS]
    ensures { result ≡ blank }
{
    [None; NUMBERS]
}
