//! Laws on the definitions of the language.

ghost use Rattle.std.specs.Prelude.{◌≡◌};
ghost use Rattle.grammar.specs.Intrinsics.{all_intrinsics};
ghost use Rattle.grammar.specs.Laws.Finished.{Finished, Undefined, WithoutMain};
ghost use Rattle.grammar.specs.Laws.{ActionsHaveLengths, BeginningsAreInOrder, BlocksKeepTheFunction, CompiledIsResolved};
ghost use Rattle.grammar.specs.Laws.{EachDerivationEnds, EachFileFollows, FaultlessIsResolved, FirstFaultDecides};
ghost use Rattle.grammar.specs.Laws.{MayBeReported, WhatIsInOrderBegins, WhatWasReadIsNeeded};

use crate::build::Build;
use crate::resolved_names::Intrinsic;

/// Proves that the derivation of each list of tokens ends, and leads to what the source is: a file, or its first fault.
pub fn derivations()
    ensures ends { EachDerivationEnds }
    ensures faultless { FaultlessIsResolved }
    ensures first_fault { FirstFaultDecides }
{}

/// Proves that a source whose derivation ends without a fault is a file, or a function that it mentions isn't defined,
/// or it has no function main.
pub fn finished()
    ensures file { Finished }
    ensures undefined { Undefined }
    ensures without_main { WithoutMain }
{}

/// Proves that what was read of a source is needed: up to the second of the tokens that are next, if no fault is before
/// them.
pub fn lookahead_is_needed()
    ensures { WhatWasReadIsNeeded }
{}

/// Proves that a function's block changes neither which function is being defined, nor its name, nor its parameters.
pub fn blocks_keep_scope()
    ensures { BlocksKeepTheFunction }
{}

/// Proves that the actions of a file may follow one another.
pub fn actions()
    ensures { EachFileFollows }
{}

/// Proves that the actions of a function make as many instructions as the definitions say of its trees.
pub fn lengths()
    ensures { ActionsHaveLengths }
{}

/// Proves that actions are a beginning of those of some functions exactly if each may follow those before it.
pub fn beginnings()
    ensures in_order { BeginningsAreInOrder }
    ensures begins { WhatIsInOrderBegins }
{}

/// Proves that a file that compiles is resolved: its names are within the pools, and each function is defined once.
pub fn resolved_files()
    ensures { CompiledIsResolved }
{}

/// Proves that any action may be reported to a builder that may follow those that it represents.
pub fn any_action_may_follow<B: Build>()
    ensures { (builder : B) → MayBeReported (B.stands builder) }
{}

/// Proves that the list of all intrinsic functions has those that a name is looked up among.
pub fn intrinsics()
    ensures { Intrinsic.ALL ≡ all_intrinsics }
{}
