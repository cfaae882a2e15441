//! Laws on the grammar: the round-trip law, names are numbered by the rules on names, nested productions close,
//! productions are those of the plain grammar, and derivations emit the actions of the functions that they define.

ghost use Rattle.grammar_laws.specs.ClosedNesting.{NestedProductionsClose};
ghost use Rattle.grammar_laws.specs.Emitted.{BeginningsAreNumbered, EmitsABeginning, EmitsAPart, EmitsItsFile};
ghost use Rattle.grammar_laws.specs.Emitted.{EmitsItsFunctions, NextMayFollow};
ghost use Rattle.grammar_laws.specs.KnownSpellings.{KnownSpellings};
ghost use Rattle.grammar_laws.specs.RoundTrip.{GivesBackExpressions, GivesBackStatements};
ghost use Rattle.grammar_laws.specs.Numbered.{CallsAreNumbered, DefinitionsAreNumbered, FilesAreNumbered};
ghost use Rattle.grammar_laws.specs.Numbered.{MentionsAreNumbered};
ghost use Rattle.grammar_laws.specs.Scheme.{ActsByRows, ChoosesRows, HasOneRole};

use grammar::laws::derivations;

/// Proves the round-trip law: for tokens spelled with each compound part in brackets and each body in braces the
/// derivation returns what was spelled. It holds for every expression followed by `;`, and for every statement, as the
/// one statement of `main`, on any lines and for any depth: a level too many is a fault of the source, and the
/// derivation goes on after it.
pub fn bracketed()
    ensures expressions { GivesBackExpressions }
    ensures statements { GivesBackStatements }
    ensures spellings { KnownSpellings }
{
    derivations();
}

/// Proves that the variables and functions of a derivation have the numbers of the rules on names: the number of a name
/// is its index among the distinct names that were said up to its token. A mention means a variable of the function, or
/// else an external.
pub fn numbered()
    ensures mentions { MentionsAreNumbered }
    ensures calls { CallsAreNumbered }
    ensures definitions { DefinitionsAreNumbered }
    ensures files { FilesAreNumbered }
{}

/// Proves that the grammar's productions close what they nest.
pub fn nesting()
    ensures { NestedProductionsClose }
{}

/// Proves that the productions that the tokens choose are those of the plain grammar, with the semantic actions listed
/// for them, and that each name in a production has the production's role.
pub fn productions()
    ensures rows { ChoosesRows }
    ensures actions { ActsByRows }
    ensures roles { HasOneRole }
{}

/// Proves that a derivation emits the actions of the functions that it defines: when it is done these and no more, and
/// at each state those of the functions defined so far and a part of one more. It holds with faults too. The
/// derivation of a file emits the file's actions. What is emitted before the first fault may be reported to a builder,
/// and its numbers of variables and functions are below the limits.
pub fn emissions()
    ensures whole { EmitsItsFunctions }
    ensures file { EmitsItsFile }
    ensures part { EmitsAPart }
    ensures beginning { EmitsABeginning }
    ensures next { NextMayFollow }
    ensures numbers { BeginningsAreNumbered }
{}
