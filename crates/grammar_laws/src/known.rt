//! Sources that show the rules of the language, worked out from the definitions of `grammar`.

ghost use Rattle.grammar_laws.specs.KnownEmissions.{KnownEmissions};
ghost use Rattle.grammar.specs.KnownSources.{KnownBeginnings, KnownLimits, KnownMisfits, KnownNameFaults, KnownNeeds};
ghost use Rattle.grammar.specs.KnownSources.{KnownTrees};
ghost use Rattle.grammar_laws.specs.KnownTexts.{KnownTexts};

/// Proves that the definitions give these trees and faults of known sources.
pub fn known_sources()
    ensures trees { KnownTrees }
    ensures misfits { KnownMisfits }
    ensures limits { KnownLimits }
    ensures names { KnownNameFaults }
    ensures needs { KnownNeeds }
    ensures beginnings { KnownBeginnings }
{}

/// Proves that they do so of known texts, through their tokens.
pub fn known_texts()
    ensures { KnownTexts }
{}

/// Proves that the derivations of known sources emit these actions.
pub fn known_emissions()
    ensures { KnownEmissions }
{}
