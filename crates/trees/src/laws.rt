//! A law of trees, stated as the contract of a function.

ghost use Rattle.trees.specs.Laws.{ActionsDetermineTrees};

/// Proves that trees which report what a file reports are the file's.
pub fn actions_determine_trees()
    ensures { ActionsDetermineTrees }
{}
