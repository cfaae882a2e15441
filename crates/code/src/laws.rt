//! Laws of code, each stated as the contract of a function.

ghost use Rattle.code.specs.Laws.{HasLengthOfActions, IsAlwaysReady, MoreIterationsChangeNothing, WantsWhatTreesWant};

/// Proves that the code of a file that may be compiled has, by every profile, as many instructions as its actions make,
/// and one NOP.
pub fn length_of_code()
    ensures { HasLengthOfActions }
{}

/// Proves that the code of a file that may be compiled wants what the file's trees want, along all replies.
pub fn code_means_trees()
    ensures { WantsWhatTreesWant }
{}

/// Proves that what a file wants doesn't depend on the bound on iterations and calls by which it is defined, if that
/// is greater than the number of replies.
pub fn more_iterations()
    ensures { MoreIterationsChangeNothing }
{}

/// Proves that the next instruction of the code of a file that may be compiled finds on the stack all that it takes,
/// along all replies.
pub fn always_ready()
    ensures { IsAlwaysReady }
{}
