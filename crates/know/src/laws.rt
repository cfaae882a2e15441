//! Laws of what a fix does, each stated as the contract of a function.

ghost use Rattle.know.specs.KnownRepairs.{KnownRepairs};
ghost use Rattle.know.specs.Laws.{NothingUnchangedGetsFurther};

/// Proves how far small sources get, which was worked out by hand.
pub fn known_repairs()
    ensures { KnownRepairs }
{}

/// Proves that no source gets further than itself.
pub fn nothing_unchanged_gets_further()
    ensures { NothingUnchangedGetsFurther }
{}
