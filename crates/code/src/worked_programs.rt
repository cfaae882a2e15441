//! Programs that show the rules of the machine.

ghost use Rattle.code.specs.KnownPrograms.{KnownChoices, KnownRestarts, KnownValues, KnownWants};

/// Proves that the trees and the instructions of known programs want the same in these cycles.
pub fn known_programs()
    ensures wants { KnownWants }
    ensures choices { KnownChoices }
    ensures values { KnownValues }
    ensures restarts { KnownRestarts }
{}
