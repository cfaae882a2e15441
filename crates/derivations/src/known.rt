//! Sources whose instructions have known positions, worked out from the definition.

ghost use Rattle.derivations.specs.KnownPositions.{KnownPositions};

/// Proves that the instructions of known sources have these positions.
pub fn known_positions()
    ensures { KnownPositions }
{}
