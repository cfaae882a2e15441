//! Fields that show the rules.

ghost use Rattle.arena.specs.KnownFields.{KnownScans, KnownStarts, KnownDrives, KnownKnocks, KnownRings, KnownMissiles};

/// Proves that the definitions give these values in known fields.
pub fn known_fields()
    ensures scans { KnownScans }
    ensures starts { KnownStarts }
    ensures drives { KnownDrives }
    ensures knocks { KnownKnocks }
    ensures rings { KnownRings }
    ensures missiles { KnownMissiles }
{}
