//! Known battles of the definitions.

ghost use Rattle.battles.specs.KnownBattles.{KnownBattles, KnownShortBattles};

/// Proves that the definitions give these ends of the battles of known robots, in both profiles.
pub fn known_battles()
    ensures battles { KnownBattles }
    ensures short_battles { KnownShortBattles }
{}
