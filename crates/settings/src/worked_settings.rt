//! Known settings of the definitions.

ghost use Rattle.settings.specs.KnownSettings.{KnownSettings};

/// Proves that the definitions give these settings and refusals for what these command lines gave.
pub fn known_settings()
    ensures { KnownSettings }
{}
