//! Laws of the tokens. Each function does nothing: what it ensures is the law.

ghost use Rattle.std.specs.Prelude.{ℕ, List, length};
ghost use Rattle.tokens.specs.KnownTokens.{KnownTokens};
ghost use Rattle.tokens.specs.Source.{source};
ghost use Rattle.tokens.specs.Tokens.{tokens};
ghost use Rattle.tokens.specs.Ends.{IsRising, AllEndBy, StaysUndecided};

/// Proves that tokens end one after the other, and none after the source. None is decided before the one that precedes
/// it ends.
pub fn ends_rise()
    ensures rising { (bytes : List ℕ) → IsRising 0 (tokens bytes) }
    ensures within { (bytes : List ℕ) → AllEndBy (length (source bytes)) (tokens bytes) }
    ensures stays_undecided { (bytes : List ℕ) → StaysUndecided 0 (tokens bytes) }
{}

/// Proves that small sources have these tokens.
pub fn known_tokens()
    ensures { KnownTokens }
{}
