//! The number of a value of the command line.

ghost use Rattle.std.specs.Prelude.{◌≡◌, ◌≤◌, ◌==◌, IfSome, slice_index};
ghost use Rattle.settings.specs.Numbers.{value_number};

/// Reads a value: one or more ASCII digits, whose number is from `least` to `most`.
///
/// Leading zeros are allowed, and a sign isn't. `None` if the text is no such number.
pub fn value_number(text: &str, least: u64, most: u64) -> Option<u64>
    ensures value { result ≡ value_number least most text.now }
    ensures within { IfSome result (λ n. (least ≤ n) × (n ≤ most)) }
{
    if has_plus(text) {
        return None;
    }
    match text.parse::<u64>() {
        Ok(number) if least <= number && number <= most => Some(number),
        _ => None,
    }
}

/// Reports whether a text begins with `+`.
fn has_plus(text: &str) -> bool
    ensures { result ≡ (slice_index text.now 0 == 43) }
{
    matches!(text.as_bytes(), [b'+', ..])
}
