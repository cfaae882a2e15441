//! Names that are spelled nearly the same.

ghost use Rattle.std.specs.Prelude.{◌≡◌, ◌+◌, ◌<◌, ◌≤◌};
ghost use Rattle.explanations.specs.Spelling.{are_near, are_swapped, differ_once};

/// Reports whether two names differ by one letter: one is another letter, is missing, or is swapped with the next one.
pub fn is_near(left: &[u8], right: &[u8]) -> bool
    ensures { result ≡ are_near left.now right.now }
{
    match (left, right) {
        ([a, rest @ ..], [b, other @ ..]) if a == b => is_near(rest, other),
        _ => differs_once(left, right),
    }
}

/// Reports whether two texts differ at their beginning by one letter, and are the same after it.
fn differs_once(left: &[u8], right: &[u8]) -> bool
    ensures { result ≡ differ_once left.now right.now }
{
    match (left, right) {
        ([_, rest @ ..], [_, other @ ..]) => {
            rest == other || rest == right || left == other || is_swapped(left, right)
        }
        ([_], []) | ([], [_]) => true,
        _ => false,
    }
}

/// Reports whether two texts are the same but for their first two letters, which are swapped.
fn is_swapped(left: &[u8], right: &[u8]) -> bool
    ensures { result ≡ are_swapped left.now right.now }
{
    match (left, right) {
        ([a, b, rest @ ..], [c, d, other @ ..]) => a == d && b == c && rest == other,
        _ => false,
    }
}

/// Reports whether two names are the same but for small and capital letters.
/// It isn't inlined, since the page's module is to be small.
#[inline(never)]
pub fn is_same_but_for_case(left: &[u8], right: &[u8]) -> bool {
    for (a, b) in left.iter().zip(right) {
        if lower(*a) != lower(*b) {
            return false;
        }
    }
    left.len() == right.len()
}

/// Reports whether a name has these small letters, but for capital ones and each `_`.
pub fn has_letters(name: &[u8], letters: &[u8]) -> bool {
    let mut count = 0usize;
    for byte in name {
        if *byte != b'_' {
            match letters.get(count) {
                Some(letter) if *letter == lower(*byte) => count = count.saturating_add(1),
                _ => return false,
            }
        }
    }
    count == letters.len()
}

/// Returns the small letter of a capital one, and every other byte as it is.
fn lower(byte: u8) -> u8
    ensures capital { 65 ≤ byte → byte ≤ 90 → result ≡ byte + 32 }
    ensures low { byte < 65 → result ≡ byte }
    ensures high { 90 < byte → result ≡ byte }
{
    match byte {
        b'A'..=b'Z' => byte + 32,
        _ => byte,
    }
}
