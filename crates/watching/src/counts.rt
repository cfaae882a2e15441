//! The largest of some counts.

ghost use Rattle.std.specs.Prelude.{◌≡◌, ℕ, ◌<◌, ◌≤◌, IfSome, None, length, slice_index};

/// Returns which count is the largest, the first of several: none if all are 0.
pub fn largest(counts: &[u64]) -> Option<usize>
    ensures inside { IfSome result (λ n. n < length counts.now) }
    ensures most { (k : ℕ) → k < length counts.now
        → IfSome result (λ n. slice_index counts.now k ≤ slice_index counts.now n) }
    ensures first { (k : ℕ) → IfSome result (λ n. k < n → slice_index counts.now k < slice_index counts.now n) }
    ensures some { IfSome result (λ n. 0 < slice_index counts.now n) }
    ensures none { (k : ℕ) → k < length counts.now → result ≡ None → slice_index counts.now k ≡ 0 }
{
    if counts.is_empty() {
        return None;
    }
    let n = greatest(counts);
    if counts[n] == 0 { None } else { Some(n) }
}

/// Returns which count is the largest, the first of several.
fn greatest(counts: &[u64]) -> usize
    requires { 0 < length counts.now }
    ensures inside { result < length counts.now }
    ensures most { (k : ℕ) → k < length counts.now → slice_index counts.now k ≤ slice_index counts.now result }
    ensures first { (k : ℕ) → k < result → slice_index counts.now k < slice_index counts.now result }
{
    let mut found = 0;
    for n in 0..counts.len() {
        if counts[n] > counts[found] {
            found = n;
        }
    }
    found
}
