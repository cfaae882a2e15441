//! Spans of bytes up to the first one of a kind, 32 bytes at a time.

ghost use Rattle.std.specs.Prelude.{◌≡◌, ℕ, ◌≤◌, Bool, false, not, ◌==◌, length, map, take};
ghost use Rattle.std.specs.List.{prefix_len, count_by};
ghost use Rattle.std.specs.Simd.Lanes.{mask_l};
ghost use Rattle.tokens.specs.WindowLimits.{window_bytes};
ghost use Rattle.tokens.specs.Characters.{is_blank};

use crate::characters::is_blank;
use std::simd::prelude::*;

/// The byte that ends a source.
const END_BYTE: u8 = 26;

/// The byte that ends a line.
pub const LINE_FEED: u8 = 10;

/// How many bytes are tested together.
const VECTOR_BYTES: usize = 32;

/// How many bytes are tested together if few of them end a span.
const WIDE: usize = 64;

/// A kind of bytes that ends a span of others.
pub trait StopByte {
    // whether a byte is of the kind
    ghost stops: { ℕ → Bool };

    /// Reports whether a byte is of the kind.
    fn is_stop(b: u8) -> bool
        ensures { result ≡ stops b };

    /// Reports this of each byte of a vector, as a bit. No byte of the kind ends a line.
    fn stop_bits(block: u8x32) -> u64
        ensures bits { result ≡ mask_l (map stops block) }
        ensures in_line { stops 10 ≡ false };
}

/// A `*`, which may close a comment.
pub struct StarByte;

impl StopByte for StarByte {
    ghost stops = { λ b. b == 42 };

    #[inline(always)]
    fn is_stop(b: u8) -> bool {
        b == b'*'
    }

    #[inline(always)]
    fn stop_bits(block: u8x32) -> u64 {
        block.simd_eq(u8x32::splat(b'*')).to_bitmask()
    }
}

/// The byte 26, which ends a source.
pub struct SourceEndByte;

impl StopByte for SourceEndByte {
    ghost stops = { λ b. b == 26 };

    #[inline(always)]
    fn is_stop(b: u8) -> bool {
        b == END_BYTE
    }

    #[inline(always)]
    fn stop_bits(block: u8x32) -> u64 {
        block.simd_eq(u8x32::splat(END_BYTE)).to_bitmask()
    }
}

/// Each blank at the index of its low four bits, in both halves. The other entries are 0, which is found nowhere:
/// entry 0 is a space.
#[rattlefmt::skip]
const BLANKS: [u8; VECTOR_BYTES] = [
    b' ', 0, 0, 0, 0, 0, 0, 0, 0, 9, 10, 11, 12, 13, 0, 0,
    b' ', 0, 0, 0, 0, 0, 0, 0, 0, 9, 10, 11, 12, 13, 0, 0,
];

/// Any byte that is no blank.
pub struct NonBlankByte;

impl StopByte for NonBlankByte {
    ghost stops = { λ b. not (is_blank b) };

    #[inline(always)]
    fn is_stop(b: u8) -> bool {
        !is_blank(b)
    }

    #[inline(always)]
    fn stop_bits(block: u8x32) -> u64 {
        // A byte is a blank if and only if the table has it at its low four bits.
        let low = block & u8x32::splat(15);
        let blanks = u8x32::from_array(BLANKS).swizzle_dyn_within::<16>(low);
        block.simd_ne(blanks).to_bitmask()
    }
}

/// Returns how many bytes there are before the first that ends a source.
pub fn span_before_end(bytes: &[u8]) -> usize
    requires { length bytes.now ≤ window_bytes }
    ensures { result ≡ prefix_len (λ b. not (b == 26)) bytes.now }
{
    let mut count = 0;
    // Two wide vectors fit before this index.
    let room = bytes.len().saturating_sub(2 * WIDE - 1);
    while count < room {
        let here = has_end(u8x64::from_slice(&bytes[count..]));
        let behind = has_end(u8x64::from_slice(&bytes[count + WIDE..]));
        if here | behind {
            break;
        }
        count += 2 * WIDE;
    }
    count + span_before::<SourceEndByte>(&bytes[count..]).0
}

/// Reports whether a byte of a wide vector is 26.
#[inline(always)]
fn has_end(block: u8x64) -> bool
    ensures { result ≡ false → prefix_len (λ b. not (b == 26)) block ≡ 64 }
{
    block.simd_eq(u8x64::splat(END_BYTE)).any()
}

/// Returns how many bytes there are before the first of this kind, and how many of them end a line.
pub fn span_before<S: StopByte>(bytes: &[u8]) -> (usize, u32)
    requires { length bytes.now ≤ window_bytes }
    ensures count { result.0 ≡ prefix_len (λ b. not (S.stops b)) bytes.now }
    ensures lines { result.1 ≡ count_by (λ b. b == 10) (take result.0 bytes.now) }
{
    let mut count = 0;
    let mut lines = 0;
    while bytes.len() - count >= VECTOR_BYTES {
        let (run, ended) = span_in_vector::<S>(u8x32::from_slice(&bytes[count..]));
        count += run;
        lines += ended;
        if run < VECTOR_BYTES {
            return (count, lines);
        }
    }
    let (run, ended) = span_by_one::<S>(&bytes[count..]);
    (count + run, lines + ended)
}

/// Returns the same for a vector.
#[inline(always)]
fn span_in_vector<S: StopByte>(block: u8x32) -> (usize, u32)
    ensures count { result.0 ≡ prefix_len (λ b. not (S.stops b)) block }
    ensures lines { result.1 ≡ count_by (λ b. b == 10) (take result.0 block) }
    ensures within { result.0 ≤ 32 }
{
    let stops = S::stop_bits(block);
    let feeds = block.simd_eq(u8x32::splat(LINE_FEED)).to_bitmask();
    if stops == 0 {
        return (VECTOR_BYTES, feeds.count_ones());
    }
    let run = stops.trailing_zeros();
    // No stop ends a line, so of the bits of line ends those before the first stop are left.
    (run as usize, (feeds & (stops - 1)).count_ones())
}

/// Returns the same, a byte at a time.
fn span_by_one<S: StopByte>(bytes: &[u8]) -> (usize, u32)
    requires { length bytes.now ≤ window_bytes }
    ensures count { result.0 ≡ prefix_len (λ b. not (S.stops b)) bytes.now }
    ensures lines { result.1 ≡ count_by (λ b. b == 10) (take result.0 bytes.now) }
{
    let mut lines = 0;
    for (i, b) in bytes.iter().enumerate() {
        if S::is_stop(*b) {
            return (i, lines);
        }
        if *b == LINE_FEED {
            lines += 1;
        }
    }
    (bytes.len(), lines)
}
