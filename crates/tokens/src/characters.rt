//! The kinds of characters that the language distinguishes.

ghost use Rattle.std.specs.Prelude.{◌≡◌};
ghost use Rattle.tokens.specs.Characters.{is_blank, is_letter, is_digit, is_name_byte};

/// The kind of a byte that a name begins with.
pub const LETTER: u8 = 0;

/// The kind of a decimal digit.
pub const DIGIT: u8 = 1;

/// The kind of a byte that is none of the others.
pub const OTHER: u8 = 2;

// The punctuators of one byte, first those that no longer punctuator begins with.

/// The kind of `(`.
pub const OPEN_ROUND: u8 = 3;

/// The kind of `)`.
pub const CLOSE_ROUND: u8 = 4;

/// The kind of `{`.
pub const OPEN_CURLY: u8 = 5;

/// The kind of `}`.
pub const CLOSE_CURLY: u8 = 6;

/// The kind of `,`.
pub const COMMA: u8 = 7;

/// The kind of `;`.
pub const SEMICOLON: u8 = 8;

/// The kind of `+`.
pub const PLUS: u8 = 9;

/// The kind of `-`.
pub const MINUS: u8 = 10;

/// The kind of `*`.
pub const STAR: u8 = 11;

/// The kind of `/`.
pub const SLASH: u8 = 12;

/// The kind of `%`.
pub const PERCENT: u8 = 13;

/// The kind of `&`.
pub const AND: u8 = 14;

/// The kind of `|`.
pub const OR: u8 = 15;

/// The kind of `^`.
pub const XOR: u8 = 16;

/// The kind of `~`.
pub const TILDE: u8 = 17;

/// The kind of `!`.
pub const NOT: u8 = 18;

/// The kind of `<`.
pub const LESS: u8 = 19;

/// The kind of `>`.
pub const GREATER: u8 = 20;

/// The kind of `=`.
pub const EQUALS: u8 = 21;

/// The kind of each byte, 16 in a line: `LETTER` to `EQUALS`.
#[rattlefmt::skip]
pub static KINDS: [u8; 256] = [
     2,  2,  2,  2,  2,  2,  2,  2,  2,  2,  2,  2,  2,  2,  2,  2,
     2,  2,  2,  2,  2,  2,  2,  2,  2,  2,  2,  2,  2,  2,  2,  2,
     2, 18,  2,  2,  2, 13, 14,  2,  3,  4, 11,  9,  7, 10,  2, 12,
     1,  1,  1,  1,  1,  1,  1,  1,  1,  1,  2,  8, 19, 21, 20,  2,
     2,  0,  0,  0,  0,  0,  0,  0,  0,  0,  0,  0,  0,  0,  0,  0,
     0,  0,  0,  0,  0,  0,  0,  0,  0,  0,  0,  2,  2,  2, 16,  0,
     2,  0,  0,  0,  0,  0,  0,  0,  0,  0,  0,  0,  0,  0,  0,  0,
     0,  0,  0,  0,  0,  0,  0,  0,  0,  0,  0,  5, 15,  6, 17,  2,
     2,  2,  2,  2,  2,  2,  2,  2,  2,  2,  2,  2,  2,  2,  2,  2,
     2,  2,  2,  2,  2,  2,  2,  2,  2,  2,  2,  2,  2,  2,  2,  2,
     2,  2,  2,  2,  2,  2,  2,  2,  2,  2,  2,  2,  2,  2,  2,  2,
     2,  2,  2,  2,  2,  2,  2,  2,  2,  2,  2,  2,  2,  2,  2,  2,
     2,  2,  2,  2,  2,  2,  2,  2,  2,  2,  2,  2,  2,  2,  2,  2,
     2,  2,  2,  2,  2,  2,  2,  2,  2,  2,  2,  2,  2,  2,  2,  2,
     2,  2,  2,  2,  2,  2,  2,  2,  2,  2,  2,  2,  2,  2,  2,  2,
     2,  2,  2,  2,  2,  2,  2,  2,  2,  2,  2,  2,  2,  2,  2,  2,
];

/// Reports whether a byte is a space, TAB, LF, VT, FF or CR.
#[inline(always)]
pub fn is_blank(b: u8) -> bool
    ensures { result ≡ is_blank b }
{
    b == b' ' || (9 <= b && b <= 13)
}

/// Reports whether a byte is a decimal digit.
#[inline(always)]
pub fn is_digit(b: u8) -> bool
    ensures { result ≡ is_digit b }
{
    b'0' <= b && b <= b'9'
}

/// Reports whether a byte is an ASCII letter or `_`.
#[inline(always)]
pub fn is_letter(b: u8) -> bool
    ensures { result ≡ is_letter b }
{
    KINDS[usize::from(b)] == LETTER
}

/// Reports whether a name may go on with this byte.
#[inline(always)]
pub fn is_name_byte(b: u8) -> bool
    ensures { result ≡ is_name_byte b }
{
    KINDS[usize::from(b)] <= DIGIT
}
