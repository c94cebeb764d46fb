//! The kinds of bytes that tokens are made of.
ghost use Rattle.std.specs.Prelude.{◌≡◌};
ghost use Rattle.params_syntax.specs.Tokens.{is_digit, begins_name, is_name_byte, is_word_byte, is_blank, sign_of};

use crate::token::Sign;

/// A decimal digit.
pub fn is_digit(b: u8) -> bool
    ensures digit { result ≡ is_digit b }
{
    b >= b'0' && b <= b'9'
}

/// A letter or `_`.
pub fn begins_name(b: u8) -> bool
    ensures begins { result ≡ begins_name b }
{
    b >= b'A' && b <= b'Z' || b >= b'a' && b <= b'z' || b == b'_'
}

/// A letter, `_` or a digit.
pub fn is_name_byte(b: u8) -> bool
    ensures name { result ≡ is_name_byte b }
{
    begins_name(b) || is_digit(b)
}

/// A byte that may stand in a word.
pub fn is_word_byte(b: u8) -> bool
    ensures word { result ≡ is_word_byte b }
{
    b >= b' ' && b <= b'~' && b != b'"' && b != b'\\'
}

/// Space, tab, line feed or carriage return.
pub fn is_blank(b: u8) -> bool
    ensures blank { result ≡ is_blank b }
{
    b == b' ' || b == b'\t' || b == b'\n' || b == b'\r'
}

/// The sign of a byte, where it is one.
pub fn sign_of(b: u8) -> Option<Sign>
    ensures sign { result ≡ sign_of b }
{
    match b {
        b'{' => Some(Sign::Opens),
        b'}' => Some(Sign::Closes),
        b'=' => Some(Sign::Equals),
        b';' => Some(Sign::Ends),
        b'[' => Some(Sign::ListOpens),
        b']' => Some(Sign::ListCloses),
        b',' => Some(Sign::Comma),
        _ => None,
    }
}
