//! The token at the front of a text.
ghost use Rattle.std.specs.Prelude.{◌≡◌, ℕ, ◌<◌, ◌≤◌, ◌∷◌, length, true, slice_index, IfSome, IfNone};
ghost use Rattle.std.specs.List.{prefix_len};
ghost use Rattle.std.specs.Str.Parse.{digits_value};
ghost use Rattle.params_syntax.specs.Limits.{greatest};
ghost use Rattle.params_syntax.specs.Tokens.{is_digit, is_name_byte, is_word_byte, after_gap, name_at, digits_at, word_at, token_at};
ghost use Rattle.params_syntax.specs.Machine.Forming.{Gives, signed};

use crate::classes::{begins_name, is_blank, is_digit, is_name_byte, is_word_byte, sign_of};
use crate::fault::SyntaxKind;
use crate::token::Token;
use crate::tree::Atom;
use cello_num::Name;

/// The greatest number.
const GREATEST: u64 = 9_223_372_036_854_775_807;

/// What stands after the blanks and comments at the front.
pub fn after_gap(text: &[u8]) -> &[u8]
    ensures rest { result.now ≡ after_gap text.now }
{
    let mut rest = text;
    let mut in_comment = false;
    while let [b, after @ ..] = rest {
        if in_comment {
            in_comment = *b != b'\n';
        } else if *b == b'#' {
            in_comment = true;
        } else if !is_blank(*b) {
            return rest;
        }
        rest = after;
    }
    rest
}

/// How many bytes of a name stand at the front.
fn name_len(text: &[u8]) -> usize
    ensures longest { result ≡ prefix_len is_name_byte text.now }
    ensures within { result ≤ length text.now }
{
    text.iter().take_while(|b| is_name_byte(**b)).count()
}

/// How many digits stand at the front.
fn digits_len(text: &[u8]) -> usize
    ensures longest { result ≡ prefix_len is_digit text.now }
    ensures within { result ≤ length text.now }
{
    text.iter().take_while(|b| is_digit(**b)).count()
}

/// How many bytes of a word stand at the front.
fn word_len(text: &[u8]) -> usize
    ensures longest { result ≡ prefix_len is_word_byte text.now }
    ensures within { result ≤ length text.now }
{
    text.iter().take_while(|b| is_word_byte(**b)).count()
}

/// A name, and what stands after it.
fn name_at(text: &[u8]) -> Result<(Token, &[u8]), SyntaxKind>
    ensures name { Gives (λ x. (x.0, x.1.now)) result (name_at text.now) }
{
    let (name, rest) = text.split_at(name_len(text));
    match Name::of(name) {
        Some(name) => Ok((Token::Name(name), rest)),
        None => Err(SyntaxKind::Name),
    }
}

/// The value of digits, where it is in range.
fn value_of(digits: &[u8]) -> Option<u64>
    requires digits { (k : ℕ) → k < length digits.now → is_digit (slice_index digits.now k) ≡ true }
    ensures value { IfSome result (λ value. value ≡ digits_value 10 digits.now) }
    ensures low { IfSome result (λ value. value ≤ greatest) }
    ensures high { IfNone result (greatest < digits_value 10 digits.now) }
{
    let mut value = 0u64;
    for digit in digits {
        if value > GREATEST / 10 {
            return None;
        }
        value = value * 10 + u64::from(*digit - b'0');
        if value > GREATEST {
            return None;
        }
    }
    Some(value)
}

/// A number after its sign, and what stands after it.
fn digits_at(negative: bool, text: &[u8]) -> Result<(Token, &[u8]), SyntaxKind>
    ensures number { Gives (λ x. (x.0, x.1.now)) result (digits_at (signed negative) text.now) }
{
    let (digits, rest) = text.split_at(digits_len(text));
    if digits.is_empty() {
        return Err(SyntaxKind::Number);
    }
    match value_of(digits) {
        Some(value) => {
            let value = value as i64;
            let number = if negative { -value } else { value };
            Ok((Token::Atom(Atom::Number(number)), rest))
        }
        None => Err(SyntaxKind::Number),
    }
}

/// A word after its opening `"`, and what stands after it.
fn word_at(text: &[u8]) -> Result<(Token, &[u8]), SyntaxKind>
    ensures word { Gives (λ x. (x.0, x.1.now)) result (word_at text.now) }
{
    let (word, rest) = text.split_at(word_len(text));
    match (Name::of(word), rest) {
        (Some(word), [b'"', rest @ ..]) => Ok((Token::Atom(Atom::Word(word)), rest)),
        _ => Err(SyntaxKind::Word),
    }
}

/// The token that begins with the first byte of a text, and what stands after it.
pub fn token_at<'a>(
    first: u8,
    after: &'a [u8],
    text: &'a [u8],
) -> Result<(Token, &'a [u8]), SyntaxKind>
    requires front { text.now ≡ first ∷ after.now }
    ensures token { Gives (λ x. (x.0, x.1.now)) result (token_at first after.now) }
{
    if let Some(sign) = sign_of(first) {
        Ok((Token::Sign(sign), after))
    } else if begins_name(first) {
        name_at(text)
    } else if is_digit(first) {
        digits_at(false, text)
    } else if first == b'-' {
        digits_at(true, after)
    } else if first == b'"' {
        word_at(after)
    } else {
        Err(SyntaxKind::Byte)
    }
}
