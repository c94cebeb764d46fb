//! The forms of words: a fixed one, the name of a file, the number of a cycle, a seed, a size.
ghost use Rattle.std.specs.Prelude.{◌≡◌, ℕ, ◌≤◌, IfSome, IsNone, decimal, false, true};
ghost use Rattle.std.specs.Bool.{Decides};
ghost use Rattle.std.specs.String.{string_bytes};
ghost use Rattle.demo_params.specs.DemoTexts.{most_seed, most_size};
ghost use Rattle.params_check.specs.Bounds.{most_cycles};
ghost use Rattle.params_check.specs.Forms.{each};
ghost use Rattle.cello_top.specs.Words.{begins_file_name, is_file_byte, is_file_name};

use cello_num::Name;
use text_line::Line;

/// The last cycle that a run may have.
const MOST_CYCLES: u32 = 4096;

/// The greatest seed of a demonstration.
const MOST_SEED: u32 = 65_535;

/// The greatest size of a demonstration.
const MOST_SIZE: u32 = 4;

/// How many bytes the name of a file has at most.
const LONGEST_FILE_NAME: usize = 32;

/// Whether a word is this one.
#[tactic(auto, using(crate::proofs::CommandWords::decided))]
pub fn is_word(word: &String, bytes: &[u8]) -> bool
    ensures same { Decides result (string_bytes word.now ≡ bytes.now) }
{
    word.as_str().as_bytes() == bytes
}

/// The name of a file, if the word is one.
pub fn file_name(word: &String) -> Option<Name>
    ensures named { IfSome result (λ name. name ≡ string_bytes word.now) }
    ensures found { IfSome result (λ _. is_file_name (string_bytes word.now) ≡ true) }
    ensures none { IsNone result → is_file_name (string_bytes word.now) ≡ false }
{
    let bytes = word.as_str().as_bytes();
    if !is_file_name(bytes) {
        return None;
    }
    Name::of(bytes)
}

/// The number of a cycle, if the word is its decimal spelling.
pub fn cycle_of(word: &String) -> Option<u32>
    ensures spelled { IfSome result (λ cycle. string_bytes word.now ≡ decimal cycle) }
    ensures within { IfSome result (λ cycle. cycle ≤ most_cycles) }
    ensures none { IsNone result → (cycle : ℕ) → cycle ≤ most_cycles → string_bytes word.now ≡ decimal cycle → ⊥ }
{
    number_up_to(word, MOST_CYCLES)
}

/// The seed of a demonstration, if the word is its decimal spelling.
pub fn seed_of(word: &String) -> Option<u32>
    ensures spelled { IfSome result (λ seed. string_bytes word.now ≡ decimal seed) }
    ensures within { IfSome result (λ seed. seed ≤ most_seed) }
    ensures none { IsNone result → (seed : ℕ) → seed ≤ most_seed → string_bytes word.now ≡ decimal seed → ⊥ }
{
    number_up_to(word, MOST_SEED)
}

/// The size of a demonstration, if the word is its decimal spelling.
pub fn size_of(word: &String) -> Option<u32>
    ensures spelled { IfSome result (λ size. string_bytes word.now ≡ decimal size) }
    ensures some { IfSome result (λ size. 1 ≤ size) }
    ensures within { IfSome result (λ size. size ≤ most_size) }
    ensures none { IsNone result → (size : ℕ) → 1 ≤ size → size ≤ most_size → string_bytes word.now ≡ decimal size → ⊥ }
{
    let size = number_up_to(word, MOST_SIZE)?;
    if size < 1 {
        return None;
    }
    Some(size)
}

/// A number up to this one, if the word is its decimal spelling.
fn number_up_to(word: &String, most: u32) -> Option<u32>
    ensures spelled { IfSome result (λ number. string_bytes word.now ≡ decimal number) }
    ensures within { IfSome result (λ number. number ≤ most) }
    ensures none { IsNone result → (number : ℕ) → number ≤ most → string_bytes word.now ≡ decimal number → ⊥ }
{
    let text = word.as_str();
    let Ok(number) = text.parse::<u32>() else {
        return None;
    };
    if number > most {
        return None;
    }
    if !is_decimal(number, text.as_bytes()) {
        return None;
    }
    Some(number)
}

/// Whether bytes are the decimal spelling of a number.
#[tactic(auto, using(crate::proofs::CommandWords::decided))]
pub fn is_decimal(number: u32, bytes: &[u8]) -> bool
    ensures decimal { Decides result (bytes.now ≡ decimal number) }
{
    let mut line = Line::new();
    line.push_number(number);
    bytes == line.bytes()
}

/// Whether a byte may begin the name of a file.
fn begins_file_name(byte: u8) -> bool
    ensures begins { result ≡ begins_file_name byte }
{
    (byte >= b'a' && byte <= b'z') || (byte >= b'0' && byte <= b'9')
}

/// Whether a byte may stand in the name of a file, after its first.
fn is_file_byte(byte: u8) -> bool
    ensures byte { result ≡ is_file_byte byte }
{
    begins_file_name(byte) || byte == b'_' || byte == b'-' || byte == b'.'
}

/// Whether each byte may stand in the name of a file, after its first.
fn are_file_bytes(bytes: &[u8]) -> bool
    ensures each { result ≡ each is_file_byte bytes.now }
{
    for byte in bytes {
        if !is_file_byte(*byte) {
            return false;
        }
    }
    true
}

/// Whether bytes are the name of a file.
fn is_file_name(bytes: &[u8]) -> bool
    ensures name { result ≡ is_file_name bytes.now }
{
    match bytes {
        [] => false,
        [first, rest @ ..] => {
            begins_file_name(*first) && are_file_bytes(rest) && bytes.len() <= LONGEST_FILE_NAME
        }
    }
}
