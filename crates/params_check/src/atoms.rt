//! Numbers and words, the elements of values.
ghost use Rattle.std.specs.Prelude.{◌≡◌, ◌&&◌, ◌||◌, ◌==◌, map};
ghost use Rattle.params_syntax.specs.Tokens.{is_digit};
ghost use Rattle.params_check.specs.Forms.{all_differ, each, is_between, is_even, is_field_byte, is_field_name, is_small_letter, is_up_to};
ghost use Rattle.params_check.specs.Keys.{is_among};
ghost use Rattle.params_check.specs.Values.{number_of, same, size_of, word_of};

use crate::bounds::LONGEST_FIELD;
use cello_num::Name;
use params_syntax::Atom;

/// The number of an atom; of a word 0.
pub(crate) fn number_of(atom: &Atom) -> i64
    ensures number { result ≡ number_of atom.now }
{
    match atom {
        Atom::Number(number) => *number,
        Atom::Word(_) => 0,
    }
}

/// The size of the number of an atom; of a word 0.
pub(crate) fn size_of(atom: &Atom) -> u64
    ensures size { result ≡ size_of atom.now }
{
    match atom {
        Atom::Number(number) => number.unsigned_abs(),
        Atom::Word(_) => 0,
    }
}

/// The word of an atom; of a number none.
pub(crate) fn word_of(atom: &Atom) -> &[u8]
    ensures word { result.now ≡ word_of atom.now }
{
    match atom {
        Atom::Number(_) => &[],
        Atom::Word(word) => word.bytes(),
    }
}

/// Whether an atom is a number from a least one to a greatest.
pub(crate) fn is_between(atom: &Atom, low: u64, high: u64) -> bool
    ensures between { result ≡ is_between low high atom.now }
{
    match atom {
        Atom::Number(number) => {
            let size = number.unsigned_abs();
            *number >= 0 && size >= low && size <= high
        }
        Atom::Word(_) => false,
    }
}

/// Whether an atom is a number of at most this size.
pub(crate) fn is_up_to(atom: &Atom, most: u64) -> bool
    ensures up_to { result ≡ is_up_to most atom.now }
{
    match atom {
        Atom::Number(number) => number.unsigned_abs() <= most,
        Atom::Word(_) => false,
    }
}

/// Whether an atom is an even number.
pub(crate) fn is_even(atom: &Atom) -> bool
    ensures even { result ≡ is_even atom.now }
{
    match atom {
        Atom::Number(number) => number.unsigned_abs() % 2 == 0,
        Atom::Word(_) => false,
    }
}

/// Whether these are the bytes of one of some words.
pub(crate) fn is_among(words: &[&[u8]], bytes: &[u8]) -> bool
    ensures among { result ≡ is_among (map (λ w. w.now) words.now) bytes.now }
{
    for word in words {
        if *word == bytes {
            return true;
        }
    }
    false
}

/// Whether these are the bytes of one of some names.
pub(crate) fn is_name_of(names: &[Name], bytes: &[u8]) -> bool
    ensures among { result ≡ is_among names.now bytes.now }
{
    for name in names {
        if name.bytes() == bytes {
            return true;
        }
    }
    false
}

/// Whether a byte may stand in the name of a field, after its first.
fn is_field_byte(byte: u8) -> bool
    ensures byte { result ≡ is_field_byte byte }
{
    (byte >= b'a' && byte <= b'z') || (byte >= b'0' && byte <= b'9') || byte == b'_'
}

/// Whether each byte may stand in the name of a field, after its first.
fn are_field_bytes(bytes: &[u8]) -> bool
    ensures each { result ≡ each is_field_byte bytes.now }
{
    for byte in bytes {
        if !is_field_byte(*byte) {
            return false;
        }
    }
    true
}

/// Whether bytes are the name of a field.
pub(crate) fn is_field_name(bytes: &[u8]) -> bool
    ensures name { result ≡ is_field_name bytes.now }
{
    match bytes {
        [] => false,
        [first, rest @ ..] => {
            *first >= b'a'
                && *first <= b'z'
                && are_field_bytes(rest)
                && bytes.len() <= LONGEST_FIELD
        }
    }
}

/// Whether a word stands among atoms.
fn stands_among(atoms: &[Atom], word: &[u8]) -> bool
    ensures among { result ≡ is_among (map word_of atoms.now) word.now }
{
    for atom in atoms {
        if word_of(atom) == word {
            return true;
        }
    }
    false
}

/// Whether no word stands twice.
pub(crate) fn all_differ(atoms: &[Atom]) -> bool
    ensures differ { result ≡ all_differ (map word_of atoms.now) }
{
    for (i, atom) in atoms.iter().enumerate() {
        if stands_among(&atoms[i + 1..], word_of(atom)) {
            return false;
        }
    }
    true
}
