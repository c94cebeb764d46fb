//! Whether a value is one that a key takes: its form, and its range.
ghost use Rattle.std.specs.Prelude.{◌≡◌, not, length};
ghost use Rattle.params_syntax.specs.declared.tree.Value.{Value};
ghost use Rattle.params_check.specs.Forms.{are_distinct, each, has_form, is_in_range, is_in_reach, is_wanted, most_threshold, wants_list_of, wants_numbers, wants_single};
ghost use Rattle.params_check.specs.Keys.{is_among};
ghost use Rattle.params_check.specs.Lemmas.Tables.{wanted_of};

use crate::atoms::{
    all_differ, is_among, is_between, is_even, is_field_name, is_name_of, is_up_to, word_of,
};
use crate::bounds::{GREATEST_AMOUNT, GREATEST_SLOPE, MOST_FIELDS};
use crate::entries::Wanted;
use cello_num::Name;
use params_syntax::{Atom, Value};

/// Whether numbers are wanted, and not words.
fn wants_numbers(wanted: Wanted) -> bool
    ensures numbers { result ≡ wants_numbers (wanted_of wanted) }
{
    match wanted {
        Wanted::Number(..) | Wanted::Even(..) | Wanted::Threshold => true,
        Wanted::Triple(..) | Wanted::TripleUpTo(..) => true,
        _ => false,
    }
}

/// Whether a list of so many elements is wanted.
fn wants_list_of(wanted: Wanted, count: usize) -> bool
    ensures list { result ≡ wants_list_of (wanted_of wanted) count }
{
    match wanted {
        Wanted::Triple(..) | Wanted::TripleUpTo(..) | Wanted::ThreeOf(..) => count == 3,
        Wanted::NewNames => true,
        _ => false,
    }
}

/// Whether a single number or word is wanted, and no list.
fn wants_single(wanted: Wanted) -> bool
    ensures single { result ≡ wants_single (wanted_of wanted) }
{
    match wanted {
        Wanted::Number(..) | Wanted::Even(..) | Wanted::Threshold => true,
        Wanted::OneOf(..) | Wanted::FieldName => true,
        _ => false,
    }
}

/// Whether an element is a number where numbers are wanted, and else a word.
fn is_wanted(wanted: Wanted, atom: &Atom) -> bool
    ensures wanted { result ≡ is_wanted (wanted_of wanted) atom.now }
{
    match atom {
        Atom::Number(_) => wants_numbers(wanted),
        Atom::Word(_) => !wants_numbers(wanted),
    }
}

/// Whether all elements are numbers, or words, as it is wanted.
fn are_wanted(wanted: Wanted, atoms: &[Atom]) -> bool
    ensures each { result ≡ each (is_wanted (wanted_of wanted)) atoms.now }
{
    for atom in atoms {
        if !is_wanted(wanted, atom) {
            return false;
        }
    }
    true
}

/// Whether a value has the form that is wanted.
pub(crate) fn has_form(wanted: Wanted, value: &Value) -> bool
    ensures form { result ≡ has_form (wanted_of wanted) value.now }
{
    match value {
        Value::Atom(atom) => wants_single(wanted) && is_wanted(wanted, atom),
        Value::List(atoms) => {
            let atoms = atoms.items();
            wants_list_of(wanted, atoms.len()) && are_wanted(wanted, atoms)
        }
    }
}

/// The greatest threshold of a kind of criterion.
fn most_threshold(kind: &[u8]) -> u64
    ensures most { result ≡ most_threshold kind.now }
{
    if kind == b"slope".as_slice() {
        GREATEST_SLOPE
    } else {
        GREATEST_AMOUNT
    }
}

/// Whether an element is in the range of a key of a kind of sub, where `names` are those of the fields.
fn is_in_reach(wanted: Wanted, atom: &Atom, kind: &[u8], names: &[Name]) -> bool
    ensures reach { result ≡ is_in_reach names.now kind.now (wanted_of wanted) atom.now }
{
    match wanted {
        Wanted::Number(low, high) | Wanted::Triple(low, high) => is_between(atom, low, high),
        Wanted::Even(low, high) => is_between(atom, low, high) && is_even(atom),
        Wanted::TripleUpTo(most) => is_up_to(atom, most),
        Wanted::OneOf(words) | Wanted::ThreeOf(words) => is_among(words, word_of(atom)),
        Wanted::NewNames => is_field_name(word_of(atom)),
        Wanted::FieldName => is_name_of(names, word_of(atom)),
        Wanted::Threshold => is_between(atom, 0, most_threshold(kind)),
    }
}

/// Whether all elements are in the range of a key.
fn are_in_reach(wanted: Wanted, atoms: &[Atom], kind: &[u8], names: &[Name]) -> bool
    ensures each { result ≡ each (is_in_reach names.now kind.now (wanted_of wanted)) atoms.now }
{
    for atom in atoms {
        if !is_in_reach(wanted, atom, kind, names) {
            return false;
        }
    }
    true
}

/// Whether new names are few, and differ.
fn are_distinct(wanted: Wanted, atoms: &[Atom]) -> bool
    ensures distinct { result ≡ are_distinct (wanted_of wanted) atoms.now }
{
    match wanted {
        Wanted::NewNames => atoms.len() <= MOST_FIELDS && all_differ(atoms),
        _ => true,
    }
}

/// Whether a value is in its range for a sub of a kind, where `names` are those of the fields.
pub(crate) fn is_in_range(wanted: Wanted, value: &Value, kind: &[u8], names: &[Name]) -> bool
    ensures range { result ≡ is_in_range names.now kind.now (wanted_of wanted) value.now }
{
    match value {
        Value::Atom(atom) => is_in_reach(wanted, atom, kind, names),
        Value::List(atoms) => {
            let atoms = atoms.items();
            are_in_reach(wanted, atoms, kind, names) && are_distinct(wanted, atoms)
        }
    }
}
