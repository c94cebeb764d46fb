//! The values of keys: each as it stands in the text, or what the key is where it is left out.
ghost use Rattle.std.specs.Prelude.{◌≡◌, ◌≤◌, IfOk, codes, length, map, option_copied};
ghost use Rattle.std.specs.Option.{option_or};
ghost use Rattle.params_check.specs.Keys.{no_words};
ghost use Rattle.params_check.specs.Lemmas.Slots.{given};
ghost use Rattle.params_check.specs.Limits.{IsCorner};
ghost use Rattle.params_check.specs.TreeValues.{axis_kind};
ghost use Rattle.params_check.specs.Values.{number_of, numbers_in, same, size_in, sizes_in, word_in, word_of, words_in};

use crate::atoms::{number_of, size_of, word_of};
use crate::axis_kind::{AxisKind, axis_kind};
use crate::entries::Fallback;
use crate::place::name;
use cello_num::{Memory, Name};
use params_syntax::{Atom, Value};
use std::alloc::Global;

/// The value of a key where it stands in the text, and what the key is where it doesn't.
#[derive(Clone, Copy)]
pub(crate) struct Slot<'a> {
    pub(crate) value: Option<&'a Value>,
    pub(crate) fallback: Fallback,
}

impl<'a> Slot<'a> {
    /// The size of its number.
    pub(crate) fn number(&self) -> u64
        ensures number { result ≡ size_in (given self.now) }
    {
        match self.value {
            Some(Value::Atom(Atom::Number(number))) => number.unsigned_abs(),
            Some(_) => 0,
            None => match self.fallback {
                Fallback::Number(number) => number,
                _ => 0,
            },
        }
    }

    /// Its word.
    pub(crate) fn word(&self) -> &'a [u8]
        ensures word { result.now ≡ word_in (given self.now) }
    {
        match self.value {
            Some(Value::Atom(atom)) => word_of(atom),
            Some(_) => &[],
            None => match self.fallback {
                Fallback::Word(word) => word,
                _ => &[],
            },
        }
    }

    /// Whether its word is `yes`.
    pub(crate) fn is_yes(&self) -> bool
        ensures yes { result ≡ same (word_in (given self.now)) (codes "yes") }
    {
        self.word() == b"yes".as_slice()
    }

    /// Its three numbers.
    pub(crate) fn three_numbers(&self) -> [i64; 3]
        requires three { length (numbers_in (given self.now)) ≡ 3 }
        ensures numbers { result ≡ numbers_in (given self.now) }
        ensures length { length result ≡ 3 }
    {
        match self.value {
            Some(Value::List(atoms)) => match atoms.items() {
                [x, y, z] => [number_of(x), number_of(y), number_of(z)],
                _ => unreachable!(),
            },
            _ => [0; 3],
        }
    }

    /// The sizes of its three numbers, where they are no farther than the root cells reach.
    pub(crate) fn three_sizes(&self) -> [u16; 3]
        requires corner { IsCorner (sizes_in (given self.now)) }
        ensures sizes { result ≡ sizes_in (given self.now) }
    {
        match self.value {
            Some(Value::List(atoms)) => match atoms.items() {
                [x, y, z] => [size_of(x) as u16, size_of(y) as u16, size_of(z) as u16],
                _ => unreachable!(),
            },
            _ => [0; 3],
        }
    }

    /// The kinds of axes of its three words.
    pub(crate) fn three_axes(&self) -> [AxisKind; 3]
        requires three { length (words_in (given self.now)) ≡ 3 }
        ensures axes { result ≡ map axis_kind (words_in (given self.now)) }
        ensures length { length result ≡ 3 }
    {
        match self.value {
            Some(Value::List(atoms)) => match atoms.items() {
                [x, y, z] => [
                    axis_kind(word_of(x)),
                    axis_kind(word_of(y)),
                    axis_kind(word_of(z)),
                ],
                _ => unreachable!(),
            },
            _ => match self.fallback {
                Fallback::ThreeWords(word) => [axis_kind(word); 3],
                _ => [AxisKind::Periodic; 3],
            },
        }
    }
}

/// The words of a value as names; without one none.
pub(crate) fn names_in(alloc: Global, value: Option<&Value>) -> Result<Vec<Name>, Memory>
    ensures names { IfOk result (λ names. names.items ≡ words_in (option_or (option_copied value.entry) no_words)) }
{
    match value {
        Some(Value::List(atoms)) => names_of(alloc, atoms.items()),
        _ => Ok(Vec::new(alloc)),
    }
}

/// The words of atoms as names; of a number the empty one.
fn names_of(alloc: Global, atoms: &[Atom]) -> Result<Vec<Name>, Memory>
    ensures names { IfOk result (λ names. names.items ≡ map word_of atoms.now) }
{
    let mut names = Vec::with_capacity(alloc, atoms.len())?;
    for atom in atoms {
        names.push(word_name(atom))?;
    }
    Ok(names)
}

/// The word of an atom as a name.
fn word_name(atom: &Atom) -> Name
    ensures name { result ≡ word_of atom.now }
{
    match atom {
        Atom::Number(_) => name(b""),
        Atom::Word(word) => *word,
    }
}
