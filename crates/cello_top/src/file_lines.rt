//! Faults of files as lines of text.
ghost use Rattle.std.specs.Prelude.{◌≡◌, ◌++◌, ◌≤◌, ◌+◌, length, codes, decimal};
ghost use Rattle.cello_top.specs.FaultLines.{absent_line, checkpoint_line, file_words, leaf_words};

use cello_num::Name;
use checkpoint::CheckFault;
use leaf_set::LeafFault;
use text_line::Line;

/// The line of a file that isn't there.
#[tactic(auto, unfolding(crate::specs::FaultLines::absent_line))]
pub fn absent_line(name: &Name) -> Line
    ensures line { result ≡ absent_line name.now }
{
    let mut line = Line::of(b"cello: no file ");
    line.push_name(name);
    line.push(b"\n");
    line
}

/// The line of a file that is no checkpoint.
#[tactic(auto, unfolding(crate::specs::FaultLines::checkpoint_line))]
pub fn checkpoint_line(fault: &CheckFault) -> Line
    ensures line { result ≡ checkpoint_line fault.now }
{
    let mut line = Line::of(b"cello: checkpoint: ");
    line.push(file_words(fault).bytes());
    line.push(b"\n");
    line
}

/// A kind and a number.
fn one(kind: &[u8], number: u64) -> Line
    requires short { length kind.now ≤ 16 }
    ensures words { result ≡ kind.now ++ decimal number }
    ensures short { length result ≤ length kind.now + 20 }
{
    let mut line = Line::of(kind);
    line.push_number(number);
    line
}

/// A kind and two numbers.
fn two(kind: &[u8], first: u32, second: u32) -> Line
    requires short { length kind.now ≤ 16 }
    ensures words { result ≡ kind.now ++ decimal first ++ codes " " ++ decimal second }
    ensures short { length result ≤ length kind.now + 32 }
{
    let mut line = Line::of(kind);
    line.push_number(first);
    line.push(b" ");
    line.push_number(second);
    line
}

/// A kind, a field, and two amounts.
fn three(kind: &[u8], field: u8, first: u128, second: u128) -> Line
    requires short { length kind.now ≤ 16 }
    ensures words { result ≡ kind.now ++ decimal field ++ codes " " ++ decimal first ++ codes " " ++ decimal second }
    ensures short { length result ≤ length kind.now + 90 }
{
    let mut line = Line::of(kind);
    line.push_number(field);
    line.push(b" ");
    line.push_number(first);
    line.push(b" ");
    line.push_number(second);
    line
}

/// The kind of a fault of leaves, and its numbers.
fn leaf_words(fault: &LeafFault) -> Line
    ensures words { result ≡ leaf_words fault.now }
    ensures short { length result ≤ 120 }
{
    match fault {
        LeafFault::Order { at } => one(b"Leaves Order ", *at as u64),
        LeafFault::Outside { at } => one(b"Leaves Outside ", *at as u64),
        LeafFault::Overlap { a, b } => two(b"Leaves Overlap ", *a, *b),
        LeafFault::Hole { at } => {
            let mut line = Line::of(b"Leaves Hole ");
            line.push_place(*at);
            line
        }
        LeafFault::Jump { a, b } => two(b"Leaves Jump ", *a, *b),
        LeafFault::Memory => Line::of(b"Leaves Memory"),
    }
}

/// The kind of a fault of a file, and its numbers.
fn file_words(fault: &CheckFault) -> Line
    ensures words { result ≡ file_words fault.now }
    ensures short { length result ≤ 120 }
{
    match fault {
        CheckFault::Truncated { at } => one(b"Truncated ", *at),
        CheckFault::Magic => Line::of(b"Magic"),
        CheckFault::Version { found } => one(b"Version ", *found as u64),
        CheckFault::Params => Line::of(b"Params"),
        CheckFault::Cycle { found } => one(b"Cycle ", *found as u64),
        CheckFault::Count { found, limit } => two(b"Count ", *found, *limit),
        CheckFault::Word { at } => one(b"Word ", *at as u64),
        CheckFault::Leaves(fault) => leaf_words(fault),
        CheckFault::Total {
            field,
            stated,
            summed,
        } => three(b"Total ", *field, *stated as u128, *summed),
        CheckFault::Balance {
            field,
            held,
            initial,
        } => three(b"Balance ", *field, *held, *initial as u128),
        CheckFault::Trailing { at } => one(b"Trailing ", *at),
        CheckFault::Memory => Line::of(b"Memory"),
    }
}
