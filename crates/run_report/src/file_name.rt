//! The names of files.
ghost use Rattle.std.specs.Prelude.{◌≡◌, ◌≤◌, ◌+◌, ◌++◌, length};
ghost use Rattle.run_report.specs.FileNames.{last_digit, four_digits, mesh_name, fields_name, state_name};

use cello_num::Name;
use text_line::Line;

/// The name of the text of a cycle's mesh: `mesh-CCCC.txt`.
#[tactic(auto, unfolding(crate::specs::FileNames::mesh_name))]
pub fn mesh_name(cycle: u32) -> Name
    requires four_digits { cycle ≤ 9999 }
    ensures name { result ≡ mesh_name cycle }
{
    name_of(b"mesh-", cycle, b".txt")
}

/// The name of the file of a cycle's fields: `field-CCCC.bin`.
#[tactic(auto, unfolding(crate::specs::FileNames::fields_name))]
pub fn fields_name(cycle: u32) -> Name
    requires four_digits { cycle ≤ 9999 }
    ensures name { result ≡ fields_name cycle }
{
    name_of(b"field-", cycle, b".bin")
}

/// The name of the checkpoint of a cycle: `state-CCCC.cello`.
#[tactic(auto, unfolding(crate::specs::FileNames::state_name))]
pub fn state_name(cycle: u32) -> Name
    requires four_digits { cycle ≤ 9999 }
    ensures name { result ≡ state_name cycle }
{
    name_of(b"state-", cycle, b".cello")
}

/// A cycle in four digits between these bytes.
fn name_of(front: &[u8], cycle: u32, back: &[u8]) -> Name
    requires short { length front.now + length back.now ≤ 28 }
    ensures name { result ≡ front.now ++ four_digits cycle ++ back.now }
{
    let mut line = Line::of(front);
    line.push(&four_digits(cycle));
    line.push(back);
    Name::of(line.bytes()).unwrap()
}

/// The last four decimal digits of a number.
fn four_digits(number: u32) -> [u8; 4]
    ensures digits { result ≡ four_digits number }
{
    [
        last_digit(number / 1000),
        last_digit(number / 100),
        last_digit(number / 10),
        last_digit(number),
    ]
}

/// The last decimal digit of a number.
fn last_digit(number: u32) -> u8
    ensures digit { result ≡ last_digit number }
{
    b'0' + (number % 10) as u8
}
