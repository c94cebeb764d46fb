//! Numbers that are put on a page.
ghost use Rattle.std.specs.Prelude.{◌≡◌, ◌≤◌, length};
ghost use Rattle.std.specs.Int.{bytes_high_first};
ghost use Rattle.std.specs.List.{flat_map};
ghost use Rattle.cello_io.specs.Counts.{HasCause};
ghost use Rattle.mesh_output.specs.Pages.{Puts};

use crate::page::{Page, make_room};
use byteorder::{BigEndian, ByteOrder};
use cello_io::{Failed, Sink};

/// The most numbers that are put on a page at once, and how many bytes these are.
const FEW: usize = 16;

const FEW_BYTES: usize = 128;

/// Puts numbers of 8 bytes on a page, the highest byte first; each full page is written. After `Failed` a part of the
/// page and of these numbers was written, and the page is of no more use.
pub fn put_numbers<K: Sink>(numbers: &[u64], page: &mut Page, sink: &mut K) -> Result<(), Failed>
    ensures puts { Puts (K.written sink.old) (K.written sink.new) page.old page.new result (flat_map (bytes_high_first 8) numbers.now) }
    ensures same_rest { K.rest sink.new ≡ K.rest sink.old }
    ensures cause { HasCause (K.write_faults sink.old) (K.write_faults sink.new) result }
{
    let mut left = numbers;
    while !left.is_empty() {
        let (few, more) = left.split_at(left.len().min(FEW));
        put_few(few, page, sink)?;
        left = more;
    }
    Ok(())
}

/// A few numbers, with room made for them.
pub(crate) fn put_few<K: Sink>(numbers: &[u64], page: &mut Page, sink: &mut K) -> Result<(), Failed>
    requires few { length numbers.now ≤ 16 }
    ensures puts { Puts (K.written sink.old) (K.written sink.new) page.old page.new result (flat_map (bytes_high_first 8) numbers.now) }
    ensures same_rest { K.rest sink.new ≡ K.rest sink.old }
    ensures cause { HasCause (K.write_faults sink.old) (K.write_faults sink.new) result }
{
    make_room(page, sink)?;
    let mut bytes = [0u8; FEW_BYTES];
    let filled = &mut bytes[..8 * numbers.len()];
    BigEndian::write_u64_into(numbers, filled);
    page.push(filled);
    Ok(())
}
