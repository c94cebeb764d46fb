//! Bytes that are put on a page.
ghost use Rattle.std.specs.Prelude.{◌≡◌, ◌≤◌, length};
ghost use Rattle.cello_io.specs.Counts.{HasCause};
ghost use Rattle.text_line.specs.Shown.{line_room};
ghost use Rattle.mesh_output.specs.Pages.{Puts};

use crate::page::{Page, make_room};
use cello_io::{Failed, Sink};
use text_line::LINE_ROOM;

/// Puts bytes on a page, as they are; each full page is written. After `Failed` a part of the page and of these bytes
/// was written, and the page is of no more use.
pub fn put_bytes<K: Sink>(bytes: &[u8], page: &mut Page, sink: &mut K) -> Result<(), Failed>
    ensures puts { Puts (K.written sink.old) (K.written sink.new) page.old page.new result bytes.now }
    ensures same_rest { K.rest sink.new ≡ K.rest sink.old }
    ensures cause { HasCause (K.write_faults sink.old) (K.write_faults sink.new) result }
{
    let mut left = bytes;
    while !left.is_empty() {
        let (few, more) = left.split_at(left.len().min(LINE_ROOM));
        put_few_bytes(few, page, sink)?;
        left = more;
    }
    Ok(())
}

/// As many bytes as a line has at most, with room made for them.
fn put_few_bytes<K: Sink>(bytes: &[u8], page: &mut Page, sink: &mut K) -> Result<(), Failed>
    requires few { length bytes.now ≤ line_room }
    ensures puts { Puts (K.written sink.old) (K.written sink.new) page.old page.new result bytes.now }
    ensures same_rest { K.rest sink.new ≡ K.rest sink.old }
    ensures cause { HasCause (K.write_faults sink.old) (K.write_faults sink.new) result }
{
    make_room(page, sink)?;
    page.push(bytes);
    Ok(())
}
