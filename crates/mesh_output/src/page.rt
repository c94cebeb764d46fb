//! Lines, numbers and other bytes that are gathered before they are written.
ghost use Rattle.std.specs.Prelude.{◌≡◌, ◌≤◌, ◌+◌, length, OnOk, OnErr};
ghost use Rattle.cello_io.specs.Counts.{HasCause};
ghost use Rattle.cello_io.specs.Writes.{GrewByPart};
ghost use Rattle.text_line.specs.Shown.{line_room};
ghost use Rattle.mesh_output.specs.Pages.{page_room, Holds};

use cello_io::{Failed, Sink, write_all};
use text_line::{LINE_ROOM, Text};

/// The most bytes that are written at once.
const PAGE_ROOM: usize = 32_768;

/// Bytes that aren't written yet, at most 32,768. Whoever is done with a page writes what it holds.
pub type Page = Text<PAGE_ROOM>;

/// Makes room for one more line: where there is none, the page is written and begins again.
pub fn make_room<K: Sink>(page: &mut Page, sink: &mut K) -> Result<(), Failed>
    ensures wrote { OnErr result (GrewByPart (K.written sink.old) (K.written sink.new) page.old) }
    ensures moved { OnOk result (Holds (K.written sink.old) (K.written sink.new) page.old page.new) }
    ensures room { OnOk result (length page.new + line_room ≤ page_room) }
    ensures same_rest { K.rest sink.new ≡ K.rest sink.old }
    ensures cause { HasCause (K.write_faults sink.old) (K.write_faults sink.new) result }
{
    if page.bytes().len() + LINE_ROOM > PAGE_ROOM {
        write_all(sink, page.bytes())?;
        page.clear();
    }
    Ok(())
}
