//! The first lines of the report of a run that goes on.
ghost use Rattle.std.specs.Prelude.{◌≡◌, List, Option};
ghost use Rattle.cello_io.specs.Counts.{HasCause};
ghost use Rattle.cello_io.specs.Files.{MadeFile};
ghost use Rattle.run_report.specs.Actions.{restart_pieces};
ghost use Rattle.run_report.specs.Outputs.{Acted, output};

use cello_io::{Failed, Sink};
use run_report::{write_first_line, write_second_line};

/// Writes the first two lines of the report of a run that goes on after a cycle from a mesh of so many leaves.
pub(crate) fn write_first_lines<K: Sink>(
    cycle: u32,
    leaves: u32,
    sink: &mut K,
) -> Result<(), Failed>
    ensures acted { (files : Option (List MadeFile)) →
        Acted (restart_pieces cycle leaves) (output (K.written sink.old) files) (output (K.written sink.new) files) result }
    ensures same_rest { K.rest sink.new ≡ K.rest sink.old }
    ensures cause { HasCause (K.write_faults sink.old) (K.write_faults sink.new) result }
{
    write_first_line(sink)?;
    write_second_line(cycle, leaves, sink)
}
