//! The pieces of a report.
ghost use Rattle.std.specs.Prelude.{◌≡◌, [], ◌∷◌, ◌++◌, List, Option};
ghost use Rattle.cello_io.specs.Counts.{HasCause};
ghost use Rattle.cello_io.specs.Files.{MadeFile};
ghost use Rattle.cello_io.specs.Writes.{Wrote};
ghost use Rattle.mesh_output.specs.Lines.{header_line, restart_line, mesh_text, end_line};
ghost use Rattle.params_check.specs.Parameters.{Parameters};
ghost use Rattle.run_core.specs.Courses.{phase_ended};
ghost use Rattle.run_report.specs.Actions.{piece, closing_piece, actions_of};
ghost use Rattle.run_report.specs.Outputs.{Acted, output};

use cello_io::{Failed, Sink};
use leaf_set::LeafSet;
use mesh_output::{write_end, write_header, write_mesh, write_phase_line, write_restart_line};

/// Writes the first line of a report.
pub fn write_first_line<K: Sink>(sink: &mut K) -> Result<(), Failed>
    ensures acted { (files : Option (List MadeFile)) → Acted (piece header_line ∷ []) (output (K.written sink.old) files) (output (K.written sink.new) files) result }
    ensures same_rest { K.rest sink.new ≡ K.rest sink.old }
    ensures cause { HasCause (K.write_faults sink.old) (K.write_faults sink.new) result }
{
    write_header(sink)
}

/// Writes the second line of the report of a run that goes on: the cycle after which it does, and the number of leaves then.
pub fn write_second_line<K: Sink>(cycle: u32, leaves: u32, sink: &mut K) -> Result<(), Failed>
    ensures acted { (files : Option (List MadeFile)) →
        Acted (piece (restart_line cycle leaves) ∷ []) (output (K.written sink.old) files) (output (K.written sink.new) files) result }
    ensures same_rest { K.rest sink.new ≡ K.rest sink.old }
    ensures cause { HasCause (K.write_faults sink.old) (K.write_faults sink.new) result }
{
    write_restart_line(cycle, leaves, sink)
}

/// Writes the line of a phase that ended: its number, and the number of leaves after it.
pub fn write_told_phase<K: Sink>(phase: u32, leaves: u32, sink: &mut K) -> Result<(), Failed>
    ensures acted { (p : Parameters) (files : Option (List MadeFile)) →
        Acted (actions_of p (phase_ended phase leaves)) (output (K.written sink.old) files) (output (K.written sink.new) files) result }
    ensures same_rest { K.rest sink.new ≡ K.rest sink.old }
    ensures cause { HasCause (K.write_faults sink.old) (K.write_faults sink.new) result }
{
    write_phase_line(phase, leaves, sink)
}

/// Writes the last piece of a report: the mesh, and the last line.
pub fn write_end_list<K: Sink>(set: &LeafSet, sink: &mut K) -> Result<(), Failed>
    ensures acted { (files : Option (List MadeFile)) →
        Acted (closing_piece set.now.places ∷ []) (output (K.written sink.old) files) (output (K.written sink.new) files) result }
    ensures same_rest { K.rest sink.new ≡ K.rest sink.old }
    ensures cause { HasCause (K.write_faults sink.old) (K.write_faults sink.new) result }
{
    write_list(set, sink)
}

/// Writes the mesh and the last line.
fn write_list<K: Sink>(set: &LeafSet, sink: &mut K) -> Result<(), Failed>
    ensures wrote { Wrote (K.written sink.old) (K.written sink.new) result (mesh_text set.now.places ++ end_line) }
    ensures same_rest { K.rest sink.new ≡ K.rest sink.old }
    ensures cause { HasCause (K.write_faults sink.old) (K.write_faults sink.new) result }
{
    write_mesh(set, sink)?;
    write_end(sink)
}
