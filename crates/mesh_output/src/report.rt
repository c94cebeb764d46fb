//! The lines of a report.
ghost use Rattle.std.specs.Prelude.{◌≡◌, ◌≤◌, ◌++◌, length, codes, decimal};
ghost use Rattle.cello_io.specs.Counts.{HasCause};
ghost use Rattle.cello_io.specs.Writes.{Wrote};
ghost use Rattle.mesh_output.specs.Lines.{header_line, restart_line, phase_line, cycle_line, field_line, end_line};

use cello_io::{Failed, Sink, write_all};
use cello_num::Name;
use text_line::Line;

/// Writes the first line of a report.
#[tactic(auto, unfolding(crate::specs::Lines::header_line))]
pub fn write_header<K: Sink>(sink: &mut K) -> Result<(), Failed>
    ensures wrote { Wrote (K.written sink.old) (K.written sink.new) result header_line }
    ensures same_rest { K.rest sink.new ≡ K.rest sink.old }
    ensures cause { HasCause (K.write_faults sink.old) (K.write_faults sink.new) result }
{
    write_all(sink, b"cello report 1\n")
}

/// A step of the run, its number, and the number of leaves after it.
fn leaves_after(step: &[u8], number: u32, leaves: u32) -> Line
    requires short { length step.now ≤ 32 }
    ensures line { result ≡ step.now ++ decimal number ++ codes " leaves " ++ decimal leaves ++ codes "\n" }
{
    let mut line = Line::of(step);
    line.push_number(number);
    line.push(b" leaves ");
    line.push_number(leaves);
    line.push(b"\n");
    line
}

/// Writes the second line of a run that goes on: the cycle after which it does, and the number of leaves then.
#[tactic(auto, unfolding(crate::specs::Lines::restart_line))]
pub fn write_restart_line<K: Sink>(cycle: u32, leaves: u32, sink: &mut K) -> Result<(), Failed>
    ensures wrote { Wrote (K.written sink.old) (K.written sink.new) result (restart_line cycle leaves) }
    ensures same_rest { K.rest sink.new ≡ K.rest sink.old }
    ensures cause { HasCause (K.write_faults sink.old) (K.write_faults sink.new) result }
{
    write_all(sink, leaves_after(b"restart cycle ", cycle, leaves).bytes())
}

/// Writes the line of an adapt phase: its number, and the number of leaves after it.
#[tactic(auto, unfolding(crate::specs::Lines::phase_line))]
pub fn write_phase_line<K: Sink>(phase: u32, leaves: u32, sink: &mut K) -> Result<(), Failed>
    ensures wrote { Wrote (K.written sink.old) (K.written sink.new) result (phase_line phase leaves) }
    ensures same_rest { K.rest sink.new ≡ K.rest sink.old }
    ensures cause { HasCause (K.write_faults sink.old) (K.write_faults sink.new) result }
{
    write_all(sink, leaves_after(b"phase ", phase, leaves).bytes())
}

/// Writes the line of a cycle: its number, and the number of leaves after it.
#[tactic(auto, unfolding(crate::specs::Lines::cycle_line))]
pub fn write_cycle_line<K: Sink>(cycle: u32, leaves: u32, sink: &mut K) -> Result<(), Failed>
    ensures wrote { Wrote (K.written sink.old) (K.written sink.new) result (cycle_line cycle leaves) }
    ensures same_rest { K.rest sink.new ≡ K.rest sink.old }
    ensures cause { HasCause (K.write_faults sink.old) (K.write_faults sink.new) result }
{
    write_all(sink, leaves_after(b"cycle ", cycle, leaves).bytes())
}

/// The name of a field, its total, and what left the domain, in the last cycle and in all.
#[tactic(auto, unfolding(crate::specs::Lines::field_line))]
fn field_totals(name: &Name, total: u64, out: u64, gone: u64) -> Line
    ensures line { result ≡ field_line name.now total out gone }
{
    let mut line = Line::of(b"field ");
    line.push(name.bytes());
    line.push(b" total ");
    line.push_number(total);
    line.push(b" out ");
    line.push_number(out);
    line.push(b" gone ");
    line.push_number(gone);
    line.push(b"\n");
    line
}

/// Writes the line of a field after a cycle: its name, its total, and what left the domain in this cycle and in all.
pub fn write_field_line<K: Sink>(
    name: Name,
    total: u64,
    out: u64,
    gone: u64,
    sink: &mut K,
) -> Result<(), Failed>
    ensures wrote { Wrote (K.written sink.old) (K.written sink.new) result (field_line name total out gone) }
    ensures same_rest { K.rest sink.new ≡ K.rest sink.old }
    ensures cause { HasCause (K.write_faults sink.old) (K.write_faults sink.new) result }
{
    write_all(sink, field_totals(&name, total, out, gone).bytes())
}

/// Writes the last line of a report.
#[tactic(auto, unfolding(crate::specs::Lines::end_line))]
pub fn write_end<K: Sink>(sink: &mut K) -> Result<(), Failed>
    ensures wrote { Wrote (K.written sink.old) (K.written sink.new) result end_line }
    ensures same_rest { K.rest sink.new ≡ K.rest sink.old }
    ensures cause { HasCause (K.write_faults sink.old) (K.write_faults sink.new) result }
{
    write_all(sink, b"end\n")
}
