//! The lines of a cycle.
ghost use Rattle.std.specs.Prelude.{◌≡◌, ◌<◌, ◌≤◌, List, Option, length};
ghost use Rattle.cello_io.specs.Counts.{HasCause};
ghost use Rattle.cello_io.specs.Files.{MadeFile};
ghost use Rattle.cello_io.specs.Writes.{Wrote};
ghost use Rattle.amount_ledger.specs.Ledgers.{fields_kept};
ghost use Rattle.block_fields.specs.States.{State};
ghost use Rattle.run_core.specs.Courses.{totals_of};
ghost use Rattle.run_report.specs.Actions.{cycle_pieces, numbered_pieces};
ghost use Rattle.run_report.specs.Lemmas.LedgerLines.{ledger_line};
ghost use Rattle.run_report.specs.Outputs.{Acted, output};

use amount_ledger::Ledger;
use cello_io::{Failed, Sink};
use cello_num::Name;
use leaf_set::LeafSet;
use mesh_output::{write_cycle_line, write_field_line};
use params_check::Params;

/// Writes the lines of a cycle that ended on these leaves with this ledger.
pub fn write_cycle<K: Sink>(
    params: &Params,
    cycle: u32,
    set: &LeafSet,
    ledger: &Ledger,
    sink: &mut K,
) -> Result<(), Failed>
    ensures acted { (s : State) (files : Option (List MadeFile)) →
        s.leaves ≡ set.now.places → s.fields ≡ length params.now.fields → ledger.now.total ≡ totals_of s →
        Acted (cycle_pieces params.now cycle s ledger.now) (output (K.written sink.old) files) (output (K.written sink.new) files) result }
    ensures same_rest { K.rest sink.new ≡ K.rest sink.old }
    ensures cause { HasCause (K.write_faults sink.old) (K.write_faults sink.new) result }
{
    write_cycle_line(cycle, set.len() as u32, sink)?;
    write_fields(params, ledger, sink)
}

/// Writes the line of each field in order.
fn write_fields<K: Sink>(params: &Params, ledger: &Ledger, sink: &mut K) -> Result<(), Failed>
    ensures acted { (files : Option (List MadeFile)) →
        Acted (numbered_pieces (ledger_line ledger.now) 0 params.now.fields) (output (K.written sink.old) files) (output (K.written sink.new) files) result }
    ensures few { length params.now.fields ≤ fields_kept }
    ensures same_rest { K.rest sink.new ≡ K.rest sink.old }
    ensures cause { HasCause (K.write_faults sink.old) (K.write_faults sink.new) result }
{
    let mut field = 0;
    for name in params.fields().items() {
        write_field(*name, field, ledger, sink)?;
        field += 1;
    }
    Ok(())
}

/// Writes the line of a field.
fn write_field<K: Sink>(
    name: Name,
    field: usize,
    ledger: &Ledger,
    sink: &mut K,
) -> Result<(), Failed>
    requires kept { field < fields_kept }
    ensures wrote { Wrote (K.written sink.old) (K.written sink.new) result (ledger_line ledger.now field name) }
    ensures same_rest { K.rest sink.new ≡ K.rest sink.old }
    ensures cause { HasCause (K.write_faults sink.old) (K.write_faults sink.new) result }
{
    let total = ledger.total()[field];
    let out = ledger.out()[field];
    let gone = ledger.gone()[field];
    write_field_line(name, total, out, gone, sink)
}
