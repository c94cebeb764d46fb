//! The summary of a demonstration.
ghost use Rattle.std.specs.Prelude.{◌≡◌, ◌≤◌, ◌<◌, length, slice_index};
ghost use Rattle.roomy_runs.specs.Summaries.{amounts_line, demo_line, leaves_line};
ghost use Rattle.cello_top.specs.Lemmas.Demonstrating.{ledger_summary};

use amount_ledger::Ledger;
use cello_num::Name;
use params_check::Params;
use text_line::{Line, Text};

/// Room for a summary.
pub(crate) type Summary = Text<1024>;

/// The summary of a run that ended on so many leaves with this ledger.
#[tactic(auto, using(crate::proofs::SummaryLines::end_line_is))]
pub(crate) fn summary(
    seed: u32,
    size: u32,
    params: &Params,
    leaves: u32,
    ledger: &Ledger,
) -> Summary
    ensures summary { result ≡ ledger_summary seed size params.now leaves ledger.now }
    ensures few { length params.now.fields ≤ 4 }
{
    let mut text = Text::of(demo_line(seed, size).bytes());
    text.push(leaves_line(leaves, params.cycles()).bytes());
    let total = ledger.total();
    let gone = ledger.gone();
    let mut field = 0;
    for name in params.fields().items() {
        text.push(amounts_line(name, total[field], gone[field]).bytes());
        field += 1;
    }
    text.push(b"end\n");
    text
}

/// The line of a seed and a size.
#[tactic(auto, using(crate::proofs::SummaryLines::demo_line_is))]
fn demo_line(seed: u32, size: u32) -> Line
    ensures line { result ≡ demo_line seed size }
{
    let mut line = Line::of(b"demo ");
    line.push_number(seed);
    line.push(b" ");
    line.push_number(size);
    line.push(b"\n");
    line
}

/// The line of the leaves in the end, and of the cycles.
#[tactic(auto, using(crate::proofs::SummaryLines::leaves_line_is))]
fn leaves_line(leaves: u32, cycles: u32) -> Line
    ensures line { result ≡ leaves_line leaves cycles }
{
    let mut line = Line::of(b"leaves ");
    line.push_number(leaves);
    line.push(b" cycles ");
    line.push_number(cycles);
    line.push(b"\n");
    line
}

/// The line of a field: what is there of it in the end, and what left the domain in all.
#[tactic(auto, using(crate::proofs::SummaryLines::amounts_line_is))]
fn amounts_line(name: &Name, total: u64, gone: u64) -> Line
    ensures line { result ≡ amounts_line name.now total gone }
{
    let mut line = Line::of(b"field ");
    line.push(name.bytes());
    line.push(b" total ");
    line.push_number(total);
    line.push(b" gone ");
    line.push_number(gone);
    line.push(b"\n");
    line
}
