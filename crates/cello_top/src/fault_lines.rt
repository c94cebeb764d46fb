//! Faults as lines of text.
ghost use Rattle.std.specs.Prelude.{◌≡◌, ◌≤◌, length};
ghost use Rattle.cello_io.specs.Counts.{HasCause};
ghost use Rattle.cello_io.specs.Writes.{Wrote};
ghost use Rattle.cello_top.specs.FaultLines.{syntax_name, kind_name, syntax_line, param_line, level_limit_line, block_limit_line, fault_line};

use crate::fault::Fault;
use crate::file_lines::{absent_line, checkpoint_line};
use block_index::Place;
use cello_io::{Failed, Sink, write_all};
use params_check::{ParamFault, ParamKind};
use params_syntax::{SyntaxFault, SyntaxKind};
use text_line::Line;

fn kind_name(kind: ParamKind) -> &'static [u8]
    ensures name { result.now ≡ kind_name kind }
    ensures short { length result.now ≤ 13 }
{
    match kind {
        ParamKind::Missing => b"Missing",
        ParamKind::Unknown => b"Unknown",
        ParamKind::Repeated => b"Repeated",
        ParamKind::WrongForm => b"WrongForm",
        ParamKind::OutOfRange => b"OutOfRange",
        ParamKind::Size => b"Size",
        ParamKind::Courant => b"Courant",
        ParamKind::TotalTooLarge => b"TotalTooLarge",
    }
}

fn syntax_name(kind: SyntaxKind) -> &'static [u8]
    ensures name { result.now ≡ syntax_name kind }
    ensures short { length result.now ≤ 10 }
{
    match kind {
        SyntaxKind::Long => b"Long",
        SyntaxKind::Byte => b"Byte",
        SyntaxKind::Name => b"Name",
        SyntaxKind::Number => b"Number",
        SyntaxKind::Word => b"Word",
        SyntaxKind::Length => b"Length",
        SyntaxKind::Unexpected => b"Unexpected",
        SyntaxKind::End => b"End",
    }
}

#[tactic(auto, unfolding(crate::specs::FaultLines::syntax_line))]
fn syntax_line(fault: &SyntaxFault) -> Line
    ensures line { result ≡ syntax_line fault.now }
{
    let mut line = Line::of(b"cello: syntax: ");
    line.push(syntax_name(fault.kind));
    line.push(b" at ");
    line.push_number(fault.offset);
    line.push(b"\n");
    line
}

#[tactic(auto, unfolding(crate::specs::FaultLines::param_line))]
fn param_line(fault: &ParamFault) -> Line
    ensures line { result ≡ param_line fault.now }
{
    let mut line = Line::of(b"cello: parameter: ");
    line.push(kind_name(fault.kind));
    line.push(b" at ");
    line.push_name(&fault.group);
    line.push(b" ");
    line.push_name(&fault.sub);
    line.push(b" ");
    line.push_name(&fault.key);
    line.push(b"\n");
    line
}

#[tactic(auto, unfolding(crate::specs::FaultLines::level_limit_line))]
fn level_limit_line(phase: u32, place: Place) -> Line
    ensures line { result ≡ level_limit_line phase place }
{
    let mut line = Line::of(b"cello: level limit in phase ");
    line.push_number(phase);
    line.push(b" at ");
    line.push_place(place);
    line.push(b"\n");
    line
}

#[tactic(auto, unfolding(crate::specs::FaultLines::block_limit_line))]
fn block_limit_line(phase: u32, count: u32, limit: u32) -> Line
    ensures line { result ≡ block_limit_line phase count limit }
{
    let mut line = Line::of(b"cello: block limit in phase ");
    line.push_number(phase);
    line.push(b": ");
    line.push_number(count);
    line.push(b" over ");
    line.push_number(limit);
    line.push(b"\n");
    line
}

#[tactic(auto, unfolding(crate::specs::FaultLines::usage_line, crate::specs::FaultLines::read_line, crate::specs::FaultLines::write_line, crate::specs::FaultLines::memory_line))]
fn fault_line(fault: &Fault) -> Line
    ensures line { result ≡ fault_line fault.now }
{
    match fault {
        Fault::Usage => Line::of(
            b"cello: usage: check, solo, resume NAME --until C, demo SEED SIZE, run --workers N, restart NAME --workers N --until C\n",
        ),
        Fault::Syntax(fault) => syntax_line(fault),
        Fault::Param(fault) => param_line(fault),
        Fault::LevelLimit { phase, place } => level_limit_line(*phase, *place),
        Fault::BlockLimit {
            phase,
            count,
            limit,
        } => block_limit_line(*phase, *count, *limit),
        Fault::ReadFault => Line::of(b"cello: read fault\n"),
        Fault::WriteFault => Line::of(b"cello: write fault\n"),
        Fault::Absent { name } => absent_line(name),
        Fault::Checkpoint(fault) => checkpoint_line(fault),
        Fault::Memory => Line::of(b"cello: out of memory\n"),
    }
}

/// Writes the line of a fault. After `Failed` a part of it was written.
pub fn write_fault<K: Sink>(fault: &Fault, sink: &mut K) -> Result<(), Failed>
    ensures wrote { Wrote (K.written sink.old) (K.written sink.new) result (fault_line fault.now) }
    ensures same_rest { K.rest sink.new ≡ K.rest sink.old }
    ensures cause { HasCause (K.write_faults sink.old) (K.write_faults sink.new) result }
{
    write_all(sink, fault_line(fault).bytes())
}
