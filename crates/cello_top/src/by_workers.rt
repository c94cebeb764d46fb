//! A command that was asked for, by several workers.
ghost use Rattle.std.specs.Prelude.{◌≡◌, ◌⊎◌, ℕ, ◌^◌, ◌≤◌, ◌↔◌, List, None, Ok, Some, IsFalse, IfSome, [], All, IfOk, length, map, slice_get, sum};
ghost use Rattle.cello_io.specs.Counts.{Rose};
ghost use Rattle.cello_io.specs.Files.{PastFiles, SamePast};
ghost use Rattle.cello_io.specs.Reads.{LostAtMost};
ghost use Rattle.checkpoint.specs.declared.fault.CheckFault.{CheckFault};
ghost use Rattle.checkpoint.specs.SavedStates.{SavedState};
ghost use Rattle.demo_params.specs.DemoTexts.{demo_text};
ghost use Rattle.params_check.specs.Parameters.{Parameters};
ghost use Rattle.restart_laws.specs.Resumes.{StandsFor, resumed};
ghost use Rattle.run_core.specs.Courses.{whole};
ghost use Rattle.run_core.specs.Runs.{MeetsNoLimit};
ghost use Rattle.run_report.specs.Outputs.{output};
ghost use Rattle.cello_io.specs.Fetching.{OnlyFetched};
ghost use Rattle.cello_top.specs.Words.{IsSolo, IsCheck, IsCommand, IsDemo, IsResume, IsSomeDemo, IsSomeResume, ReadsSource};
ghost use Rattle.cello_top.specs.Texts.{HasParameters};
ghost use Rattle.cello_top.specs.Faults.{IsAnswered, SawText, CameToWrite, status_of};
ghost use Rattle.cello_top.specs.Solo.{ReadOut, Answers, AnswersInPart, HoldBytes, IsFileAtFault, IsInput, IsWithoutFile, KeepsPast, read_limit};
ghost use Rattle.cello_top.specs.Counts.{HandlesWithin};
ghost use Rattle.cello_top.specs.Lemmas.CommandSteps.{IsOfCommand};
ghost use Rattle.block_fields.specs.Blocks.{BlockState, amounts_of, seen_at};
ghost use Rattle.block_fields.specs.BlockStates.{AreBlocksOf, state_before, state_of};
ghost use Rattle.params_check.specs.Limits.{KeepsCriterion};
ghost use Rattle.criteria.specs.Samples.{IsSmall};
ghost use Rattle.criteria.specs.Wishes.{criteria_wish};
ghost use Rattle.refresh_phase.specs.Problem.{RefreshBegins};
ghost use Rattle.grid_fluxes.specs.Fluxes.{Fluxes};
ghost use Rattle.flux_register.specs.Made.{AreAdvancedBy, AreUpwindAdvanced, IsMadeBy};
ghost use Rattle.flux_register.specs.Problem.{FluxFixBegins};
ghost use Rattle.parallel_maps.specs.Advances.{CanAdvance};
ghost use Rattle.crew.specs.Counts.{CountsWithin};
ghost use Rattle.cello_top.specs.WorkerWords.{most_workers};
ghost use Rattle.adapt_core.specs.Problem as adapt_problem;
ghost use Rattle.refresh_phase.specs.Cells as refresh_cells;
ghost use Rattle.flux_register.specs.Cells as flux_cells;

use crate::fault::Fault;
use crate::obeying::{AskedWords, obey};
use crate::outcome::Outcome;
use crate::words::Command;
use adapt_core::{Adapt, AdaptCell};
use advect::FaceFluxes;
use block_fields::Block;
use block_index::Wish;
use cello_io::{Gate, Shelf, Sink, Source};
use cello_num::Memory;
use crew::{Workers, adapt_to_rest, bring_to_rest};
use flux_register::{FluxCell, FluxFix};
use leaf_set::LeafSet;
use parallel_maps::{advances, wishes};
use params_check::{Criterion, Params};
use phase_core::Quiet;
use refresh_phase::{Refresh, RefreshCell};
use std::alloc::Global;
use std::sync::Wait;
use std::thread::Threads;

/// Does a command, a run by so many workers. The type `W` names the words that ask for it, as at `obey`.
pub(crate) fn obey_by_workers<
    W: AskedWords,
    R: Threads + Wait + Sync,
    S: Source,
    K: Sink,
    H: Shelf,
    G: Gate + Sync,
>(
    rt: &R,
    alloc: Global,
    words: &[String],
    command: Command,
    workers: u32,
    source: &mut S,
    sink: &mut K,
    shelf: &mut H,
    gate: &G,
) -> Outcome
    requires some { 1 ≤ workers }
    requires within { workers ≤ most_workers }
    requires of { IsOfCommand command W.words }
    requires idle { IsFalse (H.tells shelf.old).is_writing }
    ensures answer { (bytes : List ℕ) (past : PastFiles) →
        IsInput W.words (S.left source.old) (H.tells shelf.old).past bytes past → IsAnswered result.fault →
        Answers W.words bytes past result
        (output (K.written sink.old) (H.tells shelf.old).written) (output (K.written sink.new) (H.tells shelf.new).written) }
    ensures part { (bytes : List ℕ) (past : PastFiles) →
        IsInput W.words (S.left source.old) (H.tells shelf.old).past bytes past →
        (IsSomeResume W.words → HoldBytes past) →
        (result.fault ≡ Some Fault.WriteFault) ⊎ (result.fault ≡ Some Fault.Memory) →
        AnswersInPart W.words bytes past
        (output (K.written sink.old) (H.tells shelf.old).written) (output (K.written sink.new) (H.tells shelf.new).written) }
    ensures usage { (result.fault ≡ Some Fault.Usage) ↔ (IsCommand W.words → ⊥) }
    ensures unread { (ReadsSource W.words → ⊥) → source.new ≡ source.old }
    ensures unwritten { (CameToWrite result.fault → ⊥) → sink.new ≡ sink.old }
    ensures unfiled { (IsSomeResume W.words → ⊥) → (CameToWrite result.fault → ⊥) → shelf.new ≡ shelf.old }
    ensures unmade { (CameToWrite result.fault → ⊥) → OnlyFetched (H.tells shelf.old) (H.tells shelf.new) }
    ensures check_files { IsCheck W.words → shelf.new ≡ shelf.old }
    ensures demo_files { IsSomeDemo W.words → shelf.new ≡ shelf.old }
    ensures read_out { ReadsSource W.words → SawText result.fault →
        (bytes : List ℕ) × ReadOut (S.left source.old) (S.left source.new) (S.has_ended source.new) bytes }
    ensures read_most { LostAtMost read_limit (S.left source.old) (S.left source.new) }
    ensures read_cause { (IsSomeResume W.words → ⊥) → result.fault ≡ Some Fault.ReadFault →
        Rose (S.read_faults source.old) (S.read_faults source.new) }
    ensures fetch_cause { IsSomeResume W.words → result.fault ≡ Some Fault.ReadFault →
        Rose (H.tells shelf.old).fetch_faults (H.tells shelf.new).fetch_faults }
    ensures write_cause { result.fault ≡ Some Fault.WriteFault →
        Rose (K.write_faults sink.old) (K.write_faults sink.new) ⊎ Rose (H.tells shelf.old).write_faults (H.tells shelf.new).write_faults }
    ensures check_cause { IsCheck W.words → result.fault ≡ Some Fault.WriteFault →
        Rose (K.write_faults sink.old) (K.write_faults sink.new) }
    ensures demo_cause { IsSomeDemo W.words → result.fault ≡ Some Fault.WriteFault →
        Rose (K.write_faults sink.old) (K.write_faults sink.new) }
    ensures absent_cause { (name : List ℕ) → result.fault ≡ Some (Fault.Absent name) → Rose (H.tells shelf.old).absences (H.tells shelf.new).absences }
    ensures absent_name { (name : List ℕ) → result.fault ≡ Some (Fault.Absent name) → IsWithoutFile W.words (H.tells shelf.old) name }
    ensures file_fault { (fault : CheckFault) → result.fault ≡ Some (Fault.Checkpoint fault) →
        IsFileAtFault W.words (H.tells shelf.old) fault }
    ensures complete { IfSome (S.left source.old) (λ bytes. (p : Parameters) → IsSolo W.words →
        HasParameters bytes p → MeetsNoLimit (whole p) →
        (Rose (S.read_faults source.old) (S.read_faults source.new) → ⊥) →
        (Rose (K.write_faults sink.old) (K.write_faults sink.new) → ⊥) →
        (Rose (H.tells shelf.old).write_faults (H.tells shelf.new).write_faults → ⊥) →
        (result.fault ≡ None) ⊎ (result.fault ≡ Some Fault.Memory)) }
    ensures complete_check { IfSome (S.left source.old) (λ bytes. (p : Parameters) → IsCheck W.words →
        HasParameters bytes p →
        (Rose (S.read_faults source.old) (S.read_faults source.new) → ⊥) →
        (Rose (K.write_faults sink.old) (K.write_faults sink.new) → ⊥) →
        (result.fault ≡ None) ⊎ (result.fault ≡ Some Fault.Memory)) }
    ensures complete_resume { (past : PastFiles) (name file : List ℕ) (until : ℕ) (s : SavedState) → (H.tells shelf.old).past ≡ Some past →
        IsResume W.words name until → past name ≡ Some file → StandsFor file (Ok s) → MeetsNoLimit (resumed s until) →
        (Rose (H.tells shelf.old).fetch_faults (H.tells shelf.new).fetch_faults → ⊥) →
        (Rose (K.write_faults sink.old) (K.write_faults sink.new) → ⊥) →
        (Rose (H.tells shelf.old).write_faults (H.tells shelf.new).write_faults → ⊥) →
        (result.fault ≡ None) ⊎ (result.fault ≡ Some Fault.Memory) }
    ensures complete_demo { IsSomeDemo W.words → (Rose (K.write_faults sink.old) (K.write_faults sink.new) → ⊥) →
        (result.fault ≡ None) ⊎ (result.fault ≡ Some Fault.Memory) }
    ensures status { result.status ≡ status_of result.fault }
    ensures handled { IfSome (S.left source.old) (λ bytes. (p : Parameters) → IsSolo W.words →
        HasParameters bytes p → result.fault ≡ None → HandlesWithin (whole p) result.handled) }
    ensures handled_check { IsCheck W.words → result.handled ≡ 0 }
    ensures handled_resume { (past : PastFiles) (name file : List ℕ) (until : ℕ) (s : SavedState) → (H.tells shelf.old).past ≡ Some past →
        IsResume W.words name until → past name ≡ Some file → StandsFor file (Ok s) → result.fault ≡ None →
        HandlesWithin (resumed s until) result.handled }
    ensures handled_demo { (seed size : ℕ) (p : Parameters) → IsDemo W.words seed size → HasParameters (demo_text seed size) p → result.fault ≡ None →
        HandlesWithin (whole p) result.handled }
    ensures none_handled { (result.fault ≡ None → ⊥) → result.handled ≡ 0 }
    ensures idle { (result.fault ≡ Some Fault.WriteFault → ⊥) → IsFalse (H.tells shelf.new).is_writing }
    ensures past { KeepsPast (H.tells shelf.old) (H.tells shelf.new) }
    ensures same_past { (IsSomeResume W.words → ⊥) → SamePast (H.tells shelf.old) (H.tells shelf.new) }
    ensures same_rest { K.rest sink.new ≡ K.rest sink.old }
    ensures read_faults { S.read_faults source.old ≤ S.read_faults source.new }
    ensures write_faults { K.write_faults sink.old ≤ K.write_faults sink.new }
    ensures shelf_faults { (H.tells shelf.old).write_faults ≤ (H.tells shelf.new).write_faults }
{
    let crew = Workers {
        begin_refresh: |alloc: Global, set: &LeafSet, blocks: Vec<Block>| -> Result<
            (Refresh, Vec<RefreshCell>),
            Memory,
        >
            requires workers { (1 ≤ workers) × (workers ≤ 16) }
            requires blocks { (n : ℕ) × (fields : ℕ) × (depth : ℕ) × AreBlocksOf set.now.places n fields depth blocks.items }
            requires few { (i f : ℕ) (b : BlockState) → slice_get blocks.items i ≡ Some b → sum (amounts_of b f) ≤ 2 ^ 42 }
            ensures sizes { (n fields depth : ℕ) → AreBlocksOf set.now.places n fields depth blocks.items →
                IfOk result (λ r. r.0 ≡ record { grid = set.now.grid; edge = n; fields = fields; depth = depth }) }
            ensures state { (n fields depth : ℕ) → AreBlocksOf set.now.places n fields depth blocks.items →
                IfOk result (λ r. refresh_cells.state_in (refresh_cells.problem_of r.0 r.1.items) ≡ state_of set.now.grid n fields blocks.items) }
            ensures begins { IfOk result (λ r. RefreshBegins (refresh_cells.problem_of r.0 r.1.items) r.1.items) }
        { Refresh::begin_in_threads(rt, alloc, workers, set, blocks) },
        begin_adapt: |alloc: Global, set: &LeafSet, wishes: &[Wish]| -> Result<
            (Adapt, Vec<AdaptCell>),
            Memory,
        >
            requires workers { (1 ≤ workers) × (workers ≤ 16) }
            requires one_each { length wishes.now ≡ length set.now.places }
            ensures grid { IfOk result (λ r. (adapt_problem.problem_of r.0 r.1.items).grid ≡ set.now.grid) }
            ensures places { IfOk result (λ r. adapt_problem.mesh_of (adapt_problem.problem_of r.0 r.1.items) ≡ set.now.places) }
            ensures wishes { IfOk result (λ r. adapt_problem.wishes_of (adapt_problem.problem_of r.0 r.1.items) ≡ wishes.now) }
            ensures begins { IfOk result (λ r. adapt_problem.AdaptBegins (adapt_problem.problem_of r.0 r.1.items) r.1.items) }
        { Adapt::begin_in_threads(rt, alloc, workers, set, wishes) },
        begin_flux: |alloc: Global, set: &LeafSet, blocks: Vec<Block>, faces: Vec<
            FaceFluxes,
        >| -> Result<(FluxFix, Vec<FluxCell>), Memory>
            requires workers { (1 ≤ workers) × (workers ≤ 16) }
            requires made { (n : ℕ) × (fields : ℕ) × (depth : ℕ) × (fluxes : Fluxes) × AreAdvancedBy set.now.grid set.now.places n fields depth blocks.items faces.items fluxes }
            ensures sizes { (n fields depth : ℕ) → AreBlocksOf set.now.places n fields depth blocks.items →
                IfOk result (λ r. r.0 ≡ record { grid = set.now.grid; edge = n; fields = fields }) }
            ensures state { (n fields depth : ℕ) → AreBlocksOf set.now.places n fields depth blocks.items →
                IfOk result (λ r. flux_cells.state_in (flux_cells.problem_of r.0 r.1.items) ≡ state_before set.now.grid n fields blocks.items) }
            ensures parts { IfOk result (λ r. map (λ k. k.before) (flux_cells.problem_of r.0 r.1.items).parts ≡ map flux_cells.unadvanced blocks.items) }
            ensures made { (n fields depth : ℕ) (fluxes : Fluxes) → AreAdvancedBy set.now.grid set.now.places n fields depth blocks.items faces.items fluxes →
                IfOk result (λ r. IsMadeBy (flux_cells.problem_of r.0 r.1.items) fluxes) }
            ensures begins { IfOk result (λ r. FluxFixBegins (flux_cells.problem_of r.0 r.1.items) r.1.items) }
        { FluxFix::begin_in_threads(rt, alloc, workers, set, blocks, faces) },
        refresh: |alloc: Global, phase: Refresh, cells: Vec<RefreshCell>| -> Result<
            Quiet<Refresh>,
            Memory,
        >
            requires workers { (1 ≤ workers) × (workers ≤ 16) }
            requires begins { RefreshBegins (refresh_cells.problem_of phase cells.items) cells.items }
            ensures problem { IfOk result (λ quiet. quiet.problem ≡ refresh_cells.problem_of phase cells.items) }
        { bring_to_rest(rt, alloc, phase, cells, workers, gate) },
        adapt: |alloc: Global, phase: Adapt, cells: Vec<AdaptCell>| -> Result<Quiet<Adapt>, Memory>
            requires workers { (1 ≤ workers) × (workers ≤ 16) }
            requires begins { adapt_problem.AdaptBegins (adapt_problem.problem_of phase cells.items) cells.items }
            ensures problem { IfOk result (λ quiet. quiet.problem ≡ adapt_problem.problem_of phase cells.items) }
            ensures counts { IfOk result (λ quiet. CountsWithin (adapt_problem.problem_of phase cells.items) quiet.handled) }
        { adapt_to_rest(rt, alloc, phase, cells, workers, gate) },
        correct: |alloc: Global, phase: FluxFix, cells: Vec<FluxCell>| -> Result<
            Quiet<FluxFix>,
            Memory,
        >
            requires workers { (1 ≤ workers) × (workers ≤ 16) }
            requires begins { FluxFixBegins (flux_cells.problem_of phase cells.items) cells.items }
            ensures problem { IfOk result (λ quiet. quiet.problem ≡ flux_cells.problem_of phase cells.items) }
        { bring_to_rest(rt, alloc, phase, cells, workers, gate) },
        wishes: |alloc: Global, criteria: &[Criterion], phase: u32, blocks: &[Block]| -> Result<
            Vec<Wish>,
            Memory,
        >
            requires workers { (1 ≤ workers) × (workers ≤ 16) }
            requires limits { (i : ℕ) (b : BlockState) → slice_get blocks.now i ≡ Some b → All (KeepsCriterion (length b.amounts)) criteria.now }
            requires small { (i : ℕ) (b : BlockState) → slice_get blocks.now i ≡ Some b → IsSmall b }
            ensures wishes { IfOk result (λ wishes. wishes.items ≡ map (λ b. criteria_wish b.edge phase criteria.now (seen_at b) b.place) blocks.now) }
        { wishes(rt, alloc, workers, criteria, phase, blocks) },
        advance: |alloc: Global, params: &Params, blocks: &mut Vec<Block>| -> Result<
            Vec<FaceFluxes>,
            Memory,
        >
            requires workers { (1 ≤ workers) × (workers ≤ 16) }
            requires can { (i : ℕ) (b : BlockState) → slice_get blocks.old.items i ≡ Some b → CanAdvance params.now b }
            ensures advanced { IfOk result (λ faces. AreUpwindAdvanced params.now blocks.old.items blocks.new.items faces.items) }
        { advances(rt, alloc, workers, params, blocks) },
    };
    obey::<W, _, S, K, H>(alloc, &crew, words, command, source, sink, shelf)
}
