//! A sink in memory.
ghost use Rattle.std.specs.Prelude.{◌≡◌, ◌⊎◌, ℕ, ◌+◌, ◌-◌, ◌^◌, ◌<◌, ◌≤◌, ◌↔◌, List, [], length, take, min, IfOk, OnErr, IsErr, Some, Contains, vec_capacity};
ghost use Rattle.std.specs.Io.KnownBytes.{append_known};
ghost use Rattle.cello_io.specs.Counts.{HasCause, CountsErrors};

use crate::listed::is_listed;
use crate::{Failed, Sink};
use cello_num::Memory;
use std::alloc::Global;

/// Room in memory for so many bytes, and the numbers of the calls that fail, counted from 1. A write that passes
/// the room fails too, and writes nothing.
#[derive(Drop)]
pub struct MemorySink {
    bytes: Vec<u8>,
    room: usize,
    fails: Vec<u32>,
    calls: u64,
    faults: u64,
    ghost within_room: { length bytes.items ≤ room },
    ghost reserved: { room ≤ vec_capacity bytes },
}

impl MemorySink {
    ghost use Rattle.cello_io.specs.Devices.{sink_calls, sink_fails, sink_room};

    /// A sink with room for so many bytes, whose calls of these numbers fail.
    pub fn new(alloc: Global, room: usize, fails: Vec<u32>) -> Result<MemorySink, Memory>
        ensures written { IfOk result (λ sink. ⟦<MemorySink as Sink>⟧.written sink ≡ Some []) }
        ensures write_faults { IfOk result (λ sink. ⟦<MemorySink as Sink>⟧.write_faults sink ≡ 0) }
        ensures calls { IfOk result (λ sink. sink_calls sink ≡ 0) }
        ensures fails { IfOk result (λ sink. sink_fails sink ≡ fails.items) }
        ensures room { IfOk result (λ sink. sink_room sink ≡ room) }
    {
        Ok(MemorySink {
            bytes: Vec::with_capacity(alloc, room)?,
            room,
            fails,
            calls: 0,
            faults: 0,
        })
    }

    /// What was written.
    pub fn bytes(&self) -> &[u8]
        ensures written { ⟦<MemorySink as Sink>⟧.written self.now ≡ Some result.now }
    {
        &self.bytes
    }
}

impl Sink for MemorySink {
    ghost use Rattle.cello_io.specs.Devices.{sink_calls, sink_fails, sink_room, passes_room};

    ghost Rest = { Unit {0} };

    ghost written = { λ sink. Some sink.bytes.items };

    ghost rest = { λ sink. tt };

    ghost write_faults = { λ sink. sink.faults };

    fn write_piece(&mut self, piece: &[u8]) -> Result<usize, Failed>
        requires has_bytes { 0 < length piece.now }
        ensures within { IfOk result (λ count. (0 < count) × (count ≤ length piece.now)) }
        ensures appended { IfOk result (λ count. ⟦<MemorySink as Sink>⟧.written self.new
            ≡ append_known (⟦<MemorySink as Sink>⟧.written self.old) (take count piece.now)) }
        ensures kept { OnErr result (⟦<MemorySink as Sink>⟧.written self.new ≡ ⟦<MemorySink as Sink>⟧.written self.old) }
        ensures same_rest { ⟦<MemorySink as Sink>⟧.rest self.new ≡ ⟦<MemorySink as Sink>⟧.rest self.old }
        ensures cause { HasCause (⟦<MemorySink as Sink>⟧.write_faults self.old) (⟦<MemorySink as Sink>⟧.write_faults self.new) result }
        ensures full { IfOk result (λ count. count ≡ length piece.now) }
        ensures counted { CountsErrors (⟦<MemorySink as Sink>⟧.write_faults self.old) (⟦<MemorySink as Sink>⟧.write_faults self.new) result }
        ensures call { sink_calls self.new ≡ min (sink_calls self.old + 1) (2 ^ 64 - 1) }
        ensures same_fails { sink_fails self.new ≡ sink_fails self.old }
        ensures same_room { sink_room self.new ≡ sink_room self.old }
        ensures fails { IsErr result
            ↔ (Contains (sink_fails self.old) (sink_calls self.new) ⊎ passes_room self.old piece.now) }
    {
        self.calls = self.calls.saturating_add(1);
        if is_listed(&self.fails, self.calls) || piece.len() > self.room - self.bytes.len() {
            self.faults = self.faults.saturating_add(1);
            return Err(Failed);
        }
        self.bytes.extend_from_slice(piece).unwrap();
        Ok(piece.len())
    }
}
