//! A source in memory.
ghost use Rattle.std.specs.Prelude.{◌≡◌, ℕ, ◌+◌, ◌-◌, ◌^◌, ◌<◌, ◌≤◌, ◌↔◌, List, length, take, drop, min, IfOk, IfSome, OnErr, IsErr, IsTrue, IsFalse, Some, Contains};
ghost use Rattle.std.specs.Io.KnownBytes.{prepend_known, IsAtEnd};
ghost use Rattle.cello_io.specs.Counts.{HasCause, CountsErrors};

use crate::copying::copy_front;
use crate::listed::is_listed;
use crate::{Failed, Source};

/// Bytes in memory, and the numbers of the calls that fail, counted from 1.
#[derive(Drop)]
pub struct MemorySource {
    bytes: Vec<u8>,
    next: usize,
    fails: Vec<u32>,
    calls: u64,
    has_ended: bool,
    faults: u64,
    ghost in_range: { next ≤ length bytes.items },
}

impl MemorySource {
    ghost use Rattle.cello_io.specs.Devices.{source_calls, source_fails};

    /// A source of these bytes, whose calls of these numbers fail.
    pub fn new(bytes: Vec<u8>, fails: Vec<u32>) -> MemorySource
        ensures left { ⟦<MemorySource as Source>⟧.left result ≡ Some bytes.items }
        ensures not_ended { IsFalse (⟦<MemorySource as Source>⟧.has_ended result) }
        ensures read_faults { ⟦<MemorySource as Source>⟧.read_faults result ≡ 0 }
        ensures calls { source_calls result ≡ 0 }
        ensures fails { source_fails result ≡ fails.items }
    {
        MemorySource {
            bytes,
            next: 0,
            fails,
            calls: 0,
            has_ended: false,
            faults: 0,
        }
    }
}

impl Source for MemorySource {
    ghost use Rattle.cello_io.specs.Devices.{source_calls, source_fails};

    ghost left = { λ source. Some (drop source.next source.bytes.items) };

    ghost has_ended = { λ source. source.has_ended };

    ghost read_faults = { λ source. source.faults };

    fn read_piece(&mut self, buf: &mut [u8]) -> Result<usize, Failed>
        requires has_room { 0 < length buf.old }
        ensures within { IfOk result (λ count. count ≤ length buf.new) }
        ensures moved { IfOk result (λ count. ⟦<MemorySource as Source>⟧.left self.old
            ≡ prepend_known (take count buf.new) (⟦<MemorySource as Source>⟧.left self.new)) }
        ensures ended { IfOk result (λ count. IsTrue (⟦<MemorySource as Source>⟧.has_ended self.new) ↔ (count ≡ 0)) }
        ensures at_end { IfOk result (λ count. count ≡ 0 → IsAtEnd (⟦<MemorySource as Source>⟧.left self.new)) }
        ensures kept { OnErr result (⟦<MemorySource as Source>⟧.left self.new ≡ ⟦<MemorySource as Source>⟧.left self.old) }
        ensures not_ended { OnErr result (IsFalse (⟦<MemorySource as Source>⟧.has_ended self.new)) }
        ensures cause { HasCause (⟦<MemorySource as Source>⟧.read_faults self.old) (⟦<MemorySource as Source>⟧.read_faults self.new) result }
        ensures as_many { IfOk result (λ count. IfSome (⟦<MemorySource as Source>⟧.left self.old)
            (λ left. count ≡ min (length buf.new) (length left))) }
        ensures counted { CountsErrors (⟦<MemorySource as Source>⟧.read_faults self.old) (⟦<MemorySource as Source>⟧.read_faults self.new) result }
        ensures call { source_calls self.new ≡ min (source_calls self.old + 1) (2 ^ 64 - 1) }
        ensures same_fails { source_fails self.new ≡ source_fails self.old }
        ensures fails { IsErr result ↔ Contains (source_fails self.old) (source_calls self.new) }
    {
        self.calls = self.calls.saturating_add(1);
        if is_listed(&self.fails, self.calls) {
            self.has_ended = false;
            self.faults = self.faults.saturating_add(1);
            return Err(Failed);
        }
        let count = copy_front(&self.bytes[self.next..], buf);
        self.next += count;
        self.has_ended = count == 0;
        Ok(count)
    }
}
