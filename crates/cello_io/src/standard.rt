//! The program's standard streams. They tell no bytes.
ghost use Rattle.std.specs.Prelude.{◌≡◌, ◌<◌, ◌≤◌, ◌↔◌, length, take, None, Ok, IfOk, OnErr, IsTrue, IsFalse};
ghost use Rattle.std.specs.Io.KnownBytes.{prepend_known, append_known, IsAtEnd};
ghost use Rattle.cello_io.specs.Counts.{HasCause, CountsErrors};

use crate::{Failed, Sink, Source};
use std::io;
use std::io::{Read, Stderr, Stdin, Stdout, Write};

/// Standard input.
#[derive(Drop)]
pub struct StdSource {
    stdin: Stdin,
    has_ended: bool,
    faults: u64,
}

impl StdSource {
    /// Standard input, on which no read has failed yet.
    pub fn new(stdin: Stdin) -> StdSource
        ensures left { ⟦<StdSource as Source>⟧.left result ≡ None }
        ensures not_ended { IsFalse (⟦<StdSource as Source>⟧.has_ended result) }
        ensures read_faults { ⟦<StdSource as Source>⟧.read_faults result ≡ 0 }
    {
        StdSource {
            stdin,
            has_ended: false,
            faults: 0,
        }
    }
}

impl Source for StdSource {
    ghost left = { λ source. None };

    ghost has_ended = { λ source. source.has_ended };

    ghost read_faults = { λ source. source.faults };

    fn read_piece(&mut self, buf: &mut [u8]) -> Result<usize, Failed>
        requires has_room { 0 < length buf.old }
        ensures within { IfOk result (λ count. count ≤ length buf.new) }
        ensures moved { IfOk result (λ count. ⟦<StdSource as Source>⟧.left self.old
            ≡ prepend_known (take count buf.new) (⟦<StdSource as Source>⟧.left self.new)) }
        ensures ended { IfOk result (λ count. IsTrue (⟦<StdSource as Source>⟧.has_ended self.new) ↔ (count ≡ 0)) }
        ensures at_end { IfOk result (λ count. count ≡ 0 → IsAtEnd (⟦<StdSource as Source>⟧.left self.new)) }
        ensures kept { OnErr result (⟦<StdSource as Source>⟧.left self.new ≡ ⟦<StdSource as Source>⟧.left self.old) }
        ensures not_ended { OnErr result (IsFalse (⟦<StdSource as Source>⟧.has_ended self.new)) }
        ensures cause { HasCause (⟦<StdSource as Source>⟧.read_faults self.old) (⟦<StdSource as Source>⟧.read_faults self.new) result }
        ensures counted { CountsErrors (⟦<StdSource as Source>⟧.read_faults self.old) (⟦<StdSource as Source>⟧.read_faults self.new) result }
    {
        match self.stdin.read(buf) {
            Ok(count) => {
                self.has_ended = count == 0;
                Ok(count)
            }
            Err(_) => {
                self.has_ended = false;
                self.faults = self.faults.saturating_add(1);
                Err(Failed)
            }
        }
    }
}

/// Standard output.
#[derive(Drop)]
pub struct StdSink {
    stdout: Stdout,
    faults: u64,
}

impl StdSink {
    /// Standard output, on which no write has failed yet.
    pub fn new(stdout: Stdout) -> StdSink
        ensures written { ⟦<StdSink as Sink>⟧.written result ≡ None }
        ensures write_faults { ⟦<StdSink as Sink>⟧.write_faults result ≡ 0 }
    {
        StdSink { stdout, faults: 0 }
    }
}

impl Sink for StdSink {
    ghost Rest = { Unit {0} };

    ghost written = { λ sink. None };

    ghost rest = { λ sink. tt };

    ghost write_faults = { λ sink. sink.faults };

    fn write_piece(&mut self, piece: &[u8]) -> Result<usize, Failed>
        requires has_bytes { 0 < length piece.now }
        ensures within { IfOk result (λ count. (0 < count) × (count ≤ length piece.now)) }
        ensures appended { IfOk result (λ count. ⟦<StdSink as Sink>⟧.written self.new
            ≡ append_known (⟦<StdSink as Sink>⟧.written self.old) (take count piece.now)) }
        ensures kept { OnErr result (⟦<StdSink as Sink>⟧.written self.new ≡ ⟦<StdSink as Sink>⟧.written self.old) }
        ensures same_rest { ⟦<StdSink as Sink>⟧.rest self.new ≡ ⟦<StdSink as Sink>⟧.rest self.old }
        ensures cause { HasCause (⟦<StdSink as Sink>⟧.write_faults self.old) (⟦<StdSink as Sink>⟧.write_faults self.new) result }
        ensures counted { CountsErrors (⟦<StdSink as Sink>⟧.write_faults self.old) (⟦<StdSink as Sink>⟧.write_faults self.new) result }
    {
        taken(self.stdout.write(piece), &mut self.faults)
    }
}

/// Standard error.
#[derive(Drop)]
pub struct ErrSink {
    stderr: Stderr,
    faults: u64,
}

impl ErrSink {
    /// Standard error, on which no write has failed yet.
    pub fn new(stderr: Stderr) -> ErrSink
        ensures written { ⟦<ErrSink as Sink>⟧.written result ≡ None }
        ensures write_faults { ⟦<ErrSink as Sink>⟧.write_faults result ≡ 0 }
    {
        ErrSink { stderr, faults: 0 }
    }
}

impl Sink for ErrSink {
    ghost Rest = { Unit {0} };

    ghost written = { λ sink. None };

    ghost rest = { λ sink. tt };

    ghost write_faults = { λ sink. sink.faults };

    fn write_piece(&mut self, piece: &[u8]) -> Result<usize, Failed>
        requires has_bytes { 0 < length piece.now }
        ensures within { IfOk result (λ count. (0 < count) × (count ≤ length piece.now)) }
        ensures appended { IfOk result (λ count. ⟦<ErrSink as Sink>⟧.written self.new
            ≡ append_known (⟦<ErrSink as Sink>⟧.written self.old) (take count piece.now)) }
        ensures kept { OnErr result (⟦<ErrSink as Sink>⟧.written self.new ≡ ⟦<ErrSink as Sink>⟧.written self.old) }
        ensures same_rest { ⟦<ErrSink as Sink>⟧.rest self.new ≡ ⟦<ErrSink as Sink>⟧.rest self.old }
        ensures cause { HasCause (⟦<ErrSink as Sink>⟧.write_faults self.old) (⟦<ErrSink as Sink>⟧.write_faults self.new) result }
        ensures counted { CountsErrors (⟦<ErrSink as Sink>⟧.write_faults self.old) (⟦<ErrSink as Sink>⟧.write_faults self.new) result }
    {
        taken(self.stderr.write(piece), &mut self.faults)
    }
}

// How many bytes a write took. One that failed is counted, and so is one that took nothing.
pub(crate) fn taken(write: io::Result<usize>, faults: &mut u64) -> Result<usize, Failed>
    ensures taken { IfOk result (λ count. (0 < count) × (write ≡ Ok count)) }
    ensures cause { HasCause faults.old faults.new result }
    ensures counted { CountsErrors faults.old faults.new result }
{
    match write {
        Ok(count) if count > 0 => Ok(count),
        _ => {
            *faults = faults.saturating_add(1);
            Err(Failed)
        }
    }
}
