//! The ledger and its steps.
ghost use Rattle.std.specs.Prelude.{◌≡◌, ℕ, ◌+◌, ◌^◌, ◌<◌, ◌≤◌, slice_index};
ghost use Rattle.amount_ledger.specs.Ledgers.{IsBalanced, differences, fields_kept, first_ledger, later_ledger, restored_ledger, sums};

use std::marker::Model;

/// How many fields there are at most.
const FIELDS: usize = 4;

/// The totals of four fields and what has left the domain, in amounts. A field that the parameters don't have holds 0.
#[derive(Debug, Clone, Copy, PartialEq, Eq)]
pub struct Ledger {
    initial: [u64; FIELDS],
    total: [u64; FIELDS],
    out: [u64; FIELDS],
    gone: [u64; FIELDS],
}

impl Model for Ledger {
    ghost use Rattle.amount_ledger.specs.Ledgers.{IsBalanced, LedgerState};

    ghost Value = { LedgerState };

    ghost view = { λ l. record { initial = l.initial; total = l.total; out = l.out; gone = l.gone } };

    ghost invariant = { λ l. IsBalanced (record { initial = l.initial; total = l.total; out = l.out; gone = l.gone }) };

    ghost inverse = { λ l. record { initial = l.initial; total = l.total; out = l.out; gone = l.gone } };
}

impl Ledger {
    /// The ledger of these initial totals, before anything has left.
    pub fn new(initial: [u64; FIELDS]) -> Ledger
        ensures first { result ≡ first_ledger initial }
    {
        Ledger {
            initial,
            total: initial,
            out: [0; FIELDS],
            gone: [0; FIELDS],
        }
    }

    /// The ledger of a run that goes on with these totals, after this much has left.
    pub fn restored(total: [u64; FIELDS], gone: [u64; FIELDS]) -> Ledger
        requires limit { (f : ℕ) → f < fields_kept → slice_index total f + slice_index gone f ≤ 2 ^ 40 }
        ensures restored { result ≡ restored_ledger total gone }
    {
        Ledger {
            initial: sums(total, gone),
            total,
            out: [0; FIELDS],
            gone,
        }
    }

    /// A cycle ends in which this much left the domain.
    pub fn step(&mut self, out: [u64; FIELDS])
        requires held { (f : ℕ) → f < fields_kept → slice_index out f ≤ slice_index self.old.total f }
        ensures later { self.new ≡ later_ledger self.old out }
    {
        *self = Ledger {
            initial: self.initial,
            total: differences(self.total, out),
            out,
            gone: sums(self.gone, out),
        };
    }

    /// The totals at the start.
    pub fn initial(&self) -> [u64; FIELDS]
        ensures initial { result ≡ self.now.initial }
        ensures balanced { IsBalanced self.now }
    {
        self.initial
    }

    /// The present totals.
    pub fn total(&self) -> [u64; FIELDS]
        ensures total { result ≡ self.now.total }
        ensures balanced { IsBalanced self.now }
    {
        self.total
    }

    /// What left in the last cycle.
    pub fn out(&self) -> [u64; FIELDS]
        ensures out { result ≡ self.now.out }
        ensures balanced { IsBalanced self.now }
    {
        self.out
    }

    /// What has left in all cycles.
    pub fn gone(&self) -> [u64; FIELDS]
        ensures gone { result ≡ self.now.gone }
        ensures balanced { IsBalanced self.now }
    {
        self.gone
    }
}

/// Field by field the sum.
fn sums(a: [u64; FIELDS], b: [u64; FIELDS]) -> [u64; FIELDS]
    requires room { (f : ℕ) → f < fields_kept → slice_index a f + slice_index b f < 2 ^ 64 }
    ensures sums { result ≡ sums a b }
{
    [a[0] + b[0], a[1] + b[1], a[2] + b[2], a[3] + b[3]]
}

/// Field by field what is left.
fn differences(a: [u64; FIELDS], b: [u64; FIELDS]) -> [u64; FIELDS]
    requires room { (f : ℕ) → f < fields_kept → slice_index b f ≤ slice_index a f }
    ensures differences { result ≡ differences a b }
{
    [a[0] - b[0], a[1] - b[1], a[2] - b[2], a[3] - b[3]]
}
