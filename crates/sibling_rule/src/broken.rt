//! A broken level rule.

/// The rules of levels, in their order.
#[derive(Debug, Clone, Copy, PartialEq, Eq)]
pub enum LevelRule {
    /// A level changes by at most one, and is at most the finest.
    Range,
    /// It is at least the one wished for, as far as the range allows.
    Wish,
    /// Touching leaves end at most one level apart.
    Jump,
    /// A leaf that lacks a sibling doesn't coarsen.
    Lone,
    /// A leaf doesn't coarsen beside a sibling that doesn't.
    Sibling,
}

/// A rule that the leaf at `a` breaks by the leaf at `b`, which is `a` itself for a rule about one leaf alone.
#[derive(Debug, Clone, Copy, PartialEq, Eq)]
pub struct Broken {
    pub a: u32,
    pub b: u32,
    pub rule: LevelRule,
}
