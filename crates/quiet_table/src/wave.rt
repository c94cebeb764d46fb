//! What a wave and a look at the verdict answer.

/// What a wave answers. `NotYet` has the sums of the handled and of the sent words that it read, which differ.
#[derive(Clone, Copy, Debug, PartialEq, Eq)]
pub enum Wave {
    Quiet,
    NotYet { handled: u64, sent: u64 },
    Stopped,
}

/// What stands in the verdict word. Once it is not `Running`, it stays.
#[derive(Clone, Copy, Debug, PartialEq, Eq)]
pub enum Verdict {
    Running,
    Quiet,
    Stopped,
}
