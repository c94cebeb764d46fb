//! Tests of `enter` with workers, over devices in memory: that two workers serve each phase side by side, which no contract
//! says, and that their reports and files are those of one thread. There is nothing to run: `rt test` runs the tests.
#![tactic(auto)]

#[cfg(test)]
mod agreement;
#[cfg(test)]
mod calls;
#[cfg(test)]
mod meeting;
#[cfg(test)]
mod side_by_side;

fn main(_rt: HostRuntime) {}
