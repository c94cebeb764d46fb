//! Tests of checkpoints that are written and read. There is nothing to run: `rt test` runs the tests.
#![tactic(auto)]

#[cfg(test)]
mod faults;
#[cfg(test)]
mod files;
#[cfg(test)]
mod whole;

fn main(_rt: HostRuntime) {}
