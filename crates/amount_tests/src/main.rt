//! Tests of amounts, with values found by hand. There is nothing to run: `rt test` runs the tests.
#![tactic(auto)]

#[cfg(test)]
mod blocks;
#[cfg(test)]
mod filling;

fn main(_rt: HostRuntime) {}
