//! Tests of shelves, in memory and in a folder of the real disk. There is nothing to run: `rt test` runs the tests.
#![tactic(auto)]

#[cfg(test)]
mod fetching;
#[cfg(test)]
mod files;
#[cfg(test)]
mod folders;
#[cfg(test)]
mod memory;

fn main(_rt: HostRuntime) {}
