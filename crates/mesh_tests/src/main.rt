//! Tests of the public calls of the mesh crates that no command makes yet, and of their definitions, with values found
//! by hand. There is nothing to run: `rt test` runs the tests.
#![tactic(auto)]

#[cfg(test)]
mod leaf_sets;
#[cfg(test)]
mod neighbours;
#[cfg(test)]
mod places;

fn main(_rt: HostRuntime) {}
