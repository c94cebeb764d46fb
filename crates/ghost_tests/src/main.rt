//! Tests of ghost pieces: the shells that they fill, beside plain samples that are worked out here from the rules. There
//! is nothing to run: `rt test` runs the tests.
#![tactic(auto)]

#[cfg(test)]
mod delivering;
#[cfg(test)]
mod meshes;
#[cfg(test)]
mod plain_samples;
#[cfg(test)]
mod shells;
#[cfg(test)]
mod tables;

fn main(_rt: HostRuntime) {}
