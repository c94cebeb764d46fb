//! Tests of owners, of workers, and of deliveries by picks, over the adapt phase. There is nothing to run: `rt test`
//! runs the tests.
#![tactic(auto)]

#[cfg(test)]
mod meshes;
#[cfg(test)]
mod owners;
#[cfg(test)]
mod picks;
#[cfg(test)]
mod seats;
#[cfg(test)]
mod workers;

fn main(_rt: HostRuntime) {}
