//! Tests of the top call over devices in memory, which fail where they are told to, with values found by hand. What the
//! built program shows stands in the folder `cases/` and not here. There is nothing to run: `rt test` runs the tests.
#![tactic(auto)]

#[cfg(test)]
mod calls;
#[cfg(test)]
mod cycles;
#[cfg(test)]
mod devices;
#[cfg(test)]
mod lines;

fn main(_rt: HostRuntime) {}
