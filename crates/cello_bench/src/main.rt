//! Measures operations of the libraries by their public calls. It is no part of the product.
//!
//! Without words it prints nothing. `cello_bench NAME SIZE..` builds an input of this size, runs one operation some
//! times, and prints the best time, what was worked on, and the rate, each beside a yardstick. `docs/PERFORMANCE.md`
//! lists the names and their sizes.
#![tactic(auto)]

mod adapting;
mod advancing;
mod applying;
mod fault;
mod filling;
mod ghost_times;
mod ghosts;
mod inputs;
mod refreshing;
mod small_blocks;
mod stopwatch;
mod writing;

use adapting::bench_adapt;
use advancing::bench_advance;
use applying::{Change, bench_apply};
use fault::Fault;
use filling::bench_fill;
use ghost_times::bench_ghosts;
use refreshing::bench_refresh;
use std::env;
use std::process::ExitCode;
use writing::bench_write_fields;

/// The words after the program's name.
fn words(rt: &HostRuntime) -> Result<Vec<String>, Fault> {
    let mut words = Vec::new(rt.alloc());
    for word in env::args(rt)?.skip(1) {
        words.push(word)?;
    }
    Ok(words)
}

/// The number that stands at a place of the words.
fn number(words: &[String], at: usize) -> Result<u64, Fault> {
    match words.get(at) {
        Some(word) => word.as_str().parse::<u64>().map_err(|_| Fault::Words),
        None => Err(Fault::Words),
    }
}

/// How large an input is.
#[derive(Debug, Clone, Copy)]
struct Sizes {
    trees: u64,
    block: u64,
    fields: u64,
}

/// The sizes that stand behind the name.
fn read_sizes(words: &[String]) -> Result<Sizes, Fault> {
    Ok(Sizes {
        trees: number(words, 1)?,
        block: number(words, 2)?,
        fields: number(words, 3)?,
    })
}

/// Measures an operation over blocks.
fn bench_blocks(rt: &HostRuntime, name: &str, sizes: Sizes) -> Result<(), Fault> {
    let Sizes {
        trees,
        block,
        fields,
    } = sizes;
    match name {
        "fill" => bench_fill(rt, trees, block, fields),
        "stay" => bench_apply(rt, Change::Stay, trees, block, fields),
        "split" => bench_apply(rt, Change::Split, trees, block, fields),
        "join" => bench_apply(rt, Change::Join, trees, block, fields),
        "advance" => bench_advance(rt, true, trees, block),
        "advance_x" => bench_advance(rt, false, trees, block),
        "write_fields" => bench_write_fields(rt, trees, block, fields),
        _ => Err(Fault::Words),
    }
}

/// Measures an operation over blocks that send each other messages.
fn bench_messages(rt: &HostRuntime, name: &str, sizes: Sizes) -> Result<(), Fault> {
    let Sizes {
        trees,
        block,
        fields,
    } = sizes;
    match name {
        "adapt" => bench_adapt(rt, trees, block),
        "ghosts" => bench_ghosts(rt, false, trees, block, fields),
        "refined_ghosts" => bench_ghosts(rt, true, trees, block, fields),
        "refresh" => bench_refresh(rt, false, trees, block, fields),
        "refined_refresh" => bench_refresh(rt, true, trees, block, fields),
        _ => bench_blocks(rt, name, sizes),
    }
}

/// Measures what the words name, or nothing where there are none.
fn run(rt: &HostRuntime) -> Result<(), Fault> {
    let words = words(rt)?;
    match words.first() {
        Some(name) => bench_messages(rt, name.as_str(), read_sizes(&words)?),
        None => Ok(()),
    }
}

fn main(rt: HostRuntime) -> ExitCode {
    match run(&rt) {
        Ok(()) => ExitCode::SUCCESS,
        Err(fault) => {
            let _ = eprintln!(rt; "cello_bench: {}", fault.text());
            ExitCode::FAILURE
        }
    }
}
