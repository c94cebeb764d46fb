//! A call for each element of a slice.

ghost use Rattle.std.specs.Prelude.{◌≡◌, ◌+◌, ◌/◌, ◌^◌, ◌<◌, ◌⊎◌, IfErr, IfOk, length, max, min};
ghost use denote.Param.Send.{IsSend, IsSync};
ghost use Rattle.thread_runs.specs.Runs.{AcceptsAll, AcceptsAt, AcceptsEach, CallsAt, ChangesAll, ChangesEach, RefusesAny, RefusesOne};

use std::thread::{Threads, join_mut};

/// How many threads serve `count` elements: at most `most`, and so few that each has at least `fewest`, but one at
/// least.
pub fn threads_for(most: usize, count: usize, fewest: usize) -> usize
    requires some { 0 < fewest }
    ensures { result ≡ max 1 (min most (count / fewest)) }
{
    most.min(count / fewest).max(1)
}

/// Calls `f(i, &mut elements[i])` at each place, in at most `threads` threads. Each has a run of places that follow one
/// another, and ends at the first call that answers an error. Such an error is the answer then.
pub fn try_for_each_mut<
    R: Threads + Sync,
    T: Send,
    E: Send + Drop,
    F: Fn(usize, &mut T) -> Result<(), E> + Sync,
>(rt: &R, elements: &mut [T], threads: usize, f: &F) -> Result<(), E>
    requires threads { 0 < threads }
    requires accepts { AcceptsEach F.Fn f.now elements.old }
    ensures many { length elements.new ≡ length elements.old }
    ensures changed { IfOk result (λ _. ChangesEach F.Fn f.now elements.old elements.new) }
    ensures refused { IfErr result (RefusesOne F.Fn f.now elements.old) }
{
    if threads == 1 || elements.len() < 2 {
        return in_turn(f, 0, elements);
    }
    let most = elements.len().div_ceil(threads);
    side_by_side(rt, f, 0, most, elements)
}

/// Calls `f(base + i, &mut elements[i])` at each place, in a new thread for every `most` places.
#[cycle(runs)]
fn side_by_side<
    R: Threads + Sync,
    T: Send,
    E: Send + Drop,
    F: Fn(usize, &mut T) -> Result<(), E> + Sync,
>(rt: &R, f: &F, base: usize, most: usize, elements: &mut [T]) -> Result<(), E>
    requires some { 0 < most }
    requires room { base + length elements.old < 2 ^ 64 }
    requires accepts { AcceptsAll F.Fn f.now base elements.old }
    ensures many { length elements.new ≡ length elements.old }
    ensures changed { IfOk result (λ _. ChangesAll F.Fn f.now base elements.old elements.new) }
    ensures refused { IfErr result (RefusesAny F.Fn f.now base elements.old) }
{
    if elements.is_empty() {
        return Ok(());
    }
    let count = most.min(elements.len());
    let (first, rest) = elements.split_at_mut(count);
    first_and_rest(rt, f, most, base, first, base + count, rest)
}

/// Calls `f` at the places of `first` in a new thread, and meanwhile has the calls at those of `rest` begun.
#[cycle(runs)]
fn first_and_rest<
    R: Threads + Sync,
    T: Send,
    E: Send + Drop,
    F: Fn(usize, &mut T) -> Result<(), E> + Sync,
>(
    rt: &R,
    f: &F,
    most: usize,
    base: usize,
    first: &mut [T],
    next: usize,
    rest: &mut [T],
) -> Result<(), E>
    requires some { 0 < most }
    requires first_room { base + length first.old < 2 ^ 64 }
    requires first_accepts { AcceptsAll F.Fn f.now base first.old }
    requires rest_room { next + length rest.old < 2 ^ 64 }
    requires rest_accepts { AcceptsAll F.Fn f.now next rest.old }
    ensures first_many { length first.new ≡ length first.old }
    ensures rest_many { length rest.new ≡ length rest.old }
    ensures first_changed { IfOk result (λ _. ChangesAll F.Fn f.now base first.old first.new) }
    ensures rest_changed { IfOk result (λ _. ChangesAll F.Fn f.now next rest.old rest.new) }
    ensures refused { IfErr result (λ e. RefusesAny F.Fn f.now base first.old e ⊎ RefusesAny F.Fn f.now next rest.old e) }
{
    let mut theirs = || -> Result<(), E>
        requires { (base + length first.now < 2 ^ 64) × AcceptsAll F.Fn f.now base first.now }
        ensures many { length first.exit.now ≡ length first.entry.now }
        ensures changed { IfOk result (λ _. ChangesAll F.Fn f.entry.now base first.entry.now first.exit.now) }
        ensures refused { IfErr result (RefusesAny F.Fn f.entry.now base first.entry.now) }
    { in_turn(f, base, first) };
    let mut others = || -> Result<(), E>
        requires { IsSync R.row × IsSync F.row × IsSend T.row × IsSend E.row × (0 < most) × (next + length rest.now < 2 ^ 64) × AcceptsAll F.Fn f.now next rest.now }
        ensures many { length rest.exit.now ≡ length rest.entry.now }
        ensures changed { IfOk result (λ _. ChangesAll F.Fn f.entry.now next rest.entry.now rest.exit.now) }
        ensures refused { IfErr result (RefusesAny F.Fn f.entry.now next rest.entry.now) }
    { side_by_side(rt, f, next, most, rest) };
    let (first_answer, rest_answer) = join_mut(rt, &mut theirs, &mut others);
    first_answer?;
    rest_answer
}

/// Calls `f(base + i, &mut elements[i])` at one place after another, until one answers an error.
fn in_turn<T, E: Drop, F: Fn(usize, &mut T) -> Result<(), E>>(
    f: &F,
    base: usize,
    elements: &mut [T],
) -> Result<(), E>
    requires room { base + length elements.old < 2 ^ 64 }
    requires accepts { AcceptsAll F.Fn f.now base elements.old }
    ensures many { length elements.new ≡ length elements.old }
    ensures changed { IfOk result (λ _. ChangesAll F.Fn f.now base elements.old elements.new) }
    ensures refused { IfErr result (RefusesAny F.Fn f.now base elements.old) }
{
    for i in 0..elements.len() {
        call_at(f, base + i, &mut elements[i])?;
    }
    Ok(())
}

/// Calls `f(place, element)`.
fn call_at<T, E, F: Fn(usize, &mut T) -> Result<(), E>>(
    f: &F,
    place: usize,
    element: &mut T,
) -> Result<(), E>
    requires { AcceptsAt F.Fn f.now place element.old }
    ensures { CallsAt F.Fn f.now place element.old result element.new }
{
    f(place, element)
}
