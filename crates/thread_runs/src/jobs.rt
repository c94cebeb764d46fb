//! A call for each job of a list.

ghost use Rattle.std.specs.Prelude.{◌≡◌, ◌≤◌, IfOk, [], length, vec_capacity, vec_len};
ghost use denote.Param.Send.{IsSend, IsSync};
ghost use Rattle.std.specs.Fn.{FnReturns};
ghost use Rattle.std.specs.Fork.{AcceptsJobs, GivesJobs};
ghost use Rattle.thread_runs.specs.Jobs.{GivesAll, TakesAll};

use std::alloc::{AllocError, Global};
use std::thread::{Threads, join};

/// Calls `f(job)` with each job, in a thread of its own where one can be made, and gives the results in the order of the
/// jobs.
pub fn map_vec<R: Threads + Sync, J: Send + Drop, X: Send + Drop, F: Fn(J) -> X + Sync>(
    rt: &R,
    alloc: Global,
    jobs: Vec<J>,
    f: &F,
) -> Result<Vec<X>, AllocError>
    requires { AcceptsJobs F.Fn f.now jobs.items }
    ensures len { IfOk result (λ results. vec_len results ≡ vec_len jobs) }
    ensures each { IfOk result (λ results. GivesJobs F.Fn f.now jobs.items results.items) }
{
    let results = Vec::with_capacity(alloc, jobs.len())?;
    if jobs.len() == 1 {
        return Ok(one_alone(f, jobs, results));
    }
    Ok(all_at_once(rt, f, jobs, results))
}

/// Calls `f` with the only job.
fn one_alone<J: Drop, X: Drop, F: Fn(J) -> X>(f: &F, jobs: Vec<J>, results: Vec<X>) -> Vec<X>
    requires one { vec_len jobs ≡ 1 }
    requires accepts { TakesAll F.Fn f.now jobs.items }
    requires none_yet { results.items ≡ [] }
    requires room { vec_len jobs ≤ vec_capacity results }
    ensures { GivesAll F.Fn f.now jobs.items result.items }
{
    let mut jobs = jobs;
    let mut results = results;
    let job = jobs.pop().unwrap();
    results.push_reserved(f(job));
    results
}

/// Calls `f` with each job, the last one in a new thread, and meanwhile has the calls with the others begun.
#[cycle(jobs)]
fn all_at_once<R: Threads + Sync, J: Send + Drop, X: Send + Drop, F: Fn(J) -> X + Sync>(
    rt: &R,
    f: &F,
    mut jobs: Vec<J>,
    results: Vec<X>,
) -> Vec<X>
    requires accepts { TakesAll F.Fn f.now jobs.items }
    requires none_yet { results.items ≡ [] }
    requires room { vec_len jobs ≤ vec_capacity results }
    ensures given { GivesAll F.Fn f.now jobs.items result.items }
    ensures capacity { vec_capacity result ≡ vec_capacity results }
{
    let Some(job) = jobs.pop() else {
        return results;
    };
    let theirs = move || -> X
        requires { F.pre f.now job }
        ensures { FnReturns F.Fn f.entry.now (job, tt) result }
    { f(job) };
    let others = move || -> Vec<X>
        requires { IsSync R.row × IsSync F.row × IsSend J.row × IsSend X.row × TakesAll F.Fn f.now jobs.items × (results.items ≡ []) × (vec_len jobs ≤ vec_capacity results) }
        ensures { GivesAll F.Fn f.entry.now jobs.items result.items × (vec_capacity result ≡ vec_capacity results) }
    { all_at_once(rt, f, jobs, results) };
    let (last, mut all) = join(rt, theirs, others);
    all.push_reserved(last);
    all
}
