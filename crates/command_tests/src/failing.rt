// Calls of the disk that fail, each in turn.
mod nests;
mod stores;

use crate::case::{Case, pass};
use std::alloc::Global;
use std::marker::Sync;
use std::process::Abort;
use std::sync::Wait;
use std::thread::Threads;

// Files by their names.
type Files = &'static [(&'static str, &'static str)];

// Which call of the disk fails, the status and the line, and what files hold then.
type Failing = (u64, u8, &'static str, Files);

// A command line, the files that are there, and what is left if calls fail.
struct Job {
    words: &'static str,
    files: Files,
    calls: &'static [Failing],
}

// A job leaves at a failing call what is stated.
fn fails_at<R: Abort + Threads + Wait + Sync>(rt: &R, alloc: Global, job: &Job, failing: &Failing) {
    let (call, status, printed, left) = *failing;
    let case = Case {
        words: job.words,
        files: job.files,
        fails: (call, 0),
        status,
        printed,
        left,
    };
    pass(rt, alloc, &case);
}

// The same at each of its calls.
fn fails_in_turn<R: Abort + Threads + Wait + Sync>(rt: &R, alloc: Global, job: &Job) {
    for failing in job.calls {
        fails_at(rt, alloc, job, failing);
    }
}
