// The workers of a pool, each in a thread, and the channels to and from them.
ghost use Rattle.std.specs.Thread.{IsSync};

use crate::crew::{Crew, Said};
use crossbeam_channel::{Receiver, Sender, bounded};
use std::alloc::Global;
use std::marker::{Send, Sync};
use std::sync::Wait;
use std::thread::{Threads, map_indices};
use text_base::OutOfMemory;

/// The workers of a pool, and the channels of their jobs. A worker says in `done` that it has begun, and sends what
/// came of each job there; both come out of `back`.
#[derive(Drop)]
pub struct Workers<J: Drop, D: Drop> {
    jobs: Receiver<J>,
    done: Sender<Said<D>>,
    back: Receiver<Said<D>>,
    crew: Crew,
}

impl<J: Drop, D: Drop> Workers<J, D> {
    /// Returns where jobs are sent, and `most` workers that take them, of which none has begun. Returns `OutOfMemory`
    /// if an allocation fails.
    pub fn new(alloc: Global, most: u32) -> Result<(Sender<J>, Workers<J, D>), OutOfMemory> {
        let (to, jobs) = bounded::<J, Global>(alloc, most as usize)?;
        // Each worker says once that it has begun, and has one job at a time.
        let room = 2 * most as usize;
        let (done, back) = bounded::<Said<D>, Global>(alloc, room)?;
        let workers = Workers {
            jobs,
            done,
            back,
            crew: Crew::new(most),
        };
        Ok((to, workers))
    }

    /// Waits until all workers have begun, but at most about a second. Returns whether any has begun. If no thread can
    /// be made, none has.
    pub fn have_begun<R: Wait>(&self, rt: &R) -> bool {
        self.crew.has_begun(rt)
    }

    /// Returns what came of a job, or `None` if nothing has come. While the workers have as many jobs as they may, and
    /// `out` is how many, it waits until one is done or one more worker has begun.
    pub fn next_done<R: Wait>(&self, rt: &R, out: u32) -> Option<D> {
        self.crew.next_done(rt, &self.back, out)
    }

    /// Waits until a job is done, and returns what came of it. `None`: no worker is left.
    pub fn wait_done<R: Wait>(&self, rt: &R) -> Option<D> {
        self.crew.wait_done(rt, &self.back)
    }

    // Does jobs, one after the other, until none is sent any more.
    fn work<F: Fn(J) -> D, R: Wait>(&self, rt: &R, work: &F)
        requires { F.IsAlwaysCallable work.now }
    {
        self.crew.begin(rt, &self.done);
        for _ in rt.forever() {
            let Ok(job) = self.jobs.recv(rt) else {
                return;
            };
            let done = work(job);
            let Ok(()) = self.done.send(rt, Said::Done(done)) else {
                return;
            };
        }
    }
}

impl<J: Send + Drop, D: Send + Drop> Workers<J, D> {
    /// Runs all workers, each in a thread, and does each job by `work`. They end once no job is sent any more.
    pub fn work_all<F: Fn(J) -> D + Sync, R: Threads + Wait + Sync>(
        &self,
        rt: &R,
        alloc: Global,
        work: &F,
    )
        requires { F.IsAlwaysCallable work.now }
    {
        let worker = |_index: usize|
            requires { F.IsAlwaysCallable work.now × IsSync R.row × IsSync F.row }
        {
            self.work(rt, work);
        };
        let _ = map_indices(rt, alloc, self.crew.most() as usize, &worker);
    }
}
