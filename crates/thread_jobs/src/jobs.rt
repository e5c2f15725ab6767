ghost use Rattle.std.specs.Prelude.{◌≡◌, ◌≤◌, [], All, vec_len, vec_capacity};
ghost use Rattle.std.specs.List.{AllZip};
ghost use Rattle.std.specs.Thread.{IsSend, IsSync};

use std::sync::Wait;
use std::thread::{Threads, join};

/// Work that a thread may do. It stands in place of a closure where what is captured has a type parameter.
pub trait Job: Drop {
    /// What it gives.
    type Out;

    /// Whether it may be run.
    ghost ready: { Self → Type 0 };

    /// The job, and what it may give.
    ghost gives: { Self → Self.Out → Type 0 };

    /// Does the work. It may wait.
    fn run<R: Wait>(self, rt: &R) -> Self::Out
        requires { ready self }
        ensures { gives self result };
}

/// Runs all jobs at once, each in a thread of its own, and one more in this thread. A job for which no thread can be made is run in this thread after that one, so jobs that wait for one another may then wait for good. What the jobs give comes in their order, in a room that was made before and is empty. It takes no memory but what the jobs and the threads take.
pub fn run_all<A: Job + Send, Z: Job, R: Threads + Wait + Sync>(
    rt: &R,
    mut jobs: Vec<A>,
    last: Z,
    room: Vec<A::Out>,
) -> (Vec<A::Out>, Z::Out)
where
    A::Out: Send + Drop,
    requires ready { All A.ready jobs.items }
    requires last { Z.ready last }
    requires room { (room.items ≡ []) × (vec_len jobs ≤ vec_capacity room) }
    ensures gives { AllZip A.gives jobs.items result.0.items }
    ensures last { Z.gives last result.1 }
    ensures len { vec_len result.0 ≡ vec_len jobs }
    ensures capacity { vec_capacity result.0 ≡ vec_capacity room }
{
    let Some(job) = jobs.pop() else {
        return (room, last.run(rt));
    };
    let (out, (mut outs, end)) = join(
        rt,
        move || -> A::Out
            requires { A.ready job }
            ensures { A.gives job result }
        { job.run(rt) },
        move || -> (Vec<A::Out>, Z::Out)
            requires { IsSync R.row × IsSend A.row × IsSend A.Out.row × All A.ready jobs.items × Z.ready last × (room.items ≡ []) × (vec_len jobs ≤ vec_capacity room) }
            ensures { AllZip A.gives jobs.items result.0.items × Z.gives last result.1 × (vec_len result.0 ≡ vec_len jobs) × (vec_capacity result.0 ≡ vec_capacity room) }
        { run_all(rt, jobs, last, room) },
    );
    outs.push_reserved(out);
    (outs, end)
}
