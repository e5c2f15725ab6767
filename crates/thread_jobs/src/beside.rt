ghost use Rattle.std.specs.Prelude.{◌≡◌, ◌≤◌, [], All, vec_len, vec_capacity};
ghost use Rattle.std.specs.List.{AllZip};
ghost use Rattle.std.specs.Thread.{IsSend, IsSync};

use crate::jobs::{Job, run_all};
use std::sync::Wait;
use std::thread::{Threads, join};

/// Runs all jobs at once and one more beside them: that one and all but the last job each in a thread of its own, and the last in this thread. Where a thread can't be made, the work is done in this thread: a job after the last one, and the one beside them after all jobs. So it may wait for the jobs, and no job waits for it. What the jobs give comes in their order, in a room that was made before and is empty. It takes no memory but what the jobs and the threads take.
pub fn run_beside<A: Job + Send, Z: Job + Send, R: Threads + Wait + Sync>(
    rt: &R,
    beside: Z,
    mut jobs: Vec<A>,
    room: Vec<A::Out>,
) -> (Vec<A::Out>, Z::Out)
where
    A::Out: Send + Drop,
    Z::Out: Send,
    requires ready { All A.ready jobs.items }
    requires beside { Z.ready beside }
    requires room { (room.items ≡ []) × (vec_len jobs ≤ vec_capacity room) }
    ensures gives { AllZip A.gives jobs.items result.0.items }
    ensures beside { Z.gives beside result.1 }
    ensures len { vec_len result.0 ≡ vec_len jobs }
    ensures capacity { vec_capacity result.0 ≡ vec_capacity room }
{
    let Some(last) = jobs.pop() else {
        return (room, beside.run(rt));
    };
    let (end, (mut outs, out)) = join(
        rt,
        move || -> Z::Out
            requires { Z.ready beside }
            ensures { Z.gives beside result }
        { beside.run(rt) },
        move || -> (Vec<A::Out>, A::Out)
            requires { IsSync R.row × IsSend A.row × IsSend A.Out.row × All A.ready jobs.items × A.ready last × (room.items ≡ []) × (vec_len jobs ≤ vec_capacity room) }
            ensures { AllZip A.gives jobs.items result.0.items × A.gives last result.1 × (vec_len result.0 ≡ vec_len jobs) × (vec_capacity result.0 ≡ vec_capacity room) }
        { run_all(rt, jobs, last, room) },
    );
    outs.push_reserved(out);
    (outs, end)
}
