// The end of threads.
ghost use Rattle.std.specs.Prelude.{◌≡◌, map};
ghost use Rattle.std.specs.List.{AllZip};

use crate::start::Started;
use crate::tasks::Task;
use std::thread::Threads;

/// What came back from the threads that were started, in order: from all that were to be started, or not.
#[derive(Drop)]
pub struct Joined<T: Drop> {
    pub tasks: Vec<T>,
    pub is_whole: bool,
}

/// Joins all threads that were started, and gives what each gives back, in order.
pub fn join_all<R: Threads, T: Task + Drop>(rt: &R, started: Started<T>) -> Joined<T>
    ensures back { AllZip T.ran (map (λ h. h.promise.0.value) started.handles.items) result.tasks.items }
    ensures whole { result.is_whole ≡ started.is_whole }
{
    let Started {
        handles,
        mut back,
        is_whole,
    } = started;
    for handle in handles {
        back.push_reserved(handle.join(rt));
    }
    Joined {
        tasks: back,
        is_whole,
    }
}
