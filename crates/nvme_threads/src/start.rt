// A thread for each task.
ghost use Rattle.std.specs.Prelude.{◌≡◌, ◌≤◌, [], map, true, vec_len, vec_capacity, IfOk};
ghost use Rattle.std.specs.List.{All};

use crate::tasks::{ComesBack, Shared, Task, TaskHandle};
use std::alloc::{AllocError, Global};
use std::snapshot::Snapshot;
use std::sync::Wait;
use std::thread::Scope;

/// The threads of tasks, with room for what they give back. Where not all could be started, those that were.
pub struct Started<T: Task> {
    pub handles: Vec<TaskHandle<T>>,
    pub back: Vec<T>,
    pub is_whole: bool,
    ghost empty: { back.items ≡ [] },
    ghost room: { vec_len handles ≤ vec_capacity back },
}

// Starts the thread of one task.
fn start_one<'s, E: 's, T: Task + Send + Drop + 's, R: Wait + Sync + 's>(
    scope: &Scope<'s, E>,
    rt: &'s R,
    shared: &'s Shared,
    place: usize,
    task: T,
) -> Result<TaskHandle<T>, AllocError>
    requires { T.can_run task shared.now }
    ensures { IfOk result (λ h. h.promise.0.value ≡ task) }
{
    let back = ComesBack(Snapshot::of(&task));
    match scope.spawn_with(back, move || task.run(rt, shared, place)) {
        Ok(handle) => Ok(handle),
        Err(_) => Err(AllocError),
    }
}

// Room for the threads of this number of tasks, and for what they give back.
fn room<T: Task + Drop>(
    alloc: Global,
    number: usize,
) -> Result<(Vec<TaskHandle<T>>, Vec<T>), AllocError>
    ensures no_handles { IfOk result (λ r. r.0.items ≡ []) }
    ensures none_back { IfOk result (λ r. r.1.items ≡ []) }
    ensures of_handles { IfOk result (λ r. number ≤ vec_capacity r.0) }
    ensures of_back { IfOk result (λ r. number ≤ vec_capacity r.1) }
{
    let handles = Vec::with_capacity(alloc, number)?;
    let back = Vec::with_capacity(alloc, number)?;
    Ok((handles, back))
}

/// Starts a thread for each task. Where one can't be started, or memory is refused, it tells that a thread was refused
/// memory.
pub fn start_all<'s, E: 's, T: Task + Send + Drop + 's, R: Wait + Sync + 's>(
    scope: &Scope<'s, E>,
    rt: &'s R,
    alloc: Global,
    shared: &'s Shared,
    tasks: Vec<T>,
) -> Started<T>
    requires { All (λ t. T.can_run t shared.now) tasks.items }
    ensures { result.is_whole ≡ true → map (λ h. h.promise.0.value) result.handles.items ≡ tasks.items }
{
    let Ok((mut handles, back)) = room(alloc, tasks.len()) else {
        shared.flags.tell_starved();
        return Started {
            handles: Vec::new(alloc),
            back: Vec::new(alloc),
            is_whole: false,
        };
    };
    let mut is_whole = true;
    for task in tasks {
        let Ok(handle) = start_one(scope, rt, shared, handles.len(), task) else {
            shared.flags.tell_starved();
            is_whole = false;
            break;
        };
        handles.push_reserved(handle);
    }
    Started {
        handles,
        back,
        is_whole,
    }
}
