// What is done on threads.
use crate::flags::Flags;
use nvme_pool::Lanes;
use std::snapshot::Snapshot;
use std::sync::Wait;
use std::thread::{Promise, PromisedHandle};

/// What all threads share.
#[derive(Drop)]
pub struct Shared {
    pub lanes: Lanes,
    pub flags: Flags,
}

/// What a thread of its own does. It gives back what it was, as it is afterwards.
pub trait Task {
    ghost use Rattle.nvme_threads.specs.declared.tasks.Shared.{Shared};

    /// It may be done among threads that share this.
    ghost can_run: { Self → Shared → Type 0 };

    /// What comes back, by what it was.
    ghost ran: { Self → Self → Type 0 };

    /// Does it, as the task at this place among its kind.
    fn run<R: Wait>(self, rt: &R, shared: &Shared, place: usize) -> Self
        requires { can_run self shared.now }
        ensures { ran self result };
}

/// A task comes back as it may after it ran.
#[derive(Drop)]
pub struct ComesBack<T: Task>(pub Snapshot<T>);

impl<T: Task> Promise<T> for ComesBack<T> {
    ghost kept_by = { λ p back. T.ran p.0.value back };
}

/// The thread of a task.
pub type TaskHandle<T> = PromisedHandle<T, ComesBack<T>>;
