//! Laws of a close that leaves nothing, and of many steps of a worker. The functions do nothing: their
//! contracts are the laws.
ghost use Rattle.std.specs.Prelude.{◌≡◌, ℕ, List, map, sum_by};
ghost use Rattle.std.specs.List.{All};
ghost use Rattle.nvme_lane.specs.View.{GetView};
ghost use Rattle.nvme_pool.specs.declared.jobs.Job.{Job};
ghost use Rattle.nvme_pool.specs.declared.jobs.Finished.{Finished};
ghost use Rattle.nvme_pool.specs.Closing.{IsAllDone};
ghost use Rattle.nvme_pool.specs.Jobs.{result_of};
ghost use Rattle.nvme_pool.specs.Seat.{Ends};
ghost use Rattle.nvme_pool.specs.Runs.{Ran};
ghost use Rattle.nvme_pool.specs.Steps.{Steps};
ghost use Rattle.nvme_pool.specs.Worker.{WorkerView, SameWorker};
ghost use Rattle.nvme_pool.specs.declared.worker.Worked.{Worked};

use crate::gate::Gate;

/// Where a close left no job and no result, and no worker kept a result: over all workers each job handed
/// was executed as often as it was handed, and over all rings its result was gained as often. Jobs and
/// results are weighed in any way, so that a weight of 1 for one job and of 0 for the others counts it.
pub fn nothing_left_means_all_done()
    ensures executed { (handed : List Job) (ends : Ends) (workers : List WorkerView) → IsAllDone handed ends workers → (h : Job → ℕ) → sum_by (λ (w : WorkerView). sum_by h w.executed) workers ≡ sum_by h handed }
    ensures gained { (handed : List Job) (ends : Ends) (workers : List WorkerView) → IsAllDone handed ends workers → (h : Finished → ℕ) → sum_by (λ (g : GetView Finished). sum_by h g.got) ends ≡ sum_by h (map result_of handed) }
{}

/// Steps of a worker add up to one relation of the worker with its gate. No step is that relation, and
/// that relation followed by one step is it again, so that after any number of steps the gate was told of
/// just the jobs that the worker took meanwhile, each once and in order.
pub fn steps_are_a_run<G: Gate>()
    ensures none { (worker : WorkerView) (view : G) → Ran (λ view ticket. G.left (G.entered view ticket) ticket) worker view worker view }
    ensures one_more { (old : WorkerView) (view : G) (mid : WorkerView) (between : G) (worked : Worked) (new : WorkerView) (view' : G) → Ran (λ view ticket. G.left (G.entered view ticket) ticket) old view mid between → SameWorker mid new → Steps (λ view ticket. G.left (G.entered view ticket) ticket) mid between worked new view' → Ran (λ view ticket. G.left (G.entered view ticket) ticket) old view new view' }
{}
