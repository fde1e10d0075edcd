//! Laws of the jobs of a log, over the definitions alone. Each function does nothing: its contract is the law.
ghost use Rattle.std.specs.Prelude.{[], ◌∷◌, ◌++◌};
ghost use Rattle.nvme_log.specs.Dispatches.{dispatched};
ghost use Rattle.nvme_log.specs.FourNumbers.{all_closed, four_numbers};
ghost use Rattle.nvme_jobs.specs.Examples.{job_with, three_jobs};
ghost use Rattle.nvme_jobs.specs.Executions.{AreJobs, EachIsExecutedOnce};

/// The ticket of each picked I/O command's job is its position among the picked ones. The job was handed over and
/// executed once, whatever the number of workers, and one result of it was gained.
pub fn each_is_executed_once()
    ensures { EachIsExecutedOnce }
{}

/// Worked: the jobs of a log's picked commands, and such as aren't: one too few, one too many, and over other namespaces.
pub fn worked_jobs_are_told_apart()
    ensures jobs { AreJobs four_numbers.sizes all_closed 0 (dispatched all_closed) three_jobs }
    ensures a_job_missing { AreJobs four_numbers.sizes all_closed 0 (dispatched all_closed) (job_with 0 10 ∷ job_with 1 11 ∷ []) → ⊥ }
    ensures a_job_too_many { AreJobs four_numbers.sizes all_closed 0 (dispatched all_closed) (three_jobs ++ job_with 3 13 ∷ []) → ⊥ }
    ensures jobs_over_other_spaces { AreJobs (999 ∷ []) all_closed 0 (dispatched all_closed) three_jobs → ⊥ }
{}
