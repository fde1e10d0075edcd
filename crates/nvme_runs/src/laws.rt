//! Laws of runs, over the public contract alone. Each function does nothing: its contract is the law.
ghost use Rattle.nvme_runs.specs.Laws.{LoadedRunsAreOne, FrontFaultsAreStrays, RunsAnswerAsForeseen};

/// A loaded run is a function of its workload: two runs of one text with `Mode::Loaded` have the same report, whatever
/// the numbers of their workers and whatever the schedule of their threads.
pub fn loaded_runs_are_one()
    ensures { LoadedRunsAreOne }
{}

/// The only fault of the front that a run can answer is a result that no job waits for. Its log is never full, since a
/// workload has too few commands to fill it.
pub fn front_faults_are_strays()
    ensures { FrontFaultsAreStrays }
{}

/// The completion of each admin command of a run has the status that follows from the commands before it in its script.
pub fn runs_answer_as_foreseen()
    ensures { RunsAnswerAsForeseen }
{}
