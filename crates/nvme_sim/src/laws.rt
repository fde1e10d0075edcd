//! A law of the program, over definitions alone. The function does nothing: its contract is the law.
ghost use Rattle.nvme_sim.specs.Laws.{LintForeseesAnswers};

/// The status by which lint judges an admin command of a workload is that of the command's completion in each run.
pub fn lint_foresees_answers()
    ensures { LintForeseesAnswers }
{}
