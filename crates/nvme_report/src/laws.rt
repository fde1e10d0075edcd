//! The law of reports, over the definitions alone. The function does nothing: its contract is the law.
ghost use Rattle.nvme_report.specs.Laws.{ReportsAreOne};

/// A loaded run has one report: two loaded runs of the same rules and scripts, with the same numbers of hosts, whose
/// logs are equal without their posts, have the same report, whatever the order in which their completions were posted
/// and collected.
pub fn reports_are_one()
    ensures { ReportsAreOne }
{}
