//! Laws of logs and worked examples, over the definitions alone. Each function does nothing: its contract is the law.
ghost use Rattle.nvme_audit.specs.Laws.{AnsweredOnce, HeadsAreCounts};
ghost use Rattle.nvme_audit.specs.Examples.{AreJudged, on_the_bus, as_read, doorbells, fetches, completions, late_reads};
ghost use Rattle.nvme_audit.specs.StatusExamples.{by_name, as_read_by_name, creates, deletes, meetings, foreign, deletions, unasked_aborts, untrue_aborts, features, excused, late_statuses};
ghost use Rattle.nvme_audit.specs.EarlyExamples.{early_tails, early_heads, early_completions, late_queues, lost_queues, of_early_queues};
ghost use Rattle.nvme_audit.specs.CoverageLaws.{BrokenIsAsked};
ghost use Rattle.nvme_audit.specs.CoverageExamples.{AreAsked, on_rings, of_names, of_statuses, of_queues, of_late_reads};
ghost use Rattle.nvme_audit.specs.RepairLaws.{FirstBreachIsTold};
ghost use Rattle.nvme_audit.specs.Shows.{LessIsFaultless};
ghost use Rattle.nvme_audit.specs.LateReads.{LateIsFaultless, ProjectionsAreLawful};
ghost use Rattle.nvme_audit.specs.RepairExamples.{AreSaid, own_queues, every_queue, queues_created_again, wrong_statuses, aborts};

/// In a log without faults each fetched command is answered once, but for the outstanding ones.
pub fn answered_once()
    ensures { AnsweredOnce }
{}

/// A head may be told just where some number of commands, the own one among them, was fetched and it is their slot.
pub fn heads_are_counts()
    ensures { HeadsAreCounts }
{}

/// Worked: what is said of events after small logs.
pub fn worked_verdicts()
    ensures doorbells { AreJudged on_the_bus doorbells }
    ensures fetches { AreJudged on_the_bus fetches }
    ensures completions { AreJudged on_the_bus completions }
    ensures late_reads { AreJudged as_read late_reads }
{}

/// Worked: what is said where a queue is used before the host is told of its Create, and where the host broke a rule.
pub fn worked_early_queues()
    ensures early_tails { AreJudged on_the_bus early_tails }
    ensures early_heads { AreJudged on_the_bus early_heads }
    ensures early_completions { AreJudged on_the_bus early_completions }
    ensures late_queues { AreJudged as_read late_queues }
    ensures lost_queues { AreJudged on_the_bus lost_queues }
{}

/// Worked: what is said of completions by their statuses.
pub fn worked_statuses()
    ensures creates { AreJudged by_name creates }
    ensures deletes { AreJudged by_name deletes }
    ensures meetings { AreJudged by_name meetings }
    ensures foreign { AreJudged by_name foreign }
    ensures deletions { AreJudged by_name deletions }
    ensures unasked_aborts { AreJudged by_name unasked_aborts }
    ensures untrue_aborts { AreJudged by_name untrue_aborts }
    ensures features { AreJudged by_name features }
    ensures excused { AreJudged by_name excused }
    ensures late_statuses { AreJudged as_read_by_name late_statuses }
{}

/// A rule that is broken asked something of the event. So a rule that never asked is kept by every event.
pub fn broken_is_asked()
    ensures { BrokenIsAsked }
{}

/// Worked: of which events a rule asks something.
pub fn worked_coverage()
    ensures on_rings { AreAsked on_the_bus on_rings }
    ensures of_names { AreAsked by_name of_names }
    ensures of_statuses { AreAsked by_name of_statuses }
    ensures of_queues { AreAsked by_name of_queues }
    ensures of_late_reads { AreAsked as_read of_late_reads }
    ensures of_early_queues { AreAsked on_the_bus of_early_queues }
{}

/// Until the controller breaks a rule a judge that goes on says what one says that stops.
pub fn first_breach_is_told()
    ensures { FirstBreachIsTold }
{}

/// Worked: what is said after breaches of the controller.
pub fn worked_repairs()
    ensures own_queues { AreSaid by_name own_queues }
    ensures every_queue { AreSaid by_name every_queue }
    ensures queues_created_again { AreSaid by_name queues_created_again }
    ensures wrong_statuses { AreSaid by_name wrong_statuses }
    ensures aborts { AreSaid by_name aborts }
{}

/// Where neither the controller nor the host breaks a rule, neither does for an observer who sees less: fields of
/// events are left out, and writes of doorbells.
pub fn less_is_faultless()
    ensures { LessIsFaultless }
{}

/// Where neither the controller nor the host breaks a rule, neither does where completions are told later, as hosts may
/// read them.
pub fn late_is_faultless()
    ensures { LateIsFaultless }
{}

/// What a log in which nobody breaks a rule shows to an observer is lawful for it. It may see less, and may tell
/// completions where the host reads them, later than the controller wrote them.
pub fn projections_are_lawful()
    ensures { ProjectionsAreLawful }
{}
