// Laws of traces.
ghost use Rattle.nvme_trace.specs.Checks.{AllowedAfterEach, LawfulTextsAreAllowed, LawfulTextsPass, NothingIsBefore, OneAnswer, TextsAreReadAlike, TextsAreReadAsWritten};
ghost use Rattle.nvme_trace.specs.Surveys.{LawfulSurveys};
ghost use Rattle.nvme_trace.specs.Taken.{LawfulRunsAreTaken, TakenAfterIsLawful, TakenAfterIsLimited, TakenRunsAreLawful, TakenRunsAreLimited};
ghost use Rattle.nvme_trace.specs.Within.{RunsWithinAreTaken};

/// Picks that are taken for those of this front are lawful, with limits where a room is told, but for `fresh` where a round
/// begins by itself. So they are after a lawful history.
pub fn taken_runs_are_lawful()
    ensures lawful { TakenRunsAreLawful }
    ensures limited { TakenRunsAreLimited }
    ensures lawful_after { TakenAfterIsLawful }
    ensures limited_after { TakenAfterIsLimited }
{}

/// A lawful run is taken where no room is told.
pub fn lawful_runs_are_taken()
    ensures { LawfulRunsAreTaken }
{}

/// What this front makes where the device has room for so many commands is taken where the lines tell it.
pub fn runs_within_rooms_are_taken()
    ensures { RunsWithinAreTaken }
{}

/// A text that this front writes of a lawful run is lawful by the profile.
pub fn lawful_texts_pass()
    ensures { LawfulTextsPass }
{}

/// A text that is lawful by the profile is lawful by the specification.
pub fn lawful_texts_are_allowed()
    ensures { LawfulTextsAreAllowed }
{}

/// A text has one answer: if each of its picks is allowed, none of its lines has a pick that isn't.
pub fn texts_have_one_answer()
    ensures { OneAnswer }
{}

/// A text that is written as this front writes it is read so where `fresh` may be missing too, as by `stats` and `chart`.
/// So is each text that the profile reads.
pub fn texts_are_read_as_written()
    ensures written { TextsAreReadAsWritten }
    ensures alike { TextsAreReadAlike }
{}

/// A text that is lawful after one history that leaves the state of its head is lawful after each that leaves no queue
/// waiting. Where the head tells no state, it is lawful from the beginning on.
pub fn texts_follow_each_history()
    ensures each { AllowedAfterEach }
    ensures first { NothingIsBefore }
{}

/// A survey that tells no pick is of a lawful text.
pub fn surveys_of_none_are_lawful()
    ensures { LawfulSurveys }
{}
