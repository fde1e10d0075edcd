//! Laws over the definitions alone. Each function does nothing: its contract is the law.
ghost use Rattle.nvme_numbers.specs.Examples.{AboveExamples, FeedExamples, NumberExamples, TextExamples};

/// Quotients and Jain's index of a few numbers.
pub fn worked_numbers()
    ensures { NumberExamples }
{}

/// How many commands lie above percentiles.
pub fn worked_above()
    ensures { AboveExamples }
{}

/// What is done while a few commands come.
pub fn worked_feeds()
    ensures { FeedExamples }
{}

/// Parts of the tables of an answer.
pub fn worked_tables()
    ensures { TextExamples }
{}
