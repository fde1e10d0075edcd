//! Laws over the definitions alone. Each function does nothing: its contract is the law.
ghost use Rattle.nvme_cells.specs.Examples.{QuotientExamples, RowExamples};

/// Rows in each form.
pub fn worked_rows()
    ensures { RowExamples }
{}

/// Quotients and Jain's index of a few numbers.
pub fn worked_quotients()
    ensures { QuotientExamples }
{}
