//! Laws over the definitions alone. Each function does nothing: its contract is the law.
ghost use Rattle.nvme_checks.specs.Status.{range_of, check_of};
ghost use Rattle.nvme_checks.specs.Laws.{ActiveIsOutcome, BlocksAreInRange, RefusedByOpcode, OtherOpcodes, AcceptedFit};
ghost use Rattle.nvme_checks.specs.Examples.{AreAnswered, three_namespaces, flushes, flags_looked_at, identifiers_looked_at, ends_looked_at, ranges, no_namespaces};
ghost use Rattle.std.specs.Prelude.{[]};

/// Where every namespace is active, a command whose PSDT is 0 has the status that `nvme_entry::outcome` gives it.
pub fn active_is_outcome()
    ensures { ActiveIsOutcome }
{}

/// A Write or Read whose FUSE and PSDT are 0 has the status of its range.
pub fn blocks_are_in_range()
    ensures { BlocksAreInRange }
{}

/// A command has the status Invalid Command Opcode exactly where its FUSE and PSDT are 0 and it is no Flush, Write or
/// Read. So a device that has more opcodes can go on from there.
pub fn other_opcodes()
    ensures refused { RefusedByOpcode }
    ensures only { OtherOpcodes }
{}

/// Each block of a range that is accepted is one of its namespace.
pub fn accepted_ranges_fit()
    ensures { AcceptedFit }
{}

/// Worked: commands over three namespaces, of which the second is inactive, and over none.
pub fn worked_commands()
    ensures flushes { AreAnswered check_of three_namespaces flushes }
    ensures flags { AreAnswered check_of three_namespaces flags_looked_at }
    ensures identifiers { AreAnswered check_of three_namespaces identifiers_looked_at }
    ensures ends { AreAnswered check_of three_namespaces ends_looked_at }
    ensures none { AreAnswered check_of [] no_namespaces }
{}

/// Worked: ranges of other opcodes over the same namespaces.
pub fn worked_ranges()
    ensures { AreAnswered range_of three_namespaces ranges }
{}
