// Laws of written traces.
ghost use Rattle.nvme_tracer.specs.Traces.{TracesAreReadBack, TracesAreLawful};

/// Where the first settings fit their fields, as those of every `Settings` do, the trace that is written of an accounted
/// log is read back as that log's arbitration: its lines are the mechanism and the first settings, then each pick with
/// what it saw and each change of the settings, in order. So it is a lawful text with the log's picks.
pub fn written_traces_are_lawful()
    ensures read_back { TracesAreReadBack }
    ensures lawful { TracesAreLawful }
{}
