//! A law of engines: a public function that does nothing and is proved.
ghost use Rattle.nvme_engine.specs.Laws.{EnginesKeepAccounts};

/// The events at which an engine stands are an accounted log of what was fetched and posted, where no region was added
/// late.
pub fn engines_keep_accounts()
    ensures { EnginesKeepAccounts }
{}
