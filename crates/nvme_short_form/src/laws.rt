//! A law over the definitions alone. The function does nothing: its contract is the law.
ghost use Rattle.nvme_short_form.specs.Flaws.{FaultsBeginWithTheFirst};

/// All faults of a file begin with the one that reading it gives, and there is none exactly where reading gives none.
pub fn faults_begin_with_the_first()
    ensures { FaultsBeginWithTheFirst }
{}
