//! A law of fronts: a public function that does nothing and is proved.
ghost use Rattle.nvme_front.specs.Laws.{ClosedRegionsHaveResults};

/// No command of a closed region is in hand: each job of a queue has its result when the queue's deletion is finished,
/// and so before the deletion is answered.
pub fn closed_regions_have_results()
    ensures { ClosedRegionsHaveResults }
{}
