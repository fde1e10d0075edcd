// Laws over table histories: what follows from the definitions alone.
ghost use Rattle.nvme_admin.specs.Changes.{VerdictsTellChange, FinishTakesOne, RegionOpensAdmin, CqRegionOpensAdmin};
ghost use Rattle.nvme_admin.specs.Examples.{AreAnswered, four_and_three, regions_added, queues_made, create_cq_cases, create_sq_cases, delete_sq_cases, delete_cq_cases, request_cases, set_feature_cases, get_feature_cases, other_cases, QueuesAreMade, DeletionsFinish, NumbersAreFixed, SettingsAreKept, CommandsComeTo, one_address, placed_cq_cases, placed_sq_cases, placed_other_cases, QueuesLieAnywhere, PlacingIsKept};
ghost use Rattle.nvme_admin.specs.Further.{RegionsDontMatter, TablesBeginEmpty, TablesGoByCommands};
ghost use Rattle.nvme_admin.specs.Laws.{AttachedStayOpen, RegionsAreUsedOnce, NoRequestAfterCreate, NumbersStayFixed, RegionsTellQueues, SqsAreAllotted, CqsAreAllotted, SqsHaveTheirRegions, CqsHaveTheirRegions, PlacingStays, SqCreatesAreCounted, CqCreatesAreCounted, SqLivesAreCounted, CqLivesAreCounted};

/// The completion queue that an open or closing I/O submission queue is attached to stays open.
pub fn attached_queues_stay_open()
    ensures { AttachedStayOpen }
{}

/// A region is used at most once.
pub fn regions_are_used_once()
    ensures { RegionsAreUsedOnce }
{}

/// After an accepted Create no request for Number of Queues is accepted.
pub fn no_request_after_create()
    ensures { NoRequestAfterCreate }
{}

/// The allotted numbers never change once they are fixed.
pub fn numbers_stay_fixed()
    ensures { NumbersStayFixed }
{}

/// The verdict of an entry is due, and tells all that the entry changes of the queues and the settings.
pub fn verdicts_tell_change()
    ensures { VerdictsTellChange }
{}

/// A finished deletion and an added region change one queue each.
pub fn other_steps_change_one_queue()
    ensures finish { FinishTakesOne }
    ensures sq_region { RegionOpensAdmin }
    ensures cq_region { CqRegionOpensAdmin }
{}

/// No two submission queues, open or closing, have the same region.
pub fn regions_tell_queues()
    ensures { RegionsTellQueues }
{}

/// The identifier of an open or closing I/O queue is at most the allotted number of its kind.
pub fn queues_are_allotted()
    ensures sqs { SqsAreAllotted }
    ensures cqs { CqsAreAllotted }
{}

/// Where queues lie on regions, the region of an open or closing I/O queue has the address that its Create gave as PRP1,
/// and QSIZE + 1 slots.
pub fn queues_have_their_regions()
    ensures sqs { SqsHaveTheirRegions }
    ensures cqs { CqsHaveTheirRegions }
{}

/// A queue table begins empty, and goes from one accepted command to the next.
pub fn tables_go_by_commands()
    ensures first { TablesBeginEmpty }
    ensures next { TablesGoByCommands }
{}

/// Where queues may lie stays as it is once a Create was accepted.
pub fn placing_stays()
    ensures { PlacingStays }
{}

/// Each accepted Create of a kind is counted.
pub fn creates_are_counted()
    ensures sqs { SqCreatesAreCounted }
    ensures cqs { CqCreatesAreCounted }
{}

/// Where queues may lie anywhere, the number of a new queue's region is 1 more than how many of its kind were created before.
pub fn lives_are_counted()
    ensures sqs { SqLivesAreCounted }
    ensures cqs { CqLivesAreCounted }
{}

/// Where queues may lie anywhere, a region more changes nothing but the regions.
pub fn regions_dont_matter()
    ensures { RegionsDontMatter }
{}

/// Worked: each row of the checks of Create I/O Completion Queue, with its status and its place among the rows.
pub fn create_cq_rows()
    ensures { AreAnswered four_and_three queues_made create_cq_cases }
{}

/// Worked: the same of Create I/O Submission Queue.
pub fn create_sq_rows()
    ensures { AreAnswered four_and_three queues_made create_sq_cases }
{}

/// Worked: the same of Delete I/O Submission Queue and Delete I/O Completion Queue.
pub fn delete_rows()
    ensures sq { AreAnswered four_and_three queues_made delete_sq_cases }
    ensures cq { AreAnswered four_and_three queues_made delete_cq_cases }
{}

/// Worked: the same of Set Features, before a Create and after one, and of Get Features.
pub fn feature_rows()
    ensures before_create { AreAnswered four_and_three regions_added request_cases }
    ensures set { AreAnswered four_and_three queues_made set_feature_cases }
    ensures get { AreAnswered four_and_three queues_made get_feature_cases }
{}

/// Worked: other opcodes, and fused commands.
pub fn other_rows()
    ensures { AreAnswered four_and_three queues_made other_cases }
{}

/// Worked: the queues and the used regions after three Creates and a Delete.
pub fn queues_are_made()
    ensures { QueuesAreMade }
{}

/// Worked: two deletions are finished, and then their completion queue is deleted.
pub fn deletions_finish()
    ensures { DeletionsFinish }
{}

/// Worked: a request for Number of Queues, and a second one.
pub fn numbers_are_fixed()
    ensures { NumbersAreFixed }
{}

/// Worked: the Arbitration feature is set twice.
pub fn settings_are_kept()
    ensures { SettingsAreKept }
{}

/// Worked: the effect of a command of each kind.
pub fn commands_come_to()
    ensures { CommandsComeTo }
{}

/// Worked: the rows of both Creates where queues may lie anywhere, and that no other command has one more.
pub fn placed_rows()
    ensures cq { AreAnswered four_and_three one_address placed_cq_cases }
    ensures sq { AreAnswered four_and_three one_address placed_sq_cases }
    ensures other { AreAnswered four_and_three one_address placed_other_cases }
{}

/// Worked: five queues at one address, of which one is deleted and created again.
pub fn queues_lie_anywhere()
    ensures { QueuesLieAnywhere }
{}

/// Worked: where queues may lie, said before a Create and after one.
pub fn placing_is_kept()
    ensures { PlacingIsKept }
{}
