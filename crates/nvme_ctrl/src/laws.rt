//! Laws of controllers, over the definitions alone. Each function does nothing: its contract is the law.
ghost use Rattle.std.specs.Prelude.{◌≡◌, ℕ, [], ◌∷◌, true, false};
ghost use Rattle.nvme_log.specs.Examples.{create_cq, read, two_slots, one_deletion};
ghost use Rattle.nvme_ctrl_log.specs.Notes.{Tail, logged};
ghost use Rattle.nvme_ctrl.specs.Own.{is_own, no_own, with_opcode, with_feature};
ghost use Rattle.nvme_ctrl_log.specs.Examples.{identify, identify_fetched, identify_passed, identify_taken, identify_answered, reads_posted, get_feature, set_feature, told, abort_of_read, abort_waiting};
ghost use Rattle.nvme_ctrl.specs.Depths.{DepthsSuffice, DepthsLeaveRoom, HeldWaitOrAreUnposted};
ghost use Rattle.nvme_ctrl.specs.Progress.{IsStill, NoneWaitDeleted, ServedAwait, UnfetchedAwait, WaitingAwait};
ghost use Rattle.nvme_ctrl.specs.Laws.{ControllersKeepAccounts, SeenOneByOne, FewHoldSlots};
ghost use Rattle.nvme_ctrl.specs.NextQueue.{FetchesTakeTurns, PostsTakeTurns};

/// The log at which a controller stands is an account, where no region was added late: after a Create that named its
/// address was picked. So all that follows holds of it.
pub fn controllers_keep_accounts()
    ensures { ControllersKeepAccounts }
{}

/// What arbitration sees are the open queues, each as `seen` tells it (`seen_in`).
pub fn queues_are_seen_one_by_one()
    ensures { SeenOneByOne }
{}

/// Beside the commands that wait and those that were aborted with their queue, no more were fetched and have no completion
/// than are outstanding: those that were picked, or that Abort commands aborted. While no queue is being deleted, that is
/// so beside the commands that wait alone. Each command without a completion holds a slot of the pool.
pub fn few_commands_hold_slots()
    ensures { FewHoldSlots }
{}

/// Where each command was fetched within the depth of its queue, a pool of the sum of the depths has a slot for each
/// command, while queues are being deleted too. It has a free one wherever a command may be fetched otherwise (`MayFetch`,
/// `some_free`). The commands of a queue that hold a slot are those that wait and those that have no completion posted
/// (`MayFetch`, `in_depth`).
pub fn depths_suffice()
    ensures hold { DepthsSuffice }
    ensures leave { DepthsLeaveRoom }
    ensures held { HeldWaitOrAreUnposted }
{}

/// Where each call tells that there is nothing to do, each command waits for somebody else. What wasn't fetched of an open
/// queue that isn't held waits for the queue's depth, which its own commands fill. What waits to be picked is of a queue
/// that is held. What was picked or aborted waits for the device, which has it, or for a host that hasn't read its completion
/// queue; or it is a Delete, and waits for such commands of its queue. So with a host that reads, and a device that answers
/// and holds no queue, all that was submitted to queues that stay is posted. What was submitted to a queue and not fetched
/// when the queue's deletion began is never completed, and nothing that waited to be picked still waits then.
pub fn nothing_stands_still()
    ensures unfetched { UnfetchedAwait }
    ensures waiting { WaitingAwait }
    ensures deleted { NoneWaitDeleted }
    ensures served { ServedAwait }
{}

/// Worked: a controller has nothing to do while the device has its one command. It has where a slot more is submitted, the
/// command waits to be picked or to be taken, or was answered, and where the last command of a queue that is being deleted
/// has its completion.
pub fn worked_stillness()
    ensures still { IsStill two_slots (λ (r : ℕ). 2) identify_taken }
    ensures fetches { IsStill two_slots (λ (r : ℕ). 2) (Tail 0 2 ∷ identify_taken) → ⊥ }
    ensures picks { IsStill two_slots (λ (r : ℕ). 2) identify_fetched → ⊥ }
    ensures takes { IsStill two_slots (λ (r : ℕ). 2) identify_passed → ⊥ }
    ensures posts { IsStill two_slots (λ (r : ℕ). 2) identify_answered → ⊥ }
    ensures ends { IsStill one_deletion (λ (r : ℕ). 4) reads_posted → ⊥ }
{}

/// Which commands are the device's: those of the opcodes and feature identifiers that it announced, but for fused ones,
/// those of the controller's own opcodes, and the controller's own features, of which just other values than the current
/// one are the device's. Of Aborts, once announced, all are that name no command that waits.
pub fn own_commands_are_announced()
    ensures opcode { is_own (with_opcode 0x06 no_own) [] (identify 0) ≡ true }
    ensures unannounced { is_own (with_opcode 0x02 no_own) [] (identify 0) ≡ false }
    ensures fused { is_own (with_opcode 0x06 no_own) [] (record (identify 0) { flags = 1 }) ≡ false }
    ensures core_opcode { is_own (with_opcode 0x05 no_own) [] create_cq ≡ false }
    ensures get_feature { is_own (with_feature 0x0b no_own) [] (get_feature 0x0b 0) ≡ true }
    ensures set_feature { is_own (with_feature 0x0b no_own) [] (set_feature 0x0b) ≡ true }
    ensures other_feature { is_own (with_feature 0x0b no_own) [] (get_feature 0x0a 0) ≡ false }
    ensures current_value { is_own (with_feature 0x01 no_own) [] (get_feature 0x01 0) ≡ false }
    ensures default_value { is_own (with_feature 0x01 no_own) [] (get_feature 0x01 1) ≡ true }
    ensures set_core { is_own (with_feature 0x07 no_own) [] (set_feature 0x07) ≡ false }
    ensures taken_abort { is_own (with_opcode 0x08 no_own) (logged (abort_waiting 0)) (abort_of_read 0) ≡ true }
    ensures waiting_abort { is_own (with_opcode 0x08 no_own) (logged (abort_waiting 1)) (abort_of_read 1) ≡ false }
    ensures unknown_abort { is_own (with_opcode 0x08 no_own) (logged (abort_waiting 3)) (abort_of_read 3) ≡ true }
    ensures unannounced_abort { is_own no_own (logged (abort_waiting 0)) (abort_of_read 0) ≡ false }
{}

/// A queue that has work comes within 65 calls of `next_fetch`, or of `next_to_post`, each of which is told what the one
/// before it told: each that tells another queue brings its turn nearer. (profile)
pub fn queues_take_turns()
    ensures fetches { FetchesTakeTurns }
    ensures posts { PostsTakeTurns }
{}
