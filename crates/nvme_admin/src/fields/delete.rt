use super::TableFields;
use super::conditions::any_attached;
use crate::effect::Effect;
use crate::layout::{CqPlace, SqPlace};
use crate::verdict::SqEntry;
use nvme_entry::{AdminCommand, Status};

impl TableFields {
    ghost use Rattle.nvme_admin.specs.Layout.{view_of};
    ghost use Rattle.std.specs.Prelude.{false, ◌≡◌, ◌==◌, if◌then◌else◌, ℕ, None, ◌∷◌, IsTrue, IsSomeAnd};
    ghost use Rattle.nvme_admin.specs.History.{Start, TableHistory, DeletionFinished};
    ghost use Rattle.nvme_admin.specs.Checks.{is_attached, is_success, status_in};
    ghost use Rattle.nvme_admin.specs.Standing.{table_of, sq_of, Does, StandsAt, IsSized};
    ghost use Rattle.nvme_admin.specs.Effects.{verdict_in, NamesRegions};

    // Whether a submission queue, open or closing, is attached to a completion queue.
    fn is_attached_to(&self, cqid: u16) -> bool
        ensures { result ≡ is_attached (table_of (view_of self.now)) cqid }
    {
        any_attached(&self.sqs, cqid)
    }

    // Delete I/O Submission Queue, which only begins the deletion.
    pub(super) fn delete_sq(&mut self, qid: u16) -> Effect
        ensures does { Does (view_of self.old) (view_of self.new) (AdminCommand.DeleteSq qid) (verdict_in result) }
        ensures regions { NamesRegions (view_of self.old) result }
        ensures unchanged { is_success (status_in (verdict_in result)) ≡ false → self.new ≡ self.old }
    {
        if qid == 0 {
            return Effect::Done(Status::INVALID_QUEUE_IDENTIFIER, 0);
        }
        match self.sq(qid) {
            Some(queue) if !queue.closing => {
                self.sqs[usize::from(qid)] = SqPlace::of(Some(SqEntry {
                    closing: true,
                    ..queue
                }));
                Effect::BeginDelete {
                    qid,
                    region: queue.region,
                }
            }
            _ => Effect::Done(Status::INVALID_QUEUE_IDENTIFIER, 0),
        }
    }

    // Delete I/O Completion Queue.
    pub(super) fn delete_cq(&mut self, qid: u16) -> Effect
        ensures does { Does (view_of self.old) (view_of self.new) (AdminCommand.DeleteCq qid) (verdict_in result) }
        ensures regions { NamesRegions (view_of self.old) result }
        ensures unchanged { is_success (status_in (verdict_in result)) ≡ false → self.new ≡ self.old }
    {
        if qid == 0 {
            return Effect::Done(Status::INVALID_QUEUE_IDENTIFIER, 0);
        }
        let Some(region) = self.cq(qid) else {
            return Effect::Done(Status::INVALID_QUEUE_IDENTIFIER, 0);
        };
        if self.is_attached_to(qid) {
            return Effect::Done(Status::INVALID_QUEUE_DELETION, 0);
        }
        self.cqs[usize::from(qid)] = CqPlace::of(None);
        Effect::CloseCq { qid, region }
    }

    /// Finishes the deletion of a submission queue, which must be closing: its identifier is free.
    /// (Base Specification, Delete I/O Submission Queue)
    pub fn finish_delete(&mut self, qid: u16)
        requires { IsSomeAnd (sq_of (view_of self.old) qid) (λ queue. IsTrue queue.closing) }
        ensures stands { (start : Start) (h : TableHistory) →
            StandsAt start (view_of self.old) h → StandsAt start (view_of self.new) (DeletionFinished qid ∷ h) }
        ensures gone { (q : ℕ) → sq_of (view_of self.new) q ≡ (if qid == q then None else sq_of (view_of self.old) q) }
        ensures rest { view_of self.new ≡ record (view_of self.old) { sqs = (view_of self.new).sqs } }
        ensures sized { IsSized (view_of self.new) }
    {
        self.sqs[usize::from(qid)] = SqPlace::of(None);
    }
}
