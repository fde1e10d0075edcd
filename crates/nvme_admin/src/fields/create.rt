ghost use Rattle.nvme_admin.specs.QueueTable.{class_of};
ghost use Rattle.std.specs.Prelude.{◌≡◌};

use super::TableFields;
use super::conditions::{free_region, is_bad_size};
use crate::bounds::MAX_REGIONS;
use crate::effect::Effect;
use crate::layout::{CqPlace, Flag, SqPlace};
use crate::verdict::SqEntry;
use nvme_arbiter::Class;
use nvme_entry::{AdminCommand, Status};

// Where a submission queue is created: its own region, and that of its completion queue.
#[derive(Drop)]
struct Placing {
    region: u8,
    cq_region: u8,
}

// The class of QPRIO, of two bits.
fn class_of_qprio(qprio: u8) -> Class
    ensures { result ≡ class_of qprio }
{
    match qprio {
        0 => Class::Urgent,
        1 => Class::High,
        2 => Class::Medium,
        _ => Class::Low,
    }
}

impl TableFields {
    ghost use Rattle.nvme_admin.specs.Layout.{view_of};
    ghost use Rattle.std.specs.Prelude.{◌≡◌, ◌==◌, ◌||◌, ◌<◌, ◌≢◌, false, nat_lt, is_some, is_none, IfOk, IfErr, OnOk, Some};
    ghost use Rattle.nvme_entry.specs.Status.{success};
    ghost use Rattle.nvme_admin.specs.QueueTable.{region_number};
    ghost use Rattle.nvme_admin.specs.Checks.{is_success, status_in};
    ghost use Rattle.nvme_admin.specs.Standing.{command_status, sq_of, cq_of, Does};
    ghost use Rattle.nvme_admin.specs.Effects.{verdict_in, NamesRegions};

    // Whether a completion queue can't be created under an identifier.
    fn is_bad_cq(&self, qid: u16) -> bool
        ensures { result ≡ (qid == 0 || nat_lt (view_of self.now).ncq qid || is_some (cq_of (view_of self.now) qid)) }
    {
        qid == 0 || qid > self.ncq.get() || self.cq(qid).is_some()
    }

    // Whether a submission queue can't be created under an identifier.
    fn is_bad_sq(&self, qid: u16) -> bool
        ensures { result ≡ (qid == 0 || nat_lt (view_of self.now).nsq qid || is_some (sq_of (view_of self.now) qid)) }
    {
        qid == 0 || qid > self.nsq.get() || self.sq(qid).is_some()
    }

    // Whether no completion queue can have an identifier.
    fn is_bad_cqid(&self, cqid: u16) -> bool
        ensures { result ≡ (cqid == 0 || nat_lt (view_of self.now).ncq cqid) }
    {
        cqid == 0 || cqid > self.ncq.get()
    }

    // The checks of Create I/O Completion Queue: the number of the region, or the status.
    fn check_create_cq(&self, qid: u16, qsize: u16, prp1: u64, pc: bool) -> Result<u8, Status>
        ensures passes { OnOk result (
            command_status (view_of self.now) (AdminCommand.CreateCq qid qsize prp1 pc) ≡ success) }
        ensures region { IfOk result (λ k. region_number (view_of self.now).cq_regions prp1 ≡ Some k) }
        ensures region_bound { IfOk result (λ k. k < MAX_REGIONS) }
        ensures not_admin { OnOk result (qid ≢ 0) }
        ensures bound { OnOk result (qid < MAX_REGIONS) }
        ensures fails { IfErr result (λ s.
            command_status (view_of self.now) (AdminCommand.CreateCq qid qsize prp1 pc) ≡ s) }
        ensures failure { IfErr result (λ s. is_success s ≡ false) }
    {
        if !pc {
            return Err(Status::INVALID_FIELD);
        }
        if self.is_bad_cq(qid) {
            return Err(Status::INVALID_QUEUE_IDENTIFIER);
        }
        if is_bad_size(qsize) {
            return Err(Status::INVALID_QUEUE_SIZE);
        }
        match free_region(self.cq_regions.as_slice(), &self.cq_used, prp1, qsize + 1) {
            Some(region) => Ok(region),
            None => Err(Status::INVALID_FIELD),
        }
    }

    // The checks of Create I/O Submission Queue: the regions, or the status.
    fn check_create_sq(
        &self,
        qid: u16,
        qsize: u16,
        prp1: u64,
        cqid: u16,
        qprio: u8,
        pc: bool,
    ) -> Result<Placing, Status>
        ensures passes { OnOk result (
            command_status (view_of self.now) (AdminCommand.CreateSq qid qsize prp1 cqid qprio pc) ≡ success) }
        ensures region { IfOk result (λ p. region_number (view_of self.now).sq_regions prp1 ≡ Some p.region) }
        ensures region_bound { IfOk result (λ p. p.region < MAX_REGIONS) }
        ensures cq_region { IfOk result (λ p. cq_of (view_of self.now) cqid ≡ Some p.cq_region) }
        ensures not_admin { OnOk result (qid ≢ 0) }
        ensures bound { OnOk result (qid < MAX_REGIONS) }
        ensures fails { IfErr result (λ s.
            command_status (view_of self.now) (AdminCommand.CreateSq qid qsize prp1 cqid qprio pc) ≡ s) }
        ensures failure { IfErr result (λ s. is_success s ≡ false) }
    {
        if !pc {
            return Err(Status::INVALID_FIELD);
        }
        if self.is_bad_sq(qid) {
            return Err(Status::INVALID_QUEUE_IDENTIFIER);
        }
        if is_bad_size(qsize) {
            return Err(Status::INVALID_QUEUE_SIZE);
        }
        if self.is_bad_cqid(cqid) {
            return Err(Status::INVALID_QUEUE_IDENTIFIER);
        }
        let Some(cq_region) = self.cq(cqid) else {
            return Err(Status::COMPLETION_QUEUE_INVALID);
        };
        match free_region(self.sq_regions.as_slice(), &self.sq_used, prp1, qsize + 1) {
            Some(region) => Ok(Placing { region, cq_region }),
            None => Err(Status::INVALID_FIELD),
        }
    }

    // Create I/O Completion Queue.
    pub(super) fn create_cq(&mut self, qid: u16, qsize: u16, prp1: u64, pc: bool) -> Effect
        ensures does { Does (view_of self.old) (view_of self.new) (AdminCommand.CreateCq qid qsize prp1 pc) (verdict_in result) }
        ensures regions { NamesRegions (view_of self.old) result }
        ensures unchanged { is_success (status_in (verdict_in result)) ≡ false → self.new ≡ self.old }
    {
        match self.check_create_cq(qid, qsize, prp1, pc) {
            Err(status) => Effect::Done(status, 0),
            Ok(region) => {
                self.cqs[usize::from(qid)] = CqPlace::of(Some(region));
                self.cq_used[usize::from(region)] = Flag::of(true);
                self.created = Flag::of(true);
                Effect::OpenCq { qid, region }
            }
        }
    }

    // Create I/O Submission Queue.
    pub(super) fn create_sq(
        &mut self,
        qid: u16,
        qsize: u16,
        prp1: u64,
        cqid: u16,
        qprio: u8,
        pc: bool,
    ) -> Effect
        ensures does { Does (view_of self.old) (view_of self.new) (AdminCommand.CreateSq qid qsize prp1 cqid qprio pc) (verdict_in result) }
        ensures regions { NamesRegions (view_of self.old) result }
        ensures unchanged { is_success (status_in (verdict_in result)) ≡ false → self.new ≡ self.old }
    {
        match self.check_create_sq(qid, qsize, prp1, cqid, qprio, pc) {
            Err(status) => Effect::Done(status, 0),
            Ok(Placing { region, cq_region }) => {
                let class = class_of_qprio(qprio);
                self.sqs[usize::from(qid)] = SqPlace::of(Some(SqEntry {
                    region,
                    cqid,
                    class,
                    closing: false,
                }));
                self.sq_used[usize::from(region)] = Flag::of(true);
                self.created = Flag::of(true);
                Effect::OpenSq {
                    qid,
                    region,
                    cqid,
                    cq_region,
                    class,
                }
            }
        }
    }
}
