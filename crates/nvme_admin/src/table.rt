use crate::effect::Effect;
use crate::fields::TableFields;
use crate::limits::Limits;
use crate::region::AdminError;
use crate::verdict::{SqEntry, Verdict};
use nvme_arbiter::Settings;
use nvme_entry::Sqe;
use std::marker::Model;

/// The queue table of a controller: its regions, its queues and its features. It keeps the current state and no
/// history, and allocates nothing.
#[derive(Drop)]
pub struct Table {
    fields: TableFields,
}

impl Model for Table {
    ghost use Rattle.nvme_admin.specs.Layout.{view_of};
    ghost use Rattle.nvme_admin.specs.Standing.{TableView, IsSized};

    ghost Value = { TableView };

    ghost view = { λ t. view_of t.fields };

    ghost invariant = { λ t. IsSized (view_of t.fields) };
}

impl Table {
    ghost use Rattle.std.specs.Prelude.{◌≡◌, ◌==◌, if◌then◌else◌, true, false, ℕ, [], ◌∷◌, ◌++◌, IfOk, IfErr, OnOk, OnErr, None, Some, length, IsTrue, IsSomeAnd};
    ghost use Rattle.nvme_admin.specs.History.{Start, TableHistory, RegionAdded, EntryApplied, DeletionFinished, Submission, Completion};
    ghost use Rattle.nvme_admin.specs.Accepted.{verdict_of, status_of, dw0_of};
    ghost use Rattle.nvme_entry.specs.AdminCommand.{admin_command_of};
    ghost use Rattle.nvme_admin.specs.Checks.{status_in, dw0_in, is_success, status_over, verdict_by};
    ghost use Rattle.nvme_admin.specs.Changes.{admin_queue};
    ghost use Rattle.nvme_admin.specs.Steps.{table_after, empty_table};
    ghost use Rattle.nvme_admin.specs.Effects.{verdict_in, NamesRegions};
    ghost use Rattle.nvme_admin.specs.Standing.{StandsAt, Shows, IsSized, table_of, sq_of, cq_of, used_at, region_fault};

    /// A table with no region, within the limits, with the settings of the Arbitration feature.
    pub fn new(limits: Limits, settings: Settings) -> Table
        ensures stands { StandsAt (record { nsq = limits.nsq; ncq = limits.ncq; settings = settings }) result [] }
        ensures empty { Shows result (empty_table (record { nsq = limits.nsq; ncq = limits.ncq; settings = settings })) }
    {
        Table {
            fields: TableFields::new(limits, settings),
        }
    }

    /// The submission queue of an identifier, open or closing. Identifier 0 is the admin queue's, from
    /// its region 0 on.
    pub fn sq(&self, qid: u16) -> Option<SqEntry>
        ensures { result ≡ sq_of self.now qid }
    {
        self.fields.sq(qid)
    }

    /// The number of the region of the open completion queue of an identifier.
    pub fn cq(&self, qid: u16) -> Option<u8>
        ensures { result ≡ cq_of self.now qid }
    {
        self.fields.cq(qid)
    }

    /// Whether a submission region is used: it is region 0, or a queue was created on it.
    pub fn is_sq_region_used(&self, region: usize) -> bool
        ensures { result ≡ used_at self.now.sq_used region }
    {
        self.fields.is_sq_region_used(region)
    }

    /// Whether a completion region is used: it is region 0, or a queue was created on it.
    pub fn is_cq_region_used(&self, region: usize) -> bool
        ensures { result ≡ used_at self.now.cq_used region }
    {
        self.fields.is_cq_region_used(region)
    }

    /// The allotted numbers of I/O queues. (Base Specification, Number of Queues feature)
    pub fn allotted(&self) -> Limits
        ensures nsq { result.nsq ≡ self.now.nsq }
        ensures ncq { result.ncq ≡ self.now.ncq }
    {
        self.fields.allotted()
    }

    /// The settings of the Arbitration feature.
    pub fn settings(&self) -> Settings
        ensures { result ≡ self.now.settings }
    {
        self.fields.settings()
    }

    /// Adds a submission region of `slots` slots and answers its number, which counts from 0 in the
    /// order of adding. Region 0 is the admin queue's. Refused with `Used`, `TooMany` or `Size`, the
    /// first that applies. A refusal changes nothing. (profile)
    pub fn add_sq_region(&mut self, address: u64, slots: u16) -> Result<u8, AdminError>
        ensures refused { IfErr result (λ e. region_fault self.old self.old.sq_regions address slots ≡ Some e) }
        ensures added { OnOk result (region_fault self.old self.old.sq_regions address slots ≡ None) }
        ensures number { IfOk result (λ k. k ≡ length self.old.sq_regions) }
        ensures stands { OnOk result ((start : Start) (h : TableHistory) → StandsAt start self.old h
            → StandsAt start self.new (RegionAdded Submission address slots ∷ h)) }
        ensures regions { OnOk result (self.new.sq_regions ≡ self.old.sq_regions ++ record { address = address; slots = slots } ∷ []) }
        ensures queues { OnOk result ((q : ℕ) → sq_of self.new q ≡ (if q == 0 then Some admin_queue else sq_of self.old q)) }
        ensures rest { OnOk result (self.new ≡ record self.old { sq_regions = self.new.sq_regions; sqs = self.new.sqs }) }
        ensures unchanged { OnErr result (self.new ≡ self.old) }
    {
        self.fields.add_sq_region(address, slots)
    }

    /// Adds a completion region, as `add_sq_region` adds a submission region, with the same refusals.
    pub fn add_cq_region(&mut self, address: u64, slots: u16) -> Result<u8, AdminError>
        ensures refused { IfErr result (λ e. region_fault self.old self.old.cq_regions address slots ≡ Some e) }
        ensures added { OnOk result (region_fault self.old self.old.cq_regions address slots ≡ None) }
        ensures number { IfOk result (λ k. k ≡ length self.old.cq_regions) }
        ensures stands { OnOk result ((start : Start) (h : TableHistory) → StandsAt start self.old h
            → StandsAt start self.new (RegionAdded Completion address slots ∷ h)) }
        ensures regions { OnOk result (self.new.cq_regions ≡ self.old.cq_regions ++ record { address = address; slots = slots } ∷ []) }
        ensures queues { OnOk result ((q : ℕ) → cq_of self.new q ≡ (if q == 0 then Some 0 else cq_of self.old q)) }
        ensures rest { OnOk result (self.new ≡ record self.old { cq_regions = self.new.cq_regions; cqs = self.new.cqs }) }
        ensures unchanged { OnErr result (self.new ≡ self.old) }
    {
        self.fields.add_cq_region(address, slots)
    }

    /// Applies an admin entry, as `apply` does. The effect tells the verdict, and the regions of the
    /// queues that it is about.
    pub fn execute(&mut self, entry: &Sqe) -> Effect
        ensures verdict { (start : Start) (h : TableHistory) →
            StandsAt start self.old h → verdict_in result ≡ verdict_of start h entry.now }
        ensures status { (start : Start) (h : TableHistory) →
            StandsAt start self.old h → status_in (verdict_in result) ≡ status_of start h entry.now }
        ensures dw0 { (start : Start) (h : TableHistory) →
            StandsAt start self.old h → dw0_in (verdict_in result) ≡ dw0_of start h entry.now }
        ensures stands { (start : Start) (h : TableHistory) →
            StandsAt start self.old h → StandsAt start self.new (EntryApplied entry.now ∷ h) }
        ensures checked { status_in (verdict_in result) ≡ status_over (table_of self.old) entry.now }
        ensures answered { verdict_in result ≡ verdict_by (status_over (table_of self.old) entry.now) (table_of self.new) (admin_command_of entry.now) }
        ensures accepted { is_success (status_in (verdict_in result)) ≡ true
            → Shows self.new (table_after (table_of self.old) (admin_command_of entry.now)) }
        ensures unchanged { is_success (status_in (verdict_in result)) ≡ false → self.new ≡ self.old }
        ensures regions { NamesRegions self.old result }
        ensures sized { IsSized self.new }
    {
        self.fields.execute(entry)
    }

    /// Applies an admin entry: checks it, and changes the table where it is accepted. A command whose
    /// status isn't success changes nothing. A controller applies entries once region 0 of both kinds
    /// exists. (Base Specification, Admin Command Set)
    pub fn apply(&mut self, entry: &Sqe) -> Verdict
        ensures verdict { (start : Start) (h : TableHistory) →
            StandsAt start self.old h → result ≡ verdict_of start h entry.now }
        ensures status { (start : Start) (h : TableHistory) →
            StandsAt start self.old h → status_in result ≡ status_of start h entry.now }
        ensures dw0 { (start : Start) (h : TableHistory) →
            StandsAt start self.old h → dw0_in result ≡ dw0_of start h entry.now }
        ensures stands { (start : Start) (h : TableHistory) →
            StandsAt start self.old h → StandsAt start self.new (EntryApplied entry.now ∷ h) }
        ensures checked { status_in result ≡ status_over (table_of self.old) entry.now }
        ensures answered { result ≡ verdict_by (status_over (table_of self.old) entry.now) (table_of self.new) (admin_command_of entry.now) }
        ensures accepted { is_success (status_in result) ≡ true
            → Shows self.new (table_after (table_of self.old) (admin_command_of entry.now)) }
        ensures unchanged { is_success (status_in result) ≡ false → self.new ≡ self.old }
        ensures sized { IsSized self.new }
    {
        self.execute(entry).verdict()
    }

    /// Finishes the deletion of a submission queue, which must be closing. Its identifier is then free.
    /// (Base Specification, Delete I/O Submission Queue)
    pub fn finish_delete(&mut self, qid: u16)
        requires { IsSomeAnd (sq_of self.old qid) (λ queue. IsTrue queue.closing) }
        ensures stands { (start : Start) (h : TableHistory) →
            StandsAt start self.old h → StandsAt start self.new (DeletionFinished qid ∷ h) }
        ensures gone { (q : ℕ) → sq_of self.new q ≡ (if qid == q then None else sq_of self.old q) }
        ensures rest { self.new ≡ record self.old { sqs = self.new.sqs } }
    {
        self.fields.finish_delete(qid)
    }
}
