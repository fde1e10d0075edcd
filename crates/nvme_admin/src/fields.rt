mod conditions;
mod create;
mod delete;
mod features;

use crate::bounds::{MAX_REGIONS, MAX_SLOTS, MIN_SLOTS};
use crate::effect::Effect;
use crate::layout::{Allotted, CqPlace, Flag, Regions, SettingsWord, SqPlace};
use crate::limits::Limits;
use crate::region::{AdminError, Region};
use crate::verdict::{SqEntry, Verdict};
use conditions::is_address;
use nvme_arbiter::{Class, Settings};
use nvme_entry::{AdminCommand, Sqe, Status, admin_of};

/// A queue table as it lies in memory, of numbers alone. Each pattern of bits is some table, so that it may lie where
/// others write. Contracts see its content by `view_of`.
#[repr(C)]
#[derive(Drop)]
pub struct TableFields {
    sq_regions: Regions,
    cq_regions: Regions,
    settings: SettingsWord,
    nsq: Allotted,
    ncq: Allotted,
    sqs: [SqPlace; MAX_REGIONS],
    cqs: [CqPlace; MAX_REGIONS],
    sq_used: [Flag; MAX_REGIONS],
    cq_used: [Flag; MAX_REGIONS],
    numbers_set: Flag,
    created: Flag,
}

impl TableFields {
    ghost use Rattle.nvme_admin.specs.Layout.{view_of};
    ghost use Rattle.std.specs.Prelude.{◌≡◌, ◌==◌, if◌then◌else◌, true, false, ℕ, List, [], ◌∷◌, ◌++◌, MatchResult, IfOk, IfErr, OnOk, OnErr, None, Some, length};
    ghost use Rattle.nvme_admin.specs.declared.region.Region.{Region};
    ghost use Rattle.nvme_admin.specs.History.{Start, TableHistory, RegionAdded, EntryApplied, DeletionFinished, Submission, Completion};
    ghost use Rattle.nvme_admin.specs.Accepted.{verdict_of, status_of, dw0_of};
    ghost use Rattle.nvme_entry.specs.AdminCommand.{admin_command_of};
    ghost use Rattle.nvme_admin.specs.Checks.{status_in, dw0_in, is_success, status_over, verdict_by};
    ghost use Rattle.nvme_admin.specs.Changes.{admin_queue};
    ghost use Rattle.nvme_admin.specs.Steps.{table_after, empty_table};
    ghost use Rattle.nvme_admin.specs.Effects.{verdict_in, NamesRegions};
    ghost use Rattle.nvme_admin.specs.Standing.{Does, StandsAt, Shows, IsSized, table_of, sq_of, cq_of, used_at, region_fault, sq_renewed, cq_renewed};

    /// A table with no region, within the limits, with the settings of the Arbitration feature.
    pub fn new(limits: Limits, settings: Settings) -> TableFields
        ensures stands { StandsAt (record { nsq = limits.nsq; ncq = limits.ncq; settings = settings }) (view_of result) [] }
        ensures empty { Shows (view_of result) (empty_table (record { nsq = limits.nsq; ncq = limits.ncq; settings = settings })) }
    {
        let mut used = [Flag::of(false); MAX_REGIONS];
        used[0] = Flag::of(true);
        TableFields {
            sq_regions: Regions::new(),
            cq_regions: Regions::new(),
            settings: SettingsWord::of(settings),
            nsq: Allotted::of(limits.nsq),
            ncq: Allotted::of(limits.ncq),
            sqs: [SqPlace::of(None); MAX_REGIONS],
            cqs: [CqPlace::of(None); MAX_REGIONS],
            sq_used: used,
            cq_used: used,
            numbers_set: Flag::of(false),
            created: Flag::of(false),
        }
    }

    /// The submission queue of an identifier, open or closing. Identifier 0 is the admin queue's, from
    /// its region 0 on.
    pub fn sq(&self, qid: u16) -> Option<SqEntry>
        ensures { result ≡ sq_of (view_of self.now) qid }
    {
        let qid = usize::from(qid);
        if qid < MAX_REGIONS {
            self.sqs[qid].get()
        } else {
            None
        }
    }

    /// The number of the region of the open completion queue of an identifier.
    pub fn cq(&self, qid: u16) -> Option<u8>
        ensures { result ≡ cq_of (view_of self.now) qid }
    {
        let qid = usize::from(qid);
        if qid < MAX_REGIONS {
            self.cqs[qid].get()
        } else {
            None
        }
    }

    /// Whether a submission region is used: it is region 0, or a queue was created on it.
    pub fn is_sq_region_used(&self, region: usize) -> bool
        ensures { result ≡ used_at (view_of self.now).sq_used region }
    {
        region < MAX_REGIONS && self.sq_used[region].is_up()
    }

    /// Whether a completion region is used: it is region 0, or a queue was created on it.
    pub fn is_cq_region_used(&self, region: usize) -> bool
        ensures { result ≡ used_at (view_of self.now).cq_used region }
    {
        region < MAX_REGIONS && self.cq_used[region].is_up()
    }

    /// The allotted numbers of I/O queues. (Base Specification, Number of Queues feature)
    pub fn allotted(&self) -> Limits
        ensures nsq { result.nsq ≡ (view_of self.now).nsq }
        ensures ncq { result.ncq ≡ (view_of self.now).ncq }
    {
        Limits {
            nsq: self.nsq.get(),
            ncq: self.ncq.get(),
        }
    }

    /// The settings of the Arbitration feature.
    pub fn settings(&self) -> Settings
        ensures { result ≡ (view_of self.now).settings }
    {
        self.settings.get()
    }

    /// Adds a submission region of `slots` slots and answers its number, which counts from 0 in the
    /// order of adding. Region 0 is the admin queue's. Refused with `Used`, `TooMany` or `Size`, the
    /// first that applies. A refusal changes nothing. (profile)
    pub fn add_sq_region(&mut self, address: u64, slots: u16) -> Result<u8, AdminError>
        ensures refused { IfErr result (λ e. region_fault (view_of self.old) (view_of self.old).sq_regions address slots ≡ Some e) }
        ensures added { OnOk result (region_fault (view_of self.old) (view_of self.old).sq_regions address slots ≡ None) }
        ensures number { IfOk result (λ k. k ≡ length (view_of self.old).sq_regions) }
        ensures stands { OnOk result ((start : Start) (h : TableHistory) → StandsAt start (view_of self.old) h
            → StandsAt start (view_of self.new) (RegionAdded Submission address slots ∷ h)) }
        ensures regions { OnOk result ((view_of self.new).sq_regions ≡ (view_of self.old).sq_regions ++ record { address = address; slots = slots } ∷ []) }
        ensures queues { OnOk result ((q : ℕ) → sq_of (view_of self.new) q ≡ (if q == 0 then Some admin_queue else sq_of (view_of self.old) q)) }
        ensures rest { OnOk result (view_of self.new ≡ record (view_of self.old) { sq_regions = (view_of self.new).sq_regions; sqs = (view_of self.new).sqs }) }
        ensures unchanged { OnErr result (self.new ≡ self.old) }
        ensures sized { IsSized (view_of self.new) }
    {
        let number = self.sq_regions.as_slice().len();
        self.check_region(number, address, slots)?;
        self.sq_regions.push(Region { address, slots });
        self.sqs[0] = SqPlace::of(Some(SqEntry {
            region: 0,
            cqid: 0,
            class: Class::Admin,
            closing: false,
        }));
        Ok(number as u8)
    }

    /// Adds a completion region, as `add_sq_region` adds a submission region, with the same refusals.
    pub fn add_cq_region(&mut self, address: u64, slots: u16) -> Result<u8, AdminError>
        ensures refused { IfErr result (λ e. region_fault (view_of self.old) (view_of self.old).cq_regions address slots ≡ Some e) }
        ensures added { OnOk result (region_fault (view_of self.old) (view_of self.old).cq_regions address slots ≡ None) }
        ensures number { IfOk result (λ k. k ≡ length (view_of self.old).cq_regions) }
        ensures stands { OnOk result ((start : Start) (h : TableHistory) → StandsAt start (view_of self.old) h
            → StandsAt start (view_of self.new) (RegionAdded Completion address slots ∷ h)) }
        ensures regions { OnOk result ((view_of self.new).cq_regions ≡ (view_of self.old).cq_regions ++ record { address = address; slots = slots } ∷ []) }
        ensures queues { OnOk result ((q : ℕ) → cq_of (view_of self.new) q ≡ (if q == 0 then Some 0 else cq_of (view_of self.old) q)) }
        ensures rest { OnOk result (view_of self.new ≡ record (view_of self.old) { cq_regions = (view_of self.new).cq_regions; cqs = (view_of self.new).cqs }) }
        ensures unchanged { OnErr result (self.new ≡ self.old) }
        ensures sized { IsSized (view_of self.new) }
    {
        let number = self.cq_regions.as_slice().len();
        self.check_region(number, address, slots)?;
        self.cq_regions.push(Region { address, slots });
        self.cqs[0] = CqPlace::of(Some(0));
        Ok(number as u8)
    }

    /// Gives the submission region of this number another number of slots, and makes it unused. Nothing
    /// changes where no such region is there, or it is region 0. (profile)
    pub fn renew_sq_region(&mut self, number: u8, slots: u16)
        ensures renewed { view_of self.new ≡ sq_renewed (view_of self.old) number slots }
        ensures sized { IsSized (view_of self.new) }
    {
        let number = usize::from(number);
        if number == 0 {
            return;
        }
        if let Some(&region) = self.sq_regions.as_slice().get(number) {
            self.sq_regions.put(number, Region { slots, ..region });
            self.sq_used[number] = Flag::of(false);
        }
    }

    /// Renews a completion region, as `renew_sq_region` renews a submission region.
    pub fn renew_cq_region(&mut self, number: u8, slots: u16)
        ensures renewed { view_of self.new ≡ cq_renewed (view_of self.old) number slots }
        ensures sized { IsSized (view_of self.new) }
    {
        let number = usize::from(number);
        if number == 0 {
            return;
        }
        if let Some(&region) = self.cq_regions.as_slice().get(number) {
            self.cq_regions.put(number, Region { slots, ..region });
            self.cq_used[number] = Flag::of(false);
        }
    }

    // The checks of a region to be added to `count` regions of its kind.
    fn check_region(&self, count: usize, address: u64, slots: u16) -> Result<(), AdminError>
        ensures passes { (regions : List Region) → length regions ≡ count →
            MatchResult result (λ _. region_fault (view_of self.now) regions address slots ≡ None)
            (λ e. region_fault (view_of self.now) regions address slots ≡ Some e) }
    {
        if is_address(self.sq_regions.as_slice(), address)
            || is_address(self.cq_regions.as_slice(), address)
        {
            return Err(AdminError::Used);
        }
        if count == MAX_REGIONS {
            return Err(AdminError::TooMany);
        }
        if slots < MIN_SLOTS || slots > MAX_SLOTS {
            return Err(AdminError::Size);
        }
        Ok(())
    }

    // Law: there is a place for each region and each identifier.
    fn has_its_places(&self)
        ensures { IsSized (view_of self.now) }
    {}

    // What an entry does, FUSE aside.
    fn run(&mut self, command: AdminCommand) -> Effect
        ensures does { Does (view_of self.old) (view_of self.new) command (verdict_in result) }
        ensures regions { NamesRegions (view_of self.old) result }
        ensures unchanged { is_success (status_in (verdict_in result)) ≡ false → self.new ≡ self.old }
    {
        match command {
            AdminCommand::DeleteSq { qid } => self.delete_sq(qid),
            AdminCommand::CreateSq {
                qid,
                qsize,
                prp1,
                cqid,
                qprio,
                pc,
            } => self.create_sq(qid, qsize, prp1, cqid, qprio, pc),
            AdminCommand::DeleteCq { qid } => self.delete_cq(qid),
            AdminCommand::CreateCq {
                qid,
                qsize,
                prp1,
                pc,
            } => self.create_cq(qid, qsize, prp1, pc),
            AdminCommand::Abort { sqid, cid } => Effect::Abort { sqid, cid },
            AdminCommand::SetFeatures { fid, sv, cdw11 } => self.set_features(fid, sv, cdw11),
            AdminCommand::GetFeatures { fid } => self.get_features(fid),
            AdminCommand::Other => Effect::Done(Status::INVALID_OPCODE, 0),
        }
    }

    /// Applies an admin entry, as `apply` does. The effect tells the verdict, and the regions of the
    /// queues that it is about.
    pub fn execute(&mut self, entry: &Sqe) -> Effect
        ensures verdict { (start : Start) (h : TableHistory) →
            StandsAt start (view_of self.old) h → verdict_in result ≡ verdict_of start h entry.now }
        ensures status { (start : Start) (h : TableHistory) →
            StandsAt start (view_of self.old) h → status_in (verdict_in result) ≡ status_of start h entry.now }
        ensures dw0 { (start : Start) (h : TableHistory) →
            StandsAt start (view_of self.old) h → dw0_in (verdict_in result) ≡ dw0_of start h entry.now }
        ensures stands { (start : Start) (h : TableHistory) →
            StandsAt start (view_of self.old) h → StandsAt start (view_of self.new) (EntryApplied entry.now ∷ h) }
        ensures checked { status_in (verdict_in result) ≡ status_over (table_of (view_of self.old)) entry.now }
        ensures answered { verdict_in result ≡ verdict_by (status_over (table_of (view_of self.old)) entry.now) (table_of (view_of self.new)) (admin_command_of entry.now) }
        ensures accepted { is_success (status_in (verdict_in result)) ≡ true
            → Shows (view_of self.new) (table_after (table_of (view_of self.old)) (admin_command_of entry.now)) }
        ensures unchanged { is_success (status_in (verdict_in result)) ≡ false → self.new ≡ self.old }
        ensures regions { NamesRegions (view_of self.old) result }
        ensures sized { IsSized (view_of self.new) }
    {
        if entry.fuse() != 0 {
            return Effect::Done(Status::INVALID_FIELD, 0);
        }
        let effect = self.run(admin_of(entry));
        self.has_its_places();
        effect
    }

    /// Applies an admin entry: checks it, and changes the table where it is accepted. A command whose
    /// status isn't success changes nothing. A controller applies entries once region 0 of both kinds
    /// exists. (Base Specification, Admin Command Set)
    pub fn apply(&mut self, entry: &Sqe) -> Verdict
        ensures verdict { (start : Start) (h : TableHistory) →
            StandsAt start (view_of self.old) h → result ≡ verdict_of start h entry.now }
        ensures status { (start : Start) (h : TableHistory) →
            StandsAt start (view_of self.old) h → status_in result ≡ status_of start h entry.now }
        ensures dw0 { (start : Start) (h : TableHistory) →
            StandsAt start (view_of self.old) h → dw0_in result ≡ dw0_of start h entry.now }
        ensures stands { (start : Start) (h : TableHistory) →
            StandsAt start (view_of self.old) h → StandsAt start (view_of self.new) (EntryApplied entry.now ∷ h) }
        ensures checked { status_in result ≡ status_over (table_of (view_of self.old)) entry.now }
        ensures answered { result ≡ verdict_by (status_over (table_of (view_of self.old)) entry.now) (table_of (view_of self.new)) (admin_command_of entry.now) }
        ensures accepted { is_success (status_in result) ≡ true
            → Shows (view_of self.new) (table_after (table_of (view_of self.old)) (admin_command_of entry.now)) }
        ensures unchanged { is_success (status_in result) ≡ false → self.new ≡ self.old }
        ensures sized { IsSized (view_of self.new) }
    {
        self.execute(entry).verdict()
    }
}
