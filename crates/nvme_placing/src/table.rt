use crate::placement::Placement;
use crate::tokens;
use nvme_admin::{AdminError, Effect, Limits, SqEntry, TableFields};
use nvme_arbiter::Settings;
use nvme_entry::Sqe;

/// A queue table as it lies in memory, of numbers alone: its queues lie on regions, or anywhere. Each pattern of bits is
/// some table, so that it may lie where others write. Contracts see its content by `content_of`, and `placing_of`.
#[repr(C)]
#[derive(Drop)]
pub struct PlacedTable {
    // Where queues may lie anywhere, this table has a region for each identifier, under tokens in the place of addresses.
    table: TableFields,
    // What a Create may ask for there. A page of 0 is one of 1.
    page: u32,
    mqes: u16,
    vectors: u16,
    // 0 where queues lie on regions.
    anywhere: u8,
}

impl PlacedTable {
    ghost use Rattle.std.specs.Prelude.{◌≡◌, ◌==◌, ◌&&◌, if◌then◌else◌, true, false, ℕ, List, [], ◌∷◌, ◌++◌, IfOk, IfErr, OnOk, OnErr, IsTrue, IsSomeAnd, Option, None, Some, Ok, Err, length, is_some, option_map};
    ghost use Rattle.nvme_admin.specs.declared.region.AdminError.TheVariants.{Size, TooMany};
    ghost use Rattle.nvme_admin.specs.History.{Start, TableHistory, RegionAdded, EntryApplied, DeletionFinished, PlacedAnywhere, Submission, Completion};
    ghost use Rattle.nvme_admin.specs.QueueTable.{QueueTable};
    ghost use Rattle.nvme_admin.specs.Accepted.{queue_table, verdict_of, status_of, dw0_of};
    ghost use Rattle.nvme_admin.specs.Checks.{status_in, dw0_in, is_success};
    ghost use Rattle.nvme_admin.specs.Changes.{admin_queue};
    ghost use Rattle.nvme_admin.specs.Effects.{verdict_in, NamesRegions};
    ghost use Rattle.nvme_admin.specs.Standing.{sq_of, cq_of, region_fault};
    ghost use Rattle.nvme_placing.specs.Telling.{Tells, IsTold, content_of, placing_of, placing_by, unplaced, is_ring_size};

    /// A table without regions, within the limits, with the settings of the Arbitration feature. Each of its queues is to
    /// lie on a region.
    pub fn on_regions(limits: Limits, settings: Settings) -> PlacedTable
        ensures tells { Tells result (queue_table (record { nsq = limits.nsq; ncq = limits.ncq; settings = settings }) []) }
        ensures placing { placing_of result ≡ None }
    {
        PlacedTable {
            table: TableFields::new(limits, settings),
            page: 1,
            mqes: 0,
            vectors: 0,
            anywhere: 0,
        }
    }

    /// A table whose queues may lie anywhere in memory, with the admin queues of these numbers of slots, wherever they
    /// are. Refused with `Size` where a number of slots is outside `MIN_SLOTS` to `MAX_SLOTS`.
    pub fn anywhere(
        limits: Limits,
        settings: Settings,
        placement: Placement,
        sq_slots: u16,
        cq_slots: u16,
    ) -> Result<PlacedTable, AdminError>
        ensures tells { IfOk result (λ p. (sq_address cq_address : ℕ) → Tells p (queue_table (record { nsq = limits.nsq; ncq = limits.ncq; settings = settings })
            (RegionAdded Completion cq_address cq_slots ∷ RegionAdded Submission sq_address sq_slots ∷ PlacedAnywhere (placing_by placement) ∷ []))) }
        ensures placing { IfOk result (λ p. placing_of p ≡ Some (placing_by placement)) }
        ensures size { IfErr result (λ e. e ≡ Size) }
        ensures fits { OnOk result ((is_ring_size sq_slots && is_ring_size cq_slots) ≡ true) }
        ensures refused { OnErr result ((is_ring_size sq_slots && is_ring_size cq_slots) ≡ false) }
    {
        if !tokens::is_size(sq_slots) || !tokens::is_size(cq_slots) {
            return Err(AdminError::Size);
        }
        Ok(PlacedTable {
            table: tokens::new_table(limits, settings, sq_slots, cq_slots),
            page: placement.page,
            mqes: placement.mqes,
            vectors: placement.vectors,
            anywhere: 1,
        })
    }

    /// What a Create may ask for where queues may lie anywhere, and `None` where each lies on a region.
    pub fn placing(&self) -> Option<Placement>
        ensures { option_map placing_by result ≡ placing_of self.now }
    {
        if self.anywhere == 0 {
            return None;
        }
        let page = if self.page == 0 { 1 } else { self.page };
        Some(Placement {
            page,
            mqes: self.mqes,
            vectors: self.vectors,
        })
    }

    /// The submission queue of an identifier, open or closing. Identifier 0 is the admin queue's.
    pub fn sq(&self, qid: u16) -> Option<SqEntry>
        ensures exact { result ≡ sq_of (content_of self.now) qid }
        ensures told { (t : QueueTable) → Tells self.now t → option_map unplaced result ≡ option_map unplaced (t.sq qid) }
        ensures on_region { (t : QueueTable) → Tells self.now t → placing_of self.now ≡ None → result ≡ t.sq qid }
    {
        self.table.sq(qid)
    }

    /// The number of the region of the open completion queue of an identifier.
    pub fn cq(&self, qid: u16) -> Option<u8>
        ensures exact { result ≡ cq_of (content_of self.now) qid }
        ensures told { (t : QueueTable) → Tells self.now t → is_some result ≡ is_some (t.cq qid) }
        ensures on_region { (t : QueueTable) → Tells self.now t → placing_of self.now ≡ None → result ≡ t.cq qid }
    {
        self.table.cq(qid)
    }

    /// The allotted numbers of I/O queues. (Base Specification, Number of Queues feature)
    pub fn allotted(&self) -> Limits
        ensures nsq { result.nsq ≡ (content_of self.now).nsq }
        ensures ncq { result.ncq ≡ (content_of self.now).ncq }
        ensures told { (t : QueueTable) → Tells self.now t → (result.nsq ≡ t.nsq) × (result.ncq ≡ t.ncq) }
    {
        self.table.allotted()
    }

    /// The settings of the Arbitration feature.
    pub fn settings(&self) -> Settings
        ensures exact { result ≡ (content_of self.now).settings }
        ensures told { (t : QueueTable) → Tells self.now t → result ≡ t.settings }
    {
        self.table.settings()
    }

    /// Adds a submission region of `slots` slots and answers its number, which counts from 0 in the order of adding.
    /// Region 0 is the admin queue's. Refused with `Used`, `TooMany` or `Size`, the first that applies, and with
    /// `TooMany` where queues may lie anywhere. A refusal changes nothing. (profile)
    pub fn add_sq_region(&mut self, address: u64, slots: u16) -> Result<u8, AdminError>
        ensures anywhere { is_some (placing_of self.old) ≡ true → result ≡ Err TooMany }
        ensures refused { placing_of self.old ≡ None → IfErr result (λ e. region_fault (content_of self.old) (content_of self.old).sq_regions address slots ≡ Some e) }
        ensures added { OnOk result (region_fault (content_of self.old) (content_of self.old).sq_regions address slots ≡ None) }
        ensures number { IfOk result (λ k. k ≡ length (content_of self.old).sq_regions) }
        ensures stands { OnOk result ((start : Start) (h : TableHistory) → Tells self.old (queue_table start h)
            → Tells self.new (queue_table start (RegionAdded Submission address slots ∷ h))) }
        ensures regions { OnOk result ((content_of self.new).sq_regions ≡ (content_of self.old).sq_regions ++ record { address = address; slots = slots } ∷ []) }
        ensures queues { OnOk result ((q : ℕ) → sq_of (content_of self.new) q ≡ (if q == 0 then Some admin_queue else sq_of (content_of self.old) q)) }
        ensures rest { OnOk result (content_of self.new ≡ record (content_of self.old) { sq_regions = (content_of self.new).sq_regions; sqs = (content_of self.new).sqs }) }
        ensures unchanged { OnErr result (self.new ≡ self.old) }
        ensures placing { placing_of self.new ≡ placing_of self.old }
    {
        if self.anywhere != 0 {
            return Err(AdminError::TooMany);
        }
        self.table.add_sq_region(address, slots)
    }

    /// Adds a completion region, as `add_sq_region` adds a submission region, with the same refusals.
    pub fn add_cq_region(&mut self, address: u64, slots: u16) -> Result<u8, AdminError>
        ensures anywhere { is_some (placing_of self.old) ≡ true → result ≡ Err TooMany }
        ensures refused { placing_of self.old ≡ None → IfErr result (λ e. region_fault (content_of self.old) (content_of self.old).cq_regions address slots ≡ Some e) }
        ensures added { OnOk result (region_fault (content_of self.old) (content_of self.old).cq_regions address slots ≡ None) }
        ensures number { IfOk result (λ k. k ≡ length (content_of self.old).cq_regions) }
        ensures stands { OnOk result ((start : Start) (h : TableHistory) → Tells self.old (queue_table start h)
            → Tells self.new (queue_table start (RegionAdded Completion address slots ∷ h))) }
        ensures regions { OnOk result ((content_of self.new).cq_regions ≡ (content_of self.old).cq_regions ++ record { address = address; slots = slots } ∷ []) }
        ensures queues { OnOk result ((q : ℕ) → cq_of (content_of self.new) q ≡ (if q == 0 then Some 0 else cq_of (content_of self.old) q)) }
        ensures rest { OnOk result (content_of self.new ≡ record (content_of self.old) { cq_regions = (content_of self.new).cq_regions; cqs = (content_of self.new).cqs }) }
        ensures unchanged { OnErr result (self.new ≡ self.old) }
        ensures placing { placing_of self.new ≡ placing_of self.old }
    {
        if self.anywhere != 0 {
            return Err(AdminError::TooMany);
        }
        self.table.add_cq_region(address, slots)
    }

    /// Applies an admin entry: checks it, and changes the table where it is accepted. A command whose status isn't success
    /// changes nothing. (Base Specification, Admin Command Set)
    pub fn execute(&mut self, entry: &Sqe) -> Effect
        ensures status { (start : Start) (h : TableHistory) →
            Tells self.old (queue_table start h) → status_in (verdict_in result) ≡ status_of start h entry.now }
        ensures verdict { (start : Start) (h : TableHistory) →
            Tells self.old (queue_table start h) → IsTold self.old (verdict_in result) (verdict_of start h entry.now) }
        ensures dw0 { (start : Start) (h : TableHistory) →
            Tells self.old (queue_table start h) → dw0_in (verdict_in result) ≡ dw0_of start h entry.now }
        ensures stands { (start : Start) (h : TableHistory) →
            Tells self.old (queue_table start h) → Tells self.new (queue_table start (EntryApplied entry.now ∷ h)) }
        ensures regions { placing_of self.old ≡ None → NamesRegions (content_of self.old) result }
        ensures unchanged_on_regions { placing_of self.old ≡ None → is_success (status_in (verdict_in result)) ≡ false → self.new ≡ self.old }
        ensures unchanged { (t : QueueTable) → Tells self.old t → is_success (status_in (verdict_in result)) ≡ false → self.new ≡ self.old }
        ensures placing { placing_of self.new ≡ placing_of self.old }
    {
        match self.placing() {
            Some(placement) => tokens::execute(&mut self.table, placement, entry),
            None => self.table.execute(entry),
        }
    }

    /// Finishes the deletion of a submission queue, which must be closing. Its identifier is then free.
    /// (Base Specification, Delete I/O Submission Queue)
    pub fn finish_delete(&mut self, qid: u16)
        requires { IsSomeAnd (sq_of (content_of self.old) qid) (λ queue. IsTrue queue.closing) }
        ensures stands { (start : Start) (h : TableHistory) →
            Tells self.old (queue_table start h) → Tells self.new (queue_table start (DeletionFinished qid ∷ h)) }
        ensures gone { (q : ℕ) → sq_of (content_of self.new) q ≡ (if qid == q then None else sq_of (content_of self.old) q) }
        ensures rest { content_of self.new ≡ record (content_of self.old) { sqs = (content_of self.new).sqs } }
        ensures placing { placing_of self.new ≡ placing_of self.old }
    {
        self.table.finish_delete(qid)
    }
}
