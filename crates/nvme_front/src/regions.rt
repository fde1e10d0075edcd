// Makes a front, and adds regions to it.
//
// Decided: slots, and room for 256 jobs that are kept back and 256 that are handed over, are made with the first
// submission region, so a turn takes memory for its log and its pick's list alone.
use crate::front::{AddError, FrontConfig};
use crate::region::SqRegion;
use crate::state::FrontState;
use nvme_admin::MAX_REGIONS;
use nvme_engine::Engine;
use nvme_entry::{Cqe, Sqe};
use nvme_jobs::Jobs;
use nvme_lane::{GetEnd, PutEnd};
use nvme_pool::FrontSeat;
use std::alloc::Global;

impl FrontState {
    ghost use Rattle.std.specs.Prelude.{◌≡◌, ◌<◌, [], true, false, length, vec_capacity, IfOk, IfErr};
    ghost use Rattle.nvme_admin.specs.declared.bounds.TheConstants.{MAX_REGIONS};
    ghost use Rattle.nvme_front.specs.inside.Goes.{HasAdmin};
    ghost use Rattle.nvme_front.specs.inside.Pushing.{HasSqMore, HasCqMore};
    ghost use Rattle.nvme_front.specs.inside.Room.{IsConsistent, IsFreshSq, HasRoom};
    ghost use Rattle.nvme_front.specs.inside.State.{view_of};
    ghost use Rattle.nvme_front.specs.Adding.{IsAdded, IsNotAdded, submissions, completions};
    ghost use Rattle.nvme_front.specs.View.{is_address};

    /// A front with no region and an empty log.
    pub fn new(alloc: Global, config: FrontConfig, seat: FrontSeat) -> FrontState
        ensures consistent { IsConsistent result }
        ensures config { result.config ≡ config }
        ensures no_sqs { result.sqs.items ≡ [] }
        ensures no_cqs { result.cqs.items ≡ [] }
        ensures no_log { result.log.items ≡ [] }
        ensures hands { result.jobs.hands ≡ record { came = seat; seat = seat; unhanded = []; running = [] } }
        ensures not_late { result.late ≡ false }
    {
        FrontState {
            alloc,
            config,
            engine: Engine::new(alloc, config.mechanism, config.settings, config.limits),
            sqs: Vec::new(alloc),
            cqs: Vec::new(alloc),
            jobs: Jobs::new(alloc, seat),
            late: false,
            log: Vec::new(alloc),
        }
    }

    // Whether an address is that of a region of either kind.
    fn has_address(&self, address: u64) -> bool
        ensures { result ≡ is_address (view_of self.now) address }
    {
        self.sqs.iter().any(|sq| sq.end.address() == address)
            || self.cqs.iter().any(|end| end.address() == address)
    }

    // Makes room for a submission region, for the jobs and for the slots of the engine. False where memory was refused;
    // all but room is as it was.
    fn make_room(&mut self) -> bool
        requires consistent { IsConsistent self.old }
        ensures consistent { IsConsistent self.new }
        ensures room { result ≡ true → HasRoom self.new }
        ensures place { result ≡ true → length self.new.sqs.items < vec_capacity self.new.sqs }
        ensures view { view_of self.new ≡ view_of self.old }
    {
        self.jobs.make_room(self.alloc)
            && self.engine.make_room(self.alloc)
            && self.sqs.reserve(1).is_ok()
    }

    // Appends a submission region, for which there is room.
    fn append_sq(&mut self, sq: SqRegion)
        requires room { length self.old.sqs.items < vec_capacity self.old.sqs }
        ensures more { HasSqMore self.old self.new sq }
        ensures engine { self.new.engine ≡ self.old.engine }
    {
        self.late = !self.log.is_empty();
        let Ok(()) = self.sqs.push(sq) else {
            unreachable!()
        };
    }

    // Appends a completion region, for which there is room.
    fn append_cq(&mut self, end: PutEnd<Cqe>)
        requires room { length self.old.cqs.items < vec_capacity self.old.cqs }
        ensures more { HasCqMore self.old self.new end }
        ensures engine { self.new.engine ≡ self.old.engine }
    {
        self.late = !self.log.is_empty();
        let Ok(()) = self.cqs.push(end) else {
            unreachable!()
        };
    }

    // Adds a submission region, for which there is room. The engine gets it too, or begins if it waited for it.
    fn push_sq(&mut self, sq: SqRegion)
        requires consistent { IsConsistent self.old }
        requires room { HasRoom self.old }
        requires place { length self.old.sqs.items < vec_capacity self.old.sqs }
        requires few { length self.old.sqs.items < MAX_REGIONS }
        requires not_used { is_address (view_of self.old) sq.end.address ≡ false }
        requires fresh { IsFreshSq sq }
        ensures consistent { IsConsistent self.new }
        ensures more { HasSqMore self.old self.new sq }
    {
        if !self.has_admin() {
            self.append_sq(sq);
            self.begin();
            return;
        }
        let Ok(_) = self.engine.add_sq(sq.end.address(), sq.end.slots()) else {
            unreachable!()
        };
        self.append_sq(sq);
    }

    // Adds a completion region, as `push_sq` adds a submission region.
    fn push_cq(&mut self, end: PutEnd<Cqe>)
        requires consistent { IsConsistent self.old }
        requires place { length self.old.cqs.items < vec_capacity self.old.cqs }
        requires few { length self.old.cqs.items < MAX_REGIONS }
        requires not_used { is_address (view_of self.old) end.address ≡ false }
        requires nothing_sent { end.sent ≡ [] }
        ensures consistent { IsConsistent self.new }
        ensures more { HasCqMore self.old self.new end }
    {
        if !self.has_admin() {
            self.append_cq(end);
            self.begin();
            return;
        }
        let Ok(_) = self.engine.add_cq(end.address(), end.slots()) else {
            unreachable!()
        };
        self.append_cq(end);
    }

    /// Adds a submission region, with room for jobs and slots. Region 0 is the admin queue's, which is open once both admin
    /// regions are there: the engine begins then.
    pub fn add_sq(&mut self, end: GetEnd<Sqe>) -> Result<u8, (AddError, GetEnd<Sqe>)>
        requires consistent { IsConsistent self.old }
        requires nothing_got { end.got ≡ [] }
        ensures consistent { IsConsistent self.new }
        ensures added { IfOk result (λ r. IsAdded submissions end r (view_of self.old) (view_of self.new)) }
        ensures refused { IfErr result (λ e. (e.1 ≡ end) × IsNotAdded submissions end e.0 (view_of self.old) (view_of self.new)) }
    {
        if self.has_address(end.address()) {
            return Err((AddError::Used, end));
        }
        if self.sqs.len() == MAX_REGIONS {
            return Err((AddError::TooMany, end));
        }
        if !self.make_room() {
            return Err((AddError::NoMemory, end));
        }
        let number = self.sqs.len() as u8;
        self.push_sq(SqRegion { end, fetched: 0 });
        Ok(number)
    }

    /// Adds a completion region, as `add_sq` adds a submission region.
    pub fn add_cq(&mut self, end: PutEnd<Cqe>) -> Result<u8, (AddError, PutEnd<Cqe>)>
        requires consistent { IsConsistent self.old }
        requires nothing_sent { end.sent ≡ [] }
        ensures consistent { IsConsistent self.new }
        ensures added { IfOk result (λ c. IsAdded completions end c (view_of self.old) (view_of self.new)) }
        ensures refused { IfErr result (λ e. (e.1 ≡ end) × IsNotAdded completions end e.0 (view_of self.old) (view_of self.new)) }
    {
        if self.has_address(end.address()) {
            return Err((AddError::Used, end));
        }
        if self.cqs.len() == MAX_REGIONS {
            return Err((AddError::TooMany, end));
        }
        if self.cqs.reserve(1).is_err() {
            return Err((AddError::NoMemory, end));
        }
        let number = self.cqs.len() as u8;
        self.push_cq(end);
        Ok(number)
    }
}
