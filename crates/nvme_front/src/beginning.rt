// The engine begins, once both admin regions are there.
use crate::state::FrontState;
use nvme_admin::Region;

impl FrontState {
    ghost use Rattle.std.specs.Prelude.{◌≡◌, ◌↔◌, ◌<◌, false, true, [], length};
    ghost use Rattle.nvme_engine.specs.Standing.{StandsAt, HasPool};
    ghost use Rattle.nvme_front.specs.inside.Goes.{HasAdmin};
    ghost use Rattle.nvme_front.specs.inside.Pushing.{rules_at};
    ghost use Rattle.nvme_front.specs.inside.Room.{IsConsistent, IsFresh, IsRoomy};

    /// Whether both admin regions are there.
    pub fn has_admin(&self) -> bool
        ensures { (result ≡ true) ↔ HasAdmin self.now }
    {
        !self.sqs.is_empty() && !self.cqs.is_empty()
    }

    /// The engine begins with the regions, if those of the admin queue are there now.
    pub fn begin(&mut self)
        requires fresh { IsFresh self.old }
        requires roomy { IsRoomy self.old }
        ensures consistent { IsConsistent self.new }
        ensures same { self.new ≡ record self.old { engine = self.new.engine } }
    {
        if self.has_admin() {
            self.start_engine();
            self.give_sqs();
            self.give_cqs();
        }
    }

    // The engine begins, with the regions of the admin queue.
    fn start_engine(&mut self)
        requires roomy { IsRoomy self.old }
        requires admin { HasAdmin self.old }
        requires pool { HasPool self.old.engine }
        requires few_slots { length self.old.engine.slots.items < 65536 }
        ensures same { self.new ≡ record self.old { engine = self.new.engine } }
        ensures stands { StandsAt (rules_at self.old 1 1) false [] self.new.engine }
    {
        let end = &self.sqs[0].end;
        let sq = Region {
            address: end.address(),
            slots: end.slots(),
        };
        let end = &self.cqs[0];
        let cq = Region {
            address: end.address(),
            slots: end.slots(),
        };
        let config = self.config;
        self.engine
            .start(config.mechanism, config.settings, config.limits, sq, cq);
    }

    // The engine gets the other submission regions.
    fn give_sqs(&mut self)
        requires roomy { IsRoomy self.old }
        requires admin { HasAdmin self.old }
        requires stands { StandsAt (rules_at self.old 1 1) false [] self.old.engine }
        ensures same { self.new ≡ record self.old { engine = self.new.engine } }
        ensures stands { StandsAt (rules_at self.old (length self.old.sqs.items) 1) false [] self.new.engine }
    {
        for r in 1..self.sqs.len() {
            let end = &self.sqs[r].end;
            let address = end.address();
            let slots = end.slots();
            let Ok(_) = self.engine.add_sq(address, slots) else {
                unreachable!()
            };
        }
    }

    // The engine gets the other completion regions.
    fn give_cqs(&mut self)
        requires roomy { IsRoomy self.old }
        requires admin { HasAdmin self.old }
        requires stands { StandsAt (rules_at self.old (length self.old.sqs.items) 1) false [] self.old.engine }
        ensures same { self.new ≡ record self.old { engine = self.new.engine } }
        ensures stands { StandsAt (rules_at self.old (length self.old.sqs.items) (length self.old.cqs.items)) false [] self.new.engine }
    {
        for c in 1..self.cqs.len() {
            let end = &self.cqs[c];
            let address = end.address();
            let slots = end.slots();
            let Ok(_) = self.engine.add_cq(address, slots) else {
                unreachable!()
            };
        }
    }
}
