// Hands over jobs to the workers, and gains their results.
use crate::front::FrontError;
use crate::state::FrontState;
use nvme_jobs::Gained;
use nvme_pool::Lanes;
use std::sync::Wait;

impl FrontState {
    ghost use Rattle.std.specs.Prelude.{◌≡◌, ℕ, ◌<◌, true, false, length, OnOk, IfErr};
    ghost use Rattle.std.specs.List.{All};
    ghost use Rattle.nvme_pool.specs.Seat.{IsUnknown};
    ghost use Rattle.nvme_front.specs.inside.Room.{IsConsistent};
    ghost use Rattle.nvme_jobs.specs.Hands.{gained_count, in_hand};
    ghost use Rattle.nvme_front.specs.inside.Goes.{Goes, IsSame, HasAdmin};
    ghost use Rattle.nvme_front.specs.inside.Turn.{Balanced};
    ghost use Rattle.nvme_front.specs.inside.State.{view_of};
    ghost use Rattle.nvme_front.specs.View.{GainedStray};
    ghost use Rattle.nvme_front.specs.declared.front.FrontError.TheVariants.{Stray};

    // Hands over the job of the oldest picked command whose job isn't handed over yet.
    fn hand_one<R: Wait>(&mut self, rt: &R, lanes: &Lanes) -> bool
        requires consistent { IsConsistent self.old }
        requires admin { HasAdmin self.old }
        requires seat { self.old.jobs.hands.seat.lane ≡ lanes.now }
        ensures consistent { IsConsistent self.new }
        ensures goes { Goes self.old self.new }
        ensures log { self.new.log.items ≡ self.old.log.items }
        ensures sqs { self.new.sqs.items ≡ self.old.sqs.items }
        ensures cqs { self.new.cqs.items ≡ self.old.cqs.items }
        ensures engine { self.new.engine ≡ self.old.engine }
        ensures ends { self.new.jobs.hands.seat.ends ≡ self.old.jobs.hands.seat.ends }
        ensures in_hand { in_hand self.new.jobs.hands ≡ in_hand self.old.jobs.hands }
        ensures balanced { Balanced self.old self.new }
        ensures fewer { result ≡ true → length self.new.jobs.hands.unhanded < length self.old.jobs.hands.unhanded }
        ensures more { result ≡ true → length self.old.jobs.hands.seat.handed < length self.new.jobs.hands.seat.handed }
        ensures still { result ≡ false → IsSame self.old self.new }
    {
        self.jobs.hand(rt, lanes, &self.config.spaces)
    }

    /// Hands over the jobs that aren't handed over yet, the oldest first, until the lane is full. The answer is whether
    /// any was handed over.
    pub fn hand<R: Wait>(&mut self, rt: &R, lanes: &Lanes) -> bool
        requires consistent { IsConsistent self.old }
        requires admin { HasAdmin self.old }
        requires seat { self.old.jobs.hands.seat.lane ≡ lanes.now }
        ensures consistent { IsConsistent self.new }
        ensures goes { Goes self.old self.new }
        ensures log { self.new.log.items ≡ self.old.log.items }
        ensures sqs { self.new.sqs.items ≡ self.old.sqs.items }
        ensures cqs { self.new.cqs.items ≡ self.old.cqs.items }
        ensures engine { self.new.engine ≡ self.old.engine }
        ensures ends { self.new.jobs.hands.seat.ends ≡ self.old.jobs.hands.seat.ends }
        ensures in_hand { in_hand self.new.jobs.hands ≡ in_hand self.old.jobs.hands }
        ensures balanced { Balanced self.old self.new }
        ensures more { result ≡ true → length self.old.jobs.hands.seat.handed < length self.new.jobs.hands.seat.handed }
        ensures still { result ≡ false → IsSame self.old self.new }
    {
        let mut handed = false;
        while self.hand_one(rt, lanes) {
            handed = true;
        }
        handed
    }

    // Gains a result, where there is one. The completion of its command is then ready.
    fn gain_one(&mut self, lanes: &Lanes) -> Result<bool, FrontError>
        requires consistent { IsConsistent self.old }
        requires admin { HasAdmin self.old }
        requires seat { self.old.jobs.hands.seat.lane ≡ lanes.now }
        ensures consistent { IsConsistent self.new }
        ensures goes { Goes self.old self.new }
        ensures log { self.new.log.items ≡ self.old.log.items }
        ensures sqs { self.new.sqs.items ≡ self.old.sqs.items }
        ensures cqs { self.new.cqs.items ≡ self.old.cqs.items }
        ensures fewer { result ≡ Ok true → length self.new.jobs.hands.running < length self.old.jobs.hands.running }
        ensures more { result ≡ Ok true → gained_count self.old.jobs.hands < gained_count self.new.jobs.hands }
        ensures still { result ≡ Ok false → IsSame self.old self.new × All IsUnknown self.old.jobs.hands.seat.ends }
        ensures balanced { OnOk result (Balanced self.old self.new) }
        ensures stray { IfErr result (λ e. (ticket : ℕ) × (e ≡ Stray ticket) × GainedStray ticket (view_of self.old) (view_of self.new)) }
    {
        let (dispatched, status) = match self.jobs.gain(lanes, &self.config.spaces) {
            Gained::Nothing => return Ok(false),
            Gained::Stray(ticket) => return Err(FrontError::Stray(ticket)),
            Gained::Result(dispatched, status) => (dispatched, status),
        };
        self.engine.complete(dispatched.tag, status);
        Ok(true)
    }

    /// Gains results until none is left. The answer is whether any was gained.
    pub fn gain(&mut self, lanes: &Lanes) -> Result<bool, FrontError>
        requires consistent { IsConsistent self.old }
        requires admin { HasAdmin self.old }
        requires seat { self.old.jobs.hands.seat.lane ≡ lanes.now }
        ensures consistent { IsConsistent self.new }
        ensures goes { Goes self.old self.new }
        ensures log { self.new.log.items ≡ self.old.log.items }
        ensures sqs { self.new.sqs.items ≡ self.old.sqs.items }
        ensures cqs { self.new.cqs.items ≡ self.old.cqs.items }
        ensures more { result ≡ Ok true → gained_count self.old.jobs.hands < gained_count self.new.jobs.hands }
        ensures still { result ≡ Ok false → IsSame self.old self.new × All IsUnknown self.old.jobs.hands.seat.ends }
        ensures balanced { OnOk result (Balanced self.old self.new) }
        ensures none_known { OnOk result (All IsUnknown self.new.jobs.hands.seat.ends) }
        ensures stray { IfErr result (λ e. (ticket : ℕ) × (e ≡ Stray ticket) × GainedStray ticket (view_of self.old) (view_of self.new)) }
    {
        let mut gained = false;
        while self.gain_one(lanes)? {
            gained = true;
        }
        Ok(gained)
    }
}
