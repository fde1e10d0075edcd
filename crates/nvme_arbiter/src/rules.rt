// The rules of one pick, by what is kept (Base Specification, Command Arbitration).
use crate::arbiter_fields::{ArbiterFields, last_of_place, mechanism_of};
use crate::kept::left_of;
use crate::pick::Pick;
use crate::ready::{ReadyQueues, next_ready};
use crate::settings::{Class, Mechanism, Settings};

impl ArbiterFields {
    ghost use Rattle.std.specs.Prelude.{◌≡◌, ◌↔◌, IsNone, IsTrue};
    ghost use Rattle.nvme_arbiter.specs.Settings.{ArbitrationFields, IsLevel, burst_of};
    ghost use Rattle.nvme_arbiter.specs.Observation.{IsObservation, IsIdle};
    ghost use Rattle.nvme_arbiter.specs.History.{History};
    ghost use Rattle.nvme_arbiter.specs.Rules.{credit, within_burst, round_robin_pick, weighted_pick, admin_pick, urgent_pick, level_pick, levels_pick};
    ghost use Rattle.nvme_arbiter.specs.Lawful.{lawful_pick};
    ghost use Rattle.nvme_arbiter.specs.Standing.{StandsAt, pick_of, last_of, used_of};
    ghost use Rattle.nvme_arbiter.specs.Layout.{is_arbiter, kept_of};
    ghost use Rattle.nvme_arbiter.specs.declared.settings.Mechanism.{Mechanism};

    // The identifier that was served last of a class.
    #[inline(always)]
    fn last_of(&self, class: Class) -> Option<u16>
        requires { IsTrue (is_arbiter self.now) }
        ensures { result ≡ last_of (kept_of self.now).last class }
    {
        match class {
            Class::Admin => last_of_place(self.last.admin),
            Class::Urgent => last_of_place(self.last.urgent),
            Class::High => last_of_place(self.last.high),
            Class::Medium => last_of_place(self.last.medium),
            Class::Low => last_of_place(self.last.low),
        }
    }

    // How many commands of a level may be picked, in this round or in a new one.
    #[inline(always)]
    fn credit(&self, level: Class, fresh: bool) -> u16
        requires { IsLevel level }
        ensures { result ≡ credit (kept_of self.now).settings (used_of (kept_of self.now).used) fresh level }
    {
        let weight = Settings::from_cdw11(self.cdw11).weight(level);
        left_of(weight, self.used.of_level(level), fresh)
    }

    // The smaller of burst and count.
    #[inline(always)]
    fn within_burst(&self, count: u16) -> u16
        ensures { result ≡ within_burst (burst_of (kept_of self.now).settings) count }
    {
        match Settings::from_cdw11(self.cdw11).burst() {
            Some(burst) => burst.min(count),
            None => count,
        }
    }

    /// The lawful pick of these queues after the picks and settings so far. `None` exactly where no command waits. (Base
    /// Specification, Command Arbitration)
    #[inline(always)]
    pub fn peek<Q: ReadyQueues>(&self, queues: &Q) -> Option<Pick>
        requires observed { IsObservation (Q.seen queues.now) }
        requires is_arbiter { IsTrue (is_arbiter self.now) }
        ensures by_what_is_kept { result ≡ pick_of (kept_of self.now) (Q.seen queues.now) }
        ensures lawful { (mechanism : Mechanism) (first : ArbitrationFields) (past : History) → StandsAt mechanism first past (kept_of self.now) → result ≡ lawful_pick mechanism first past (Q.seen queues.now) }
        ensures none_where_idle { IsNone result ↔ IsIdle (Q.seen queues.now) }
    {
        match mechanism_of(self.mechanism) {
            Mechanism::RoundRobin => self.round_robin(queues),
            Mechanism::Weighted => self.weighted(queues),
        }
    }

    // The pick of round robin: one command of the admin queue, or as many as burst and count allow.
    #[inline(always)]
    fn round_robin<Q: ReadyQueues>(&self, queues: &Q) -> Option<Pick>
        requires observed { IsObservation (Q.seen queues.now) }
        requires is_arbiter { IsTrue (is_arbiter self.now) }
        ensures { result ≡ round_robin_pick (kept_of self.now).settings (kept_of self.now).last.all (Q.seen queues.now) }
    {
        let queue = next_ready(queues, None, last_of_place(self.last.all))?;
        let n = if queue.qid == 0 {
            1
        } else {
            self.within_burst(queue.count)
        };
        Some(Pick {
            qid: queue.qid,
            n,
            fresh: false,
        })
    }

    // The pick of weighted round robin with urgent priority class.
    #[inline(always)]
    fn weighted<Q: ReadyQueues>(&self, queues: &Q) -> Option<Pick>
        requires observed { IsObservation (Q.seen queues.now) }
        requires is_arbiter { IsTrue (is_arbiter self.now) }
        ensures { result ≡ weighted_pick (kept_of self.now).settings (last_of (kept_of self.now).last) (used_of (kept_of self.now).used) (Q.seen queues.now) }
    {
        if let Some(pick) = self.admin(queues) {
            return Some(pick);
        }
        if let Some(pick) = self.urgent(queues) {
            return Some(pick);
        }
        if let Some(pick) = self.levels(queues, false) {
            return Some(pick);
        }
        self.levels(queues, true)
    }

    // The pick of the admin queue: one command.
    #[inline(always)]
    fn admin<Q: ReadyQueues>(&self, queues: &Q) -> Option<Pick>
        requires observed { IsObservation (Q.seen queues.now) }
        requires is_arbiter { IsTrue (is_arbiter self.now) }
        ensures { result ≡ admin_pick (kept_of self.now).settings (last_of (kept_of self.now).last) (used_of (kept_of self.now).used) (Q.seen queues.now) }
    {
        let queue = next_ready(queues, Some(Class::Admin), self.last_of(Class::Admin))?;
        Some(Pick {
            qid: queue.qid,
            n: 1,
            fresh: false,
        })
    }

    // The pick of an urgent queue: the smaller of burst and count.
    #[inline(always)]
    fn urgent<Q: ReadyQueues>(&self, queues: &Q) -> Option<Pick>
        requires observed { IsObservation (Q.seen queues.now) }
        requires is_arbiter { IsTrue (is_arbiter self.now) }
        ensures { result ≡ urgent_pick (kept_of self.now).settings (last_of (kept_of self.now).last) (used_of (kept_of self.now).used) (Q.seen queues.now) }
    {
        let queue = next_ready(queues, Some(Class::Urgent), self.last_of(Class::Urgent))?;
        Some(Pick {
            qid: queue.qid,
            n: self.within_burst(queue.count),
            fresh: false,
        })
    }

    // The pick of the first level that has a ready queue and credit, in this round or in a new one.
    #[inline(always)]
    fn levels<Q: ReadyQueues>(&self, queues: &Q, fresh: bool) -> Option<Pick>
        requires observed { IsObservation (Q.seen queues.now) }
        requires is_arbiter { IsTrue (is_arbiter self.now) }
        ensures { result ≡ levels_pick (kept_of self.now).settings (last_of (kept_of self.now).last) (used_of (kept_of self.now).used) (Q.seen queues.now) fresh }
    {
        if let Some(pick) = self.level(queues, Class::High, fresh) {
            return Some(pick);
        }
        if let Some(pick) = self.level(queues, Class::Medium, fresh) {
            return Some(pick);
        }
        self.level(queues, Class::Low, fresh)
    }

    // The pick of a level: the least of burst, credit and count, and none without credit.
    #[inline(always)]
    fn level<Q: ReadyQueues>(&self, queues: &Q, level: Class, fresh: bool) -> Option<Pick>
        requires observed { IsObservation (Q.seen queues.now) }
        requires is_arbiter { IsTrue (is_arbiter self.now) }
        requires of_a_level { IsLevel level }
        ensures { result ≡ level_pick (kept_of self.now).settings (last_of (kept_of self.now).last) (used_of (kept_of self.now).used) (Q.seen queues.now) fresh level }
    {
        let credit = self.credit(level, fresh);
        if credit == 0 {
            return None;
        }
        let queue = next_ready(queues, Some(level), self.last_of(level))?;
        Some(Pick {
            qid: queue.qid,
            n: self.within_burst(queue.count).min(credit),
            fresh,
        })
    }
}
