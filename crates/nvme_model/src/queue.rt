// A queue pair and its host.
ghost use Rattle.std.specs.Prelude.{◌≡◌, ◌≤◌, ◌<◌, IfErr, IfOk};
ghost use Rattle.nvme_model.specs.Queues.{TellsSlotsFault};
ghost use Rattle.nvme_model.specs.declared.queue.TheConstants.{MAX_SLOTS, MIN_SLOTS};

use nvme_arbiter::Class;
use nvme_load::{Arrivals, Mix, Places, Services};
use thiserror::Error;

/// The fewest slots of a ring. (Base Specification, Queue Size)
pub const MIN_SLOTS: u16 = 2;

/// The most slots of a ring. (profile)
pub const MAX_SLOTS: u16 = 4_096;

/// Why a queue has no such rings.
#[derive(Clone, Copy, Debug, PartialEq, Eq, Error)]
pub enum SlotsFault {
    /// They have fewer than 2 slots, or more than 4,096.
    #[error("expected 2 to 4096 slots")]
    Slots,
}

/// A submission queue with a completion queue of its own, and what its host does.
#[derive(Drop)]
pub struct Queue {
    /// Its priority class. Round robin doesn't heed it.
    pub class: Class,
    /// How many slots each of its rings has.
    pub slots: u16,
    /// When its commands come. Where they come by a list, that says what they do and where they lie.
    pub arrivals: Arrivals,
    /// What they do, where no list says it.
    pub mix: Mix,
    /// Where they lie, where no list says it.
    pub places: Places,
    /// How long the device takes for each.
    pub services: Services,
    ghost at_least: { MIN_SLOTS ≤ slots },
    ghost at_most: { slots ≤ MAX_SLOTS },
}

impl Queue {
    /// A queue whose rings have 2 to 4,096 slots.
    pub fn new(
        class: Class,
        slots: u16,
        arrivals: Arrivals,
        mix: Mix,
        places: Places,
        services: Services,
    ) -> Result<Queue, SlotsFault>
        ensures class { IfOk result (λ q. q.class ≡ class) }
        ensures slots { IfOk result (λ q. q.slots ≡ slots) }
        ensures arrivals { IfOk result (λ q. q.arrivals ≡ arrivals) }
        ensures mix { IfOk result (λ q. q.mix ≡ mix) }
        ensures places { IfOk result (λ q. q.places ≡ places) }
        ensures services { IfOk result (λ q. q.services ≡ services) }
        ensures err { IfErr result (λ e. TellsSlotsFault slots e) }
    {
        if slots < MIN_SLOTS || slots > MAX_SLOTS {
            return Err(SlotsFault::Slots);
        }
        Ok(Queue {
            class,
            slots,
            arrivals,
            mix,
            places,
            services,
        })
    }
}
