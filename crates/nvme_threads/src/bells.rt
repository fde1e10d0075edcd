// What threads sleep on, and how they are woken. No contract rests on it.
//
// A thread that found nothing to do first tells that it is about to sleep, then looks once more, and only then sleeps.
// Who makes work for it afterwards sees that it was told, and rings; the sleep then ends, or never begins.
use nvme_admin::MAX_REGIONS;
use nvme_front::Front;
use std::alloc::{AllocError, Global};
use std::sync::Wait;
use std::sync::atomic::{AtomicU64, Ordering};
use std::time::Duration;

// The longest sleep of a host, in milliseconds, where nobody rings.
const LONGEST: u64 = 20;
// No host is to be woken.
const NEVER: u64 = u64::MAX;

/// A word that threads sleep on.
#[derive(Drop)]
pub struct Bell {
    // How often it was rung.
    rung: AtomicU64,
    // How many threads sleep, or are about to.
    sleepers: AtomicU64,
}

impl Bell {
    /// Nobody sleeps.
    pub fn new() -> Bell {
        Bell {
            rung: AtomicU64::new(0),
            sleepers: AtomicU64::new(0),
        }
    }

    /// A thread is about to sleep. The answer is for its `sleep`.
    pub fn lie_down(&self) -> u64 {
        let heard = self.rung.load(Ordering::SeqCst);
        self.sleepers.fetch_add(1, Ordering::SeqCst);
        heard
    }

    /// A thread that was about to sleep, or slept, is awake.
    pub fn get_up(&self) {
        self.sleepers.fetch_sub(1, Ordering::SeqCst);
    }

    /// Sleeps until the bell is rung, or for so many milliseconds. It doesn't sleep where it was rung since
    /// `heard` was answered.
    pub fn sleep<R: Wait>(&self, rt: &R, heard: u64, millis: u64) {
        let low = heard % (1 << 32);
        self.rung
            .park_timeout(rt, low as u32, Duration::from_millis(millis));
    }

    /// How many threads sleep, or are about to.
    pub fn sleepers(&self) -> u64 {
        self.sleepers.load(Ordering::SeqCst)
    }

    /// Wakes one thread, if one sleeps.
    pub fn ring(&self) {
        if self.sleepers() > 0 {
            self.rung.fetch_add(1, Ordering::SeqCst);
            self.rung.wake_one();
        }
    }

    /// Wakes all threads.
    pub fn ring_all(&self) {
        self.rung.fetch_add(1, Ordering::SeqCst);
        self.rung.wake_all();
    }
}

/// What a host sleeps on, until so much of its ring is free, or so many completions are in it, that waking is worth it.
#[derive(Drop)]
pub struct HostBell {
    // How often it was rung.
    rung: AtomicU64,
    // How many commands or completions the front has to have moved in all before it rings.
    due: AtomicU64,
    // How many the host waits for.
    batch: u64,
    // How many the ring holds beside these.
    rest: u64,
}

impl HostBell {
    /// A host of a ring with so many slots, which is awake.
    pub fn new(slots: u16) -> HostBell {
        let most = u64::from(slots.saturating_sub(1).max(1));
        let rest = most / 2;
        HostBell {
            rung: AtomicU64::new(0),
            due: AtomicU64::new(NEVER),
            batch: most - rest,
            rest,
        }
    }

    /// A feeder that put so many commands and found its ring full is about to sleep. The answer is for its `sleep`.
    pub fn wait_for_room(&self, put: u64) -> u64 {
        self.lie_down(put.saturating_sub(self.rest))
    }

    /// A drainer that took so many completions and found its ring empty is about to sleep. The answer is for its
    /// `sleep`.
    pub fn wait_for_posts(&self, taken: u64) -> u64 {
        self.lie_down(taken.saturating_add(self.batch))
    }

    fn lie_down(&self, due: u64) -> u64 {
        let heard = self.rung.load(Ordering::SeqCst);
        self.due.store(due, Ordering::SeqCst);
        heard
    }

    /// The host is awake.
    pub fn get_up(&self) {
        self.due.store(NEVER, Ordering::SeqCst);
    }

    /// Sleeps until the bell is rung, or for a while. It doesn't sleep where it was rung since `heard` was answered.
    pub fn sleep<R: Wait>(&self, rt: &R, heard: u64) {
        let low = heard % (1 << 32);
        self.rung
            .park_timeout(rt, low as u32, Duration::from_millis(LONGEST));
    }

    /// The front moved so many in all: wakes the host if it waits for no more.
    pub fn wake_if_due(&self, moved: u64) {
        if moved >= self.due.load(Ordering::SeqCst) {
            self.ring();
        }
    }

    /// The front has nothing to do, and moved so many in all: wakes the host if it sleeps and could move anything.
    pub fn hurry(&self, moved: u64) {
        let due = self.due.load(Ordering::SeqCst);
        if due != NEVER && moved.saturating_add(self.batch) > due {
            self.ring();
        }
    }

    /// Wakes the host.
    pub fn ring(&self) {
        self.get_up();
        self.rung.fetch_add(1, Ordering::SeqCst);
        self.rung.wake_all();
    }
}

/// What all threads of a drive sleep on.
#[derive(Drop)]
pub struct Bells {
    feeders: Vec<HostBell>,
    drainers: Vec<HostBell>,
    // That of hosts without a region of the front.
    strangers: HostBell,
    workers: Bell,
    front: Bell,
}

impl Bells {
    /// Nobody is a host of a front.
    pub fn of_none(alloc: Global) -> Bells {
        Bells {
            feeders: Vec::new(alloc),
            drainers: Vec::new(alloc),
            strangers: HostBell::new(0),
            workers: Bell::new(),
            front: Bell::new(),
        }
    }

    /// The bells of a front, its workers, and the hosts of its regions.
    pub fn of(alloc: Global, front: &Front) -> Result<Bells, AllocError> {
        Ok(Bells {
            feeders: bells_of_feeders(alloc, front)?,
            drainers: bells_of_drainers(alloc, front)?,
            ..Bells::of_none(alloc)
        })
    }

    /// That of the feeder of a region.
    pub fn feeder(&self, region: usize) -> &HostBell {
        self.feeders.get(region).unwrap_or(&self.strangers)
    }

    /// That of the drainer of a region.
    pub fn drainer(&self, region: usize) -> &HostBell {
        self.drainers.get(region).unwrap_or(&self.strangers)
    }

    /// That of all workers.
    pub fn workers(&self) -> &Bell {
        &self.workers
    }

    /// That of the front.
    pub fn front(&self) -> &Bell {
        &self.front
    }

    // Wakes all hosts.
    fn ring_hosts(&self) {
        for bell in self.feeders.iter().chain(self.drainers.iter()) {
            bell.ring();
        }
        self.strangers.ring();
    }

    /// Wakes all threads.
    pub fn ring_all(&self) {
        self.ring_hosts();
        self.workers.ring_all();
        self.front.ring_all();
    }
}

// The bells of the feeders of a front's regions.
fn bells_of_feeders(alloc: Global, front: &Front) -> Result<Vec<HostBell>, AllocError> {
    let mut bells = Vec::new(alloc);
    for region in 0..MAX_REGIONS as u8 {
        let Some(slots) = front.sq_slots(region) else {
            break;
        };
        bells.push(HostBell::new(slots))?;
    }
    Ok(bells)
}

// The bells of the drainers of a front's regions.
fn bells_of_drainers(alloc: Global, front: &Front) -> Result<Vec<HostBell>, AllocError> {
    let mut bells = Vec::new(alloc);
    for region in 0..MAX_REGIONS as u8 {
        let Some(slots) = front.cq_slots(region) else {
            break;
        };
        bells.push(HostBell::new(slots))?;
    }
    Ok(bells)
}
