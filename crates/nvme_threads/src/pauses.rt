// Waiting of a thread that found nothing to do. It rests a first time by telling that it is about to sleep, looks again,
// and sleeps when it rests a second time. (bells.rt)
//
// Decided: the front spins before it sleeps, hosts and workers sleep at once. A yield costs other programs' busy
// threads a whole time slice.
use crate::bells::HostBell;
use crate::flags::Flags;
use crate::watch::Watch;
use crossbeam_utils::Backoff;
use std::sync::Wait;

// The longest sleeps of the front and of a worker, in milliseconds, where nobody rings.
const FRONT_SLEEP: u64 = 1;

const WORKER_SLEEP: u64 = 20;
// How often the front spins before it sleeps, twice as long each time.
const SPINS: u32 = 7;
// A worker tells at once of so many jobs.
const MOST_UNTOLD: u64 = 64;

/// How long the front has found nothing to do. It spins first, and then sleeps until it is rung.
#[derive(Drop)]
pub struct FrontPause {
    backoff: Backoff,
    // How often it has spun, and then slept.
    spins: u32,
    sleeps: u32,
    // It is about to sleep.
    heard: Option<u64>,
}

impl FrontPause {
    /// Something was done just now.
    pub fn new() -> FrontPause {
        FrontPause {
            backoff: Backoff::new(),
            spins: 0,
            sleeps: 0,
            heard: None,
        }
    }

    /// Something was done.
    pub fn reset(&mut self, flags: &Flags) {
        if self.heard.is_some() {
            flags.bells().front().get_up();
            self.heard = None;
        }
        self.backoff.reset();
        self.spins = 0;
        self.sleeps = 0;
    }

    /// Wakes those that the front waits for, spins, and sleeps then.
    pub fn rest<R: Wait>(&mut self, rt: &R, flags: &Flags, watch: &mut Watch) {
        if self.spins < SPINS {
            if self.spins == 0 {
                watch.ask(flags);
            }
            self.spins += 1;
            self.backoff.spin();
            return;
        }
        let Some(heard) = self.heard else {
            if self.sleeps > 0 {
                watch.ask_all(flags);
            }
            self.heard = Some(flags.bells().front().lie_down());
            return;
        };
        flags.bells().front().sleep(rt, heard, FRONT_SLEEP);
        flags.bells().front().get_up();
        self.heard = None;
        self.sleeps = self.sleeps.saturating_add(1);
    }
}

/// What a worker did since it told of it, and whether it is about to sleep.
#[derive(Drop)]
pub struct CrewPause {
    did: u64,
    heard: Option<u64>,
}

impl CrewPause {
    /// Nothing was done yet.
    pub fn new() -> CrewPause {
        CrewPause {
            did: 0,
            heard: None,
        }
    }

    // Tells how many jobs were done.
    fn tell(&mut self, flags: &Flags) {
        flags.tell_done(self.did);
        self.did = 0;
    }

    /// A job was done.
    pub fn did_one(&mut self, flags: &Flags) {
        if self.heard.is_some() {
            flags.bells().workers().get_up();
            self.heard = None;
        }
        self.did = self.did.saturating_add(1);
        if self.did == MOST_UNTOLD {
            self.tell(flags);
        }
    }

    /// There is no job: tells what was done, and sleeps until it is rung.
    pub fn rest<R: Wait>(&mut self, rt: &R, flags: &Flags) {
        if self.did > 0 {
            self.tell(flags);
        }
        let Some(heard) = self.heard else {
            self.heard = Some(flags.bells().workers().lie_down());
            return;
        };
        flags.bells().workers().sleep(rt, heard, WORKER_SLEEP);
        flags.bells().workers().get_up();
        self.heard = None;
    }
}

/// How much a host moved, and whether it is about to sleep.
#[derive(Drop)]
pub struct HostPause {
    moved: u64,
    heard: Option<u64>,
}

impl HostPause {
    /// Nothing was moved yet.
    pub fn new() -> HostPause {
        HostPause {
            moved: 0,
            heard: None,
        }
    }

    /// A command or a completion was moved.
    pub fn moved_one(&mut self, bell: &HostBell) {
        if self.heard.is_some() {
            bell.get_up();
            self.heard = None;
        }
        self.moved = self.moved.saturating_add(1);
    }

    // Sleeps, if it was about to.
    fn slept<R: Wait>(&mut self, rt: &R, bell: &HostBell) -> bool {
        let Some(heard) = self.heard else {
            return false;
        };
        bell.sleep(rt, heard);
        bell.get_up();
        self.heard = None;
        true
    }

    /// The ring is full: the front may go on, and the feeder sleeps until a good part of the ring is free.
    pub fn rest_full<R: Wait>(&mut self, rt: &R, flags: &Flags, bell: &HostBell) {
        if !self.slept(rt, bell) {
            flags.bells().front().ring();
            self.heard = Some(bell.wait_for_room(self.moved));
        }
    }

    /// The ring is empty: the front may go on, and the drainer sleeps until a good part of the ring is filled.
    pub fn rest_empty<R: Wait>(&mut self, rt: &R, flags: &Flags, bell: &HostBell) {
        if !self.slept(rt, bell) {
            flags.bells().front().ring();
            self.heard = Some(bell.wait_for_posts(self.moved));
        }
    }
}
