// What the threads tell one another. No contract rests on it.
use crate::bells::Bells;
use std::alloc::{AllocError, Global};
use std::sync::atomic::{AtomicBool, AtomicU64, Ordering};

/// What the threads tell one another.
#[derive(Drop)]
pub struct Flags {
    // How many feeders there are.
    feeders: u64,
    // How many of them have ended.
    fed: AtomicU64,
    // The feeder of the admin queue has ended.
    admin_fed: AtomicBool,
    // Each feeder is to end, though its script isn't sent.
    unfed: Vec<AtomicBool>,
    // Every thread is to end.
    over: AtomicBool,
    // A thread was refused memory.
    starved: AtomicBool,
    // How many workers there are, and how many jobs they have told to be done.
    workers: u64,
    done: AtomicU64,
    // What the threads sleep on.
    bells: Bells,
}

impl Flags {
    /// Flags for these numbers of feeders and workers: none has ended, and nothing was told. They sleep on these bells.
    pub fn new(
        alloc: Global,
        feeders: usize,
        workers: usize,
        bells: Bells,
    ) -> Result<Flags, AllocError> {
        let mut unfed = Vec::new(alloc);
        for _ in 0..feeders {
            unfed.push(AtomicBool::new(false))?;
        }
        Ok(Flags {
            feeders: feeders as u64,
            fed: AtomicU64::new(0),
            admin_fed: AtomicBool::new(false),
            unfed,
            over: AtomicBool::new(false),
            starved: AtomicBool::new(false),
            workers: workers as u64,
            done: AtomicU64::new(0),
            bells,
        })
    }

    /// The feeder of a region has ended.
    pub fn tell_fed(&self, region: usize) {
        if region == 0 {
            self.admin_fed.store(true, Ordering::SeqCst);
        }
        self.fed.fetch_add(1, Ordering::SeqCst);
        self.bells.front().ring();
    }

    /// The feeders of all regions had ended before.
    pub fn tell_all_fed(&self) {
        self.admin_fed.store(true, Ordering::SeqCst);
        self.fed.store(self.feeders, Ordering::SeqCst);
    }

    /// Whether all feeders have ended.
    pub fn are_all_fed(&self) -> bool {
        self.fed.load(Ordering::SeqCst) >= self.feeders
    }

    /// Whether the feeder of the admin queue has ended.
    pub fn is_admin_fed(&self) -> bool {
        self.admin_fed.load(Ordering::SeqCst)
    }

    /// Tells the feeder of a region to end.
    pub fn stop_feeding(&self, region: usize) {
        if let Some(flag) = self.unfed.get(region) {
            flag.store(true, Ordering::SeqCst);
            self.bells.feeder(region).ring();
        }
    }

    /// Whether the feeder of a region is to end.
    pub fn is_unfed(&self, region: usize) -> bool {
        let is_told = self
            .unfed
            .get(region)
            .is_some_and(|flag| flag.load(Ordering::SeqCst));
        is_told || self.is_over()
    }

    /// Tells every thread to end.
    pub fn end(&self) {
        self.over.store(true, Ordering::SeqCst);
        self.bells.ring_all();
    }

    /// Whether every thread is to end.
    pub fn is_over(&self) -> bool {
        self.over.load(Ordering::SeqCst)
    }

    /// A worker did so many more jobs. The front may go on.
    pub fn tell_done(&self, jobs: u64) {
        self.done.fetch_add(jobs, Ordering::SeqCst);
        self.bells.front().ring();
    }

    /// How many jobs the workers have told to be done.
    pub fn done(&self) -> u64 {
        self.done.load(Ordering::SeqCst)
    }

    /// Whether all workers sleep, or are about to.
    pub fn is_no_worker_awake(&self) -> bool {
        self.bells.workers().sleepers() >= self.workers
    }

    /// What the threads sleep on.
    pub fn bells(&self) -> &Bells {
        &self.bells
    }

    /// Tells that a thread was refused memory, or couldn't be started.
    pub fn tell_starved(&self) {
        self.starved.store(true, Ordering::SeqCst);
        self.bells.front().ring();
    }

    /// Whether a thread was refused memory, or couldn't be started.
    pub fn is_starved(&self) -> bool {
        self.starved.load(Ordering::SeqCst)
    }
}
