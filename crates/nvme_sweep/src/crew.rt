// Makes runs on several threads.
use crate::tally::Tally;
use nvme_points::{Run, Sweep, SweepFault, add};
use std::alloc::{AllocError, Global};
use std::io::Write;
use std::sync::atomic::{AtomicBool, AtomicUsize, Ordering};
use std::thread;
use std::thread::Threads;

/// What a run came to.
pub type Outcome<'a> = Result<Run, SweepFault<'a>>;

/// Some points that follow one another.
#[derive(Clone, Copy, Debug, PartialEq, Eq)]
pub struct Batch {
    /// The number of the first one.
    pub first: usize,
    /// How many they are.
    pub points: usize,
}

// A run that a thread made.
#[derive(Drop)]
struct Made<'a> {
    // Its place among the runs of its batch.
    place: usize,
    outcome: Outcome<'a>,
}

// The runs of a batch, of which threads take one after another.
#[derive(Drop)]
struct Shift<'s, 'a, P> {
    sweep: &'s Sweep<'a>,
    // The number of its first point.
    first: usize,
    // How many runs they are.
    runs: usize,
    // The place of the next run that no thread took.
    next: AtomicUsize,
    // A run failed, so that no further one is taken.
    is_over: AtomicBool,
    tally: &'s Tally<P>,
}

impl<'a, P: Write + Drop> Shift<'_, 'a, P> {
    // The place of the next run, unless one failed or all are taken. Each before it is taken, and is made.
    fn take(&self) -> Option<usize> {
        if self.is_over.load(Ordering::SeqCst) {
            return None;
        }
        let place = self.next.fetch_add(1, Ordering::SeqCst);
        if place < self.runs { Some(place) } else { None }
    }

    // Makes the run at a place.
    fn run(&self, alloc: Global, place: usize) -> Outcome<'a> {
        let seeds = self.sweep.runs_of_each();
        let point = self.first.saturating_add(place / seeds);
        let number = (place % seeds) as u64;
        self.sweep.run(alloc, point, number, None::<Vec<u8>>)
    }

    // What a thread does: it makes runs until there is none to take.
    fn work(&self, alloc: Global) -> Result<Vec<Made<'a>>, AllocError> {
        let mut made = Vec::new(alloc);
        for _ in 0..self.runs {
            let Some(place) = self.take() else {
                break;
            };
            let outcome = self.run(alloc, place);
            let is_bad = outcome.is_err();
            let kept = add(&mut made, Made { place, outcome });
            if is_bad || kept.is_err() {
                self.is_over.store(true, Ordering::SeqCst);
            }
            kept?;
            self.tally.add();
        }
        Ok(made)
    }
}

// So many empty places for outcomes.
fn places<'a>(alloc: Global, count: usize) -> Result<Vec<Option<Outcome<'a>>>, AllocError> {
    let mut places = Vec::new(alloc);
    for _ in 0..count {
        add(&mut places, None)?;
    }
    Ok(places)
}

// Puts what a thread made into its places.
fn put_made<'a>(outcomes: &mut [Option<Outcome<'a>>], made: Vec<Made<'a>>) {
    for Made { place, outcome } in made {
        if let Some(slot) = outcomes.get_mut(place) {
            *slot = Some(outcome);
        }
    }
}

/// Makes the runs of a batch on so many threads at most; where one can't be started, the others make all. What a run came to
/// stands in its place: point behind point, and of each seed behind seed. Behind one that failed others may be missing, and
/// none before it.
pub fn outcomes_of<'a, R: Threads + Sync, P: Write + Drop + Send>(
    rt: &R,
    alloc: Global,
    sweep: &Sweep<'a>,
    batch: Batch,
    jobs: usize,
    tally: &Tally<P>,
) -> Result<Vec<Option<Outcome<'a>>>, AllocError> {
    let runs = batch.points.saturating_mul(sweep.runs_of_each());
    let shift = Shift {
        sweep,
        first: batch.first,
        runs,
        next: AtomicUsize::new(0),
        is_over: AtomicBool::new(false),
        tally,
    };
    let shares = thread::map_indices(rt, alloc, jobs.min(runs), &|_| shift.work(alloc))?;
    let mut outcomes = places(alloc, runs)?;
    for share in shares {
        match share {
            Ok(made) => put_made(outcomes.as_mut_slice(), made),
            Err(error) => return Err(error),
        }
    }
    Ok(outcomes)
}
