// Where a log is likely to post the completion of a place. Only the time of a search depends on it, not its result.
use crate::reports::counts::{Counts, REGIONS};
use nvme_front::Event;

/// The most places with a hint: the commands of the largest workload.
pub const PLACES: usize = 65_536;

// How many events in a row share a hint, so that 16 bits are enough for the longest log.
const RUN: usize = 16;

/// For each place, region by region, the run of events in which a log likely posts its completion.
#[derive(Drop)]
pub struct Hints<'a> {
    // The number of the first place of each region.
    first: [usize; REGIONS],
    posted: &'a mut [u16],
}

// The number of the first place of each region.
fn first_places(counts: &[Counts]) -> [usize; REGIONS] {
    let mut first = [0; REGIONS];
    let mut next = 0usize;
    for (number, of_region) in first.iter_mut().zip(counts) {
        *number = next;
        next = next.saturating_add(of_region.fetched);
    }
    first
}

impl<'a> Hints<'a> {
    /// The hints of a log with these counts. `posted` is overwritten.
    pub fn of(log: &[Event], counts: &[Counts], posted: &'a mut [u16]) -> Hints<'a> {
        let mut hints = Hints {
            first: first_places(counts),
            posted,
        };
        for (at, event) in log.iter().enumerate() {
            if let Event::Post { region, index, .. } = event {
                hints.note(usize::from(*region), *index as usize, at);
            }
        }
        hints
    }

    // The number of a place.
    fn number_of(&self, region: usize, index: usize) -> Option<usize> {
        self.first.get(region)?.checked_add(index)
    }

    // Notes where the completion of a place is posted, if there is room for it.
    fn note(&mut self, region: usize, index: usize, at: usize) {
        if let Some(number) = self.number_of(region, index)
            && let Some(posted) = self.posted.get_mut(number)
            && let Ok(run) = u16::try_from(at / RUN)
        {
            *posted = run;
        }
    }

    /// The first event of the run in which the completion of a place is likely posted.
    pub fn posted_at(&self, region: usize, index: usize) -> Option<usize> {
        let number = self.number_of(region, index)?;
        self.posted.get(number).map(|run| usize::from(*run) * RUN)
    }
}
