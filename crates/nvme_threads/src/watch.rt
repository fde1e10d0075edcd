// What the front sees of its log, by which it wakes hosts and workers.
//
// Decided: a thread sleeps until a batch is there: half of a host's ring, 128 jobs for a worker. Waking a thread takes
// long on some machines, and each waking takes a processor from the front.
//
// Decided: the front wakes hosts and workers: a system call for each batch, and none where nobody sleeps. A worker is
// woken only while all sleep, since more of them at one queue of short jobs hinder each other, or when the front has
// slept a millisecond in vain.
use crate::flags::Flags;
use nvme_admin::MAX_REGIONS;
use nvme_front::{Event, Front};

// So many jobs wait before a worker is woken for them, while the front has other things to do.
const BATCH: u64 = 128;

/// How far the front got, since it began to watch.
#[derive(Drop)]
pub struct Watch {
    // How many events of the log were seen.
    seen: usize,
    // How many commands were fetched from each submission region, and completions posted to each completion region.
    fetched: [u64; MAX_REGIONS],
    posted: [u64; MAX_REGIONS],
    // How many I/O commands were picked.
    picked: u64,
    // How many jobs were done when a worker was last woken.
    asked: Option<u64>,
}

// Counts one more of a region, and answers how many these are. A region that isn't there has none.
fn count_one(counts: &mut [u64], region: u8) -> u64 {
    match counts.get_mut(usize::from(region)) {
        Some(count) => {
            *count = count.saturating_add(1);
            *count
        }
        None => 0,
    }
}

impl Watch {
    /// What happened before isn't watched.
    pub fn new(front: &Front) -> Watch {
        Watch {
            seen: front.log().len(),
            fetched: [0; MAX_REGIONS],
            posted: [0; MAX_REGIONS],
            picked: 0,
            asked: None,
        }
    }

    // Sees one event, and wakes the host that waits for it.
    fn see(&mut self, event: &Event, flags: &Flags) {
        match event {
            Event::Fetch { region, .. } => {
                let fetched = count_one(&mut self.fetched, *region);
                flags
                    .bells()
                    .feeder(usize::from(*region))
                    .wake_if_due(fetched);
            }
            Event::Pick { pick, .. } if pick.qid != 0 => {
                self.picked = self.picked.saturating_add(u64::from(pick.n));
            }
            Event::Post { cq_region, .. } => {
                let posted = count_one(&mut self.posted, *cq_region);
                flags
                    .bells()
                    .drainer(usize::from(*cq_region))
                    .wake_if_due(posted);
            }
            _ => {}
        }
    }

    /// Sees what a turn did, and wakes those for whom there is enough to do.
    pub fn look(&mut self, front: &Front, flags: &Flags) {
        let log = front.log();
        if let Some(events) = log.get(self.seen..) {
            for event in events {
                self.see(event, flags);
            }
        }
        self.seen = log.len();
        if self.waiting(flags) >= BATCH {
            self.ask_worker(flags);
        }
    }

    // How many jobs aren't told to be done.
    fn waiting(&self, flags: &Flags) -> u64 {
        self.picked.saturating_sub(flags.done())
    }

    // Wakes a worker if all sleep, unless one was woken and did nothing since.
    fn ask_worker(&mut self, flags: &Flags) {
        let done = Some(flags.done());
        if flags.is_no_worker_awake() && self.asked != done {
            self.asked = done;
            flags.bells().workers().ring();
        }
    }

    // Wakes each feeder that could put anything.
    fn ask_feeders(&self, flags: &Flags) {
        for (region, fetched) in self.fetched.iter().enumerate() {
            flags.bells().feeder(region).hurry(*fetched);
        }
    }

    // Wakes each drainer that could take anything.
    fn ask_drainers(&self, flags: &Flags) {
        for (region, posted) in self.posted.iter().enumerate() {
            flags.bells().drainer(region).hurry(*posted);
        }
    }

    fn ask_hosts(&self, flags: &Flags) {
        self.ask_feeders(flags);
        self.ask_drainers(flags);
    }

    /// The front has nothing to do: wakes a worker where jobs wait, and otherwise the hosts.
    pub fn ask(&mut self, flags: &Flags) {
        if self.waiting(flags) > 0 {
            self.ask_worker(flags);
        } else {
            self.ask_hosts(flags);
        }
    }

    /// The front slept in vain: wakes all workers where jobs wait, and the hosts.
    pub fn ask_all(&mut self, flags: &Flags) {
        if self.waiting(flags) > 0 {
            flags.bells().workers().ring_all();
        }
        self.ask_hosts(flags);
    }
}
