// The files that queues replay, and the models with their lists.
//
// Decided: lines are put in order of time, since traces of several processors aren't. Offsets that are no whole blocks
// are refused: rounding would change what was asked for.
ghost use Rattle.std.specs.Prelude.{◌≡◌, IfOk, length};

use nvme_load::Arrivals;
use nvme_model::Model;
use nvme_model_file::Source;
use nvme_replay::{FileFault, Form, Lined, ReplayError, replay_of, requests_in};
use std::alloc::Global;

// The requests of a file that was read so.
#[derive(Drop)]
struct Listing {
    file: String,
    form: Form,
    // The queue whose lines of a log these are.
    of: u64,
    requests: Vec<Lined>,
}

/// The requests of files, which queues replay.
#[derive(Drop)]
pub struct Listings {
    all: Vec<Listing>,
}

impl Listing {
    // Whether it is what a queue replays.
    fn is_of(&self, source: &Source) -> bool {
        self.file.as_str() == source.file.as_str()
            && self.form == source.form
            && self.of == source.of
    }
}

impl Listings {
    /// Those of no file.
    pub fn new(alloc: Global) -> Listings {
        Listings {
            all: Vec::new(alloc),
        }
    }

    // The requests that a queue replays.
    fn requests_of(&self, source: &Source) -> Option<&[Lined]> {
        for listing in &self.all {
            if listing.is_of(source) {
                return Some(listing.requests.as_slice());
            }
        }
        None
    }

    /// Whether what a queue replays was read.
    pub fn has(&self, source: &Source) -> bool {
        self.requests_of(source).is_some()
    }

    /// Reads the bytes of the file that a queue replays.
    pub fn read(
        &mut self,
        alloc: Global,
        source: &Source,
        bytes: &[u8],
    ) -> Result<(), ReplayError> {
        let requests = requests_in(alloc, source.form, source.of, bytes)?;
        self.all.push(Listing {
            file: String::from_str(alloc, source.file.as_str())?,
            form: source.form,
            of: source.of,
            requests,
        })?;
        Ok(())
    }

    // The arrivals of a queue that replays a file.
    fn arrivals_of(&self, alloc: Global, source: &Source) -> Result<Arrivals, ReplayError> {
        match self.requests_of(source) {
            Some(requests) => {
                let list = replay_of(alloc, requests, &source.wanted)?;
                Ok(Arrivals::Replay(list))
            }
            None => Err(ReplayError::Unread),
        }
    }

    /// A model with the lists of the queues that replay these files. All else of it stays. The error is the first file that has
    /// none.
    pub fn put_into<'a>(
        &self,
        alloc: Global,
        sources: &'a [Source],
        mut model: Model,
    ) -> Result<Model, FileFault<'a>>
        ensures rest { IfOk result (λ m. m ≡ record model { queues = m.queues; some = m.some; at_most = m.at_most }) }
        ensures count { IfOk result (λ m. length m.queues.items ≡ length model.queues.items) }
    {
        for source in sources {
            match self.arrivals_of(alloc, source) {
                Ok(arrivals) => model.put_arrivals(source.wanted.queue, arrivals),
                Err(error) => {
                    let file = source.file.as_str();
                    return Err(FileFault { file, error });
                }
            }
        }
        Ok(model)
    }
}
