// The list of a queue, of the requests of a file.
ghost use Rattle.std.specs.Prelude.{◌≡◌, IfErr, IfOk, OnOk, is_none, true};
ghost use Rattle.nvme_replay.specs.Lists.{AreAsked, TellsAskFault, asked, is_served};

use crate::fault::{LineFault, ReplayError};
use crate::requests::Lined;
use crate::speed::Speed;
use nvme_load::{Operation, Replay, Request};
use std::alloc::Global;

/// Of which operations it is said how long they take.
#[derive(Clone, Copy, Debug, PartialEq, Eq)]
pub struct Served {
    pub read: bool,
    pub write: bool,
    pub flush: bool,
}

/// What a queue that replays a file says besides.
#[derive(Clone, Copy, Debug, PartialEq, Eq)]
pub struct Wanted {
    /// The queue, from 1.
    pub queue: usize,
    pub speed: Speed,
    /// The blocks of the namespace.
    pub size: u64,
    pub served: Served,
}

impl Served {
    // The name of an operation that isn't served.
    fn missing(&self, operation: Operation) -> Option<&'static str>
        ensures { is_none result ≡ is_served self.now operation }
    {
        match operation {
            Operation::Read if !self.read => Some("read"),
            Operation::Write if !self.write => Some("write"),
            Operation::Flush if !self.flush => Some("flush"),
            _ => None,
        }
    }
}

impl Wanted {
    // A request as the queue asks for it.
    fn request_of(&self, request: &Request) -> Result<Request, LineFault>
        ensures ok { IfOk result (λ r. Some r ≡ asked self.now request.now) }
        ensures served { OnOk result (is_served self.now.served request.now.operation ≡ true) }
        ensures err { IfErr result (TellsAskFault self.now request.now) }
    {
        if let Some(name) = self.served.missing(request.operation) {
            return Err(LineFault::NoService(name, self.queue));
        }
        if !request.lies_within(self.size) {
            return Err(LineFault::Outside(self.size));
        }
        match self.speed.scaled(request.at) {
            Some(at) => Ok(Request { at, ..*request }),
            None => Err(LineFault::TooLate),
        }
    }
}

/// The list of a queue, of requests whose times don't fall. One that doesn't lie within the namespace, that has no service, or
/// that would come after 2^64 picoseconds or more is told with its line.
pub fn replay_of(alloc: Global, lined: &[Lined], wanted: &Wanted) -> Result<Replay, ReplayError>
    ensures size { IfOk result (λ list. list.size ≡ wanted.now.size) }
    ensures requests { IfOk result (λ list. AreAsked wanted.now lined.now list.requests.items) }
{
    let mut requests = Vec::new(alloc);
    let (mut line, mut before) = (0, 0);
    for it in lined {
        line = it.line;
        let request = match wanted.request_of(&it.request) {
            Ok(request) => request,
            Err(fault) => return Err(ReplayError::At(line, fault)),
        };
        if request.at < before {
            return Err(ReplayError::At(line, LineFault::TooEarly));
        }
        before = request.at;
        requests.push(request)?;
    }
    match Replay::new(wanted.size, requests) {
        Ok(replay) => Ok(replay),
        // (each request was looked at)
        Err(_) => Err(ReplayError::At(line, LineFault::TooEarly)),
    }
}
