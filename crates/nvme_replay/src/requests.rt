// The requests of a file of any form.
use crate::fault::{LineFault, ReplayError};
use crate::fields::Ordered;
use crate::form::Form;
use crate::spaced::Writer;
use crate::traces::Trace;
use crate::{log, spaced, traces};
use nvme_load::Request;
use std::alloc::Global;

/// A request, with the line of its file, from 1.
#[derive(Clone, Copy, Debug, PartialEq, Eq)]
pub struct Lined {
    pub line: u64,
    pub request: Request,
}

// The requests of a file, in the order of its lines.
fn ordered_in(
    alloc: Global,
    form: Form,
    queue: u64,
    bytes: &[u8],
) -> Result<Vec<Ordered>, ReplayError> {
    match form {
        Form::Csv => log::requests_of(alloc, queue, bytes),
        Form::Msr => traces::requests_of(alloc, Trace::Msr, bytes),
        Form::Alibaba => traces::requests_of(alloc, Trace::Alibaba, bytes),
        Form::Blkparse => spaced::requests_of(alloc, Writer::Blkparse, bytes),
        Form::Fio => spaced::requests_of(alloc, Writer::Fio, bytes),
    }
}

// When the first request comes, as the form has it, where times count from it. Those of a simulation's log count from the
// beginning of the simulation.
fn first_time(form: Form, ordered: &[Ordered]) -> u64 {
    match (form, ordered.first()) {
        (Form::Csv, _) | (_, None) => 0,
        (_, Some(first)) => first.raw.time,
    }
}

// A request whose time counts from the first one.
fn counted_from(form: Form, first: u64, ordered: &Ordered) -> Result<Lined, ReplayError> {
    let raw = &ordered.raw;
    let time = raw.time.saturating_sub(first);
    let Some(at) = time.checked_mul(form.unit()) else {
        return Err(ReplayError::At(ordered.line, LineFault::TooLate));
    };
    Ok(Lined {
        line: ordered.line,
        request: Request {
            at,
            operation: raw.operation,
            block: raw.block,
            blocks: raw.blocks,
        },
    })
}

/// The requests of a file in the order of their times, those of one time in the order of its lines. Times count from the
/// first one. In the log of a simulation those of this queue are taken, in the order of their numbers, at the times that it
/// has.
pub fn requests_in(
    alloc: Global,
    form: Form,
    queue: u64,
    bytes: &[u8],
) -> Result<Vec<Lined>, ReplayError> {
    let mut ordered = ordered_in(alloc, form, queue, bytes)?;
    ordered.sort_unstable_by_key(|it| (it.raw.time, it.order));
    let first = first_time(form, &ordered);
    let mut requests = Vec::new(alloc);
    for it in &ordered {
        requests.push(counted_from(form, first, it)?)?;
    }
    if requests.is_empty() {
        return Err(ReplayError::NoRequest);
    }
    Ok(requests)
}
