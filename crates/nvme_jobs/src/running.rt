// The picked commands whose job was handed over and whose result isn't gained, found by their tickets.
ghost use Rattle.std.specs.Prelude.{◌≡◌, ◌↔◌, ◌<◌, ◌∷◌, IsTrue, IfSome, IfNone, length, slice_index_or, vec_capacity};
ghost use Rattle.std.specs.List.Sorted.{IsPermutation};
ghost use Rattle.nvme_pool.specs.Jobs.{job_of};
ghost use Rattle.nvme_jobs.specs.Hands.{job_in, IsOfNone};
ghost use Rattle.nvme_jobs.specs.declared.dispatched.Dispatched.{Dispatched};

use crate::dispatched::Dispatched;
use nvme_entry::Namespaces;
use nvme_pool::Finished;
use std::alloc::{AllocError, Global};
use std::marker::Model;

// The number of hints.
const HINTS: usize = 512;

/// Picked commands whose job was handed over and whose result isn't gained yet, in any order. It allocates only in
/// `reserve`.
#[derive(Drop)]
pub struct Running {
    commands: Vec<Dispatched>,
    // The position of a command, by the lowest bits of its ticket. It may be that of another command, so the command
    // there is compared before it is used.
    hints: [u8; HINTS],
}

impl Model for Running {
    ghost use Rattle.std.specs.Prelude.{vec_capacity};
    ghost use Rattle.nvme_jobs.specs.inside.Fifo.{FifoView};
    ghost use Rattle.nvme_jobs.specs.declared.dispatched.Dispatched.{Dispatched};

    ghost Value = { FifoView Dispatched };

    ghost view = { λ r. record { items = r.commands.items; room = vec_capacity r.commands } };
}

// Whether a result has the ticket, the command and the namespaces of a picked command's job. (Inline, so that a result
// needn't be laid out in memory to be compared.)
#[inline(always)]
fn is_result_of(finished: &Finished, dispatched: &Dispatched, spaces: &Namespaces) -> bool
    ensures { IsTrue result ↔ (job_of finished.now ≡ job_in spaces.now dispatched.now) }
{
    finished.ticket() == dispatched.ticket
        && finished.entry() == dispatched.entry
        && finished.spaces() == *spaces
}

// The position of the picked command that a result belongs to. The one at `first` is compared first. (One place of
// comparison, so that a result needn't be laid out in memory for it.)
fn find(
    running: &[Dispatched],
    first: usize,
    finished: &Finished,
    spaces: &Namespaces,
) -> Option<usize>
    ensures there { IfSome result (λ i. i < length running.now) }
    ensures found { IfSome result (λ i. (d : Dispatched) → job_of finished.now ≡ job_in spaces.now (slice_index_or running.now i d)) }
    ensures none { IfNone result (IsOfNone spaces.now running.now finished.now) }
{
    for k in 0..=running.len() {
        let i = if k == 0 { first } else { k - 1 };
        if i < running.len() && is_result_of(finished, &running[i], spaces) {
            return Some(i);
        }
    }
    None
}

// The index of the hint of a ticket.
fn place_of(ticket: u32) -> usize
    ensures { result < 512 }
{
    ticket as usize % HINTS
}

// A position as a hint. At most 256 commands run.
fn hint_of(position: usize) -> u8 {
    (position % 256) as u8
}

// Takes the command at a position out of a list. The last one takes its place.
fn take_at(commands: &mut Vec<Dispatched>, i: usize) -> Dispatched
    requires { i < length commands.old.items }
    ensures value { result ≡ slice_index_or commands.old.items i result }
    ensures rest { IsPermutation commands.old.items (result ∷ commands.new.items) }
    ensures room { vec_capacity commands.new ≡ vec_capacity commands.old }
{
    commands.swap_remove(i)
}

impl Running {
    ghost use Rattle.std.specs.Prelude.{◌≡◌, ◌+◌, ◌<◌, ◌≤◌, [], ◌∷◌, ◌++◌, length, true, IfSome, IfNone, OnOk, OnErr};
    ghost use Rattle.std.specs.List.Sorted.{IsPermutation};

    /// No commands, and no room.
    pub fn empty(alloc: Global) -> Running
        ensures { result.items ≡ [] }
    {
        Running {
            commands: Vec::new(alloc),
            hints: [0; HINTS],
        }
    }

    /// Makes room for `more` further commands. Where memory was refused, nothing changed.
    pub fn reserve(&mut self, more: usize) -> Result<(), AllocError>
        ensures same { self.new.items ≡ self.old.items }
        ensures room { OnOk result (length self.old.items + more ≤ self.new.room) }
        ensures kept { self.old.room ≤ self.new.room }
    {
        self.commands.reserve(more)
    }

    /// Adds a command.
    pub fn push(&mut self, dispatched: Dispatched)
        requires { length self.old.items < self.old.room }
        ensures { self.new ≡ record self.old { items = self.old.items ++ dispatched ∷ [] } }
    {
        self.hints[place_of(dispatched.ticket)] = hint_of(self.commands.len());
        self.commands.push_reserved(dispatched);
    }

    /// Takes out the command that a result belongs to, mostly by one comparison, however many run. `None`, which
    /// changes nothing, where it belongs to none of them.
    #[inline(always)]
    pub fn take(&mut self, finished: &Finished, spaces: &Namespaces) -> Option<Dispatched>
        ensures job { IfSome result (λ d. job_of finished.now ≡ job_in spaces.now d) }
        ensures rest { IfSome result (λ d. IsPermutation self.old.items (d ∷ self.new.items)) }
        ensures room { self.new.room ≡ self.old.room }
        ensures none { IfNone result (IsOfNone spaces.now self.old.items finished.now) }
        ensures unchanged { IfNone result (self.new ≡ self.old) }
    {
        let first = usize::from(self.hints[place_of(finished.ticket())]);
        let i = find(self.commands.as_slice(), first, finished, spaces)?;
        let taken = take_at(&mut self.commands, i);
        if i < self.commands.len() {
            self.hints[place_of(self.commands[i].ticket)] = hint_of(i);
        }
        Some(taken)
    }
}
