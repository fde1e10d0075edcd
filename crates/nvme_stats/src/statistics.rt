// Counts what a trace shows.
//
// Decided: windows are kept until the trace was read, since a fault leaves standard output empty. So they are at most
// 4,096.
ghost use Rattle.std.specs.Prelude.{◌≡◌, [], ◌∷◌, IfOk, IfErr, IfSome, OnOk};
ghost use Rattle.nvme_arbiter.specs.History.{History, Picked, Changed};
ghost use Rattle.nvme_trace.specs.declared.fault.TraceError.TheVariants as fault;
ghost use Rattle.nvme_trace.specs.declared.basis.Basis.TheVariants.{Specification};
ghost use Rattle.nvme_trace.specs.declared.records.Head.{Head};
ghost use Rattle.nvme_stats.specs.Chosen.{last_before};
ghost use Rattle.nvme_trace.specs.Shown.{IsShownBy, IsReadFaultBy};
ghost use Rattle.nvme_stats.specs.Counted.{IsCounted};
ghost use Rattle.nvme_stats.specs.Looked.{IsCountedPart};
ghost use Rattle.nvme_stats.specs.declared.selection.Selection.{Selection};

mod fields;
mod object;
mod sheet;
mod table;

use crate::behind::{Behind, NOT_BEHIND};
use crate::lanes::{IO_QUEUES, LANES, class_of_lane, lane_of_pick, lanes_of_queue};
use crate::selection::{Part, Selection};
use crate::series::Series;
use crate::tally::{NO_TALLY, Tally, count_pick, note_seen, wait, wait_anew};
use crate::waits::Waits;
use crate::watch::{Watch, more, show};
use arrayvec::ArrayVec;
use nvme_arbiter::{Class, Mechanism, Pick, QUEUE_LIMIT, Seen, Settings};
use nvme_cells::jain;
use nvme_output::WriteFault;
use nvme_trace::{Head, Trace, TraceError, TraceEvent};
use object::put_statistics;
use sheet::put_sheet;
use std::alloc::Global;
use std::io::{Read, Write};
use table::put_table;

// What a write comes to.
type Written = Result<(), WriteFault>;

// The most windows.
const WINDOWS: usize = 4_096;

/// Statistics of a trace, for each queue in each class in which it was seen, for each class, and for each queue over
/// all classes. Their memory doesn't grow with the trace.
#[derive(Drop)]
pub struct Statistics {
    mechanism: Mechanism,
    settings: Settings,
    picks: u64,
    commands: u64,
    changes: u64,
    // The settings at the first pick.
    begun: Settings,
    // Whether they change between two picks.
    mixed: bool,
    part: Part,
    tallies: [Tally; LANES],
    behind: Behind,
    waits: Waits,
    windows: Option<Series>,
    alloc: Global,
}

impl Statistics {
    // Statistics of no pick.
    fn new(alloc: Global, head: Head, window: Option<u64>) -> Statistics
        ensures { IsCounted head [] result }
    {
        Statistics {
            mechanism: head.mechanism,
            settings: head.settings,
            picks: 0,
            commands: 0,
            changes: 0,
            begun: head.settings,
            mixed: false,
            part: Part {
                selection: Selection::ALL,
                next: 1,
            },
            tallies: [NO_TALLY; LANES],
            behind: NOT_BEHIND,
            waits: Waits::new(alloc),
            windows: window.map(|step| Series::new(alloc, step, WINDOWS)),
            alloc,
        }
    }

    // Notes for each row what a pick takes from it, and what waits.
    fn note_rows(&mut self, number: u64, seen: &[Seen], pick: &Pick) -> Result<(), TraceError>
        ensures counted { OnOk result ((head : Head) (past : History) → IsCounted head past self.old → IsCounted head past self.new) }
        ensures fault { IfErr result (λ e. e ≡ fault.NoMemory) }
    {
        self.waits.note_pick(self.alloc, seen, pick)?;
        note_seen(&mut self.tallies, seen);
        let lane = lane_of_pick(seen, pick.qid);
        if let Some(windows) = &mut self.windows {
            windows.note_pick(number, lane, pick, false)?;
        }
        if let Some(lane) = lane {
            count_pick(&mut self.tallies, lane, pick.n);
        }
        wait(&mut self.tallies, self.mechanism, seen, lane);
        let class = lane.map(class_of_lane);
        self.behind
            .wait(self.mechanism, &self.settings, seen, class, pick.n);
        Ok(())
    }

    // Counts a pick.
    fn note_pick(&mut self, number: u64, seen: &[Seen], pick: &Pick) -> Result<(), TraceError>
        ensures stands { OnOk result ((head : Head) (past : History) → IsCounted head past self.old → IsCounted head (Picked seen.now pick.now ∷ past) self.new) }
        ensures fault { IfErr result (λ e. e ≡ fault.NoMemory) }
    {
        self.note_rows(number, seen, pick)?;
        self.picks = more(self.picks, 1);
        self.commands = more(self.commands, pick.n);
        Ok(())
    }

    // Takes new settings. All waiting in picks starts from 0 again, since the bounds hold while settings stay.
    fn note_set(&mut self, settings: Settings)
        ensures { (head : Head) (past : History) → IsCounted head past self.old → IsCounted head (Changed settings ∷ past) self.new }
    {
        wait_anew(&mut self.tallies);
        self.behind.begin_anew();
        if self.picks == 0 {
            self.begun = settings;
        } else if settings != self.settings {
            self.mixed = true;
        }
        self.settings = settings;
        self.changes = more(self.changes, 1);
    }

    // Notes which part of the trace was looked at.
    fn note_part(&mut self, part: Part)
        ensures counted { (head : Head) (past : History) → IsCounted head past self.old → IsCounted head past self.new }
        ensures part { self.new.part ≡ part }
    {
        self.part = part;
    }

    // The sum of all rows of a class.
    fn of_class(&self, class: Class) -> Tally {
        let mut sum = NO_TALLY;
        for (lane, tally) in self.tallies.iter().enumerate() {
            if tally.seen && class_of_lane(lane) == class {
                sum.add(tally);
            }
        }
        sum
    }

    // The sum of all rows of a queue.
    fn of_queue(&self, qid: u16) -> Tally {
        let mut sum = NO_TALLY;
        for lane in lanes_of_queue(qid) {
            if let Some(tally) = self.tallies.get(lane) {
                sum.add(tally);
            }
        }
        sum
    }

    // Jain's index of the commands of the I/O queues, in ten thousandths. `None` where none was picked.
    fn jain(&self) -> Option<u128> {
        let mut parts = ArrayVec::<u128, IO_QUEUES>::new();
        for qid in 1..=IO_QUEUES as u16 {
            let tally = self.of_queue(qid);
            if tally.seen {
                let _fits = parts.try_push(u128::from(tally.commands));
            }
        }
        jain(parts.as_slice())
    }

    // The number of queues of a class.
    fn queues_of(&self, class: Class) -> u128 {
        let mut number = 0u128;
        for (lane, tally) in self.tallies.iter().enumerate() {
            if tally.seen && class_of_lane(lane) == class {
                number = number.saturating_add(1);
            }
        }
        number
    }

    // Commands of a queue of a level, divided by what its weight gives it, which is the weight of its level over the
    // number of queues of that, times the weights of all levels. `None` for the other classes.
    fn part_by_weight(&self, class: Class, commands: u64) -> Option<u128> {
        let (high, medium) = (
            self.begun.weight(Class::High),
            self.begun.weight(Class::Medium),
        );
        let low = self.begun.weight(Class::Low);
        let others = match class {
            Class::Admin | Class::Urgent => return None,
            Class::High => u128::from(medium) * u128::from(low),
            Class::Medium => u128::from(high) * u128::from(low),
            Class::Low => u128::from(high) * u128::from(medium),
        };
        let shared = others.saturating_mul(self.queues_of(class));
        Some(u128::from(commands).saturating_mul(shared))
    }

    // Jain's index of the commands of the queues of levels, each divided by what its weight gives it, in ten
    // thousandths. `None` under round robin, where the settings change between two picks, and where none was picked.
    fn jain_by_weight(&self) -> Option<u128> {
        if self.mechanism == Mechanism::RoundRobin || self.mixed {
            return None;
        }
        let mut parts = ArrayVec::<u128, LANES>::new();
        for (lane, tally) in self.tallies.iter().enumerate() {
            if tally.seen
                && let Some(part) = self.part_by_weight(class_of_lane(lane), tally.commands)
            {
                let _fits = parts.try_push(part);
            }
        }
        jain(parts.as_slice())
    }

    // Whether queues of levels were seen, and none was picked.
    fn has_idle_levels(&self) -> bool {
        let levels = [Class::High, Class::Medium, Class::Low].map(|class| self.of_class(class));
        levels.iter().any(|tally| tally.seen) && levels.iter().all(|tally| tally.picks == 0)
    }

    /// The number of the last pick of the trace, where the first one that was to be looked at is behind it.
    pub fn last_before(&self) -> Option<u64>
        ensures { (selection : Selection) (head : Head) (past : History) → IsCountedPart selection head past self.now → result ≡ last_before selection past }
    {
        self.part.last_before()
    }

    // A ready queue of a lawful run stays unpicked for fewer picks in a row than this.
    fn bound(&self) -> usize {
        match self.mechanism {
            Mechanism::RoundRobin => QUEUE_LIMIT,
            Mechanism::Weighted => IO_QUEUES,
        }
    }

    /// Writes tables for people. The first has a row for each queue and each class: its picks, its commands, its share
    /// of all commands, and the most picks in a row that passed a ready queue over, beside the bound below which this
    /// stays in a lawful run. The second tells for each queue how many commands others got between two
    /// services of it. Where windows are asked for, the third has a row for each. `WriteFault` where a write failed.
    pub fn write_text<W: Write>(&self, writer: &mut W) -> Result<(), WriteFault> {
        put_table(self, writer)
    }

    /// Writes the same as one JSON object and a newline. `WriteFault` where a write failed.
    pub fn write_json<W: Write>(&self, writer: &mut W) -> Result<(), WriteFault> {
        put_statistics(self, writer)
    }

    /// Writes a line of comma-separated values for each queue, over all classes, or where windows are asked for, a line
    /// for each window. The first line has the names. `WriteFault` where a write failed.
    pub fn write_csv<W: Write>(&self, writer: &mut W) -> Result<(), WriteFault> {
        put_sheet(self, writer)
    }
}

impl Watch for Statistics {
    ghost stands = { λ head past counted. IsCounted head past counted };

    fn watch(&mut self, number: u64, event: &TraceEvent) -> Result<(), TraceError> {
        match event {
            TraceEvent::Pick { seen, pick, .. } => self.note_pick(number, seen, pick),
            TraceEvent::Set { settings } => {
                self.note_set(*settings);
                Ok(())
            }
        }
    }

    // What others get meanwhile isn't counted, so no wait goes on over it.
    fn pass(&mut self) {
        wait_anew(&mut self.tallies);
        self.behind.begin_anew();
        self.waits.begin_anew();
    }
}

/// Counts what the picks of a selection show, and where a number of picks is given, what each so many of them show. The
/// trace is read as a stream, its picks aren't judged, and `fresh` may be missing. Refused with the first faulty line, a
/// failed read or no memory, as `nvme_trace::check_by` is where the specification alone judges.
pub fn stats<R: Read + Drop>(
    alloc: Global,
    reader: R,
    selection: Selection,
    window: Option<u64>,
) -> Result<Statistics, TraceError>
    ensures counted { IfOk result (λ counted. IfSome (R.remaining reader) (λ text. IsShownBy Specification text (λ head past. IsCountedPart selection head past counted))) }
    ensures fault { IfErr result (λ error. IfSome (R.remaining reader) (λ text. IsReadFaultBy Specification text error)) }
{
    let mut trace = Trace::new(alloc, reader);
    let head = trace.head(alloc)?;
    let mechanism = head.mechanism;
    let mut counted = Statistics::new(alloc, head, window);
    let part = show(alloc, &mut trace, mechanism, selection, &mut counted)?;
    counted.note_part(part);
    Ok(counted)
}
