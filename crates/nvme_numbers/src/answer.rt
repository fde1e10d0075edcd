// What is told of a simulation.
ghost use Rattle.std.specs.Prelude.{◌≡◌, ◌++◌, IfOk, OnOk, option_to_list};
ghost use Rattle.nvme_latency.specs.Times.{times_of};
ghost use Rattle.nvme_numbers.specs.Answers.{busy_of};
ghost use Rattle.nvme_numbers.specs.Fairness.{IsJain, IsJainByWeight, commands_of_each, level_part, level_parts};
ghost use Rattle.nvme_numbers.specs.Rows.{IsFedRow};
ghost use Rattle.nvme_numbers.specs.Sums.{sums_plus};
ghost use Rattle.nvme_numbers.specs.Told.{is_of};
ghost use Rattle.nvme_numbers.specs.inside.Unions.{AreClassRows, AreRanked, AreRows, IsRanked, IsUnion, IsUnionFed, IsUnionRow, all_amounts, amount_in, coming_of, has_ranked, sums_in, times_in};

mod object;
mod sheet;
mod table;
mod wording;

use crate::feed::{Amount, Comings, Feed, NONE_DONE};
use crate::numbers::{Asked, Numbers, QueueTally};
use crate::quotient::{jain, quotient};
use crate::row::{Fed, Row, fed_of, row_of};
use crate::tally::{RankedTally, Tally};
use nvme_arbiter::{Class, Mechanism, Settings};
use nvme_channels::Channel;
use nvme_output::WriteFault;
use object::{put_answer, put_open_object};
use sheet::put_sheet;
use std::alloc::{AllocError, Global};
use std::io::Write;
use table::put_table;
pub use wording::{comma_before, micros};

// All classes, in the order of their rows.
const CLASSES: [Class; 5] = [
    Class::Admin,
    Class::Urgent,
    Class::High,
    Class::Medium,
    Class::Low,
];

// Utilization is told in thousandths of a percent.
const THOUSANDTHS: u128 = 100_000;

/// Which program simulated what. The texts are written as they are, so they have no quote, backslash, comma or line end.
#[derive(Clone, Copy, Debug)]
pub struct About<'a> {
    /// The version of the program.
    pub version: &'a str,
    /// The digest of the file that tells the model.
    pub digest: &'a str,
    /// The options that stand in place of what the file says. Empty where it says all.
    pub options: &'a str,
}

/// A queue or a class, and its numbers.
#[derive(Clone, Copy, Debug, PartialEq, Eq)]
pub struct Member {
    pub class: Class,
    pub row: Row,
}

/// What is told of a simulation. Numbers of time begin where the first command that counts came, and end where the simulation
/// ended; utilization is that of all the time that was simulated.
#[derive(Drop)]
pub struct Answer<'a> {
    about: About<'a>,
    asked: Asked,
    /// When the first command that counts came, in picoseconds. `None` where none counts.
    pub began: Option<u64>,
    /// When the simulation ended, in picoseconds.
    pub end: u64,
    /// The queues, of the identifiers 1, 2 and so on.
    pub queues: Vec<Member>,
    /// The classes that have a queue, from the admin class and the urgent one down.
    pub classes: Vec<Member>,
    /// All queues together.
    pub all: Row,
    /// The channels of the device.
    pub channels: &'a [Channel],
    /// Jain's index of the commands a second of the queues, in ten thousandths. `None` where no command counts.
    pub jain: Option<u128>,
    /// Jain's index of the commands a second of the queues of levels, each divided by the weight of its level, in ten
    /// thousandths. `None` under round robin, and where no such command counts.
    pub jain_by_weight: Option<u128>,
}

// A queue whose latencies are ranked.
#[derive(Drop)]
struct RankedQueue {
    class: Class,
    tally: RankedTally,
    feed: Feed,
}

// How many commands came, and how long they came in picoseconds, from the first one that counts.
#[derive(Clone, Copy)]
struct Coming {
    count: u64,
    time: u64,
}

// How commands came in all.
fn coming_of(comings: &Comings) -> Coming
    ensures { result ≡ coming_of comings.now }
{
    let last = comings.last;
    Coming {
        count: comings.count,
        time: last.saturating_sub(comings.first.unwrap_or(last)),
    }
}

// Ranks the latencies of a queue.
fn ranked_queue(queue: QueueTally) -> RankedQueue
    ensures { IsRanked queue result }
{
    let QueueTally { class, tally, feed } = queue;
    RankedQueue {
        class,
        tally: tally.ranked(),
        feed,
    }
}

// Ranks the latencies of queues.
fn ranked_queues(alloc: Global, queues: Vec<QueueTally>) -> Result<Vec<RankedQueue>, AllocError>
    ensures { IfOk result (λ ranked. AreRanked queues.items ranked.items) }
{
    let mut ranked = Vec::with_capacity(alloc, queues.len())?;
    for queue in queues {
        ranked.push(ranked_queue(queue))?;
    }
    Ok(ranked)
}

// Adds the commands of a queue, where it is of a class, or of any.
fn join(union: &mut Tally, queue: &RankedQueue, class: Option<Class>) -> Result<(), AllocError>
    ensures times { OnOk result (times_of union.new.latencies ≡ times_of union.old.latencies ++ times_in class queue.now) }
    ensures sums { OnOk result (union.new.sums ≡ sums_plus union.old.sums (sums_in class queue.now)) }
{
    match class {
        Some(class) if class.number() != queue.class.number() => Ok(()),
        _ => union.append(&queue.tally),
    }
}

// The commands of the queues of a class, or of all queues.
fn union_of(
    alloc: Global,
    queues: &[RankedQueue],
    class: Option<Class>,
) -> Result<RankedTally, AllocError>
    ensures { IfOk result (λ union. IsUnion class queues.now union) }
{
    let mut union = Tally::new(alloc);
    for queue in queues {
        join(&mut union, queue, class)?;
    }
    Ok(union.ranked())
}

// What was done of a queue while commands came, where it is of a class, or of any.
fn amount_in(queue: &RankedQueue, class: Option<Class>, count: u64) -> Amount
    ensures { result ≡ amount_in class count queue.now }
{
    match class {
        Some(class) if class.number() != queue.class.number() => NONE_DONE,
        _ => queue.feed.settled(count),
    }
}

// What was done of the queues of a class, or of all, while commands came.
fn fed_in(queues: &[RankedQueue], class: Option<Class>, coming: Coming) -> Fed
    ensures { IsFedRow coming.time (all_amounts class coming.count queues.now) result }
{
    let mut done = NONE_DONE;
    for queue in queues {
        done = done.plus(amount_in(queue, class, coming.count));
    }
    fed_of(done, coming.time)
}

// The rows of queues.
fn queue_rows(
    alloc: Global,
    queues: &[RankedQueue],
    coming: Coming,
    span: u64,
    whole: usize,
) -> Result<Vec<Member>, AllocError>
    ensures { IfOk result (λ rows. AreRows coming span whole queues.now rows.items) }
{
    let mut rows = Vec::with_capacity(alloc, queues.len())?;
    for queue in queues {
        let fed = fed_of(queue.feed.settled(coming.count), coming.time);
        rows.push(Member {
            class: queue.class,
            row: row_of(&queue.tally, span, whole, fed),
        })?;
    }
    Ok(rows)
}

// The row of a class.
fn class_row(
    alloc: Global,
    queues: &[RankedQueue],
    class: Class,
    coming: Coming,
    span: u64,
    whole: usize,
) -> Result<Row, AllocError>
    ensures row { IfOk result (IsUnionRow span whole (Some class) queues.now) }
    ensures fed { IfOk result (IsUnionFed coming (Some class) queues.now) }
{
    let union = union_of(alloc, queues, Some(class))?;
    let fed = fed_in(queues, Some(class), coming);
    Ok(row_of(&union, span, whole, fed))
}

// The row of all queues.
fn all_row(
    alloc: Global,
    queues: &[RankedQueue],
    coming: Coming,
    span: u64,
) -> Result<Row, AllocError>
    ensures row { IfOk result (λ row. IsUnionRow span row.commands None queues.now row) }
    ensures fed { IfOk result (IsUnionFed coming None queues.now) }
{
    let union = union_of(alloc, queues, None)?;
    let fed = fed_in(queues, None, coming);
    Ok(row_of(&union, span, union.latencies.count(), fed))
}

// Whether a queue is of a class.
fn is_of(queue: &RankedQueue, class: Class) -> bool
    ensures { result ≡ is_of (Some class) queue.now.class }
{
    class.number() == queue.class.number()
}

// Whether a class has a queue.
fn has_queue(queues: &[RankedQueue], class: Class) -> bool
    ensures { result ≡ has_ranked queues.now class }
{
    queues.iter().any(|queue| is_of(queue, class))
}

// The rows of those classes that have a queue.
fn class_rows(
    alloc: Global,
    queues: &[RankedQueue],
    classes: &[Class],
    coming: Coming,
    span: u64,
    whole: usize,
) -> Result<Vec<Member>, AllocError>
    ensures { IfOk result (λ rows. AreClassRows coming span whole queues.now classes.now rows.items) }
{
    let mut rows = Vec::new(alloc);
    for class in classes {
        let class = *class;
        if has_queue(queues, class) {
            let row = class_row(alloc, queues, class, coming, span, whole)?;
            rows.push(Member { class, row })?;
        }
    }
    Ok(rows)
}

// Commands of a queue of a level, divided by its weight, times the weights of all levels. `None` of the other classes.
fn weighted(settings: &Settings, member: &Member) -> Option<u128>
    ensures { level_part settings.now member.now ≡ option_to_list result }
{
    let (high, medium) = (settings.weight(Class::High), settings.weight(Class::Medium));
    let low = settings.weight(Class::Low);
    let others = match member.class {
        Class::Admin | Class::Urgent => return None,
        Class::High => u64::from(medium) * u64::from(low),
        Class::Medium => u64::from(high) * u64::from(low),
        Class::Low => u64::from(high) * u64::from(medium),
    };
    Some(member.row.commands as u128 * u128::from(others))
}

// Jain's index of the commands of queues: the time is the same for all, so it is that of their commands a second.
fn jain_of_queues(alloc: Global, queues: &[Member]) -> Result<Option<u128>, AllocError>
    ensures { IfOk result (IsJain (commands_of_each queues.now)) }
{
    let mut parts = Vec::new(alloc);
    for member in queues {
        parts.push(member.row.commands as u128)?;
    }
    Ok(jain(&parts))
}

// Jain's index of the commands of the queues of levels, each divided by its weight.
fn jain_of_weighted(
    alloc: Global,
    settings: &Settings,
    queues: &[Member],
) -> Result<Option<u128>, AllocError>
    ensures { IfOk result (IsJain (level_parts settings.now queues.now)) }
{
    let mut parts = Vec::new(alloc);
    for member in queues {
        if let Some(part) = weighted(settings, member) {
            parts.push(part)?;
        }
    }
    Ok(jain(&parts))
}

// The same, where weights are heeded.
fn jain_of_levels(
    alloc: Global,
    asked: &Asked,
    queues: &[Member],
) -> Result<Option<u128>, AllocError>
    ensures { IfOk result (IsJainByWeight asked.now.mechanism (level_parts asked.now.settings queues.now)) }
{
    match asked.mechanism {
        Mechanism::RoundRobin => Ok(None),
        Mechanism::Weighted => jain_of_weighted(alloc, &asked.settings, queues),
    }
}

// How long all channels ran commands.
fn busy_of(channels: &[Channel]) -> u128
    ensures { result ≡ busy_of channels.now }
{
    let mut busy = 0u128;
    for channel in channels {
        busy += u128::from(channel.busy);
    }
    busy
}

impl Numbers {
    ghost use Rattle.nvme_numbers.specs.Answers.{about_in, asked_in};
    ghost use Rattle.std.specs.Prelude.{List};
    ghost use Rattle.nvme_numbers.specs.Collected.{IsFedBy, asked_of, began_of, settings_of};
    ghost use Rattle.nvme_numbers.specs.Feeding.{Event};
    ghost use Rattle.nvme_numbers.specs.Told.{Tells};
    ghost use Rattle.nvme_numbers.specs.ToldFed.{TellsFed};

    /// What is told of the simulation, which ended at this time and left the channels like this. The latencies of the commands
    /// are ranked, and those of a class and of all once more, one after another.
    pub fn answer<'a>(
        self,
        end: u64,
        channels: &'a [Channel],
        about: About<'a>,
    ) -> Result<Answer<'a>, AllocError>
        ensures told { IfOk result (λ a. Tells self end a.queues.items a.classes.items a.all) }
        ensures fed { IfOk result (λ a. (events : List Event) → IsFedBy events self → TellsFed events self a.queues.items a.classes.items a.all) }
        ensures jain { IfOk result (λ a. IsJain (commands_of_each a.queues.items) a.jain) }
        ensures jain_by_weight { IfOk result (λ a. IsJainByWeight (asked_of self).mechanism (level_parts (settings_of self) a.queues.items) a.jain_by_weight) }
        ensures began { IfOk result (λ a. a.began ≡ began_of self) }
        ensures end { IfOk result (λ a. a.end ≡ end) }
        ensures channels { IfOk result (λ a. a.channels.now ≡ channels.now) }
        ensures asked { IfOk result (λ a. asked_in a ≡ asked_of self) }
        ensures about { IfOk result (λ a. about_in a ≡ about.entry) }
    {
        let Numbers {
            asked,
            queues,
            comings,
            began,
            alloc,
        } = self;
        let span = end.saturating_sub(began.unwrap_or(end));
        let coming = coming_of(&comings);
        let ranked = ranked_queues(alloc, queues)?;
        let all = all_row(alloc, &ranked, coming, span)?;
        let whole = all.commands;
        let rows = queue_rows(alloc, &ranked, coming, span, whole)?;
        Ok(Answer {
            about,
            asked,
            began,
            end,
            classes: class_rows(alloc, &ranked, &CLASSES, coming, span, whole)?,
            all,
            channels,
            jain: jain_of_queues(alloc, &rows)?,
            jain_by_weight: jain_of_levels(alloc, &asked, &rows)?,
            queues: rows,
        })
    }
}

impl Answer<'_> {
    ghost use Rattle.nvme_numbers.specs.Answers.{time_of};
    ghost use Rattle.nvme_numbers.specs.Quotients.{IsQuotient};
    ghost use Rattle.nvme_numbers.specs.Objects.{answer_json, answer_open_json};
    ghost use Rattle.nvme_numbers.specs.Sheets.{answer_csv};
    ghost use Rattle.nvme_numbers.specs.Tables.{answer_text};
    ghost use Rattle.nvme_output.specs.Written.{Writes};

    /// The part of the simulated time in which a channel ran commands, in thousandths of a percent, rounded. `None` where no
    /// time passed.
    pub fn utilization_of(&self, channel: &Channel) -> Option<u128>
        ensures { IsQuotient channel.now.busy THOUSANDTHS self.now.end result }
    {
        quotient(u128::from(channel.busy), THOUSANDTHS, u128::from(self.end))
    }

    /// The same of all channels together.
    pub fn utilization(&self) -> Option<u128>
        ensures { IsQuotient (busy_of self.now.channels.now) THOUSANDTHS (time_of self.now.end self.now.channels.now) result }
    {
        let whole = u128::from(self.end) * self.channels.len() as u128;
        quotient(busy_of(self.channels), THOUSANDTHS, whole)
    }

    /// Writes tables for people: the rates of each queue, each class and all, then their latencies and then the means of the
    /// parts of these, in microseconds. `WriteFault` where a write failed.
    pub fn write_text<W: Write>(&self, writer: &mut W) -> Result<(), WriteFault>
        ensures { Writes (W.contents writer.old) (W.contents writer.new) result (answer_text self.now) }
    {
        put_table(self, writer)
    }

    /// Writes the same as one JSON object and a newline. Times are in picoseconds. `WriteFault` where a write failed.
    pub fn write_json<W: Write>(&self, writer: &mut W) -> Result<(), WriteFault>
        ensures { Writes (W.contents writer.old) (W.contents writer.new) result (answer_json self.now) }
    {
        put_answer(self, writer)
    }

    /// Writes the same, but for the brace and the newline that end it, so that more keys may follow. `WriteFault` where a write
    /// failed.
    pub fn write_open_json<W: Write>(&self, writer: &mut W) -> Result<(), WriteFault>
        ensures { Writes (W.contents writer.old) (W.contents writer.new) result (answer_open_json self.now) }
    {
        put_open_object(self, writer)
    }

    /// Writes a line of comma-separated values for each queue, each class and all. The first line has the names. Times are in
    /// picoseconds. `WriteFault` where a write failed.
    pub fn write_csv<W: Write>(&self, writer: &mut W) -> Result<(), WriteFault>
        ensures { Writes (W.contents writer.old) (W.contents writer.new) result (answer_csv self.now) }
    {
        put_sheet(self, writer)
    }
}
