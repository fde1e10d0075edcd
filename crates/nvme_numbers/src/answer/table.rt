// An answer as tables for people.
ghost use Rattle.std.specs.Prelude.{◌≡◌, ◌∷◌, [], map};
ghost use Rattle.std.specs.List.{flat_map, list_any};
ghost use Rattle.nvme_cells.specs.Tables.{plain, right, shown_of};
ghost use Rattle.nvme_cells.specs.Values.{Nothing, Whole};
ghost use Rattle.nvme_numbers.specs.Sheets.{placed};
ghost use Rattle.nvme_numbers.specs.Tables.{all_row, answer_text, began_row, burst_row, by_weight_row, channel_row, channel_text, channels_row, class_line, class_row, count_row, device_row, end_row, few_row, few_text, has_few, is_few, jain_row, latencies_row, line_end, line_text, mechanism_row, micros, name_if, options_row, origin_row, parts_row, pauses_row, placement_row, plural, queue_line, queue_row, rates_row, rows_text, section_text, silent, stripes_row, timed, title_text, utilization_row, warm_up_row, weights_row};
ghost use Rattle.nvme_numbers.specs.declared.answer.table.Section.TheVariants.{Counts, Fairness, Machine, Origin, Picking};
ghost use Rattle.nvme_output.specs.Written.{Writes};

use super::wording::micros;
use super::{Answer, Member};
use crate::columns::{Measure, measured};
use crate::names::{class_name, mechanism_name};
use crate::row::{Row, Spread};
use nvme_arbiter::{Class, Mechanism, Settings};
use nvme_cells::{Cell, Placed, Places, put_row, put_rows};
use nvme_channels::{Channel, Placement};
use nvme_model::{Device, Pauses};
use nvme_output::{WriteFault, put};
use std::io::Write;

// How many channels stand on a line.
const CHANNELS_A_LINE: usize = 8;

// A percentile is told beside a note where fewer commands lie above it.
const FEW: u128 = 20;

// The width of a column of times.
const TIME_WIDTH: usize = 13;

// What a table tells of each row.
#[derive(Clone, Copy)]
pub enum Columns {
    Rates,
    Latencies,
    Parts,
}

// The sections of the tables, one behind the other.
#[derive(Clone, Copy)]
pub enum Section {
    // Which program simulated what.
    Origin,
    // Which commands count.
    Counts,
    // The device.
    Machine,
    // For which part of the time all channels ran commands, and each.
    Utilization,
    Channels,
    // How commands were picked.
    Picking,
    // How fair the queues were served.
    Fairness,
    // The names of columns, and the lines under them.
    Titles(Columns),
    Queues(Columns),
    Classes(Columns),
    All(Columns),
    // Above which percentiles few commands lie.
    Few,
}

const SECTIONS: [Section; 20] = [
    Section::Origin,
    Section::Counts,
    Section::Machine,
    Section::Utilization,
    Section::Channels,
    Section::Picking,
    Section::Fairness,
    Section::Titles(Columns::Rates),
    Section::Queues(Columns::Rates),
    Section::Classes(Columns::Rates),
    Section::All(Columns::Rates),
    Section::Titles(Columns::Latencies),
    Section::Queues(Columns::Latencies),
    Section::Classes(Columns::Latencies),
    Section::All(Columns::Latencies),
    Section::Titles(Columns::Parts),
    Section::Queues(Columns::Parts),
    Section::Classes(Columns::Parts),
    Section::All(Columns::Parts),
    Section::Few,
];

// A whole number as wide as it is.
fn number<'a>(n: u128) -> Placed<'a>
    ensures { shown_of result ≡ plain (Whole n) }
{
    Placed::plain(Cell::Number(n))
}

// A time as wide as it is.
fn period<'a>(time: u64) -> Placed<'a>
    ensures { shown_of result ≡ plain (micros time) }
{
    Placed::plain(micros(u128::from(time)))
}

// A time in its column.
fn timed<'a>(time: u128) -> Placed<'a>
    ensures { shown_of result ≡ timed time }
{
    Placed::right(TIME_WIDTH, micros(time))
}

// A cell that says nothing.
fn silent<'a>() -> Placed<'a>
    ensures { shown_of result ≡ silent }
{
    Placed::words("")
}

// What follows the word for one thing where there are so many.
fn plural(count: u128) -> &'static str
    ensures { result.now ≡ plural count }
{
    if count == 1 { "" } else { "s" }
}

// The end of a line.
fn line_end<'a>() -> [Placed<'a>; 1]
    ensures { map shown_of result ≡ line_end }
{
    [Placed::words("\n")]
}

// Which program simulated what.
fn origin<'a>(answer: &Answer<'a>) -> [Placed<'a>; 7]
    ensures { map shown_of result ≡ origin_row answer.now }
{
    [
        Placed::words("nvmearb "),
        Placed::words(answer.about.version),
        Placed::words(", seed "),
        number(u128::from(answer.asked.seed)),
        Placed::words(", digest "),
        Placed::words(answer.about.digest),
        Placed::words("\n"),
    ]
}

// The options in place of what the file says, if there are any.
fn options<'a>(options: &'a str) -> [Placed<'a>; 3]
    ensures { map shown_of result ≡ options_row options.now }
{
    if options.is_empty() {
        return [silent(), silent(), silent()];
    }
    [
        Placed::words("in place of what the file says: "),
        Placed::words(options),
        Placed::words("\n"),
    ]
}

// How many commands count.
fn count<'a>(commands: u128) -> [Placed<'a>; 3]
    ensures { map shown_of result ≡ count_row commands }
{
    [
        number(commands),
        Placed::words(" command"),
        Placed::words(plural(commands)),
    ]
}

// From when on, if any counts.
fn began<'a>(began: Option<u64>) -> [Placed<'a>; 3]
    ensures { map shown_of result ≡ began_row began }
{
    match began {
        Some(began) => [
            Placed::words(" from "),
            period(began),
            Placed::words(" us on"),
        ],
        None => [silent(), silent(), silent()],
    }
}

// How long was simulated.
fn end<'a>(end: u64) -> [Placed<'a>; 3]
    ensures { map shown_of result ≡ end_row end }
{
    [
        Placed::words(", "),
        period(end),
        Placed::words(" us simulated"),
    ]
}

// How many commands warm up, if any does.
fn warm_up<'a>(warm_up: u64) -> [Placed<'a>; 2]
    ensures { map shown_of result ≡ warm_up_row warm_up }
{
    if warm_up == 0 {
        return [silent(), silent()];
    }
    [Placed::words(", warm-up "), number(u128::from(warm_up))]
}

// How many channels the device has, and how many commands.
fn machine<'a>(device: &Device) -> [Placed<'a>; 6]
    ensures { map shown_of result ≡ device_row device.now }
{
    let channels = device.channels as u128;
    [
        number(channels),
        Placed::words(" channel"),
        Placed::words(plural(channels)),
        Placed::words(", depth "),
        number(u128::from(device.depth)),
        Placed::words(", "),
    ]
}

// How many blocks a stripe has.
fn stripes<'a>(blocks: u128) -> [Placed<'a>; 4]
    ensures { map shown_of result ≡ stripes_row blocks }
{
    [
        Placed::words("stripes of "),
        number(blocks),
        Placed::words(" block"),
        Placed::words(plural(blocks)),
    ]
}

// On which channel a command runs.
fn placement<'a>(placement: Placement) -> [Placed<'a>; 4]
    ensures { map shown_of result ≡ placement_row placement }
{
    match placement {
        Placement::Pool => [Placed::words("pool"), silent(), silent(), silent()],
        Placement::Striped(stripe) => stripes(u128::from(stripe.blocks)),
    }
}

// How channels pause, if they do.
fn pauses<'a>(pauses: Option<Pauses>) -> [Placed<'a>; 5]
    ensures { map shown_of result ≡ pauses_row pauses }
{
    match pauses {
        Some(pauses) => [
            Placed::words(", pauses of "),
            period(pauses.length),
            Placed::words(" us every "),
            period(pauses.every),
            Placed::words(" us"),
        ],
        None => [silent(), silent(), silent(), silent(), silent()],
    }
}

// For which part of the time all channels ran commands.
fn utilization<'a>(answer: &Answer) -> [Placed<'a>; 2]
    ensures { map shown_of result ≡ utilization_row answer.now }
{
    [
        Placed::words("utilization: "),
        Placed::plain(Cell::percent(answer.utilization(), Places::Three)),
    ]
}

// What begins a line of channels.
fn channels<'a>(number_of_first: usize) -> [Placed<'a>; 3]
    ensures { map shown_of result ≡ channels_row number_of_first }
{
    if number_of_first % CHANNELS_A_LINE == 0 {
        [
            Placed::words("\nchannels from "),
            number(number_of_first as u128),
            Placed::words(" on:"),
        ]
    } else {
        [silent(), silent(), silent()]
    }
}

// For which part of the time a channel ran commands.
fn channel<'a>(answer: &Answer, channel: &Channel) -> [Placed<'a>; 2]
    ensures { map shown_of result ≡ channel_row answer.now channel.now }
{
    let part = answer.utilization_of(channel);
    [
        Placed::words(" "),
        Placed::plain(Cell::percent(part, Places::Three)),
    ]
}

// By which mechanism commands are picked.
fn mechanism<'a>(mechanism: Mechanism) -> [Placed<'a>; 1]
    ensures { map shown_of result ≡ mechanism_row mechanism }
{
    [Placed::words(mechanism_name(mechanism))]
}

// The most commands of a pick.
fn bursts<'a>(burst: Option<u16>) -> [Placed<'a>; 2]
    ensures { map shown_of result ≡ burst_row burst }
{
    match burst {
        Some(burst) => [Placed::words(", burst "), number(u128::from(burst))],
        None => [Placed::words(", no limit of bursts"), silent()],
    }
}

// The weights, where they are heeded.
fn weights<'a>(mechanism: Mechanism, settings: &Settings) -> [Placed<'a>; 6]
    ensures { map shown_of result ≡ weights_row mechanism settings.now }
{
    match mechanism {
        Mechanism::RoundRobin => [silent(), silent(), silent(), silent(), silent(), silent()],
        Mechanism::Weighted => [
            Placed::words(", high "),
            number(u128::from(settings.weight(Class::High))),
            Placed::words(", medium "),
            number(u128::from(settings.weight(Class::Medium))),
            Placed::words(", low "),
            number(u128::from(settings.weight(Class::Low))),
        ],
    }
}

// How fair the queues were served.
fn fairness<'a>(index: Option<u128>) -> [Placed<'a>; 2]
    ensures { map shown_of result ≡ jain_row index }
{
    [
        Placed::words("Jain's index of IOPS: "),
        Placed::plain(Cell::decimal(index, Places::Four)),
    ]
}

// The same by weight, where weights are heeded.
fn fairness_by_weight<'a>(mechanism: Mechanism, index: Option<u128>) -> [Placed<'a>; 2]
    ensures { map shown_of result ≡ by_weight_row mechanism index }
{
    match mechanism {
        Mechanism::RoundRobin => [silent(), silent()],
        Mechanism::Weighted => [
            Placed::words("\nJain's index of IOPS by weight: "),
            Placed::plain(Cell::decimal(index, Places::Four)),
        ],
    }
}

// How many commands, what share of all, and how many and how many bytes a second.
fn rates<'a>(row: &Row) -> [Placed<'a>; 4]
    ensures { map shown_of result ≡ rates_row row.now }
{
    [
        Placed::right(10, Cell::Number(row.commands as u128)),
        Placed::right(10, Cell::percent(row.share, Places::Four)),
        Placed::right(16, Cell::number(row.iops)),
        Placed::right(16, Cell::number(row.bytes_per_second)),
    ]
}

// A line in a column of times.
fn no_time<'a>() -> Placed<'a>
    ensures { shown_of result ≡ right 13 Nothing }
{
    Placed::right(TIME_WIDTH, Cell::Empty)
}

// How long commands took.
fn latencies<'a>(spread: &Option<Spread>) -> [Placed<'a>; 6]
    ensures { map shown_of result ≡ latencies_row spread.now }
{
    match spread {
        Some(spread) => [
            timed(u128::from(spread.mean)),
            timed(u128::from(spread.p50)),
            timed(u128::from(spread.p95)),
            timed(u128::from(spread.p99)),
            timed(u128::from(spread.p999)),
            timed(u128::from(spread.longest)),
        ],
        None => [no_time(), silent(), silent(), silent(), silent(), silent()],
    }
}

// The means of the parts of that.
fn parts<'a>(spread: &Option<Spread>) -> [Placed<'a>; 4]
    ensures { map shown_of result ≡ parts_row spread.now }
{
    match spread {
        Some(spread) => [
            timed(spread.host),
            timed(spread.arbitration),
            timed(spread.device),
            timed(spread.service),
        ],
        None => [no_time(), silent(), silent(), silent()],
    }
}

// Writes which program simulated what.
fn put_origin<W: Write>(answer: &Answer, writer: &mut W) -> Result<(), WriteFault>
    ensures { Writes (W.contents writer.old) (W.contents writer.new) result (section_text answer.now Origin) }
{
    put_rows(&[&origin(answer), &options(answer.about.options)], writer)
}

// Writes which commands count.
fn put_counts<W: Write>(answer: &Answer, writer: &mut W) -> Result<(), WriteFault>
    ensures { Writes (W.contents writer.old) (W.contents writer.new) result (section_text answer.now Counts) }
{
    let rows: [&[Placed]; 5] = [
        &count(answer.all.commands as u128),
        &began(answer.began),
        &end(answer.end),
        &warm_up(answer.asked.warm_up),
        &line_end(),
    ];
    put_rows(&rows, writer)
}

// Writes the device.
fn put_machine<W: Write>(answer: &Answer, writer: &mut W) -> Result<(), WriteFault>
    ensures { Writes (W.contents writer.old) (W.contents writer.new) result (section_text answer.now Machine) }
{
    let device = &answer.asked.device;
    let rows: [&[Placed]; 4] = [
        &machine(device),
        &placement(device.placement),
        &pauses(device.pauses),
        &line_end(),
    ];
    put_rows(&rows, writer)
}

// Writes a channel.
fn put_channel<W: Write>(
    answer: &Answer,
    number: usize,
    member: &Channel,
    writer: &mut W,
) -> Result<(), WriteFault>
    ensures { Writes (W.contents writer.old) (W.contents writer.new) result (channel_text answer.now number member.now) }
{
    put_rows(&[&channels(number), &channel(answer, member)], writer)
}

// Writes the channels.
fn put_channels<W: Write>(
    answer: &Answer,
    channels: &[Channel],
    writer: &mut W,
) -> Result<(), WriteFault>
    ensures { Writes (W.contents writer.old) (W.contents writer.new) result (placed (channel_text answer.now) 0 channels.now) }
{
    for (number, channel) in channels.iter().enumerate() {
        put_channel(answer, number, channel, writer)?;
    }
    Ok(())
}

// Writes how commands were picked.
fn put_picking<W: Write>(answer: &Answer, writer: &mut W) -> Result<(), WriteFault>
    ensures { Writes (W.contents writer.old) (W.contents writer.new) result (section_text answer.now Picking) }
{
    let asked = &answer.asked;
    let rows: [&[Placed]; 5] = [
        &line_end(),
        &mechanism(asked.mechanism),
        &bursts(asked.settings.burst()),
        &weights(asked.mechanism, &asked.settings),
        &line_end(),
    ];
    put_rows(&rows, writer)
}

// Writes how fair the queues were served.
fn put_fairness<W: Write>(answer: &Answer, writer: &mut W) -> Result<(), WriteFault>
    ensures { Writes (W.contents writer.old) (W.contents writer.new) result (section_text answer.now Fairness) }
{
    let rows: [&[Placed]; 3] = [
        &fairness(answer.jain),
        &fairness_by_weight(answer.asked.mechanism, answer.jain_by_weight),
        &line_end(),
    ];
    put_rows(&rows, writer)
}

// The names of the columns, behind what they are.
fn title(columns: Columns) -> &'static str
    ensures { result.now ≡ title_text columns }
{
    match columns {
        Columns::Rates => "queue class     commands     share            IOPS    bytes/second\n",
        Columns::Latencies =>
            "latency in us\nqueue class            mean          p50          p95          p99        p99.9          max\n",
        Columns::Parts =>
            "its parts, mean in us\nqueue class            host  arbitration       device      service\n",
    }
}

// Writes a line of cells behind what it tells of.
fn put_cells<'a, W: Write>(
    front: &[Placed<'a>],
    cells: &[Placed<'a>],
    writer: &mut W,
) -> Result<(), WriteFault>
    ensures { Writes (W.contents writer.old) (W.contents writer.new) result (rows_text (map shown_of front.now ∷ map shown_of cells.now ∷ line_end ∷ [])) }
{
    put_rows(&[&*front, &*cells, &line_end()], writer)
}

// Writes a line behind what it tells of.
fn put_line<W: Write>(
    columns: Columns,
    front: &[Placed],
    row: &Row,
    writer: &mut W,
) -> Result<(), WriteFault>
    ensures { Writes (W.contents writer.old) (W.contents writer.new) result (line_text columns (map shown_of front.now) row.now) }
{
    match columns {
        Columns::Rates => put_cells(front, &rates(row), writer),
        Columns::Latencies => put_cells(front, &latencies(&row.spread), writer),
        Columns::Parts => put_cells(front, &parts(&row.spread), writer),
    }
}

// Of which queue a line tells.
fn queue_front<'a>(place: usize, queue: &Member) -> [Placed<'a>; 3]
    ensures { map shown_of result ≡ queue_row place queue.now }
{
    [
        Placed::words("q"),
        Placed::left(5, Cell::Number(place as u128 + 1)),
        Placed::left(8, Cell::Word(class_name(queue.class))),
    ]
}

// Writes the line of the queue at a place.
fn put_queue<W: Write>(
    columns: Columns,
    place: usize,
    queue: &Member,
    writer: &mut W,
) -> Result<(), WriteFault>
    ensures { Writes (W.contents writer.old) (W.contents writer.new) result (queue_line columns place queue.now) }
{
    put_line(columns, &queue_front(place, queue), &queue.row, writer)
}

// Writes the lines of the queues.
fn put_queues<W: Write>(
    columns: Columns,
    queues: &[Member],
    writer: &mut W,
) -> Result<(), WriteFault>
    ensures { Writes (W.contents writer.old) (W.contents writer.new) result (placed (queue_line columns) 0 queues.now) }
{
    for (place, queue) in queues.iter().enumerate() {
        put_queue(columns, place, queue, writer)?;
    }
    Ok(())
}

// Of which class a line tells.
fn class_front<'a>(class: &Member) -> [Placed<'a>; 2]
    ensures { map shown_of result ≡ class_row class.now }
{
    [
        Placed::words("all   "),
        Placed::left(8, Cell::Word(class_name(class.class))),
    ]
}

// Writes the line of a class.
fn put_class<W: Write>(columns: Columns, class: &Member, writer: &mut W) -> Result<(), WriteFault>
    ensures { Writes (W.contents writer.old) (W.contents writer.new) result (class_line columns class.now) }
{
    put_line(columns, &class_front(class), &class.row, writer)
}

// Writes the lines of the classes.
fn put_classes<W: Write>(
    columns: Columns,
    classes: &[Member],
    writer: &mut W,
) -> Result<(), WriteFault>
    ensures { Writes (W.contents writer.old) (W.contents writer.new) result (flat_map (class_line columns) classes.now) }
{
    for class in classes {
        put_class(columns, class, writer)?;
    }
    Ok(())
}

// A line tells of all.
fn all_front<'a>() -> [Placed<'a>; 1]
    ensures { map shown_of result ≡ all_row }
{
    [Placed::words("all           ")]
}

// Writes the line of all.
fn put_all<W: Write>(columns: Columns, row: &Row, writer: &mut W) -> Result<(), WriteFault>
    ensures { Writes (W.contents writer.old) (W.contents writer.new) result (line_text columns all_row row.now) }
{
    put_line(columns, &all_front(), row, writer)
}

// Whether few commands lie above a percentile.
fn is_few(above: Measure, spread: &Option<Spread>) -> bool
    ensures { result ≡ is_few above spread.now }
{
    match spread {
        Some(spread) => measured(above, spread) < FEW,
        None => false,
    }
}

// Whether few do of a row.
fn any_few(above: Measure, members: &[Member]) -> bool
    ensures { result ≡ list_any (λ m. is_few above m.row.spread) members.now }
{
    members
        .iter()
        .any(|member| is_few(above, &member.row.spread))
}

// Whether few do of any row.
fn has_few(above: Measure, answer: &Answer) -> bool
    ensures { result ≡ has_few above answer.now }
{
    any_few(above, &answer.queues)
        || any_few(above, &answer.classes)
        || is_few(above, &answer.all.spread)
}

// The name of a percentile above which few commands lie, and else nothing.
fn name_if(few: bool, name: &'static str) -> &'static str
    ensures { result.now ≡ name_if few name.now }
{
    if few { name } else { "" }
}

// Above which percentiles few commands lie.
fn few<'a>(answer: &Answer) -> [Placed<'a>; 5]
    ensures { map shown_of result ≡ few_row answer.now }
{
    [
        Placed::words("fewer than 20 commands lie above "),
        Placed::words(name_if(has_few(Measure::AboveP50, answer), "p50, ")),
        Placed::words(name_if(has_few(Measure::AboveP95, answer), "p95, ")),
        Placed::words(name_if(has_few(Measure::AboveP99, answer), "p99, ")),
        Placed::words("p99.9 of a row\n"),
    ]
}

// Writes that, if there are such ones.
fn put_few<W: Write>(answer: &Answer, writer: &mut W) -> Result<(), WriteFault>
    ensures { Writes (W.contents writer.old) (W.contents writer.new) result (few_text answer.now) }
{
    if has_few(Measure::AboveP999, answer) {
        put_row(&few(answer), writer)
    } else {
        Ok(())
    }
}

// Writes a section.
fn put_section<W: Write>(
    answer: &Answer,
    section: Section,
    writer: &mut W,
) -> Result<(), WriteFault>
    ensures { Writes (W.contents writer.old) (W.contents writer.new) result (section_text answer.now section) }
{
    match section {
        Section::Origin => put_origin(answer, writer),
        Section::Counts => put_counts(answer, writer),
        Section::Machine => put_machine(answer, writer),
        Section::Utilization => put_row(&utilization(answer), writer),
        Section::Channels => put_channels(answer, answer.channels, writer),
        Section::Picking => put_picking(answer, writer),
        Section::Fairness => put_fairness(answer, writer),
        Section::Titles(columns) => put(title(columns).as_bytes(), writer),
        Section::Queues(columns) => put_queues(columns, &answer.queues, writer),
        Section::Classes(columns) => put_classes(columns, &answer.classes, writer),
        Section::All(columns) => put_all(columns, &answer.all, writer),
        Section::Few => put_few(answer, writer),
    }
}

// Writes sections, one behind the other.
fn put_sections<W: Write>(
    answer: &Answer,
    sections: &[Section],
    writer: &mut W,
) -> Result<(), WriteFault>
    ensures { Writes (W.contents writer.old) (W.contents writer.new) result (flat_map (section_text answer.now) sections.now) }
{
    for section in sections {
        put_section(answer, *section, writer)?;
    }
    Ok(())
}

/// Writes the tables.
pub fn put_table<W: Write>(answer: &Answer, writer: &mut W) -> Result<(), WriteFault>
    ensures { Writes (W.contents writer.old) (W.contents writer.new) result (answer_text answer.now) }
{
    put_sections(answer, &SECTIONS, writer)
}
