// An answer as one JSON object.
ghost use Rattle.std.specs.Prelude.{◌≡◌, ◌++◌, ◌∷◌, map};
ghost use Rattle.nvme_cells.specs.Rows.{json_object, named_of};
ghost use Rattle.nvme_cells.specs.Values.{value_of, whole_of};
ghost use Rattle.nvme_arbiter.specs.Settings.{burst_of};
ghost use Rattle.nvme_numbers.specs.Objects.{about_text, all_text, answer_json, answer_open_json, channel_count, channel_object, channels_text, class_column, class_object, classes_text, comma_before, device_text, devices, every_of, fairness_text, form, length_of, listed, numbers, pickings, queue_object, queues_text, sources, stripe_of, times, utilization_text};
ghost use Rattle.nvme_output.specs.Written.{Writes};

use super::wording::comma_before;
use super::{Answer, Member};
use crate::columns::{aboves, column, commands, feeds, latencies, parts, rates};
use crate::names::{class_name, mechanism_name};
use crate::numbers::Asked;
use crate::row::Row;
use nvme_arbiter::{Class, Settings};
use nvme_cells::{Cell, Field, Places, put_members, put_object};
use nvme_channels::{Channel, Placement};
use nvme_model::{Device, Pauses};
use nvme_output::{WriteFault, put};
use std::io::Write;

// The number of this form, which is another where a member gets another meaning or is left out.
const FORM: u8 = 1;

// The form of the object.
fn form<'a>() -> Field<'a>
    ensures { named_of result ≡ form }
{
    column("form", Cell::Number(u128::from(FORM)))
}

// Which program simulated what.
fn sources<'a>(answer: &Answer<'a>) -> [Field<'a>; 4]
    ensures { map named_of result ≡ sources answer.now }
{
    [
        column("version", Cell::Word(answer.about.version)),
        column("seed", Cell::Number(u128::from(answer.asked.seed))),
        column("digest", Cell::Word(answer.about.digest)),
        column("options", Cell::Word(answer.about.options)),
    ]
}

// A time, or nothing.
fn time_cell<'a>(time: Option<u64>) -> Cell<'a>
    ensures { value_of result ≡ whole_of time }
{
    match time {
        Some(time) => Cell::Number(u128::from(time)),
        None => Cell::Empty,
    }
}

// Which commands count, and from when to when.
fn times<'a>(answer: &Answer) -> [Field<'a>; 3]
    ensures { map named_of result ≡ times answer.now }
{
    [
        column("warm_up", Cell::Number(u128::from(answer.asked.warm_up))),
        column("began_ps", time_cell(answer.began)),
        column("end_ps", Cell::Number(u128::from(answer.end))),
    ]
}

// The most commands of a pick, or nothing without a limit.
fn burst<'a>(settings: &Settings) -> Cell<'a>
    ensures { value_of result ≡ whole_of (burst_of settings.now) }
{
    match settings.burst() {
        Some(burst) => Cell::Number(u128::from(burst)),
        None => Cell::Empty,
    }
}

// How commands are picked.
fn pickings<'a>(asked: &Asked) -> [Field<'a>; 5]
    ensures { map named_of result ≡ pickings asked.now }
{
    let settings = &asked.settings;
    let high = u128::from(settings.weight(Class::High));
    let medium = u128::from(settings.weight(Class::Medium));
    let low = u128::from(settings.weight(Class::Low));
    [
        column("mechanism", Cell::Word(mechanism_name(asked.mechanism))),
        column("burst", burst(settings)),
        column("high", Cell::Number(high)),
        column("medium", Cell::Number(medium)),
        column("low", Cell::Number(low)),
    ]
}

// How many channels the device has.
fn channel_count<'a>(device: &Device) -> Field<'a>
    ensures { named_of result ≡ channel_count device.now }
{
    column("channels", Cell::Number(device.channels as u128))
}

// How many blocks a stripe has, or nothing of a pool.
fn stripe<'a>(placement: Placement) -> Cell<'a>
    ensures { value_of result ≡ stripe_of placement }
{
    match placement {
        Placement::Pool => Cell::Empty,
        Placement::Striped(stripe) => Cell::Number(u128::from(stripe.blocks)),
    }
}

// The time from one pause to the next, or nothing without pauses.
fn every<'a>(pauses: Option<Pauses>) -> Cell<'a>
    ensures { value_of result ≡ every_of pauses }
{
    match pauses {
        Some(pauses) => Cell::Number(u128::from(pauses.every)),
        None => Cell::Empty,
    }
}

// How long a pause takes, or nothing without pauses.
fn length<'a>(pauses: Option<Pauses>) -> Cell<'a>
    ensures { value_of result ≡ length_of pauses }
{
    match pauses {
        Some(pauses) => Cell::Number(u128::from(pauses.length)),
        None => Cell::Empty,
    }
}

// What else the device is.
fn devices<'a>(device: &Device) -> [Field<'a>; 4]
    ensures { map named_of result ≡ devices device.now }
{
    [
        column("depth", Cell::Number(u128::from(device.depth))),
        column("stripe_blocks", stripe(device.placement)),
        column("pause_every_ps", every(device.pauses)),
        column("pause_length_ps", length(device.pauses)),
    ]
}

// Writes which program simulated what, and how commands are picked.
fn put_about<W: Write>(answer: &Answer, writer: &mut W) -> Result<(), WriteFault>
    ensures { Writes (W.contents writer.old) (W.contents writer.new) result (about_text answer.now) }
{
    let form = form();
    let others: [&[Field]; 3] = [&sources(answer), &times(answer), &pickings(&answer.asked)];
    put_members("{", &form, &others, writer)
}

// Writes the device.
fn put_device<W: Write>(device: &Device, writer: &mut W) -> Result<(), WriteFault>
    ensures { Writes (W.contents writer.old) (W.contents writer.new) result (device_text device.now) }
{
    let channels = channel_count(device);
    put_object(",\"device\":", &channels, &[&devices(device)], writer)
}

// Writes a channel behind what stands before it.
fn put_channel<W: Write>(
    answer: &Answer,
    place: usize,
    channel: &Channel,
    writer: &mut W,
) -> Result<(), WriteFault>
    ensures { Writes (W.contents writer.old) (W.contents writer.new) result (comma_before place ++ channel_object answer.now channel.now) }
{
    let busy = column("busy_ps", Cell::Number(u128::from(channel.busy)));
    let part = Cell::decimal(answer.utilization_of(channel), Places::Five);
    put_object(
        comma_before(place),
        &busy,
        &[&[column("utilization", part)]],
        writer,
    )
}

// Writes channels with commas between them.
fn put_list<W: Write>(
    answer: &Answer,
    channels: &[Channel],
    writer: &mut W,
) -> Result<(), WriteFault>
    ensures { Writes (W.contents writer.old) (W.contents writer.new) result (listed (λ place channel. channel_object answer.now channel) channels.now) }
{
    for (place, channel) in channels.iter().enumerate() {
        put_channel(answer, place, channel, writer)?;
    }
    Ok(())
}

// Writes for which part of the time all channels ran commands.
fn put_utilization<W: Write>(answer: &Answer, writer: &mut W) -> Result<(), WriteFault>
    ensures { Writes (W.contents writer.old) (W.contents writer.new) result (utilization_text answer.now) }
{
    let part = Cell::decimal(answer.utilization(), Places::Five);
    put_members(",", &column("utilization", part), &[], writer)
}

// Writes the channels.
fn put_channels<W: Write>(answer: &Answer, writer: &mut W) -> Result<(), WriteFault>
    ensures { Writes (W.contents writer.old) (W.contents writer.new) result (channels_text answer.now) }
{
    put(b",\"channels\":[", writer)?;
    put_list(answer, answer.channels, writer)
}

// Writes how fair the queues were served.
fn put_fairness<W: Write>(answer: &Answer, writer: &mut W) -> Result<(), WriteFault>
    ensures { Writes (W.contents writer.old) (W.contents writer.new) result (fairness_text answer.now) }
{
    let jain = column("jain", Cell::decimal(answer.jain, Places::Four));
    let by_weight = Cell::decimal(answer.jain_by_weight, Places::Four);
    put_members(
        "],",
        &jain,
        &[&[column("jain_by_weight", by_weight)]],
        writer,
    )
}

// Writes a row under its first members, which stand behind what is before them.
fn put_row<'a, W: Write>(
    before: &str,
    first: &Field<'a>,
    firsts: &[Field<'a>],
    row: &Row,
    writer: &mut W,
) -> Result<(), WriteFault>
    ensures { Writes (W.contents writer.old) (W.contents writer.new) result
        (before.now ++ json_object (named_of first.now ∷ (map named_of firsts.now ++ numbers row.now))) }
{
    let others: [&[Field]; 6] = [
        &*firsts,
        &rates(row),
        &latencies(&row.spread),
        &parts(&row.spread),
        &feeds(&row.fed),
        &aboves(&row.spread),
    ];
    put_object(before, first, &others, writer)
}

// The name of a class.
fn class<'a>(class: Class) -> Field<'a>
    ensures { named_of result ≡ class_column class }
{
    Field {
        name: "class",
        cell: Cell::Word(class_name(class)),
    }
}

// Writes a queue behind what stands before it.
fn put_queue<W: Write>(place: usize, queue: &Member, writer: &mut W) -> Result<(), WriteFault>
    ensures { Writes (W.contents writer.old) (W.contents writer.new) result (comma_before place ++ queue_object place queue.now) }
{
    let number = column("queue", Cell::Number(place as u128 + 1));
    let firsts = [class(queue.class), commands(&queue.row)];
    put_row(comma_before(place), &number, &firsts, &queue.row, writer)
}

// Writes queues with commas between them.
fn list_queues<W: Write>(queues: &[Member], writer: &mut W) -> Result<(), WriteFault>
    ensures { Writes (W.contents writer.old) (W.contents writer.new) result (listed queue_object queues.now) }
{
    for (place, queue) in queues.iter().enumerate() {
        put_queue(place, queue, writer)?;
    }
    Ok(())
}

// Writes a class behind what stands before it.
fn put_class<W: Write>(place: usize, member: &Member, writer: &mut W) -> Result<(), WriteFault>
    ensures { Writes (W.contents writer.old) (W.contents writer.new) result (comma_before place ++ class_object member.now) }
{
    let class = class(member.class);
    let firsts = [commands(&member.row)];
    put_row(comma_before(place), &class, &firsts, &member.row, writer)
}

// Writes classes with commas between them.
fn list_classes<W: Write>(classes: &[Member], writer: &mut W) -> Result<(), WriteFault>
    ensures { Writes (W.contents writer.old) (W.contents writer.new) result (listed (λ place m. class_object m) classes.now) }
{
    for (place, class) in classes.iter().enumerate() {
        put_class(place, class, writer)?;
    }
    Ok(())
}

// Writes the queues.
fn put_queues<W: Write>(queues: &[Member], writer: &mut W) -> Result<(), WriteFault>
    ensures { Writes (W.contents writer.old) (W.contents writer.new) result (queues_text queues.now) }
{
    put(b",\"queues\":[", writer)?;
    list_queues(queues, writer)
}

// Writes the classes.
fn put_classes<W: Write>(classes: &[Member], writer: &mut W) -> Result<(), WriteFault>
    ensures { Writes (W.contents writer.old) (W.contents writer.new) result (classes_text classes.now) }
{
    put(b"],\"classes\":[", writer)?;
    list_classes(classes, writer)
}

// Writes the row of all.
fn put_all<W: Write>(row: &Row, writer: &mut W) -> Result<(), WriteFault>
    ensures { Writes (W.contents writer.old) (W.contents writer.new) result (all_text row.now) }
{
    let commands = commands(row);
    put_row("],\"all\":", &commands, &[], row, writer)
}

/// Writes one object for tools, but for the brace that ends it.
pub fn put_open_object<W: Write>(answer: &Answer, writer: &mut W) -> Result<(), WriteFault>
    ensures { Writes (W.contents writer.old) (W.contents writer.new) result (answer_open_json answer.now) }
{
    put_about(answer, writer)?;
    put_device(&answer.asked.device, writer)?;
    put_utilization(answer, writer)?;
    put_channels(answer, writer)?;
    put_fairness(answer, writer)?;
    put_queues(&answer.queues, writer)?;
    put_classes(&answer.classes, writer)?;
    put_all(&answer.all, writer)
}

/// Writes one object for tools.
pub fn put_answer<W: Write>(answer: &Answer, writer: &mut W) -> Result<(), WriteFault>
    ensures { Writes (W.contents writer.old) (W.contents writer.new) result (answer_json answer.now) }
{
    put_open_object(answer, writer)?;
    put(b"}\n", writer)
}
