// An answer as comma-separated values.
ghost use Rattle.std.specs.Prelude.{◌≡◌, map};
ghost use Rattle.std.specs.List.{flat_map};
ghost use Rattle.nvme_cells.specs.Rows.{csv_values, named_of};
ghost use Rattle.nvme_numbers.specs.Sheets.{answer_csv, line_of_all, line_of_class, line_of_queue, origins, placed, seed_of};
ghost use Rattle.nvme_numbers.specs.inside.Lines.{fields_of, line_text, scope_fields, total_fields};
ghost use Rattle.nvme_output.specs.Written.{Writes};

use super::{Answer, Member};
use crate::columns::{aboves, column, commands, feeds, latencies, parts, rates};
use crate::names::class_name;
use crate::row::Row;
use nvme_arbiter::Class;
use nvme_cells::{Cell, Field, Places, put_names, put_values};
use nvme_output::WriteFault;
use std::io::Write;

// What of a line is written.
#[derive(Clone, Copy)]
enum Line {
    Names,
    Values,
}

// Of which commands a line tells.
#[derive(Clone, Copy)]
enum Scope {
    // Those of the queue at a place.
    Queue(usize, Class),
    // Those of the queues of a class.
    Class(Class),
    All,
}

// The seed of the simulation.
fn seed<'a>(answer: &Answer) -> Field<'a>
    ensures { named_of result ≡ seed_of answer.now }
{
    column("seed", Cell::Number(u128::from(answer.asked.seed)))
}

// Which program simulated what.
fn origins<'a>(answer: &Answer<'a>) -> [Field<'a>; 2]
    ensures { map named_of result ≡ origins answer.now }
{
    [
        column("version", Cell::Word(answer.about.version)),
        column("digest", Cell::Word(answer.about.digest)),
    ]
}

// Of which commands a line tells.
fn scopes<'a>(scope: Scope) -> [Field<'a>; 3]
    ensures { map named_of result ≡ scope_fields scope }
{
    let (word, name, class) = match scope {
        Scope::Queue(place, class) => {
            let number = Cell::Number(place as u128 + 1);
            ("queue", number, Cell::Word(class_name(class)))
        }
        Scope::Class(class) => {
            let name = Cell::Word(class_name(class));
            ("class", name, name)
        }
        Scope::All => ("all", Cell::Word("all"), Cell::Empty),
    };
    [
        column("scope", Cell::Word(word)),
        column("name", name),
        column("class", class),
    ]
}

// What the line of all alone tells.
fn totals<'a>(answer: &Answer, scope: Scope) -> [Field<'a>; 3]
    ensures { map named_of result ≡ total_fields answer.now scope }
{
    let [busy, jain, by_weight] = match scope {
        Scope::Queue(..) | Scope::Class(_) => [Cell::Empty; 3],
        Scope::All => [
            Cell::decimal(answer.utilization(), Places::Five),
            Cell::decimal(answer.jain, Places::Four),
            Cell::decimal(answer.jain_by_weight, Places::Four),
        ],
    };
    [
        column("utilization", busy),
        column("jain", jain),
        column("jain_by_weight", by_weight),
    ]
}

// Writes a line.
fn put_line<W: Write>(
    line: Line,
    answer: &Answer,
    scope: Scope,
    row: &Row,
    writer: &mut W,
) -> Result<(), WriteFault>
    ensures { Writes (W.contents writer.old) (W.contents writer.new) result (line_text line (fields_of answer.now scope row.now)) }
{
    let seed = seed(answer);
    let others: [&[Field]; 9] = [
        &origins(answer),
        &scopes(scope),
        &[commands(row)],
        &rates(row),
        &latencies(&row.spread),
        &parts(&row.spread),
        &totals(answer, scope),
        &feeds(&row.fed),
        &aboves(&row.spread),
    ];
    match line {
        Line::Names => put_names(&seed, &others, writer),
        Line::Values => put_values(&seed, &others, writer),
    }
}

// Writes the line of a queue.
fn put_queue<W: Write>(
    answer: &Answer,
    place: usize,
    queue: &Member,
    writer: &mut W,
) -> Result<(), WriteFault>
    ensures { Writes (W.contents writer.old) (W.contents writer.new) result (csv_values (line_of_queue answer.now place queue.now)) }
{
    let scope = Scope::Queue(place, queue.class);
    put_line(Line::Values, answer, scope, &queue.row, writer)
}

// Writes the lines of the queues.
fn put_queues<W: Write>(
    answer: &Answer,
    queues: &[Member],
    writer: &mut W,
) -> Result<(), WriteFault>
    ensures { Writes (W.contents writer.old) (W.contents writer.new) result
        (placed (λ place m. csv_values (line_of_queue answer.now place m)) 0 queues.now) }
{
    for (place, queue) in queues.iter().enumerate() {
        put_queue(answer, place, queue, writer)?;
    }
    Ok(())
}

// Writes the line of a class.
fn put_class<W: Write>(answer: &Answer, class: &Member, writer: &mut W) -> Result<(), WriteFault>
    ensures { Writes (W.contents writer.old) (W.contents writer.new) result (csv_values (line_of_class answer.now class.now)) }
{
    let scope = Scope::Class(class.class);
    put_line(Line::Values, answer, scope, &class.row, writer)
}

// Writes the lines of the classes.
fn put_classes<W: Write>(
    answer: &Answer,
    classes: &[Member],
    writer: &mut W,
) -> Result<(), WriteFault>
    ensures { Writes (W.contents writer.old) (W.contents writer.new) result
        (flat_map (λ m. csv_values (line_of_class answer.now m)) classes.now) }
{
    for class in classes {
        put_class(answer, class, writer)?;
    }
    Ok(())
}

// Writes the line of all, which alone has what is told of all together.
fn put_all<W: Write>(line: Line, answer: &Answer, writer: &mut W) -> Result<(), WriteFault>
    ensures { Writes (W.contents writer.old) (W.contents writer.new) result (line_text line (line_of_all answer.now)) }
{
    put_line(line, answer, Scope::All, &answer.all, writer)
}

/// Writes the lines.
pub fn put_sheet<W: Write>(answer: &Answer, writer: &mut W) -> Result<(), WriteFault>
    ensures { Writes (W.contents writer.old) (W.contents writer.new) result (answer_csv answer.now) }
{
    put_all(Line::Names, answer, writer)?;
    put_queues(answer, &answer.queues, writer)?;
    put_classes(answer, &answer.classes, writer)?;
    put_all(Line::Values, answer, writer)
}
