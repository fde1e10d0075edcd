// Rows as comma-separated values, and as members of a JSON object.
ghost use Rattle.std.specs.Prelude.{◌≡◌, ◌++◌, ◌∷◌, codes, map};
ghost use Rattle.std.specs.List.{flat_map};
ghost use Rattle.nvme_cells.specs.Rows.{commas, csv_names, csv_values, json_member, json_members, json_object, named, named_of};
ghost use Rattle.nvme_cells.specs.Values.{value_of};
ghost use Rattle.nvme_cells.specs.inside.Forms.{form_behind, form_text};
ghost use Rattle.nvme_output.specs.Written.{Writes};

use crate::cell::{Cell, Marks, put_cell};
use crate::json::{put_json, put_string};
use nvme_output::{WriteFault, put};
use std::io::Write;

// Nothing stands for nothing, and a percentage is its number.
const MARKS: Marks = Marks {
    none: "",
    percent: "",
};

/// A cell and its name.
#[derive(Clone, Copy)]
pub struct Field<'a> {
    pub name: &'a str,
    pub cell: Cell<'a>,
}

impl<'a> Field<'a> {
    /// A cell of this name.
    pub fn of(name: &'a str, cell: Cell<'a>) -> Field<'a>
        ensures { named_of result ≡ named name.now (value_of cell.entry) }
    {
        Field { name, cell }
    }
}

// What of a field is written.
#[derive(Clone, Copy)]
enum Form {
    // The name, as it is.
    Name,
    // The value in a sheet.
    Value,
    // The name as a key of an object, and the value.
    Member,
}

// Writes a key and its value.
fn put_member<W: Write>(field: &Field, writer: &mut W) -> Result<(), WriteFault>
    ensures { Writes (W.contents writer.old) (W.contents writer.new) result (json_member (named_of field.now)) }
{
    put_string(field.name, writer)?;
    put(b":", writer)?;
    put_json(&field.cell, writer)
}

// Writes what is written of a field.
fn put_one<W: Write>(form: Form, field: &Field, writer: &mut W) -> Result<(), WriteFault>
    ensures { Writes (W.contents writer.old) (W.contents writer.new) result (form_text form (named_of field.now)) }
{
    match form {
        Form::Name => put(field.name.as_bytes(), writer),
        Form::Value => put_cell(&field.cell, &MARKS, writer),
        Form::Member => put_member(field, writer),
    }
}

// Writes a field behind a comma.
fn put_next<W: Write>(form: Form, field: &Field, writer: &mut W) -> Result<(), WriteFault>
    ensures { Writes (W.contents writer.old) (W.contents writer.new) result (form_behind form field.now) }
{
    put(b",", writer)?;
    put_one(form, field, writer)
}

// Writes fields, each behind a comma.
fn put_part<W: Write>(form: Form, part: &[Field], writer: &mut W) -> Result<(), WriteFault>
    ensures { Writes (W.contents writer.old) (W.contents writer.new) result (flat_map (form_behind form) part.now) }
{
    for field in part {
        put_next(form, field, writer)?;
    }
    Ok(())
}

// Writes the fields of parts, each behind a comma.
fn put_parts<W: Write>(form: Form, parts: &[&[Field]], writer: &mut W) -> Result<(), WriteFault>
    ensures { Writes (W.contents writer.old) (W.contents writer.new) result (flat_map (λ part. flat_map (form_behind form) part.now) parts.now) }
{
    for part in parts {
        put_part(form, part, writer)?;
    }
    Ok(())
}

// Writes fields with commas between them.
fn put_joined<W: Write>(
    form: Form,
    first: &Field,
    parts: &[&[Field]],
    writer: &mut W,
) -> Result<(), WriteFault>
    ensures { Writes (W.contents writer.old) (W.contents writer.new) result
        (commas (form_text form) (named_of first.now ∷ flat_map (λ part. map named_of part.now) parts.now)) }
{
    put_one(form, first, writer)?;
    put_parts(form, parts, writer)
}

/// Writes the line of the names of a sheet: that of the first field, and those of the others, which stand in parts. Names are
/// written as they are, so they have no comma, quote or line end. `WriteFault` where a write failed.
pub fn put_names<W: Write>(
    first: &Field,
    parts: &[&[Field]],
    writer: &mut W,
) -> Result<(), WriteFault>
    ensures { Writes (W.contents writer.old) (W.contents writer.new) result
        (csv_names (named_of first.now ∷ flat_map (λ part. map named_of part.now) parts.now)) }
{
    put_joined(Form::Name, first, parts, writer)?;
    put(b"\n", writer)
}

/// Writes a line of a sheet. Words are written as they are. `WriteFault` where a write failed.
pub fn put_values<W: Write>(
    first: &Field,
    parts: &[&[Field]],
    writer: &mut W,
) -> Result<(), WriteFault>
    ensures { Writes (W.contents writer.old) (W.contents writer.new) result
        (csv_values (named_of first.now ∷ flat_map (λ part. map named_of part.now) parts.now)) }
{
    put_joined(Form::Value, first, parts, writer)?;
    put(b"\n", writer)
}

/// Writes members of a JSON object, without its braces, behind what stands before them. `WriteFault` where a write failed.
pub fn put_members<W: Write>(
    before: &str,
    first: &Field,
    parts: &[&[Field]],
    writer: &mut W,
) -> Result<(), WriteFault>
    ensures { Writes (W.contents writer.old) (W.contents writer.new) result
        (before.now ++ json_members (named_of first.now ∷ flat_map (λ part. map named_of part.now) parts.now)) }
{
    put(before.as_bytes(), writer)?;
    put_joined(Form::Member, first, parts, writer)
}

// Writes a JSON object.
fn put_braced<W: Write>(first: &Field, parts: &[&[Field]], writer: &mut W) -> Result<(), WriteFault>
    ensures { Writes (W.contents writer.old) (W.contents writer.new) result
        (json_object (named_of first.now ∷ flat_map (λ part. map named_of part.now) parts.now)) }
{
    put_members("{", first, parts, writer)?;
    put(b"}", writer)
}

/// Writes a JSON object behind what stands before it. `WriteFault` where a write failed.
pub fn put_object<W: Write>(
    before: &str,
    first: &Field,
    parts: &[&[Field]],
    writer: &mut W,
) -> Result<(), WriteFault>
    ensures { Writes (W.contents writer.old) (W.contents writer.new) result
        (before.now ++ json_object (named_of first.now ∷ flat_map (λ part. map named_of part.now) parts.now)) }
{
    put(before.as_bytes(), writer)?;
    put_braced(first, parts, writer)
}
