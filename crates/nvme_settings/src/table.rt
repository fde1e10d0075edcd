// What each field of settings means, as a text for people.
use nvme_arbiter::{Class, Settings};
use nvme_output::{Piece, WriteFault, put_line};
use std::io::Write;

// The spaces before a field of 8 bits that is right-aligned in three places.
fn padding(field: u32) -> &'static str {
    match field {
        0..=9 => "  ",
        10..=99 => " ",
        _ => "",
    }
}

// The weight of a level as it is counted.
fn weights_of(settings: &Settings) -> (u16, u16, u16) {
    let high = settings.weight(Class::High);
    let medium = settings.weight(Class::Medium);
    let low = settings.weight(Class::Low);
    (high, medium, low)
}

// Writes the line of the burst.
fn put_burst<W: Write>(cdw11: u32, writer: &mut W) -> Result<(), WriteFault> {
    let code = cdw11 % 8;
    let name = Piece::Words("bits 02:00  Arbitration Burst         ");
    let field = Piece::Number(u128::from(code));
    match Settings::from_cdw11(cdw11).burst() {
        Some(1) => put_line(
            &[
                name,
                field,
                Piece::Words("  a pick takes at most 1 command"),
            ],
            writer,
        ),
        Some(burst) => put_line(
            &[
                name,
                field,
                Piece::Words("  a pick takes at most "),
                Piece::Number(u128::from(burst)),
                Piece::Words(" commands, 2 to the power of "),
                field,
            ],
            writer,
        ),
        None => put_line(
            &[name, field, Piece::Words("  a pick has no limit")],
            writer,
        ),
    }
}

// Writes the line of the bits behind the burst.
fn put_reserved<W: Write>(cdw11: u32, writer: &mut W) -> Result<(), WriteFault> {
    let reserved = cdw11 / 8 % 32;
    let meaning = if reserved == 0 { "" } else { "  ignored" };
    put_line(
        &[
            Piece::Words("bits 07:03  Reserved                "),
            Piece::Words(padding(reserved)),
            Piece::Number(u128::from(reserved)),
            Piece::Words(meaning),
        ],
        writer,
    )
}

// Writes the line of a weight.
fn put_weight<W: Write>(name: &str, weight: u16, writer: &mut W) -> Result<(), WriteFault> {
    let field = weight.saturating_sub(1);
    let plural = if weight == 1 { "" } else { "s" };
    put_line(
        &[
            Piece::Words(name),
            Piece::Words(padding(u32::from(field))),
            Piece::Number(u128::from(field)),
            Piece::Words("  "),
            Piece::Number(u128::from(weight)),
            Piece::Words(" command"),
            Piece::Words(plural),
            Piece::Words(" a round, one more than the field"),
        ],
        writer,
    )
}

// Writes the line of the options that say these settings, in which the burst has these words.
fn put_options<W: Write>(
    burst: Piece,
    settings: &Settings,
    writer: &mut W,
) -> Result<(), WriteFault> {
    let (high, medium, low) = weights_of(settings);
    put_line(
        &[
            Piece::Words("options     --burst "),
            burst,
            Piece::Words(" --weights "),
            Piece::Number(u128::from(high)),
            Piece::Words(":"),
            Piece::Number(u128::from(medium)),
            Piece::Words(":"),
            Piece::Number(u128::from(low)),
        ],
        writer,
    )
}

// Writes the line of a short file's keys that say these settings, in which the burst has these words.
fn put_keys<W: Write>(burst: Piece, settings: &Settings, writer: &mut W) -> Result<(), WriteFault> {
    let (high, medium, low) = weights_of(settings);
    put_line(
        &[
            Piece::Words("short file  burst = "),
            burst,
            Piece::Words(", weights = { high = "),
            Piece::Number(u128::from(high)),
            Piece::Words(", medium = "),
            Piece::Number(u128::from(medium)),
            Piece::Words(", low = "),
            Piece::Number(u128::from(low)),
            Piece::Words(" }"),
        ],
        writer,
    )
}

/// Writes what Command Dword 11 of Set Features, Arbitration (01h), means: a line for each field, and then the words by
/// which `nvmearb settings` and a short workload file say these settings. `WriteFault` as `nvme_output::put`.
pub fn put_table<W: Write>(cdw11: u32, writer: &mut W) -> Result<(), WriteFault> {
    let settings = Settings::from_cdw11(cdw11);
    let (high, medium, low) = weights_of(&settings);
    let (option, key) = match settings.burst() {
        Some(burst) => (
            Piece::Number(u128::from(burst)),
            Piece::Number(u128::from(burst)),
        ),
        None => (Piece::Words("none"), Piece::Words("\"none\"")),
    };
    let head = "Set Features, Arbitration (01h), Command Dword 11: 0x";
    put_line(&[Piece::Words(head), Piece::Dword(cdw11)], writer)?;
    put_burst(cdw11, writer)?;
    put_reserved(cdw11, writer)?;
    put_weight("bits 15:08  Low Priority Weight     ", low, writer)?;
    put_weight("bits 23:16  Medium Priority Weight  ", medium, writer)?;
    put_weight("bits 31:24  High Priority Weight    ", high, writer)?;
    put_options(option, &settings, writer)?;
    put_keys(key, &settings, writer)
}
