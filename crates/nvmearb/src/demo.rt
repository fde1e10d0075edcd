// `nvmearb demo`: a workload, its picks and its shares, without a file.
ghost use Rattle.std.specs.Prelude.{◌≤◌};

use crate::kept::Kept;
use crate::telling::no_memory;
use nvme_sim::command;
use std::alloc::{AllocError, Global};
use std::io::{self, Write};
use std::sync::Wait;
use std::thread::Threads;

const WORKLOAD: &str = r#"version = 1
mechanism = "weighted"
burst = 4
weights = { high = 8, medium = 4, low = 2 }
[[queue]]
class = "high"
script = [{ op = "read", count = 24 }]
[[queue]]
class = "medium"
script = [{ op = "read", count = 12 }]
[[queue]]
class = "low"
script = [{ op = "read", count = 6 }]
"#;

const PICKS: &str = "
A queue of each level: in a round a level gets at most as many commands as its weight, and a
pick takes at most 4 (burst). These are the picks; fresh starts a new round:
";

const SHARES: &str = "
In numbers, the commands that create the queues included:
";

const NEXT: &str = "
Write the workload into demo.toml, and go on:
  nvmearb trace demo.toml -o demo.jsonl
  nvmearb chart demo.jsonl -o demo.svg    the same as a picture
  nvmearb check demo.jsonl                is each pick the one that is due?
  nvmearb help workload                   what else a workload may say
";

/// The words ask for the demonstration.
pub(crate) fn is_asked(words: &[String]) -> bool {
    match words {
        [_, word] => word.as_str() == "demo",
        _ => false,
    }
}

// The words of a subcommand that reads standard input.
fn words_of(alloc: Global, subcommand: &str) -> Result<Vec<String>, AllocError> {
    let mut words = Vec::new(alloc);
    for word in ["nvmearb", subcommand, "-"] {
        words.push(String::from_str(alloc, word)?)?;
    }
    Ok(words)
}

// What the program answers to a subcommand over this input. `None` where it fails.
fn answer_of<T: Threads + Wait + Sync>(
    rt: &T,
    alloc: Global,
    subcommand: &str,
    input: &[u8],
) -> Option<Kept> {
    let Ok(words) = words_of(alloc, subcommand) else {
        return None;
    };
    let (mut answer, mut errors) = (Kept::new(alloc), Kept::new(alloc));
    let status = command(rt, alloc, words.as_slice(), input, &mut answer, &mut errors);
    if status == 0 { Some(answer) } else { None }
}

// Writes the picks of I/O queues in a report.
fn put_picks<W: Write>(report: &[u8], output: &mut W) -> io::Result<()> {
    for line in report.split(|byte| *byte == b'\n') {
        if line.starts_with(b"pick ") && !line.starts_with(b"pick q0 ") {
            output.write_all(b"  ")?;
            output.write_all(line)?;
            output.write_all(b"\n")?;
        }
    }
    Ok(())
}

// Writes the demonstration by its report and its statistics.
fn put_demo<W: Write>(report: &[u8], statistics: &[u8], output: &mut W) -> io::Result<()> {
    output.write_all(WORKLOAD.as_bytes())?;
    output.write_all(PICKS.as_bytes())?;
    put_picks(report, output)?;
    output.write_all(SHARES.as_bytes())?;
    output.write_all(statistics)?;
    output.write_all(NEXT.as_bytes())
}

// The report of the workload, and the statistics of its trace.
fn answers<T: Threads + Wait + Sync>(rt: &T, alloc: Global) -> Option<(Kept, Kept)> {
    let report = answer_of(rt, alloc, "run", WORKLOAD.as_bytes())?;
    let trace = answer_of(rt, alloc, "trace", WORKLOAD.as_bytes())?;
    let statistics = answer_of(rt, alloc, "stats", trace.answer()?)?;
    Some((report, statistics))
}

/// Shows the demonstration. The answer is the exit status: nothing of it fails but for memory and the write.
pub(crate) fn show<T: Threads + Wait + Sync, W: Write, E: Write>(
    rt: &T,
    alloc: Global,
    output: &mut W,
    errors: &mut E,
) -> u8
    ensures { result ≤ 4 }
{
    let Some((report, statistics)) = answers(rt, alloc) else {
        return no_memory(errors);
    };
    let (Some(report), Some(statistics)) = (report.answer(), statistics.answer()) else {
        return no_memory(errors);
    };
    match put_demo(report, statistics, output) {
        Ok(()) => 0,
        Err(_) => {
            let _ = writeln!(errors, "nvmearb: write failed");
            3
        }
    }
}
