ghost use Rattle.std.specs.Prelude.{◌≡◌, ◌++◌, IfOk, OnOk};
ghost use Rattle.std.specs.List.{flat_map};
ghost use Rattle.tool_base.specs.Steps.{scene};
ghost use Rattle.tool_base.specs.Words.{noise_seen};
ghost use Rattle.tool_files.specs.Noise.{noises};
ghost use Rattle.tool_files.specs.SeenRows.{seen_line, SeenLines};

use crate::words_given::given_words;
use noise_check::{Report, fits};
use pir_client::measure_for;
use pir_io::{Files, Sink};
use std::alloc::{AllocError, Global};
use tool_base::{Noise, Status, finish, report_row_text, report_text};

/// Reports the noise of the query that random words give for an index, and whether Fits holds of it.
pub fn noise_files<F: Files, O: Sink>(
    alloc: Global,
    files: &mut F,
    sink: &mut O,
    noise: &Noise<'_>,
) -> Status
    ensures { noises (noise_seen noise.now) (scene (F.seen files.old) (F.seen files.new) (O.seen sink.old) (O.seen sink.new)) result }
{
    let given = match given_words(alloc, files, sink, noise.set, noise.index, noise.source) {
        Ok(given) => given,
        Err(status) => return status,
    };
    // The index and the words were checked: only memory can be wanting.
    let Ok(report) = measure_for(alloc, &given.set, noise.index, &given.words) else {
        return Status::NoMemory;
    };
    let Ok(lines) = lines_of(alloc, noise.set, noise.index, &report) else {
        return Status::NoMemory;
    };
    finish(sink, &lines)
}

// Appends the line of each row of a report.
fn push_rows(alloc: Global, report: &Report, lines: &mut Vec<u8>) -> Result<(), AllocError>
    ensures { OnOk result (lines.new.items ≡ lines.old.items ++ flat_map seen_line report.now.rows.items) }
{
    for row in &report.rows {
        let line = report_row_text(alloc, row.row, row.noise, row.secret, row.left, row.right)?;
        lines.extend_from_slice(line.as_bytes())?;
    }
    Ok(())
}

// The lines of a report.
fn lines_of(alloc: Global, set: &str, index: u32, report: &Report) -> Result<Vec<u8>, AllocError>
    ensures { IfOk result (λ lines. SeenLines set.now index report.now lines.items) }
{
    let mut lines = Vec::new(alloc);
    let first = report_text(alloc, set, index, report.rows.len())?;
    lines.extend_from_slice(first.as_bytes())?;
    push_rows(alloc, report, &mut lines)?;
    let last: &[u8] = if fits(report) {
        b"fits yes\n"
    } else {
        b"fits no\n"
    };
    lines.extend_from_slice(last)?;
    Ok(lines)
}
