ghost use Rattle.std.specs.Prelude.{◌≡◌, IfOk, string_bytes};
ghost use Rattle.tool_base.specs.Texts.{record_line, wrong_set_line, absent_line, index_range_line, words_short_line, query_line, bad_records_line, database_line, bad_frame_line, peer_refused_line, reply_line, too_noisy_line, report_line, report_row_line};

use std::alloc::{AllocError, Global};

/// The line that says how long the written record is.
pub fn record_text(alloc: Global, length: u32) -> Result<String, AllocError>
    ensures { IfOk result (λ text. string_bytes text ≡ record_line length) }
{
    format!(in alloc; "record {length} bytes\n")
}

/// The line that says of which set the state is, and of which other one the reply.
pub fn wrong_set_text(alloc: Global, expected: &str, found: &str) -> Result<String, AllocError>
    ensures { IfOk result (λ text. string_bytes text ≡ wrong_set_line expected.now found.now) }
{
    format!(in alloc; "wrong set: expected {expected}, found {found}\n")
}

/// The line that says that the asked index isn't below the count.
pub fn absent_text(alloc: Global, index: u32, count: u32) -> Result<String, AllocError>
    ensures { IfOk result (λ text. string_bytes text ≡ absent_line index count) }
{
    format!(in alloc; "absent: index {index}, count {count}\n")
}

/// The line that says that an index isn't below the count of records that the set has at most.
pub fn index_range_text(alloc: Global, index: u32, bound: u64) -> Result<String, AllocError>
    ensures { IfOk result (λ text. string_bytes text ≡ index_range_line index bound) }
{
    format!(in alloc; "index {index} is not below {bound}\n")
}

/// The line that says how many words are needed, and how many the source holds.
pub fn words_short_text(alloc: Global, needed: u64, held: usize) -> Result<String, AllocError>
    ensures { IfOk result (λ text. string_bytes text ≡ words_short_line needed held) }
{
    format!(in alloc; "words short: need {needed}, have {held}\n")
}

/// The line that says which row, counted from 1, is the first whose noise is too large, and its noise.
pub fn too_noisy_text(alloc: Global, row: u32, noise: u128) -> Result<String, AllocError>
    ensures { IfOk result (λ text. string_bytes text ≡ too_noisy_line row noise) }
{
    format!(in alloc; "too noisy: row {row}, noise {noise}\n")
}

/// The line that a report of noise begins with.
pub fn report_text(alloc: Global, set: &str, index: u32, count: usize) -> Result<String, AllocError>
    ensures { IfOk result (λ text. string_bytes text ≡ report_line set.now index count) }
{
    format!(in alloc; "set {set} index {index} rows {count}\n")
}

/// The line of a row of the report. A row has no left side where its noise is too large.
pub fn report_row_text(
    alloc: Global,
    row: u32,
    noise: u128,
    secret: u64,
    left: Option<u128>,
    right: u128,
) -> Result<String, AllocError>
    ensures { IfOk result (λ text. string_bytes text ≡ report_row_line row noise secret left right) }
{
    match left {
        Some(left) => {
            format!(in alloc; "row {row} noise {noise} secret {secret} left {left} right {right}\n")
        }
        None => format!(in alloc;
            "row {row} noise {noise} secret {secret} left over right {right}\n"
        ),
    }
}

/// The line that says of which set the query is, and how long the files of the setup and of the query are.
pub fn query_text(
    alloc: Global,
    set: &str,
    setup: usize,
    query: usize,
) -> Result<String, AllocError>
    ensures { IfOk result (λ text. string_bytes text ≡ query_line set.now setup query) }
{
    format!(in alloc; "query {set} setup {setup} bytes query {query} bytes\n")
}

/// The line that says why bytes are not the records of a database: by a code, the length of a record, and a number.
pub fn bad_records_text(
    alloc: Global,
    code: u8,
    length: u32,
    number: u64,
) -> Result<String, AllocError>
    ensures { IfOk result (λ text. string_bytes text ≡ bad_records_line code length number) }
{
    format!(in alloc; "bad records: code {code}, length {length}, number {number}\n")
}

/// The line that says of which set the database is, and how many records of which length it has.
pub fn database_text(
    alloc: Global,
    set: &str,
    count: u32,
    length: u32,
) -> Result<String, AllocError>
    ensures { IfOk result (λ text. string_bytes text ≡ database_line set.now count length) }
{
    format!(in alloc; "database {set} {count} records of {length} bytes\n")
}

/// The line that says which input, counted from 1, isn't the frame that is expected there: by a code, and where.
pub fn bad_frame_text(alloc: Global, input: u32, code: u8, place: u64) -> Result<String, AllocError>
    ensures { IfOk result (λ text. string_bytes text ≡ bad_frame_line input code place) }
{
    format!(in alloc; "bad frame: input {input}, code {code}, place {place}\n")
}

/// The line that says that the server refused the query: by its code, and where in what it read.
pub fn peer_refused_text(alloc: Global, code: u8, place: u64) -> Result<String, AllocError>
    ensures { IfOk result (λ text. string_bytes text ≡ peer_refused_line code place) }
{
    format!(in alloc; "peer refused: code {code}, place {place}\n")
}

/// The line that says of which set the reply is, and how long its file is.
pub fn reply_text(alloc: Global, set: &str, length: usize) -> Result<String, AllocError>
    ensures { IfOk result (λ text. string_bytes text ≡ reply_line set.now length) }
{
    format!(in alloc; "reply {set} {length} bytes\n")
}
