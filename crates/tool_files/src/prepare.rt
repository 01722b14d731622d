ghost use Rattle.std.specs.Prelude.{◌≡◌, ◌≤◌, ◌+◌, ◌*◌, IfOk, string_bytes};
ghost use Rattle.spiral_model.specs.Sets.{IsSet, max_records, capacity};
ghost use Rattle.spiral_model.specs.Databases.{record_count};
ghost use Rattle.spiral_frames.specs.Frames.{frame_of, database_message};
ghost use Rattle.tool_base.specs.Outputs.{one};
ghost use Rattle.tool_base.specs.Puts.{Refused};
ghost use Rattle.tool_base.specs.Steps.{scene, write};
ghost use Rattle.tool_base.specs.Texts.{database_line};
ghost use Rattle.tool_base.specs.Words.{prepare_seen};
ghost use Rattle.tool_files.specs.Reasons.{reason_line};
ghost use Rattle.tool_files.specs.Prepare.{prepares};

use pir_io::{Files, IoFault, Sink, read_front};
use record_store::{Database, DbError, PrepareError, check_length, write_db};
use spiral_sets::ParamSet;
use std::alloc::{AllocError, Global};
use tool_base::{
    FILE_FAULT, Prepare, Status, bad_records_text, database_text, find_set, finish, refuse,
    refuse_by_text,
};

/// Makes a database of the records in one file, and writes its frame to another.
pub fn prepare_files<F: Files, O: Sink>(
    alloc: Global,
    files: &mut F,
    sink: &mut O,
    prepare: &Prepare<'_>,
) -> Status
    ensures { prepares (prepare_seen prepare.now) (scene (F.seen files.old) (F.seen files.new) (O.seen sink.old) (O.seen sink.new)) result }
{
    let Some(set) = find_set(prepare.set) else {
        return refuse(sink, b"unknown set\n", Status::UnknownSet);
    };
    if let Err(error) = check_length(&set, prepare.length) {
        return refuse_records(alloc, sink, error);
    }
    let limit = input_limit(&set, prepare.length);
    let input = match read_front(alloc, files, prepare.input, limit) {
        Ok(input) => input,
        Err(IoFault::Failed) => return refuse(sink, FILE_FAULT, Status::FileFault),
        Err(IoFault::NoMemory) => return Status::NoMemory,
    };
    match record_store::prepare(&set, prepare.length, input) {
        Ok(db) => write_prepared(alloc, files, sink, prepare, &db),
        Err(error) => refuse_records(alloc, sink, error),
    }
}

// How many bytes of the input tell whether it is too long: one more than all records of that length have.
fn input_limit(set: &ParamSet, length: u32) -> usize
    requires known { IsSet set.now }
    requires fits { length ≤ capacity set.now }
    ensures { result ≡ max_records set.now * length + 1 }
{
    (set.max_records() * u64::from(length)) as usize + 1
}

// Ends a command whose bytes are not the records of a database.
fn refuse_records<O: Sink>(alloc: Global, sink: &mut O, error: PrepareError) -> Status
    ensures { Refused (O.seen sink.old) (O.seen sink.new) Status.BadRecords (reason_line error) result }
{
    refuse_by_text(sink, reason_text(alloc, error), Status::BadRecords)
}

// The line that tells why. The codes are those that a frame is refused with for the same reasons: 8 for the length of a
// record, 9 for their count, 10 for a size that is not theirs.
fn reason_text(alloc: Global, error: PrepareError) -> Result<String, AllocError>
    ensures { IfOk result (λ text. string_bytes text ≡ reason_line error) }
{
    match error {
        PrepareError::RecordLength { length, capacity } => {
            bad_records_text(alloc, 8, length, capacity)
        }
        PrepareError::TooMany { length, max } => bad_records_text(alloc, 9, length, max),
        PrepareError::Ragged { length, size } => bad_records_text(alloc, 10, length, size),
    }
}

// Writes a database to its file, and puts the line.
fn write_prepared<F: Files, O: Sink>(
    alloc: Global,
    files: &mut F,
    sink: &mut O,
    prepare: &Prepare<'_>,
    db: &Database,
) -> Status
    ensures { write (one prepare.now.db.now (frame_of (database_message db.now))) (database_line prepare.now.set.now (record_count db.now) db.now.record_length) (scene (F.seen files.old) (F.seen files.new) (O.seen sink.old) (O.seen sink.new)) result }
{
    let Ok(text) = database_text(alloc, prepare.set, db.count(), db.length) else {
        return Status::NoMemory;
    };
    match write_db(alloc, db, files, prepare.db) {
        Ok(()) => finish(sink, text.as_bytes()),
        Err(DbError::File) => refuse(sink, FILE_FAULT, Status::FileFault),
        Err(DbError::NoMemory) => Status::NoMemory,
        // No frame is refused where one is written.
        Err(DbError::Frame(_)) => Status::BadFrame,
    }
}
