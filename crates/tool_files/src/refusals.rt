ghost use Rattle.spiral_model.specs.Sets.{IsSet, name_of};
ghost use Rattle.tool_base.specs.Puts.{Refused};
ghost use Rattle.tool_base.specs.Texts.{wrong_set_line};
ghost use Rattle.tool_files.specs.Refusing.{InputRefused, DatabaseRefused};

use crate::input::InputError;
use pir_io::Sink;
use record_store::DbError;
use spiral_sets::ParamSet;
use std::alloc::Global;
use tool_base::{FILE_FAULT, Status, bad_frame_text, refuse, refuse_by_text, wrong_set_text};

/// Ends a command whose input of that number, counted from 1, gave no message.
pub fn refuse_input<O: Sink>(alloc: Global, sink: &mut O, input: u32, error: InputError) -> Status
    ensures { InputRefused input (O.seen sink.old) (O.seen sink.new) error result }
{
    match error {
        InputError::File => refuse(sink, FILE_FAULT, Status::FileFault),
        InputError::Frame(error) => refuse_by_text(
            sink,
            bad_frame_text(alloc, input, error.code(), error.place()),
            Status::BadFrame,
        ),
        InputError::NoMemory => Status::NoMemory,
    }
}

/// Ends a command whose first input, a database, couldn't be read.
pub fn refuse_database<O: Sink>(alloc: Global, sink: &mut O, error: DbError) -> Status
    ensures { DatabaseRefused (O.seen sink.old) (O.seen sink.new) error result }
{
    match error {
        DbError::Frame(error) => refuse_by_text(
            sink,
            bad_frame_text(alloc, 1, error.code(), error.place()),
            Status::BadFrame,
        ),
        DbError::File => refuse(sink, FILE_FAULT, Status::FileFault),
        DbError::NoMemory => Status::NoMemory,
    }
}

/// Ends a command with a message of another set than an earlier one.
pub fn refuse_set<O: Sink>(
    alloc: Global,
    sink: &mut O,
    expected: &ParamSet,
    found: &ParamSet,
) -> Status
    requires expected { IsSet expected.now }
    requires found { IsSet found.now }
    ensures { Refused (O.seen sink.old) (O.seen sink.new) Status.WrongSet (wrong_set_line (name_of expected.now) (name_of found.now)) result }
{
    refuse_by_text(
        sink,
        wrong_set_text(alloc, expected.name(), found.name()),
        Status::WrongSet,
    )
}
