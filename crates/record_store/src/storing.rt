ghost use Rattle.record_store.specs.Storing.{ReadsDatabase, WritesDatabase};

use crate::Database;
use crate::decoding::{decode, read_numbers};
use crate::encoding::encode;
use frame_headers::FrameError;
use no_memory::NoMemory;
use pir_io::{Files, IoFault};
use std::alloc::Global;
use thiserror::Error;

/// The most bytes that a header and the two numbers behind it have: 15 and a name of at most 255, and 16.
const FRONT_LEN: usize = 286;

/// Why a database was not read or written.
#[derive(Clone, Copy, Debug, PartialEq, Eq, Error)]
pub enum DbError {
    /// The file isn't the one frame of a database.
    #[error("the file is not the frame of a database")]
    Frame(FrameError),
    /// The file couldn't be read or written.
    #[error("the file could not be read or written")]
    File,
    /// Memory was wanting.
    #[error("memory was wanting")]
    NoMemory,
}

impl From<NoMemory> for DbError {
    ghost use Rattle.std.specs.Prelude.{◌≡◌};
    ghost use Rattle.record_store.specs.declared.storing.DbError.TheVariants.{NoMemory as out_of_memory};

    ghost from_gives = { λ _ e. e ≡ out_of_memory };

    fn from(_: NoMemory) -> Self {
        DbError::NoMemory
    }
}

impl From<FrameError> for DbError {
    ghost use Rattle.std.specs.Prelude.{◌≡◌};
    ghost use Rattle.record_store.specs.declared.storing.DbError.TheVariants.{Frame};

    ghost from_gives = { λ error e. e ≡ Frame error };

    fn from(error: FrameError) -> Self {
        DbError::Frame(error)
    }
}

impl From<IoFault> for DbError {
    ghost use Rattle.std.specs.Prelude.{◌≡◌};
    ghost use Rattle.record_store.specs.Storing.{error_of};

    ghost from_gives = { λ fault e. e ≡ error_of fault };

    fn from(fault: IoFault) -> Self {
        match fault {
            IoFault::Failed => DbError::File,
            IoFault::NoMemory => DbError::NoMemory,
        }
    }
}

/// Gives a name the frame of the database, and no other bytes.
pub fn write_db<F: Files>(
    alloc: Global,
    db: &Database,
    files: &mut F,
    name: &str,
) -> Result<(), DbError>
    ensures { WritesDatabase (F.seen files.old) (F.seen files.new) name.now db.now result }
{
    let frame = encode(alloc, db)?;
    pir_io::write_file(files, name, &frame)?;
    Ok(())
}

/// The database whose frame a name holds. The frame's first numbers are checked before its records are read, so that
/// no memory is taken for records that cannot be there.
pub fn read_db<F: Files>(alloc: Global, files: &mut F, name: &str) -> Result<Database, DbError>
    ensures { ReadsDatabase (F.seen files.old) (F.seen files.new) name.now result }
{
    let front = pir_io::read_front(alloc, files, name, FRONT_LEN)?;
    let frame_len = read_numbers(&front)?.frame_len();
    let bytes = pir_io::read_front(alloc, files, name, frame_len + 1)?;
    Ok(decode(bytes)?)
}
