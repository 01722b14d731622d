ghost use Rattle.std.specs.Prelude.{◌≡◌};
ghost use Rattle.spiral_model.specs.Sets.{IsSet};
ghost use Rattle.record_store.specs.Preparing.{ChecksLength, Prepares};

use crate::Database;
use spiral_sets::ParamSet;
use thiserror::Error;

/// Why bytes are not the records of a database.
#[derive(Clone, Copy, Debug, PartialEq, Eq, Error)]
pub enum PrepareError {
    #[error("the record length {length} is not from 1 to {capacity}")]
    RecordLength { length: u32, capacity: u64 },
    #[error("there are more than {max} records of {length} bytes")]
    TooMany { length: u32, max: u64 },
    #[error("{size} bytes are not whole records of {length} bytes")]
    Ragged { length: u32, size: u64 },
}

/// Whether records of the set may be so long: from one byte to the set's capacity.
pub fn check_length(set: &ParamSet, length: u32) -> Result<(), PrepareError>
    requires { IsSet set.now }
    ensures { ChecksLength set.now length result }
{
    let capacity = set.capacity();
    if length == 0 || u64::from(length) > capacity {
        return Err(PrepareError::RecordLength { length, capacity });
    }
    Ok(())
}

/// The database whose records are the input, cut into pieces of that length. It takes no memory.
pub fn prepare(set: &ParamSet, length: u32, input: Vec<u8>) -> Result<Database, PrepareError>
    requires { IsSet set.now }
    ensures { Prepares set.now length input.items result }
{
    check_length(set, length)?;
    let max = set.max_records();
    let size = input.len() as u64;
    if size > max * u64::from(length) {
        return Err(PrepareError::TooMany { length, max });
    }
    if size % u64::from(length) != 0 {
        return Err(PrepareError::Ragged { length, size });
    }
    Ok(Database {
        set: *set,
        length,
        records: input,
    })
}
