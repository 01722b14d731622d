ghost use Rattle.std.specs.Prelude.{◌≡◌, IfOk};
ghost use Rattle.spiral_frames.specs.Frames.{frame_of, database_message};

use crate::Database;
use frame_headers::{FrameKind, push_header};
use no_memory::NoMemory;
use std::alloc::Global;

/// The frame of a database: its header, the count and the length in 8 bytes each, the least first, and the records.
pub(crate) fn encode(alloc: Global, db: &Database) -> Result<Vec<u8>, NoMemory>
    ensures { IfOk result (λ out. out.items ≡ frame_of (database_message db.now)) }
{
    let mut out = Vec::new(alloc);
    push_header(
        &mut out,
        FrameKind::Database.code(),
        &db.set,
        16 + db.records.len() as u64,
    )?;
    out.extend_from_slice(&u64::from(db.count()).to_le_bytes())?;
    out.extend_from_slice(&u64::from(db.length).to_le_bytes())?;
    out.extend_from_slice(&db.records)?;
    Ok(out)
}
