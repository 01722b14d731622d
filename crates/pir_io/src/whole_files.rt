ghost use Rattle.std.specs.Prelude.{◌≡◌, ◌+◌, ◌<◌, ◌≤◌, ◌^◌, length, vec_len, IfOk};
ghost use Rattle.pir_io.specs.Reading.{ReadsFront, TakesPiece, WritesFile};

use crate::{Files, IoFault};
use std::alloc::{AllocError, Global};

/// The most bytes that are read at a time.
pub const PIECE: usize = 65536;

/// A buffer for one piece.
fn piece_buffer(alloc: Global) -> Result<Vec<u8>, AllocError>
    ensures { IfOk result (λ buffer. vec_len buffer ≡ PIECE) }
{
    vec![in alloc; 0u8; PIECE]
}

/// Reads the next piece of a file behind the bytes that were read before, and answers how many bytes came.
fn read_piece<F: Files>(
    files: &mut F,
    name: &str,
    buffer: &mut [u8],
    bytes: &mut Vec<u8>,
) -> Result<usize, IoFault>
    ensures { TakesPiece (F.seen files.old) (F.seen files.new) name.now (length buffer.old) bytes.old.items bytes.new.items result }
{
    let count = files.read_at(name, bytes.len() as u64, buffer)?;
    bytes.extend_from_slice(&buffer[..count])?;
    Ok(count)
}

/// Reads the front of a file, `limit` bytes at most, in pieces.
pub fn read_front<F: Files>(
    alloc: Global,
    files: &mut F,
    name: &str,
    limit: usize,
) -> Result<Vec<u8>, IoFault>
    ensures { ReadsFront (F.seen files.old) (F.seen files.new) name.now limit (λ v. v.items) result }
{
    let mut buffer = piece_buffer(alloc)?;
    let mut bytes = Vec::new(alloc);
    'pieces: while bytes.len() < limit {
        let room = PIECE.min(limit - bytes.len());
        if read_piece(files, name, &mut buffer[..room], &mut bytes)? == 0 {
            return Ok(bytes);
        }
    }
    Ok(bytes)
}

/// Gives a file these bytes and no others.
pub fn write_file<F: Files>(files: &mut F, name: &str, bytes: &[u8]) -> Result<(), IoFault>
    ensures { WritesFile (F.seen files.old) (F.seen files.new) name.now bytes.now result }
{
    files.create(name)?;
    files.append(name, bytes)?;
    Ok(())
}
