ghost use Rattle.std.specs.Prelude.{◌≡◌, ◌<◌, ◌+◌, ◌-◌, ◌^◌, ◌||◌, ◌&&◌, ◌==◌, nat_lt, min, length, take, drop};

use crate::contents::copy_piece;

/// Copies the bytes of the input behind the `read` that were read: at most `piece`, and as many as there are and as
/// `into` has room for.
pub(crate) fn next_piece(input: &[u8], read: usize, piece: usize, into: &mut [u8]) -> usize
    ensures count { result ≡ min (min piece (length into.new)) (length input.now - read) }
    ensures bytes { take result into.new ≡ take result (drop read input.now) }
    ensures fits { read + result < 2 ^ 64 }
{
    let room = into.len().min(piece);
    copy_piece(input, read as u64, &mut into[..room])
}

/// Whether the input has ended after a read of `count` bytes into a buffer with this room.
pub(crate) fn ended_after(ended: bool, count: usize, room: usize) -> bool
    ensures { result ≡ (ended || (count == 0 && nat_lt 0 room)) }
{
    ended || (count == 0 && room > 0)
}
