ghost use Rattle.std.specs.Prelude.{◌≡◌, ◌+◌, ◌-◌, ◌<◌, ◌^◌, ◌++◌, ◌||◌, ◌&&◌, ◌==◌, nat_lt, IsTrue, IfOk, min, length, take, drop};
ghost use Rattle.pir_io.specs.Link.{ReadsLink, WritesLink, EndsLink};
ghost use Rattle.tool_local.specs.BufferLinks.{buffer_seen, unused_buffer};

use no_memory::NoMemory;
use pir_io::{IoFault, Link};
use std::alloc::Global;

/// A link in memory, all whose input is at hand: it is always open, and its calls fail only for want of memory.
#[derive(Drop)]
pub(crate) struct BufferLink {
    input: Vec<u8>,
    /// how many bytes a read gives at most
    piece: usize,
    /// how many bytes of the input were read
    read: usize,
    wrote: Vec<u8>,
    ended: bool,
    closed: bool,
}

/// Copies the bytes of the input behind the `read` that were read: at most `piece`, and as many as there are and as `into` has
/// room for.
fn next_piece(input: &[u8], read: usize, piece: usize, into: &mut [u8]) -> usize
    ensures count { result ≡ min (min piece (length into.new)) (length input.now - read) }
    ensures bytes { take result into.new ≡ take result (drop read input.now) }
    ensures fits { read + result < 2 ^ 64 }
{
    if read >= input.len() {
        return 0;
    }
    let count = into.len().min(piece).min(input.len() - read);
    into[..count].copy_from_slice(&input[read..read + count]);
    count
}

/// Whether the input has ended after a read of `count` bytes into a buffer with this room.
fn ended_after(ended: bool, count: usize, room: usize) -> bool
    ensures { result ≡ (ended || (count == 0 && nat_lt 0 room)) }
{
    ended || (count == 0 && room > 0)
}

impl BufferLink {
    /// Nothing was read or written yet.
    pub(crate) fn new(alloc: Global, input: Vec<u8>, piece: usize) -> BufferLink
        ensures { buffer_seen result ≡ unused_buffer input.items piece }
    {
        BufferLink {
            input,
            piece,
            read: 0,
            wrote: Vec::new(alloc),
            ended: false,
            closed: false,
        }
    }

    /// Whether all its input was read.
    pub(crate) fn is_read(&self) -> bool
        ensures { IsTrue result → (buffer_seen self.now).took ≡ self.now.input.items }
    {
        self.read >= self.input.len()
    }

    /// What was written so far.
    pub(crate) fn wrote(&self) -> &[u8]
        ensures { result.now ≡ self.now.wrote.items }
    {
        &self.wrote
    }

    /// Its input, and what was written behind it.
    pub(crate) fn into_transcript(self) -> Result<Vec<u8>, NoMemory>
        ensures { IfOk result (λ bytes. bytes.items ≡ self.input.items ++ self.wrote.items) }
    {
        let Self {
            mut input,
            wrote,
            ..
        } = self;
        input.extend_from_slice(&wrote)?;
        Ok(input)
    }
}

impl Link for BufferLink {
    ghost seen = { buffer_seen };

    fn read(&mut self, into: &mut [u8]) -> Result<usize, IoFault>
        ensures { ReadsLink (buffer_seen self.old) (buffer_seen self.new) into.old into.new result }
    {
        let count = next_piece(&self.input, self.read, self.piece, into);
        self.read += count;
        self.ended = ended_after(self.ended, count, into.len());
        Ok(count)
    }

    fn write(&mut self, bytes: &[u8]) -> Result<(), IoFault>
        ensures { WritesLink (buffer_seen self.old) (buffer_seen self.new) bytes.now result }
    {
        self.wrote.extend_from_slice(bytes)?;
        Ok(())
    }

    fn end(&mut self) -> Result<(), IoFault>
        ensures { EndsLink (buffer_seen self.old) (buffer_seen self.new) result }
    {
        self.closed = true;
        Ok(())
    }
}
