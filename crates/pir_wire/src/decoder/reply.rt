ghost use Rattle.std.specs.Prelude.{◌≡◌, ◌*◌, ◌/◌, ◌^◌, ◌<◌, ◌≤◌, [], length, take, nat_eq, IfOk, IfSome, IfNone, OnErr};
ghost use Rattle.negacyclic.specs.Digits.{repacked};
ghost use Rattle.spiral_sets.specs.Sets.{IsSet, entries};
ghost use Rattle.frame_headers.specs.declared.kind.FrameKind.TheVariants as kinds;
ghost use Rattle.frame_headers.specs.Kinds.{body_len_of};
ghost use Rattle.frame_headers.specs.Checks.{refuses};
ghost use Rattle.spiral_model.specs.Replies.{IsSwitched};
ghost use Rattle.spiral_frames.specs.Frames.{kind_of, reply_message};
ghost use Rattle.frame_streams.specs.Heads.{found};
ghost use Rattle.pir_wire.specs.Bodies.{IsBodyOf};
ghost use Rattle.pir_wire.specs.BodyParts.{reply_bytes, IsReplyFront, IsReplyPart, Takes, PartTaken};
ghost use Rattle.pir_wire.specs.Messages.{message_seen};
ghost use Rattle.pir_wire.specs.Growing.{Grows};

use super::body::GrowError;
use super::in_frame::place_in_frame;
use crate::message::Message;
use bit_packing::unpack;
use frame_headers::{FrameError, number_at};
use modulus_switch::{Reply, SwitchedPoly};
use no_memory::NoMemory;
use spiral_sets::ParamSet;
use std::alloc::Global;
use std::marker::Model;

/// How many bytes the count and the record length have.
const FRONT: usize = 16;

/// The body of a Reply frame in the making: the count and the record length in 8 bytes each, the polynomials of rows 1 to n, row by row, their
/// numbers packed in log2(q1) bits, and those of row 0, packed in log2(q2) bits. Of the polynomial at hand it keeps the bytes, at most
/// 7680; a whole one becomes numbers. Only the count and the record length can be wrong.
pub(crate) struct ReplyRead {
    alloc: Global,
    set: ParamSet,
    /// the first bytes, at most 16
    front: Vec<u8>,
    /// the whole polynomials of rows 1 to n
    body: Vec<SwitchedPoly>,
    /// those of row 0
    mask: Vec<SwitchedPoly>,
    /// the bytes of the next polynomial
    part: Vec<u8>,
}

impl Model for ReplyRead {
    ghost use Rattle.frame_headers.specs.declared.kind.FrameKind.TheVariants as kinds;
    ghost use Rattle.pir_wire.specs.Growing.{BodySeen};
    ghost use Rattle.pir_wire.specs.BodyParts.{reply_bytes, IsReplyPart};

    ghost Value = { BodySeen };

    ghost view = { λ r. record { kind = kinds.Reply; set = r.set; bytes = reply_bytes r.set r.front.items r.body.items r.mask.items r.part.items } };

    ghost invariant = { λ r. IsReplyPart r.set r.front.items r.body.items r.mask.items r.part.items };
}

/// By hand: a caller's proof then takes one step for it, and not one for each of its lists.
impl Drop for ReplyRead {
    fn drop(self) {
        let Self {
            alloc: _,
            set: _,
            front: _,
            body: _,
            mask: _,
            part: _,
        } = self;
    }
}

/// The refusal of the count, where its 8 bytes have come, or of the record length, where its 8 have.
fn front_refusal(set: &ParamSet, front: &[u8]) -> Option<FrameError>
    requires known { IsSet set.now }
    requires most { length front.now ≤ 16 }
    ensures refused { IfSome result (λ error. found kinds.Reply set.now front.now ≡ refuses error) }
    ensures fine { IfNone result (IsReplyFront set.now front.now) }
{
    if front.len() < 8 {
        return None;
    }
    let count = number_at(front, 0);
    if count > set.max_records() {
        return Some(FrameError::TooMany {
            place: place_in_frame(set, 0),
            value: count,
        });
    }
    if front.len() < FRONT {
        return None;
    }
    let length = number_at(front, 8);
    if length == 0 {
        return Some(FrameError::RecordLength {
            place: place_in_frame(set, 8),
            value: length,
        });
    }
    if length > set.capacity() {
        return Some(FrameError::RecordLength {
            place: place_in_frame(set, 8),
            value: length,
        });
    }
    None
}

/// Takes bytes of the count and of the record length from the front of a piece.
fn take_front(set: &ParamSet, front: &mut Vec<u8>, piece: &[u8]) -> Result<usize, GrowError>
    requires known { IsSet set.now }
    requires some { 0 < length piece.now }
    requires unfinished { length front.old.items < 16 }
    ensures { Takes kinds.Reply (IsReplyFront set.now) set.now front.old.items front.new.items piece.now result }
{
    let had = front.len();
    let count = piece.len().min(FRONT - had);
    front.extend_from_slice(&piece[..count])?;
    if let Some(error) = front_refusal(set, front) {
        front.truncate(had);
        return Err(GrowError::Refused(error));
    }
    Ok(count)
}

/// Cuts the bytes of a polynomial into its numbers of `width` bits each.
fn unpack_poly(bytes: &[u8], width: usize, numbers: &mut [u64])
    requires wide { 0 < width }
    requires narrow { width ≤ 32 }
    requires whole { length bytes.now ≡ length numbers.old * width / 8 }
    ensures switched { IsSwitched (length numbers.old) (2 ^ width) numbers.new }
    ensures spelled { repacked width 8 (length numbers.old * width / 8) numbers.new ≡ bytes.now }
{
    unpack(bytes, width as u32, numbers);
}

/// Takes bytes of a polynomial from the front of a piece, its numbers packed at a width. `part` is what has come of it; where it is whole, it
/// joins the others.
fn take_part(
    alloc: Global,
    degree: usize,
    width: usize,
    polys: &mut Vec<SwitchedPoly>,
    part: &mut Vec<u8>,
    piece: &[u8],
) -> Result<usize, NoMemory>
    requires some { 0 < length piece.now }
    requires degree { degree ≤ 2048 }
    requires wide { 0 < width }
    requires narrow { width ≤ 32 }
    requires wanting { length part.old.items < degree * width / 8 }
    ensures some { IfOk result (λ n. 1 ≤ n) }
    ensures within { IfOk result (λ n. n ≤ length piece.now) }
    ensures taken { IfOk result (λ n. PartTaken degree width polys.old.items part.old.items polys.new.items part.new.items (take n piece.now)) }
    ensures kept { OnErr result (polys.new.items ≡ polys.old.items) }
    ensures short { OnErr result (length part.new.items < degree * width / 8) }
{
    let wanted = degree * width / 8 - part.len();
    if piece.len() < wanted {
        part.extend_from_slice(piece)?;
        return Ok(piece.len());
    }
    let mut numbers = vec![in alloc; 0u64; degree]?;
    part.extend_from_slice(&piece[..wanted])?;
    unpack_poly(part, width, &mut numbers);
    part.clear();
    polys.push(SwitchedPoly::from_numbers(numbers))?;
    Ok(wanted)
}

/// The reply of a whole front and all polynomials.
fn reply_of(set: &ParamSet, front: &[u8], body: Vec<SwitchedPoly>, mask: Vec<SwitchedPoly>) -> Reply
    requires part { IsReplyPart set.now front.now body.items mask.items [] }
    requires front { length front.now ≡ 16 }
    requires body { length body.items ≡ entries set.now }
    requires mask { length mask.items ≡ set.now.n }
    ensures { IsBodyOf set.now (reply_bytes set.now front.now body.items mask.items []) (reply_message result) }
{
    let count = number_at(front, 0) as u32;
    let length = number_at(front, 8) as u32;
    Reply::from_polys(set, count, length, body, mask)
}

impl ReplyRead {
    /// Nothing of the body has come.
    pub(crate) fn begin(alloc: Global, set: &ParamSet) -> Self
        requires { IsSet set.now }
        ensures { result ≡ record { kind = kinds.Reply; set = set.now; bytes = [] } }
    {
        ReplyRead {
            alloc,
            set: *set,
            front: Vec::new(alloc),
            body: Vec::new(alloc),
            mask: Vec::new(alloc),
            part: Vec::new(alloc),
        }
    }

    /// Takes bytes from the front of a piece: at least one, and none behind the body's end.
    pub(crate) fn grow(&mut self, piece: &[u8]) -> Result<usize, GrowError>
        requires some { 0 < length piece.now }
        requires unfinished { length self.old.bytes < body_len_of self.old.kind self.old.set }
        ensures { Grows self.old self.new piece.now result }
    {
        if self.front.len() < FRONT {
            return take_front(&self.set, &mut self.front, piece);
        }
        let degree = self.set.degree as usize;
        if self.body.len() < self.set.entries() as usize {
            let width = self.set.q1_bits() as usize;
            let count = take_part(
                self.alloc,
                degree,
                width,
                &mut self.body,
                &mut self.part,
                piece,
            )?;
            return Ok(count);
        }
        let width = self.set.q2_bits as usize;
        let count = take_part(
            self.alloc,
            degree,
            width,
            &mut self.mask,
            &mut self.part,
            piece,
        )?;
        Ok(count)
    }

    /// The message, where the body is whole.
    pub(crate) fn finish(self) -> Result<Message, NoMemory>
        requires { length self.bytes ≡ body_len_of self.kind self.set }
        ensures { IfOk result (λ m. IsBodyOf self.set self.bytes (message_seen m) × (kind_of (message_seen m) ≡ self.kind)) }
    {
        let Self {
            alloc: _,
            set,
            front,
            body,
            mask,
            part: _,
        } = self;
        Ok(Message::Reply(reply_of(&set, &front, body, mask)))
    }

    /// How many bytes of the input are kept that aren't numbers yet.
    pub(crate) fn held(&self) -> usize
        ensures { result ≤ 14336 }
    {
        self.front.len() + self.part.len()
    }

    /// Whether all of the body has come.
    pub(crate) fn is_whole(&self) -> bool
        ensures { result ≡ nat_eq (length self.now.bytes) (body_len_of self.now.kind self.now.set) }
    {
        self.mask.len() == self.set.n as usize
    }
}
