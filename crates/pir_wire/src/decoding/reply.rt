ghost use Rattle.std.specs.Prelude.{◌≡◌, ◌*◌, ◌/◌, ◌^◌, ◌<◌, ◌≤◌};

use super::FramedMessage;
use super::pieces::{Piece, pieces};
use bit_packing::unpack;
use frame_headers::{FrameKind, number_at};
use modulus_switch::{Reply, SwitchedPoly};
use no_memory::NoMemory;
use spiral_sets::ParamSet;
use std::alloc::Global;

/// A polynomial of a reply: its numbers, each in so many bits, in whole bytes.
impl Piece for SwitchedPoly {
    ghost use Rattle.negacyclic.specs.Digits.{repacked};
    ghost use Rattle.negacyclic.proofs.Digits.{length-repacked};
    ghost use Rattle.ring_poly.specs.Polynomials.{IsDegree};
    ghost use Rattle.spiral_model.specs.Replies.{IsSwitched};

    ghost may_have = { λ N w. IsDegree N × (0 < w) × (w ≤ 32) };

    ghost fits = { λ N w. IsSwitched N (2 ^ w) };

    ghost spell = { λ N w. repacked w 8 (N * w / 8) };

    ghost len = { λ N w. N * w / 8 };

    ghost sized = { λ N w poly is. length-repacked w 8 (N * w / 8) poly };

    fn len(degree: usize, width: usize) -> usize {
        degree * width / 8
    }

    fn read(
        alloc: Global,
        degree: usize,
        width: usize,
        bytes: &[u8],
    ) -> Result<Option<SwitchedPoly>, NoMemory> {
        let mut numbers = vec![in alloc; 0u64; degree]?;
        unpack(bytes, width as u32, &mut numbers);
        Ok(Some(SwitchedPoly::from_numbers(numbers)))
    }
}

impl FramedMessage for Reply {
    ghost use Rattle.std.specs.Prelude.{refl};
    ghost use Rattle.frame_headers.specs.declared.kind.FrameKind.TheVariants as kinds;
    ghost use Rattle.spiral_frames.specs.Frames.{reply_message};

    ghost message = { reply_message };

    ghost KIND = { kinds.Reply };

    const KIND: FrameKind = FrameKind::Reply;

    ghost kind_is = { λ _. refl };

    ghost one_length = { tt };

    /// The count and the record length, then the polynomials of rows 1 to n and those of row 0.
    fn from_body(alloc: Global, set: &ParamSet, body: &[u8]) -> Result<Option<Reply>, NoMemory> {
        if body.len() as u64 != set.reply_len() {
            return Ok(None);
        }
        let count = number_at(body, 0);
        if count > set.max_records() {
            return Ok(None);
        }
        let length = number_at(body, 8);
        if length == 0 || length > set.capacity() {
            return Ok(None);
        }
        let (degree, entries) = (set.degree as usize, set.entries() as usize);
        let (width, mask_width) = (set.q1_bits() as usize, set.q2_bits as usize);
        let middle = 16 + entries * SwitchedPoly::len(degree, width);
        let Some(rows) = pieces(alloc, degree, width, entries, &body[16..middle])? else {
            return Ok(None);
        };
        let Some(mask) = pieces(alloc, degree, mask_width, set.n as usize, &body[middle..])? else {
            return Ok(None);
        };
        let (count, length) = (count as u32, length as u32);
        Ok(Some(Reply::from_polys(set, count, length, rows, mask)))
    }
}
