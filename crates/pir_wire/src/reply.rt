ghost use Rattle.std.specs.Prelude.{◌≡◌, ◌++◌, ◌^◌, ◌≤◌, ◌<◌, IfOk};
ghost use Rattle.std.specs.List.{flat_map};
ghost use Rattle.spiral_sets.specs.Sets.{IsSet, q1_bits};
ghost use Rattle.spiral_model.specs.Replies.{IsSwitched};
ghost use Rattle.spiral_frames.specs.Frames.{packed};

use modulus_switch::Reply;
use no_memory::NoMemory;
use spiral_sets::ParamSet;

/// Appends the numbers of a polynomial, each in `width` bits, in whole bytes.
fn push_packed(
    out: &mut Vec<u8>,
    set: &ParamSet,
    width: u32,
    numbers: &[u64],
) -> Result<(), NoMemory>
    requires known { IsSet set.now }
    requires some { 0 < width }
    requires narrow { width ≤ 32 }
    requires fit { IsSwitched set.now.degree (2 ^ width) numbers.now }
    ensures { IfOk result (λ _. out.new.items ≡ out.old.items ++ packed set.now width numbers.now) }
{
    let start = out.len();
    out.resize(start + (set.degree * width / 8) as usize, 0)?;
    bit_packing::pack(numbers, width, &mut out[start..]);
    Ok(())
}

/// Appends the polynomials of rows 1 to n, row by row.
pub(crate) fn push_body(out: &mut Vec<u8>, reply: &Reply) -> Result<(), NoMemory>
    ensures { IfOk result (λ _. out.new.items ≡ out.old.items ++ flat_map (packed reply.now.set (q1_bits reply.now.set)) reply.now.body) }
{
    let set = reply.set();
    for e in 0..set.entries() {
        let numbers = reply.numbers(e / set.n + 1, e % set.n + 1);
        push_packed(out, &set, set.q1_bits(), numbers)?;
    }
    Ok(())
}

/// Appends the polynomials of row 0.
pub(crate) fn push_mask(out: &mut Vec<u8>, reply: &Reply) -> Result<(), NoMemory>
    ensures { IfOk result (λ _. out.new.items ≡ out.old.items ++ flat_map (packed reply.now.set reply.now.set.q2_bits) reply.now.mask) }
{
    let set = reply.set();
    for column in 0..set.n {
        push_packed(out, &set, set.q2_bits, reply.numbers(0, column + 1))?;
    }
    Ok(())
}
