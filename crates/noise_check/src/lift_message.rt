//! What the ciphertexts of lift keys are intended to encrypt, row by row.

ghost use Rattle.std.specs.Prelude.{◌≡◌, ◌==◌, ◌*◌, ◌^◌, ◌<◌, ◌≤◌, true, length, pos, neg_ℤ, if◌then◌else◌};
ghost use Rattle.negacyclic.specs.Ring.{ring_zero, ring_scale};
ghost use Rattle.spiral_sets.specs.Sets.{IsSet, q, digit_count as digit_count_of};
ghost use Rattle.regev_code.specs.Shapes.{OfDegree, numbers_under, scalar_of};

use gsw_code::column_message_into;
use regev_code::Secret;
use ring_poly::{Poly, Ring};
use spiral_sets::ParamSet;

/// What digit k of a packing set's lift keys counts: 2^(w_conv k), below q as w_conv k is at most 55.
fn lift_power(set: &ParamSet, k: u32) -> u64
    requires known { IsSet set.now }
    requires packs { set.now.pack ≡ true }
    requires digit { k < digit_count_of set.now.w_conv }
    ensures value { result ≡ 2 ^ (set.now.w_conv * k) }
    ensures below { result < q }
{
    1 << (set.w_conv * k)
}

/// Writes what a row, from 1 to n, encrypts in ciphertext k of the lift key of row r: -s 2^(w_conv k) where it is row r, else
/// 0, for the scalar secret s. It takes no memory.
pub(crate) fn lift_message_into(
    ring: &Ring,
    set: &ParamSet,
    secret: &Secret,
    r: u32,
    k: u32,
    row: u32,
    out: &mut Poly,
)
    requires known { IsSet set.now }
    requires packs { set.now.pack ≡ true }
    requires ring { ring.now ≡ set.now.degree }
    requires degree { OfDegree ring.now secret.now }
    requires scalar { length (numbers_under secret.now true) ≡ 1 }
    requires digit { k < digit_count_of set.now.w_conv }
    requires room { length out.old ≡ ring.now }
    ensures value { out.new ≡ (if row == r then ring_scale q set.now.degree (neg_ℤ (pos (2 ^ (set.now.w_conv * k)))) (scalar_of set.now.degree secret.now) else ring_zero q set.now.degree) }
    ensures degree { length out.new ≡ ring.now }
{
    if row == r {
        column_message_into(ring, secret, true, lift_power(set, k), 0, 1, out);
    } else {
        out.clear();
    }
}
