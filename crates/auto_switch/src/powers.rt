//! Multiples by what the digits of a gadget count.

ghost use Rattle.std.specs.Prelude.{◌≡◌, ◌*◌, ◌^◌, ◌<◌, ◌≤◌, length, pos, neg_ℤ};
ghost use Rattle.negacyclic.specs.Residues.{residue};
ghost use Rattle.negacyclic.specs.Ring.{ring_scale};
ghost use Rattle.spiral_sets.specs.Sets.{q, digit_count as digit_count_of};

use ring_poly::{Poly, Ring};
use spiral_sets::Q;

/// 2^(w k), what digit k of w bits counts: from 1 to 2^55, since w k is at most 55, and so below q.
pub fn gadget_power(w: u32, k: u32) -> u64
    requires some { 1 ≤ w }
    requires most { w ≤ 56 }
    requires digit { k < digit_count_of w }
    ensures value { result ≡ 2 ^ (w * k) }
    ensures some { 1 ≤ result }
    ensures below { result < q }
{
    1 << (w * k)
}

/// The residue of -2^(w k).
fn negative_power(w: u32, k: u32) -> u64
    requires some { 1 ≤ w }
    requires most { w ≤ 56 }
    requires digit { k < digit_count_of w }
    ensures value { result ≡ residue q (neg_ℤ (pos (2 ^ (w * k)))) }
    ensures below { result < q }
{
    Q - gadget_power(w, k)
}

/// Writes -a 2^(w k), for a digit k of w bits. It takes no memory.
pub fn negative_multiple_into(ring: &Ring, w: u32, k: u32, a: &Poly, out: &mut Poly)
    requires some { 1 ≤ w }
    requires most { w ≤ 56 }
    requires digit { k < digit_count_of w }
    requires degree { length a.now ≡ ring.now }
    requires room { length out.old ≡ ring.now }
    ensures value { out.new ≡ ring_scale q ring.now (neg_ℤ (pos (2 ^ (w * k)))) a.now }
    ensures degree { length out.new ≡ ring.now }
{
    ring.scale(negative_power(w, k), a, out);
}
