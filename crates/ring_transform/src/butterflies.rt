//! Butterflies: the step of a layer at one place. A product with a factor w is reduced by the quotient floor(w 2^32 / P), which
//! is known beforehand: y times it, shifted by 32 bits, is floor(w y / P) or 1 less.

ghost use Rattle.std.specs.Prelude.{◌≡◌, ◌<◌, pos, ◌+ℤ◌, ◌-ℤ◌, ◌*ℤ◌};
ghost use Rattle.negacyclic.specs.Residues.{residue};
ghost use Rattle.word_prime.specs.Lanes.{IsModulus};
ghost use Rattle.ring_transform.specs.Tables.{IsFactor};

use word_prime::{difference_of, sum_of};

/// The quotient of a factor.
pub(crate) fn quotient_of<const P: u32>(w: u32) -> u32
    requires { w < P }
    ensures { IsFactor P w result }
{
    (((w as u64) << 32) / P as u64) as u32
}

/// w y modulo P, for any y.
pub(crate) fn product_by<const P: u32>(y: u32, w: u32, quotient: u32) -> u32
    requires modulus { IsModulus P }
    requires factor { IsFactor P w quotient }
    ensures value { result ≡ residue P (pos w *ℤ pos y) }
    ensures below { result < P }
{
    let guess = (y as u64 * quotient as u64) >> 32;
    let rest = (w as u64 * y as u64 - guess * P as u64) as u32;
    if rest >= P { rest - P } else { rest }
}

/// x + w y and x - w y modulo P.
pub(crate) fn apart<const P: u32>(x: u32, y: u32, w: u32, quotient: u32) -> (u32, u32)
    requires modulus { IsModulus P }
    requires x { x < P }
    requires factor { IsFactor P w quotient }
    ensures sum { result.0 ≡ residue P (pos x +ℤ pos w *ℤ pos y) }
    ensures difference { result.1 ≡ residue P (pos x -ℤ pos w *ℤ pos y) }
    ensures sum_below { result.0 < P }
    ensures difference_below { result.1 < P }
{
    let turned = product_by::<P>(y, w, quotient);
    (sum_of::<P>(x, turned), difference_of::<P>(x, turned))
}

/// x + y and (x - y) w modulo P.
pub(crate) fn joined<const P: u32>(x: u32, y: u32, w: u32, quotient: u32) -> (u32, u32)
    requires modulus { IsModulus P }
    requires x { x < P }
    requires y { y < P }
    requires factor { IsFactor P w quotient }
    ensures sum { result.0 ≡ residue P (pos x +ℤ pos y) }
    ensures difference { result.1 ≡ residue P ((pos x -ℤ pos y) *ℤ pos w) }
    ensures sum_below { result.0 < P }
    ensures difference_below { result.1 < P }
{
    (sum_of::<P>(x, y), product_by::<P>(x + P - y, w, quotient))
}
