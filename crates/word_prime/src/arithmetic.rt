//! Sums, differences and products of two residues.

ghost use Rattle.std.specs.Prelude.{◌≡◌, ◌<◌, pos, ◌+ℤ◌, ◌-ℤ◌, ◌*ℤ◌};
ghost use Rattle.negacyclic.specs.Residues.{residue};
ghost use Rattle.word_prime.specs.Lanes.{IsModulus};

/// x + y modulo P.
#[tactic(auto, using(crate::proofs::Steps::steps))]
pub fn sum_of<const P: u32>(x: u32, y: u32) -> u32
    requires modulus { IsModulus P }
    requires x { x < P }
    requires y { y < P }
    ensures value { result ≡ residue P (pos x +ℤ pos y) }
    ensures below { result < P }
{
    let sum = x + y;
    if sum >= P { sum - P } else { sum }
}

/// x - y modulo P.
#[tactic(auto, using(crate::proofs::Steps::steps))]
pub fn difference_of<const P: u32>(x: u32, y: u32) -> u32
    requires modulus { IsModulus P }
    requires x { x < P }
    requires y { y < P }
    ensures value { result ≡ residue P (pos x -ℤ pos y) }
    ensures below { result < P }
{
    if x < y { x + P - y } else { x - y }
}

/// x y modulo P.
#[tactic(auto, using(crate::proofs::Steps::steps))]
pub fn product_of<const P: u32>(x: u32, y: u32) -> u32
    requires { IsModulus P }
    ensures value { result ≡ residue P (pos x *ℤ pos y) }
    ensures below { result < P }
{
    (u64::from(x) * u64::from(y) % u64::from(P)) as u32
}

/// s + x y modulo P.
#[tactic(auto, using(crate::proofs::Steps::steps))]
pub(crate) fn sum_of_product<const P: u32>(s: u32, x: u32, y: u32) -> u32
    requires { IsModulus P }
    ensures value { result ≡ residue P (pos s +ℤ pos x *ℤ pos y) }
    ensures below { result < P }
{
    ((u64::from(s) + u64::from(x) * u64::from(y)) % u64::from(P)) as u32
}
