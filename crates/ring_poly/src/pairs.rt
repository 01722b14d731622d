//! Residues modulo q and the pairs that stand for them.

ghost use Rattle.std.specs.Prelude.{◌≡◌, ◌-◌, ◌*◌, ◌/◌, ◌^◌, ◌<◌, ◌≤◌, unsigned_abs, length, ◌↔◌, IsTrue};
ghost use Rattle.negacyclic.specs.Residues.{cen, norm};
ghost use Rattle.spiral_sets.specs.Sets.{q};
ghost use Rattle.word_prime.specs.Halves.{joined, AreHalves};
ghost use Rattle.ring_poly.specs.Polynomials.{AreResidues};

use crate::Q;
use word_prime::join_pair;

/// Whether every number is a residue, below q.
#[tactic(auto, unfolding(spiral_sets::specs::Sets::q))]
pub fn are_residues(c: &[u64]) -> bool
    ensures { IsTrue result ↔ AreResidues c.now }
{
    c.iter().all(|x| *x < Q)
}

/// Writes the residues that the pairs stand for.
pub(crate) fn join(ones: &[u32], twos: &[u32], out: &mut [u64])
    requires halves { AreHalves ones.now twos.now }
    requires room { length out.old ≡ length ones.now }
    ensures { out.new ≡ joined ones.now twos.now }
{
    for k in 0..out.len() {
        out[k] = join_pair(ones[k], twos[k]);
    }
}

/// The absolute value of the centred representative of x.
fn magnitude(x: u64) -> u64
    requires { x < q }
    ensures value { result ≡ unsigned_abs (cen q x) }
    ensures half { result ≤ (q - 1) / 2 }
    ensures size { result < 2 ^ 56 }
{
    if x <= (Q - 1) / 2 { x } else { Q - x }
}

/// The sum of the absolute values of the centred representatives. Each is below 2^56 and there are less than 2^64,
/// so it stays below 2^120.
pub(crate) fn norm1(ones: &[u32], twos: &[u32]) -> u128
    requires { AreHalves ones.now twos.now }
    ensures value { result ≡ norm q (joined ones.now twos.now) }
    ensures size { result ≤ length ones.now * ((q - 1) / 2) }
{
    let mut sum = 0u128;
    for k in 0..ones.len() {
        sum += u128::from(magnitude(join_pair(ones[k], twos[k])));
    }
    sum
}
