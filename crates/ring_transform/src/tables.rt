//! The tables of a degree, and the transform by them.

ghost use Rattle.std.specs.Prelude.{ℕ, List, ◌≡◌, ◌+◌, ◌-◌, ◌*◌, ◌^◌, ◌%◌, ◌<◌, ◌≤◌, length, All, IfOk};
ghost use Rattle.ring_transform.specs.Points.{IsPrime, IsDegree, depth_of, points};
ghost use Rattle.ring_transform.specs.Values.{values};

use crate::butterflies::quotient_of;
use crate::{layers, twiddles};
use no_memory::NoMemory;
use std::alloc::Global;
use std::marker::Model;

/// The tables for polynomials of a degree n modulo P, seen as n. They are made once, and serve any number of transforms.
#[derive(Debug)]
pub struct Tables<const P: u32> {
    degree: usize,
    twiddles: Vec<u32>,
    quotients: Vec<u32>,
    inverses: Vec<u32>,
    inverse_quotients: Vec<u32>,
    leaves: Vec<u32>,
    scale: u32,
    scale_quotient: u32,
}

impl<const P: u32> Model for Tables<P> {
    ghost use Rattle.std.specs.Prelude.{ℕ};
    ghost use Rattle.ring_transform.specs.Tables.{AreTables};

    ghost Value = { ℕ };

    ghost view = { λ t. t.degree };

    ghost invariant = { λ t. AreTables P t.degree t.twiddles.items t.quotients.items t.inverses.items t.inverse_quotients.items t.leaves.items t.scale t.scale_quotient };
}

/// By hand: a caller's proof then takes one step for it, and not one for each of its lists.
impl<const P: u32> Drop for Tables<P> {
    fn drop(self) {
        let Self {
            degree: _,
            twiddles: _,
            quotients: _,
            inverses: _,
            inverse_quotients: _,
            leaves: _,
            scale: _,
            scale_quotient: _,
        } = self;
    }
}

/// How many layers there are above parts of four coefficients.
fn layers_of(degree: usize) -> u32
    requires { IsDegree degree }
    ensures depth { result + 2 ≡ depth_of degree }
    ensures most { result ≤ 9 }
    ensures size { 2 ^ result * 4 ≡ degree }
{
    if degree == 256 { 6 } else { 9 }
}

impl<const P: u32> Tables<P> {
    /// The tables for the degree n.
    pub fn new(alloc: Global, n: usize) -> Result<Tables<P>, NoMemory>
        requires prime { IsPrime P }
        requires degree { IsDegree n }
        ensures { IfOk result (λ t. t ≡ n) }
    {
        let depth = layers_of(n) + 2;
        let factors = twiddles::twiddles::<P>(alloc, depth)?;
        let inverse_factors = twiddles::inverses::<P>(alloc, depth)?;
        let scale = twiddles::inverse_of_power::<P>(depth);
        Ok(Tables {
            degree: n,
            quotients: twiddles::quotients::<P>(alloc, &factors)?,
            twiddles: factors,
            inverse_quotients: twiddles::quotients::<P>(alloc, &inverse_factors)?,
            inverses: inverse_factors,
            leaves: twiddles::leaves::<P>(alloc, depth, n)?,
            scale,
            scale_quotient: quotient_of::<P>(scale),
        })
    }

    /// The degree n. It also makes known that it is one of the two.
    pub fn degree(&self) -> usize
        ensures value { result ≡ self.now }
        ensures degree { IsDegree self.now }
        ensures prime { IsPrime P }
    {
        self.degree
    }

    /// The points, n numbers below P. The n-th power of each is P - 1 modulo P.
    pub fn points(&self) -> &[u32]
        ensures list { result.now ≡ points P self.now }
        ensures powers { All (λ z. z ^ self.now % P ≡ P - 1) result.now }
        ensures residues { All (λ z. z < P) result.now }
    {
        &self.leaves
    }

    /// Replaces the coefficients of a polynomial by its values at the points, in their order. It takes no memory.
    pub fn forward(&self, a: &mut [u32])
        requires size { length a.old ≡ self.now }
        requires residues { All (λ x. x < P) a.old }
        ensures values { a.new ≡ values P (points P self.now) a.old }
        ensures residues { All (λ x. x < P) a.new }
    {
        let layers = layers_of(self.degree);
        layers::part::<P>(&self.twiddles, &self.quotients, layers, a);
        layers::part_fours::<P>(&self.twiddles, &self.quotients, layers, a);
    }

    /// Replaces values at the points by the coefficients of the one polynomial that has them. It takes no memory.
    pub fn inverse(&self, a: &mut [u32])
        requires size { length a.old ≡ self.now }
        requires residues { All (λ x. x < P) a.old }
        ensures values { values P (points P self.now) a.new ≡ a.old }
        ensures only { (b : List ℕ) → length b ≡ self.now → All (λ x. x < P) b → values P (points P self.now) b ≡ a.old → b ≡ a.new }
        ensures residues { All (λ x. x < P) a.new }
    {
        let layers = layers_of(self.degree);
        layers::join_fours::<P>(&self.inverses, &self.inverse_quotients, layers, a);
        layers::join::<P>(&self.inverses, &self.inverse_quotients, layers, a);
        layers::scale::<P>(a, self.scale, self.scale_quotient);
    }
}
