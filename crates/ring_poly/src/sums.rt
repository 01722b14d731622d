//! Sums of products that are reduced once, at their end.

ghost use Rattle.std.specs.Prelude.{◌≡◌, ◌+◌, ◌<◌, length, replicate, IfOk};
ghost use Rattle.negacyclic.specs.Ring.{ring_add, ring_mul};
ghost use Rattle.spiral_sets.specs.Sets.{q};
ghost use Rattle.ring_poly.specs.Polynomials.{IsDegree};

use crate::PolyT;
use no_memory::NoMemory;
use std::alloc::Global;
use std::marker::Model;
use word_prime::{P1, P2, add_reduced_lanes, mac_lanes};

/// A sum of products in product form that isn't reduced yet: N sums for each of the two primes. A product of two 28-bit residues is
/// below 2^56, so that up to 256 of them stay below 2^64. Seen as the polynomial that is the sum, and how many products it has.
#[derive(Debug)]
pub struct SumT {
    ones: Vec<u64>,
    twos: Vec<u64>,
    count: u32,
}

impl Model for SumT {
    ghost use Rattle.ring_poly.specs.Sums.{ProductSum, AreSums, sum_held};

    ghost Value = { ProductSum };

    ghost view = { λ s. sum_held s.ones.items s.twos.items s.count };

    ghost invariant = { λ s. AreSums s.count s.ones.items s.twos.items };
}

/// By hand: a caller's proof then takes one step for it, and not one for each of its lists.
impl Drop for SumT {
    fn drop(self) {
        let Self {
            ones: _,
            twos: _,
            count: _,
        } = self;
    }
}

/// Writes 0 at every place.
fn clear(sums: &mut [u64])
    ensures { sums.new ≡ replicate (length sums.old) 0 }
{
    for place in 0..sums.len() {
        sums[place] = 0;
    }
}

impl SumT {
    /// The sum of no products, with n coefficients.
    pub fn zero(alloc: Global, n: usize) -> Result<SumT, NoMemory>
        requires { IsDegree n }
        ensures { IfOk result (λ s. s ≡ record { value = replicate n 0; count = 0 }) }
    {
        Ok(SumT {
            ones: vec![in alloc; 0u64; n]?,
            twos: vec![in alloc; 0u64; n]?,
            count: 0,
        })
    }

    /// Becomes the sum of no products, of the same degree. It takes no memory.
    pub fn clear(&mut self)
        ensures { self.new ≡ record { value = replicate (length self.old.value) 0; count = 0 } }
    {
        clear(&mut self.ones);
        clear(&mut self.twos);
        self.count = 0;
    }

    /// Adds the product of a and b, the 256th at most. It takes no memory.
    pub fn add_product(&mut self, a: &PolyT, b: &PolyT)
        requires a_degree { length a.now ≡ length self.old.value }
        requires b_degree { length b.now ≡ length self.old.value }
        requires few { self.old.count < 256 }
        ensures { self.new ≡ record { value = ring_add q (length self.old.value) self.old.value (ring_mul q (length self.old.value) a.now b.now); count = self.old.count + 1 } }
    {
        mac_lanes::<P1>(&mut self.ones, &a.ones, &b.ones);
        mac_lanes::<P2>(&mut self.twos, &a.twos, &b.twos);
        self.count += 1;
    }

    /// Adds the sum, reduced, to `out`. It takes no memory.
    pub fn add_to(&self, out: &mut PolyT)
        requires { length self.now.value ≡ length out.old }
        ensures value { out.new ≡ ring_add q (length out.old) out.old self.now.value }
        ensures degree { length out.new ≡ length out.old }
    {
        add_reduced_lanes::<P1>(&mut out.ones, &self.ones);
        add_reduced_lanes::<P2>(&mut out.twos, &self.twos);
    }
}
