//! The ring of one degree, and the operations that need more than a polynomial.

ghost use Rattle.std.specs.Prelude.{◌≡◌, ◌*◌, ◌%◌, ◌<◌, pos, length, IfOk};
ghost use Rattle.negacyclic.specs.Ring.{ring_add, ring_mul, ring_scale, ring_shift, tau};
ghost use Rattle.spiral_sets.specs.Sets.{q};
ghost use Rattle.ring_poly.specs.Polynomials.{IsDegree};

use crate::{Poly, PolyT, lanes};
use no_memory::NoMemory;
use ring_transform::Tables;
use std::alloc::Global;
use std::marker::Model;
use word_prime::{P1, P2, mul_add_lanes};

/// The ring of one degree, seen as that degree: the tables of the transform modulo the two primes.
#[derive(Debug)]
pub struct Ring {
    degree: usize,
    first: Tables<P1>,
    second: Tables<P2>,
}

impl Model for Ring {
    ghost use Rattle.std.specs.Prelude.{ℕ, ◌≡◌};
    ghost use Rattle.ring_poly.specs.Polynomials.{IsDegree};

    ghost Value = { ℕ };

    ghost view = { λ r. r.degree };

    ghost invariant = { λ r. (IsDegree r.degree) × (r.first ≡ r.degree) × (r.second ≡ r.degree) };
}

/// By hand: a caller's proof then takes one step for it, and not one for each of its lists.
impl Drop for Ring {
    fn drop(self) {
        let Self {
            degree: _,
            first: _,
            second: _,
        } = self;
    }
}

impl Ring {
    /// The ring of degree n. Its tables are made here, once.
    pub fn new(alloc: Global, n: usize) -> Result<Ring, NoMemory>
        requires { IsDegree n }
        ensures { IfOk result (λ r. r ≡ n) }
    {
        Ok(Ring {
            degree: n,
            first: Tables::<P1>::new(alloc, n)?,
            second: Tables::<P2>::new(alloc, n)?,
        })
    }

    /// The degree N: 256 or 2048.
    pub fn degree(&self) -> usize
        ensures value { result ≡ self.now }
        ensures known { IsDegree result }
    {
        self.degree
    }

    /// Writes the form of a in which products are taken. It takes no memory.
    pub fn to_product(&self, a: &Poly, out: &mut PolyT)
        requires degree { length a.now ≡ self.now }
        requires room { length out.old ≡ self.now }
        ensures { out.new ≡ a.now }
    {
        out.ones.copy_from_slice(&a.ones);
        out.twos.copy_from_slice(&a.twos);
        self.first.forward(&mut out.ones);
        self.second.forward(&mut out.twos);
    }

    /// Writes the polynomial back from the form in which products are taken. It takes no memory.
    pub fn from_product(&self, a: &PolyT, out: &mut Poly)
        requires degree { length a.now ≡ self.now }
        requires room { length out.old ≡ self.now }
        ensures { out.new ≡ a.now }
    {
        out.ones.copy_from_slice(&a.ones);
        out.twos.copy_from_slice(&a.twos);
        self.first.inverse(&mut out.ones);
        self.second.inverse(&mut out.twos);
    }

    /// Adds the product of a and b to `sum`. It takes no memory.
    pub fn mul_add(&self, sum: &mut PolyT, a: &PolyT, b: &PolyT)
        requires sum_degree { length sum.old ≡ self.now }
        requires a_degree { length a.now ≡ self.now }
        requires b_degree { length b.now ≡ self.now }
        ensures value { sum.new ≡ ring_add q self.now sum.old (ring_mul q self.now a.now b.now) }
        ensures degree { length sum.new ≡ self.now }
    {
        mul_add_lanes::<P1>(&mut sum.ones, &a.ones, &b.ones);
        mul_add_lanes::<P2>(&mut sum.twos, &a.twos, &b.twos);
    }

    /// The product of a and b.
    pub fn mul(&self, a: &Poly, b: &Poly) -> Result<Poly, NoMemory>
        requires a_degree { length a.now ≡ self.now }
        requires b_degree { length b.now ≡ self.now }
        ensures value { IfOk result (λ c. c ≡ ring_mul q self.now a.now b.now) }
        ensures degree { IfOk result (λ c. length c ≡ self.now) }
    {
        let mut product = a.copy()?;
        let mut factor = b.copy()?;
        lanes::multiply::<P1>(&self.first, &mut product.ones, &mut factor.ones);
        lanes::multiply::<P2>(&self.second, &mut product.twos, &mut factor.twos);
        Ok(product)
    }

    /// Writes x^e a, where x^N = -1. It takes no memory.
    pub fn shift(&self, a: &Poly, e: usize, out: &mut Poly)
        requires degree { length a.now ≡ self.now }
        requires power { e < 2 * self.now }
        requires room { length out.old ≡ self.now }
        ensures value { out.new ≡ ring_shift q self.now e a.now }
        ensures degree { length out.new ≡ self.now }
    {
        // reading the degree makes known that it is 256 or 2048
        let _ = &self.degree;
        lanes::shift::<P1>(&a.ones, e, &mut out.ones);
        lanes::shift::<P2>(&a.twos, e, &mut out.twos);
    }

    /// Writes a(x^g), for an odd g: the automorphism x -> x^g of the ring. It takes no memory.
    pub fn auto(&self, g: usize, a: &Poly, out: &mut Poly)
        requires odd { g % 2 ≡ 1 }
        requires power { g < 2 * self.now }
        requires degree { length a.now ≡ self.now }
        requires room { length out.old ≡ self.now }
        ensures value { out.new ≡ tau q self.now g a.now }
        ensures degree { length out.new ≡ self.now }
    {
        // reading the degree makes known that it is 256 or 2048
        let _ = &self.degree;
        lanes::auto::<P1>(&a.ones, g, &mut out.ones);
        lanes::auto::<P2>(&a.twos, g, &mut out.twos);
    }

    /// Writes z a, for a residue z. It takes no memory.
    pub fn scale(&self, z: u64, a: &Poly, out: &mut Poly)
        requires residue { z < q }
        requires degree { length a.now ≡ self.now }
        requires room { length out.old ≡ self.now }
        ensures value { out.new ≡ ring_scale q self.now (pos z) a.now }
        ensures degree { length out.new ≡ self.now }
    {
        lanes::scale::<P1>(z, &a.ones, &mut out.ones);
        lanes::scale::<P2>(z, &a.twos, &mut out.twos);
    }
}
