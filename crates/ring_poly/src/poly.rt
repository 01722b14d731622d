//! Polynomials by their coefficients.

ghost use Rattle.std.specs.Prelude.{◌≡◌, ◌-◌, ◌*◌, ◌/◌, ◌<◌, ◌≤◌, ◌==◌, if◌then◌else◌, pos, length, replicate, All, IfOk};
ghost use Rattle.negacyclic.specs.Residues.{norm};
ghost use Rattle.negacyclic.specs.Ring.{reduced, ring_add, ring_sub};
ghost use Rattle.spiral_sets.specs.Sets.{q};
ghost use Rattle.word_prime.specs.Halves.{p2};
ghost use Rattle.ring_poly.specs.Polynomials.{IsDegree, AreResidues};

use crate::{lanes, pairs};
use no_memory::NoMemory;
use std::alloc::Global;
use std::marker::Model;
use word_prime::{P1, P2, add_lanes, narrow_lanes, reduce_lanes, sub_lanes};

/// A polynomial, seen as the list of its N coefficients, each a residue below q. It is held as the residues of the coefficients
/// modulo the two primes.
#[derive(Debug)]
pub struct Poly {
    pub(crate) ones: Vec<u32>,
    pub(crate) twos: Vec<u32>,
}

impl Model for Poly {
    ghost use Rattle.std.specs.Prelude.{List, ℕ};
    ghost use Rattle.word_prime.specs.Halves.{joined, AreHalves};

    ghost Value = { List ℕ };

    ghost view = { λ a. joined a.ones.items a.twos.items };

    ghost invariant = { λ a. AreHalves a.ones.items a.twos.items };
}

/// By hand: a caller's proof then takes one step for it, and not one for each of its lists.
impl Drop for Poly {
    fn drop(self) {
        let Self { ones: _, twos: _ } = self;
    }
}

impl Poly {
    /// The polynomial 0, with n coefficients.
    pub fn zero(alloc: Global, n: usize) -> Result<Poly, NoMemory>
        requires { IsDegree n }
        ensures { IfOk result (λ a. a ≡ replicate n 0) }
    {
        Ok(Poly {
            ones: lanes::zeros(alloc, n)?,
            twos: lanes::zeros(alloc, n)?,
        })
    }

    /// The polynomial with these coefficients.
    pub fn from_coeffs(alloc: Global, c: &[u64]) -> Result<Poly, NoMemory>
        requires degree { IsDegree (length c.now) }
        requires residues { AreResidues c.now }
        ensures { IfOk result (λ a. a ≡ c.now) }
    {
        let mut ones = lanes::zeros(alloc, c.len())?;
        let mut twos = lanes::zeros(alloc, c.len())?;
        reduce_lanes::<P1>(c, &mut ones);
        reduce_lanes::<P2>(c, &mut twos);
        Ok(Poly { ones, twos })
    }

    /// The same polynomial.
    pub fn copy(&self) -> Result<Poly, NoMemory>
        ensures { IfOk result (λ a. a ≡ self.now) }
    {
        Ok(Poly {
            ones: self.ones.clone()?,
            twos: self.twos.clone()?,
        })
    }

    /// The polynomial with n coefficients whose constant one is z and whose others are 0.
    pub fn constant(alloc: Global, n: usize, z: u64) -> Result<Poly, NoMemory>
        requires degree { IsDegree n }
        requires residue { z < q }
        ensures { IfOk result (λ a. a ≡ reduced q n (λ k. if k == 0 then pos z else pos 0)) }
    {
        let mut constant = Poly::zero(alloc, n)?;
        constant.put_constant(z);
        Ok(constant)
    }

    /// The degree N: how many coefficients there are. It also makes known that they are residues.
    pub fn degree(&self) -> usize
        ensures value { result ≡ length self.now }
        ensures residues { AreResidues self.now }
    {
        self.ones.len()
    }

    /// Writes the coefficients, the constant one first. It takes no memory.
    pub fn coeffs_into(&self, out: &mut [u64])
        requires { length out.old ≡ length self.now }
        ensures value { out.new ≡ self.now }
        ensures residues { AreResidues out.new }
    {
        pairs::join(&self.ones, &self.twos, out);
    }

    /// Becomes 0, of the same degree. It takes no memory.
    pub fn clear(&mut self)
        ensures { self.new ≡ replicate (length self.old) 0 }
    {
        lanes::clear(&mut self.ones);
        lanes::clear(&mut self.twos);
    }

    /// Becomes the polynomial whose constant coefficient is z and whose others are 0, as many as it had. It takes no memory.
    pub fn put_constant(&mut self, z: u64)
        requires { z < q }
        ensures value { self.new ≡ reduced q (length self.old) (λ k. if k == 0 then pos z else pos 0) }
        ensures degree { length self.new ≡ length self.old }
    {
        lanes::put_constant::<P1>(&mut self.ones, z);
        lanes::put_constant::<P2>(&mut self.twos, z);
    }

    /// Becomes the polynomial with these coefficients, as many as it had. It takes no memory.
    pub fn put_coeffs(&mut self, c: &[u64])
        requires same_length { length c.now ≡ length self.old }
        requires residues { AreResidues c.now }
        ensures { self.new ≡ c.now }
    {
        reduce_lanes::<P1>(c, &mut self.ones);
        reduce_lanes::<P2>(c, &mut self.twos);
    }

    /// Becomes the polynomial with these coefficients, each below both primes, as many as it had. It takes no memory and no division.
    pub fn put_small(&mut self, c: &[u64])
        requires same_length { length c.now ≡ length self.old }
        requires below { All (λ x. x < p2) c.now }
        ensures { self.new ≡ c.now }
    {
        narrow_lanes::<P1>(c, &mut self.ones);
        narrow_lanes::<P2>(c, &mut self.twos);
    }

    /// Becomes the sum of itself and b. It takes no memory.
    pub fn add_assign(&mut self, b: &Poly)
        requires { length b.now ≡ length self.old }
        ensures value { self.new ≡ ring_add q (length self.old) self.old b.now }
        ensures degree { length self.new ≡ length self.old }
    {
        add_lanes::<P1>(&mut self.ones, &b.ones);
        add_lanes::<P2>(&mut self.twos, &b.twos);
    }

    /// Becomes the difference of itself and b. It takes no memory.
    pub fn sub_assign(&mut self, b: &Poly)
        requires { length b.now ≡ length self.old }
        ensures value { self.new ≡ ring_sub q (length self.old) self.old b.now }
        ensures degree { length self.new ≡ length self.old }
    {
        sub_lanes::<P1>(&mut self.ones, &b.ones);
        sub_lanes::<P2>(&mut self.twos, &b.twos);
    }

    /// The norm: the sum of the absolute values of the coefficients' centred representatives, x where x is at most
    /// (q - 1) / 2 and q - x above. Each is below 2^56 and there are less than 2^64, so the sum stays below 2^120.
    pub fn norm1(&self) -> u128
        ensures value { result ≡ norm q self.now }
        ensures size { result ≤ length self.now * ((q - 1) / 2) }
    {
        pairs::norm1(&self.ones, &self.twos)
    }
}
