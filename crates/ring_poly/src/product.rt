//! Polynomials by their values, the form in which products are taken.

ghost use Rattle.std.specs.Prelude.{◌≡◌, length, replicate, IfOk};
ghost use Rattle.negacyclic.specs.Ring.{ring_add};
ghost use Rattle.spiral_sets.specs.Sets.{q};
ghost use Rattle.ring_poly.specs.Polynomials.{IsDegree};

use crate::lanes;
use no_memory::NoMemory;
use std::alloc::Global;
use std::marker::Model;
use word_prime::{P1, P2, add_lanes};

/// The form of a polynomial in which products are taken, seen as the same list of coefficients. It is held as the polynomial's values
/// modulo the two primes, at the points of the transform.
#[derive(Debug)]
pub struct PolyT {
    pub(crate) ones: Vec<u32>,
    pub(crate) twos: Vec<u32>,
}

impl Model for PolyT {
    ghost use Rattle.std.specs.Prelude.{List, ℕ};
    ghost use Rattle.ring_poly.specs.Polynomials.{interpolated, AreValues};

    ghost Value = { List ℕ };

    ghost view = { λ a. interpolated a.ones.items a.twos.items };

    ghost invariant = { λ a. AreValues a.ones.items a.twos.items };
}

/// By hand: a caller's proof then takes one step for it, and not one for each of its lists.
impl Drop for PolyT {
    fn drop(self) {
        let Self { ones: _, twos: _ } = self;
    }
}

impl PolyT {
    /// The polynomial 0, with n coefficients.
    pub fn zero(alloc: Global, n: usize) -> Result<PolyT, NoMemory>
        requires { IsDegree n }
        ensures { IfOk result (λ a. a ≡ replicate n 0) }
    {
        Ok(PolyT {
            ones: lanes::zeros(alloc, n)?,
            twos: lanes::zeros(alloc, n)?,
        })
    }

    /// Becomes 0, of the same degree. It takes no memory.
    pub fn clear(&mut self)
        ensures { self.new ≡ replicate (length self.old) 0 }
    {
        lanes::clear(&mut self.ones);
        lanes::clear(&mut self.twos);
    }

    /// Becomes the sum of itself and b. It takes no memory.
    pub fn add_assign(&mut self, b: &PolyT)
        requires { length b.now ≡ length self.old }
        ensures value { self.new ≡ ring_add q (length self.old) self.old b.now }
        ensures degree { length self.new ≡ length self.old }
    {
        add_lanes::<P1>(&mut self.ones, &b.ones);
        add_lanes::<P2>(&mut self.twos, &b.twos);
    }
}
