//! What is repeated, and the polynomials that it works on.

ghost use Rattle.std.specs.Prelude.{◌≡◌, length, IfOk};
ghost use Rattle.ring_poly.specs.Polynomials.{AreResidues};

use no_memory::NoMemory;
use ring_poly::{Poly, PolyT, Q, Ring};
use std::alloc::Global;
use std::marker::Model;

/// What is measured, each modulo both primes.
#[derive(Clone, Copy)]
pub(crate) enum Operation {
    /// the transform of a polynomial
    Forward,
    /// its inverse
    Inverse,
    /// a product added, value by value
    MulAdd,
    /// the residues of coefficients
    Split,
    /// the coefficients of residues
    Join,
}

impl Operation {
    pub(crate) const ALL: [Operation; 5] = [
        Operation::Forward,
        Operation::Inverse,
        Operation::MulAdd,
        Operation::Split,
        Operation::Join,
    ];

    pub(crate) fn name(self) -> &'static str {
        match self {
            Operation::Forward => "forward",
            Operation::Inverse => "inverse",
            Operation::MulAdd => "mul_add",
            Operation::Split => "split",
            Operation::Join => "join",
        }
    }
}

/// Polynomials of one ring, in each form. Seen as the degree.
pub(crate) struct Bench {
    ring: Ring,
    poly: Poly,
    form: PolyT,
    sum: PolyT,
    coefficients: Vec<u64>,
}

impl Model for Bench {
    ghost use Rattle.std.specs.Prelude.{◌≡◌, ℕ, length};
    ghost use Rattle.ring_poly.specs.Polynomials.{AreResidues};

    ghost Value = { ℕ };

    ghost view = { λ b. b.ring };

    ghost invariant = { λ b. (length b.poly ≡ b.ring) × (length b.form ≡ b.ring) × (length b.sum ≡ b.ring) × (length b.coefficients.items ≡ b.ring) × AreResidues b.coefficients.items };
}

impl Drop for Bench {
    fn drop(self) {
        let Self {
            ring: _,
            poly: _,
            form: _,
            sum: _,
            coefficients: _,
        } = self;
    }
}

/// Coefficients of all sizes: multiples of a number prime to q.
#[tactic(auto, unfolding(spiral_sets::specs::Sets::q))]
fn coefficients(alloc: Global) -> Result<Vec<u64>, NoMemory>
    ensures count { IfOk result (λ c. length c.items ≡ 2048) }
    ensures residues { IfOk result (λ c. AreResidues c.items) }
{
    let mut coefficients = Vec::new(alloc);
    for k in 0..2048u64 {
        coefficients.push(k * 1_234_567_890_123_457 % Q)?;
    }
    Ok(coefficients)
}

impl Bench {
    /// Polynomials of degree 2048.
    pub(crate) fn new(alloc: Global) -> Result<Bench, NoMemory>
        ensures { IfOk result (λ b. b ≡ 2048) }
    {
        let ring = Ring::new(alloc, 2048)?;
        let coefficients = coefficients(alloc)?;
        let poly = Poly::from_coeffs(alloc, &coefficients)?;
        let mut form = PolyT::zero(alloc, 2048)?;
        ring.to_product(&poly, &mut form);
        let sum = PolyT::zero(alloc, 2048)?;
        Ok(Bench {
            ring,
            poly,
            form,
            sum,
            coefficients,
        })
    }

    /// Does it once.
    pub(crate) fn run(&mut self, operation: Operation)
        ensures { self.new ≡ self.old }
    {
        match operation {
            Operation::Forward => self.ring.to_product(&self.poly, &mut self.form),
            Operation::Inverse => self.ring.from_product(&self.form, &mut self.poly),
            Operation::MulAdd => self.ring.mul_add(&mut self.sum, &self.form, &self.form),
            Operation::Split => self.poly.put_coeffs(&self.coefficients),
            Operation::Join => self.poly.coeffs_into(&mut self.coefficients),
        }
    }
}
