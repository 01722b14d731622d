ghost use Rattle.std.specs.Prelude.{◌≡◌, ◌<◌, ◌≤◌, ◌+◌, length, All, IfOk};
ghost use Rattle.negacyclic.specs.Ring.{ring_add, ring_mul};
ghost use Rattle.spiral_model.specs.Sets.{q};
ghost use Rattle.spiral_model.specs.Ciphertexts.{encrypted, encrypted_row, words_taken};
ghost use Rattle.regev_code.specs.Shapes.{OfDegree, under};

use crate::sampling::{error_part, uniform_part, zeros};
use crate::{Cipher, Secret};
use no_memory::NoMemory;
use ring_poly::{Poly, PolyT, Ring};
use std::alloc::Global;
use std::marker::Model;

/// The uniform part of a ciphertext, with room in which the rows behind it are worked out one after the other. Seen
/// as the uniform part.
struct Mask {
    uniform: PolyT,
    /// a row's secret
    secret: PolyT,
    /// the product of the two
    product: PolyT,
    /// the same as a polynomial
    poly: Poly,
}

impl Model for Mask {
    ghost use Rattle.std.specs.Prelude.{◌≡◌, ℕ, List, length};

    ghost Value = { List ℕ };

    ghost view = { λ m. m.uniform };

    ghost invariant = { λ m. (length m.secret ≡ length m.uniform) × (length m.product ≡ length m.uniform) × (length m.poly ≡ length m.uniform) };
}

/// By hand: a caller's proof then takes one step for it, and not one for each of its lists.
impl Drop for Mask {
    fn drop(self) {
        let Self {
            uniform: _,
            secret: _,
            product: _,
            poly: _,
        } = self;
    }
}

impl Mask {
    fn new(alloc: Global, ring: &Ring, uniform: &Poly) -> Result<Mask, NoMemory>
        requires { length uniform.now ≡ ring.now }
        ensures { IfOk result (λ mask. mask ≡ uniform.now) }
    {
        let degree = ring.degree();
        let mut form = PolyT::zero(alloc, degree)?;
        ring.to_product(uniform, &mut form);
        Ok(Mask {
            uniform: form,
            secret: PolyT::zero(alloc, degree)?,
            product: PolyT::zero(alloc, degree)?,
            poly: Poly::zero(alloc, degree)?,
        })
    }

    /// Adds s a to a row, for a secret s and the uniform part a.
    fn add_product(&mut self, ring: &Ring, secret: &Poly, row: &mut Poly)
        requires uniform { length self.old ≡ ring.now }
        requires secret { length secret.now ≡ ring.now }
        requires row { length row.old ≡ ring.now }
        ensures value { row.new ≡ ring_add q ring.now row.old (ring_mul q ring.now secret.now self.old) }
        ensures mask { self.new ≡ self.old }
    {
        ring.to_product(secret, &mut self.secret);
        self.product.clear();
        ring.mul_add(&mut self.product, &self.secret, &self.uniform);
        ring.from_product(&self.product, &mut self.poly);
        row.add_assign(&self.poly);
    }

    /// A row of an encryption: s a + e + M, for the uniform part a and the row's secret s, error e and message M.
    /// Each sum is reduced modulo q, so it is below q and fits a word.
    fn row(
        &mut self,
        alloc: Global,
        ring: &Ring,
        secret: &Poly,
        error: &[u64],
        message: &Poly,
    ) -> Result<Poly, NoMemory>
        requires uniform { length self.old ≡ ring.now }
        requires secret { length secret.now ≡ ring.now }
        requires error { length error.now ≡ ring.now }
        requires residues { All (λ x. x < q) error.now }
        requires message { length message.now ≡ ring.now }
        ensures value { IfOk result (λ row. row ≡ encrypted_row ring.now self.old secret.now error.now message.now) }
        ensures mask { self.new ≡ self.old }
    {
        // tells that the degree is one of the two
        let _ = ring.degree();
        let mut row = Poly::from_coeffs(alloc, error)?;
        self.add_product(ring, secret, &mut row);
        row.add_assign(message);
        Ok(row)
    }
}

/// The encryption of messages under the scalar secret, where `scalar` holds, else under s_1 to s_n, by the words from
/// `start` on: 2N for the uniform part, then N for the error of each row.
pub(crate) fn encrypt(
    alloc: Global,
    ring: &Ring,
    secret: &Secret,
    scalar: bool,
    message: &[Poly],
    words: &[u64],
    start: usize,
) -> Result<Cipher, NoMemory>
    requires degree { OfDegree ring.now secret.now }
    requires some { 1 ≤ length message.now }
    requires secrets { length message.now ≡ length (under ring.now secret.now scalar) }
    requires messages { All (λ m. length m ≡ ring.now) message.now }
    requires enough { start + words_taken ring.now (length message.now) ≤ length words.now }
    ensures value { IfOk result (λ c. c ≡ encrypted ring.now words.now start (under ring.now secret.now scalar) message.now) }
    ensures rows { IfOk result (λ c. length c ≡ length message.now + 1) }
    ensures degree { IfOk result (λ c. All (λ a. length a ≡ ring.now) c) }
{
    let degree = ring.degree();
    let mut numbers = zeros(alloc, degree)?;
    let scratch = numbers.as_mut_slice();
    uniform_part(words, start, scratch);
    let uniform = Poly::from_coeffs(alloc, scratch)?;
    let mut mask = Mask::new(alloc, ring, &uniform)?;
    let mut rows = Vec::new(alloc);
    rows.push(uniform)?;
    for i in 0..message.len() {
        let key = secret.poly(scalar, i);
        error_part(words, start + (2 + i) * degree, scratch);
        rows.push(mask.row(alloc, ring, key, scratch, &message[i])?)?;
    }
    // tells that the rows are few enough
    let _ = secret.count(scalar);
    Ok(Cipher::from_rows(rows))
}
