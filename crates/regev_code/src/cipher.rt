ghost use Rattle.std.specs.Prelude.{◌≡◌, ◌+◌, ◌<◌, ◌≤◌, ◌^◌, length, replicate, All, IfOk};
ghost use Rattle.spiral_model.specs.Sets.{IsSet};
ghost use Rattle.spiral_model.specs.Words.{row_of};
ghost use Rattle.spiral_model.specs.Gadgets.{cipher_add};
ghost use Rattle.spiral_model.specs.Ciphertexts.{phase as phase_of};
ghost use Rattle.ring_poly.specs.Polynomials.{IsDegree};

use no_memory::NoMemory;
use ring_poly::{Poly, Ring};
use spiral_model::ParamSet;
use std::alloc::Global;
use std::marker::Model;

/// A Regev ciphertext: rows 0 to m, each a polynomial, all of one degree. Seen as the list of its rows.
#[derive(Debug, Drop)]
pub struct Cipher {
    pub polys: Vec<Poly>,
}

impl Model for Cipher {
    ghost use Rattle.std.specs.Prelude.{List, ℕ};
    ghost use Rattle.regev_code.specs.Shapes.{IsCipher};

    ghost Value = { List (List ℕ) };

    ghost view = { λ c. c.polys.items };

    ghost invariant = { λ c. IsCipher c.polys.items };
}

/// So many polynomials 0.
fn zero_polys(alloc: Global, degree: usize, count: u32) -> Result<Vec<Poly>, NoMemory>
    requires { IsDegree degree }
    ensures { IfOk result (λ polys. polys.items ≡ replicate count (replicate degree 0)) }
{
    let mut polys = Vec::new(alloc);
    for _ in 0..count {
        polys.push(Poly::zero(alloc, degree)?)?;
    }
    Ok(polys)
}

/// Adds rows, one by one.
#[tactic(auto, using(negacyclic::proofs::Filled::filled_all))]
fn add_rows(rows: &[Poly], sum: &mut [Poly])
    requires same_length { length rows.now ≡ length sum.old }
    requires rows_degree { All (λ a. length a ≡ length (row_of sum.old 0)) rows.now }
    requires sum_degree { All (λ a. length a ≡ length (row_of sum.old 0)) sum.old }
    ensures { sum.new ≡ cipher_add (length (row_of sum.old 0)) sum.old rows.now }
{
    for i in 0..sum.len() {
        let row = &mut sum[i];
        row.add_assign(&rows[i]);
    }
}

impl Cipher {
    /// Rows 0 to m of zeros.
    pub fn zero(alloc: Global, set: &ParamSet, m: u32) -> Result<Cipher, NoMemory>
        requires known { IsSet set.now }
        requires some { 1 ≤ m }
        requires most { m ≤ set.now.n }
        ensures { IfOk result (λ c. c ≡ replicate (m + 1) (replicate set.now.degree 0)) }
    {
        Ok(Cipher::from_rows(zero_polys(alloc, set.degree as usize, m + 1)?))
    }

    /// The ciphertext of these rows.
    pub fn from_rows(rows: Vec<Poly>) -> Cipher
        requires some { 2 ≤ length rows.items }
        requires few { length rows.items < 2 ^ 32 }
        requires same { All (λ a. length a ≡ length (row_of rows.items 0)) rows.items }
        ensures { result ≡ rows.items }
    {
        Cipher { polys: rows }
    }

    /// How many rows there are, row 0 included.
    pub fn rows(&self) -> u32
        ensures value { result ≡ length self.now }
        ensures some { 2 ≤ result }
    {
        self.polys.len() as u32
    }

    /// How many coefficients each row has.
    pub fn degree(&self) -> usize
        ensures { All (λ a. length a ≡ result) self.now }
    {
        self.polys[0].degree()
    }

    /// Adds a ciphertext of the same shape, row by row: its phase is then the sum of both.
    pub fn add_assign(&mut self, c: &Cipher)
        requires same_rows { length c.now ≡ length self.old }
        requires same_degree { All (λ a. length a ≡ length (row_of self.old 0)) c.now }
        ensures { self.new ≡ cipher_add (length (row_of self.old 0)) self.old c.now }
    {
        add_rows(&c.polys, &mut self.polys);
    }

    /// A row, counted from 0.
    pub fn row(&self, r: u32) -> &Poly
        requires { r < length self.now }
        ensures { result.now ≡ row_of self.now r }
    {
        &self.polys[r as usize]
    }
}

/// The phase in row `row` under that row's secret s: c_row - s c_0, the message and a small error.
pub fn phase(
    _alloc: Global,
    ring: &Ring,
    secret: &Poly,
    c: &Cipher,
    row: u32,
) -> Result<Poly, NoMemory>
    requires row_in { row < length c.now }
    requires secret { length secret.now ≡ ring.now }
    requires degree { All (λ a. length a ≡ ring.now) c.now }
    ensures { IfOk result (λ a. a ≡ phase_of ring.now secret.now c.now row) }
{
    let mut phase = c.row(row).copy()?;
    let product = ring.mul(secret, c.row(0))?;
    phase.sub_assign(&product);
    Ok(phase)
}
