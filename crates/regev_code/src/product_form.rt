ghost use Rattle.std.specs.Prelude.{◌≡◌, ◌+◌, ◌<◌, ◌≤◌, length, replicate, map, All, IfOk};
ghost use Rattle.std.specs.List.{range_with_len};
ghost use Rattle.negacyclic.specs.Ring.{ring_add, ring_mul};
ghost use Rattle.spiral_model.specs.Sets.{IsSet, q};
ghost use Rattle.spiral_model.specs.Words.{row_of};
ghost use Rattle.ring_poly.specs.Polynomials.{IsDegree};
ghost use Rattle.regev_code.specs.Products.{HasShape};

use crate::Cipher;
use no_memory::NoMemory;
use ring_poly::{Poly, PolyT, Ring};
use spiral_model::ParamSet;
use std::alloc::Global;
use std::marker::Model;

/// A Regev ciphertext whose rows 0 to m are in product form. Seen as the list of its rows, like a `Cipher`.
#[derive(Debug, Drop)]
pub struct CipherT {
    pub polys: Vec<PolyT>,
}

impl Model for CipherT {
    ghost use Rattle.std.specs.Prelude.{List, ℕ};
    ghost use Rattle.regev_code.specs.Shapes.{IsCipher};

    ghost Value = { List (List ℕ) };

    ghost view = { λ c. c.polys.items };

    ghost invariant = { λ c. IsCipher c.polys.items };
}

/// So many polynomials 0.
pub(crate) fn zero_forms(alloc: Global, degree: usize, count: u32) -> Result<Vec<PolyT>, NoMemory>
    requires { IsDegree degree }
    ensures { IfOk result (λ polys. polys.items ≡ replicate count (replicate degree 0)) }
{
    let mut polys = Vec::new(alloc);
    for _ in 0..count {
        polys.push(PolyT::zero(alloc, degree)?)?;
    }
    Ok(polys)
}

/// Writes 0 into each row.
#[tactic(auto, using(negacyclic::proofs::Filled::filled_all))]
fn clear_rows(rows: &mut [PolyT])
    ensures { rows.new ≡ map (λ i. replicate (length (row_of rows.old i)) 0) (range_with_len 0 (length rows.old)) }
{
    for i in 0..rows.len() {
        let row = &mut rows[i];
        row.clear();
    }
}

/// Writes the product form of each row.
fn rows_to_form(ring: &Ring, from: &[Poly], to: &mut [PolyT])
    requires same_length { length to.old ≡ length from.now }
    requires from_degree { All (λ a. length a ≡ ring.now) from.now }
    requires to_degree { All (λ a. length a ≡ ring.now) to.old }
    ensures { to.new ≡ from.now }
{
    for i in 0..to.len() {
        let row = &mut to[i];
        ring.to_product(&from[i], row);
    }
}

/// Writes each row back from its product form.
fn rows_from_form(ring: &Ring, from: &[PolyT], to: &mut [Poly])
    requires same_length { length to.old ≡ length from.now }
    requires from_degree { All (λ a. length a ≡ ring.now) from.now }
    requires to_degree { All (λ a. length a ≡ ring.now) to.old }
    ensures { to.new ≡ from.now }
{
    for i in 0..to.len() {
        let row = &mut to[i];
        ring.from_product(&from[i], row);
    }
}

/// Adds a times each row of `key` to that row of `sum`.
#[tactic(auto, using(negacyclic::proofs::Filled::filled_all))]
fn add_products(ring: &Ring, a: &PolyT, key: &[PolyT], sum: &mut [PolyT])
    requires same_length { length key.now ≡ length sum.old }
    requires degree { length a.now ≡ ring.now }
    requires key_degree { All (λ b. length b ≡ ring.now) key.now }
    requires sum_degree { All (λ b. length b ≡ ring.now) sum.old }
    ensures { sum.new ≡ map (λ i. ring_add q ring.now (row_of sum.old i) (ring_mul q ring.now a.now (row_of key.now i))) (range_with_len 0 (length sum.old)) }
{
    for i in 0..sum.len() {
        let row = &mut sum[i];
        ring.mul_add(row, a, &key[i]);
    }
}

impl CipherT {
    /// Rows 0 to m of zeros.
    pub fn zero(alloc: Global, set: &ParamSet, m: u32) -> Result<CipherT, NoMemory>
        requires known { IsSet set.now }
        requires some { 1 ≤ m }
        requires most { m ≤ set.now.n }
        ensures { IfOk result (λ c. c ≡ replicate (m + 1) (replicate set.now.degree 0)) }
    {
        Ok(CipherT {
            polys: zero_forms(alloc, set.degree as usize, m + 1)?,
        })
    }

    /// How many rows there are, row 0 included.
    pub fn rows(&self) -> u32
        ensures value { result ≡ length self.now }
        ensures some { 2 ≤ result }
    {
        self.polys.len() as u32
    }

    /// A row, counted from 0.
    pub fn row(&self, r: u32) -> &PolyT
        requires { r < length self.now }
        ensures { result.now ≡ row_of self.now r }
    {
        &self.polys[r as usize]
    }

    /// Becomes rows of zeros, as many and as long as they were. It takes no memory.
    pub fn clear(&mut self)
        ensures { self.new ≡ replicate (length self.old) (replicate (length (row_of self.old 0)) 0) }
    {
        clear_rows(&mut self.polys);
    }

    /// Adds a times a ciphertext, row by row. It takes no memory.
    pub fn add_product(&mut self, ring: &Ring, a: &PolyT, key: &CipherT)
        requires degree { length a.now ≡ ring.now }
        requires key { HasShape ring.now (length self.old) key.now }
        requires sum { HasShape ring.now (length self.old) self.old }
        ensures { self.new ≡ map (λ i. ring_add q ring.now (row_of self.old i) (ring_mul q ring.now a.now (row_of key.now i))) (range_with_len 0 (length self.old)) }
    {
        add_products(ring, a, &key.polys, &mut self.polys);
    }
}

/// A polynomial in product form.
fn row_form(alloc: Global, ring: &Ring, row: &Poly) -> Result<PolyT, NoMemory>
    requires { length row.now ≡ ring.now }
    ensures { IfOk result (λ a. a ≡ row.now) }
{
    let mut a = PolyT::zero(alloc, ring.degree())?;
    ring.to_product(row, &mut a);
    Ok(a)
}

/// Polynomials in product form, one by one.
fn row_forms(alloc: Global, ring: &Ring, rows: &[Poly]) -> Result<Vec<PolyT>, NoMemory>
    requires { All (λ a. length a ≡ ring.now) rows.now }
    ensures { IfOk result (λ forms. forms.items ≡ rows.now) }
{
    let mut forms = Vec::new(alloc);
    for row in rows {
        forms.push(row_form(alloc, ring, row)?)?;
    }
    Ok(forms)
}

/// A ciphertext in product form.
pub fn form_of(alloc: Global, ring: &Ring, c: &Cipher) -> Result<CipherT, NoMemory>
    requires degree { All (λ a. length a ≡ ring.now) c.now }
    ensures { IfOk result (λ form. form ≡ c.now) }
{
    Ok(CipherT {
        polys: row_forms(alloc, ring, &c.polys)?,
    })
}

/// Ciphertexts in product form, one by one.
pub fn forms_of(alloc: Global, ring: &Ring, ciphers: &[Cipher]) -> Result<Vec<CipherT>, NoMemory>
    requires degrees { All (λ c. All (λ a. length a ≡ ring.now) c) ciphers.now }
    ensures { IfOk result (λ forms. forms.items ≡ ciphers.now) }
{
    let mut forms = Vec::new(alloc);
    for cipher in ciphers {
        forms.push(form_of(alloc, ring, cipher)?)?;
    }
    Ok(forms)
}

/// Writes the product form of a ciphertext. It takes no memory.
pub fn to_form(ring: &Ring, c: &Cipher, out: &mut CipherT)
    requires rows { length out.old ≡ length c.now }
    requires degree { All (λ a. length a ≡ ring.now) c.now }
    requires room { All (λ a. length a ≡ ring.now) out.old }
    ensures { out.new ≡ c.now }
{
    rows_to_form(ring, &c.polys, &mut out.polys);
}

/// Writes a ciphertext back from its product form. It takes no memory.
pub fn from_form(ring: &Ring, c: &CipherT, out: &mut Cipher)
    requires rows { length out.old ≡ length c.now }
    requires degree { All (λ a. length a ≡ ring.now) c.now }
    requires room { All (λ a. length a ≡ ring.now) out.old }
    ensures { out.new ≡ c.now }
{
    rows_from_form(ring, &c.polys, &mut out.polys);
}
