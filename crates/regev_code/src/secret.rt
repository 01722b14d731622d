ghost use Rattle.std.specs.Prelude.{◌≡◌, ◌+◌, ◌*◌, ◌^◌, ◌<◌, ◌≤◌, [], length, replicate, pos, map, slice_index_or, if◌then◌else◌, Some, None, IfOk, MatchOption};
ghost use Rattle.spiral_model.specs.Sets.{IsSet, has_keys};
ghost use Rattle.spiral_model.specs.Counts.{secret_words};
ghost use Rattle.spiral_model.specs.Replies.{IsTernary};
ghost use Rattle.spiral_model.specs.Sampling.{secret_numbers};
ghost use Rattle.ring_poly.specs.Polynomials.{IsDegree};
ghost use Rattle.regev_code.specs.Shapes.{polynomial_of, secret_row, numbers_under, rows_from, secrets_from};

use crate::sampling::{secret_part, secret_residues, zeros};
use no_memory::NoMemory;
use ring_poly::Poly;
use spiral_model::ParamSet;
use std::alloc::Global;
use std::marker::Model;

/// One secret: its numbers, and the same as a polynomial.
struct Key {
    numbers: Vec<i8>,
    poly: Poly,
}

impl Model for Key {
    ghost use Rattle.std.specs.Prelude.{◌≡◌, ℤ, List, length, All};
    ghost use Rattle.spiral_model.specs.Replies.{IsTernary};
    ghost use Rattle.spiral_model.specs.Sampling.{secret_poly};

    ghost Value = { List ℤ };

    ghost view = { λ k. k.numbers.items };

    ghost invariant = { λ k. All IsTernary k.numbers.items × (k.poly ≡ secret_poly (length k.numbers.items) k.numbers.items) };
}

/// By hand: a caller's proof then takes one step for it, and not one for each of its lists.
impl Drop for Key {
    fn drop(self) {
        let Self {
            numbers: _,
            poly: _,
        } = self;
    }
}

/// n zeros.
fn small_zeros(alloc: Global, n: usize) -> Result<Vec<i8>, NoMemory>
    ensures { IfOk result (λ v. v.items ≡ replicate n (pos 0)) }
{
    Ok(vec![in alloc; 0i8; n]?)
}

impl Key {
    /// The secret that the words from `start` on give, one number for each place of `scratch`.
    fn from_words(
        alloc: Global,
        words: &[u64],
        start: usize,
        scratch: &mut [u64],
    ) -> Result<Key, NoMemory>
        requires degree { IsDegree (length scratch.old) }
        requires enough { start + length scratch.old ≤ length words.now }
        ensures { IfOk result (λ key. key ≡ secret_numbers (length scratch.old) words.now start) }
    {
        let mut numbers = small_zeros(alloc, scratch.len())?;
        secret_part(words, start, &mut numbers);
        secret_residues(&numbers, scratch);
        let poly = Poly::from_coeffs(alloc, scratch)?;
        Ok(Key { numbers, poly })
    }

    /// The secret as a polynomial.
    fn poly(&self) -> &Poly
        ensures value { result.now ≡ polynomial_of self.now }
        ensures degree { length result.now ≡ length self.now }
    {
        &self.poly
    }

    /// The number at a place.
    fn number(&self, place: usize) -> i8
        requires { place < length self.now }
        ensures value { result ≡ slice_index_or self.now place (pos 0) }
        ensures ternary { IsTernary result }
    {
        self.numbers[place]
    }
}

/// A client's secrets: the scalar one, where the set has keys, and s_1 to s_n.
pub struct Secret {
    scalar: Option<Key>,
    rows: Vec<Key>,
}

impl Model for Secret {
    ghost use Rattle.std.specs.Prelude.{◌<◌, ◌^◌, length};
    ghost use Rattle.regev_code.specs.Seen.{Secrets};

    ghost Value = { Secrets };

    ghost view = { λ s. record { scalar = s.scalar; rows = s.rows.items } };

    ghost invariant = { λ s. length s.rows.items < 2 ^ 31 };
}

/// By hand: a caller's proof then takes one step for it, and not one for each of its lists.
impl Drop for Secret {
    fn drop(self) {
        let Self { scalar: _, rows: _ } = self;
    }
}

/// How many words a set's secrets take.
pub(crate) fn word_count(set: &ParamSet) -> usize
    requires { IsSet set.now }
    ensures { result ≡ secret_words set.now }
{
    let scalars = if set.has_keys() { 1 } else { 0 };
    set.degree as usize * (set.n as usize + scalars)
}

/// Where the words of s_1 begin: behind those of the scalar secret.
fn first_row(set: &ParamSet, start: usize) -> usize
    requires known { IsSet set.now }
    requires room { start < 2 ^ 63 }
    ensures { result ≡ start + (if has_keys set.now then set.now.degree else 0) }
{
    if set.has_keys() {
        start + set.degree as usize
    } else {
        start
    }
}

/// The scalar secret, where the set has one, by the words from `start` on.
fn scalar_from_words(
    alloc: Global,
    set: &ParamSet,
    words: &[u64],
    start: usize,
    scratch: &mut [u64],
) -> Result<Option<Key>, NoMemory>
    requires degree { IsDegree (length scratch.old) }
    requires enough { start + length scratch.old ≤ length words.now }
    ensures { IfOk result (λ key. key ≡ (if has_keys set.now then Some (secret_numbers (length scratch.old) words.now start) else None)) }
{
    if set.has_keys() {
        Ok(Some(Key::from_words(alloc, words, start, scratch)?))
    } else {
        Ok(None)
    }
}

/// The secrets s_1 to s_n by the words from `start` on.
fn rows_from_words(
    alloc: Global,
    n: u32,
    words: &[u64],
    start: usize,
    scratch: &mut [u64],
) -> Result<Vec<Key>, NoMemory>
    requires degree { IsDegree (length scratch.old) }
    requires enough { start + n * length scratch.old ≤ length words.now }
    ensures { IfOk result (λ rows. rows.items ≡ rows_from (length scratch.old) n words.now start) }
{
    let mut rows = Vec::new(alloc);
    for r in 0..n {
        let at = start + r as usize * scratch.len();
        rows.push(Key::from_words(alloc, words, at, scratch)?)?;
    }
    Ok(rows)
}

impl Secret {
    /// The secrets of a set by the words from `start` on.
    pub(crate) fn from_words(
        alloc: Global,
        set: &ParamSet,
        words: &[u64],
        start: usize,
    ) -> Result<Secret, NoMemory>
        requires known { IsSet set.now }
        requires enough { start + secret_words set.now ≤ length words.now }
        ensures { IfOk result (λ secret. secret ≡ secrets_from set.now words.now start) }
    {
        let mut scratch = zeros(alloc, set.degree as usize)?;
        let scalar = scalar_from_words(alloc, set, words, start, &mut scratch)?;
        let rows = rows_from_words(alloc, set.n, words, first_row(set, start), &mut scratch)?;
        Ok(Secret { scalar, rows })
    }

    /// The scalar secret as a polynomial, where there is one.
    pub fn scalar(&self) -> Option<&Poly>
        ensures { MatchOption result (self.now.scalar ≡ None) (λ a. MatchOption self.now.scalar ⊥ (λ numbers. a.now ≡ polynomial_of numbers)) }
    {
        match &self.scalar {
            Some(key) => Some(key.poly()),
            None => None,
        }
    }

    /// How many secrets a ciphertext is under: one, where `scalar` holds and there is a scalar one, else n.
    pub(crate) fn count(&self, scalar: bool) -> usize
        ensures value { result ≡ length (numbers_under self.now scalar) }
        ensures few { result < 2 ^ 31 }
    {
        if scalar {
            match &self.scalar {
                Some(_) => 1,
                None => 0,
            }
        } else {
            self.rows.len()
        }
    }

    /// One of the secrets that a ciphertext is under, counted from 0, as a polynomial.
    pub fn poly(&self, scalar: bool, i: usize) -> &Poly
        requires { i < length (numbers_under self.now scalar) }
        ensures { result.now ≡ polynomial_of (slice_index_or (numbers_under self.now scalar) i []) }
    {
        if scalar {
            match &self.scalar {
                Some(key) => key.poly(),
                None => unreachable!(),
            }
        } else {
            self.rows[i].poly()
        }
    }

    /// The secret s_r as a polynomial, for r from 1 to n.
    pub fn row(&self, r: u32) -> &Poly
        requires first { 1 ≤ r }
        requires last { r ≤ length self.now.rows }
        ensures value { result.now ≡ polynomial_of (secret_row self.now r) }
        ensures degree { length result.now ≡ length (secret_row self.now r) }
    {
        self.rows[r as usize - 1].poly()
    }

    /// The number of the secret s_r at a place: -1, 0 or 1.
    pub fn number(&self, r: u32, place: usize) -> i8
        requires first { 1 ≤ r }
        requires last { r ≤ length self.now.rows }
        requires place { place < length (secret_row self.now r) }
        ensures value { result ≡ slice_index_or (secret_row self.now r) place (pos 0) }
        ensures ternary { IsTernary result }
    {
        self.rows[r as usize - 1].number(place)
    }
}
