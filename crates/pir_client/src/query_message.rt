//! The query of a set that expands: one polynomial that holds the numbers of the first dimension and of the selections.

ghost use Rattle.std.specs.Prelude.{◌≡◌, ◌+◌, ◌*◌, ◌/◌, ◌%◌, ◌<◌, ◌≤◌, [], ◌∷◌, true, false, length, replicate, pos, All, IfOk};
ghost use Rattle.negacyclic.specs.Ring.{reduced};
ghost use Rattle.spiral_sets.specs.Sets.{IsSet, q};
ghost use Rattle.spiral_sets.specs.Counts.{query_ciphertexts, words_of};
ghost use Rattle.spiral_model.specs.Ciphertexts.{encrypted_all};
ghost use Rattle.spiral_model.specs.Queries.{halved as halved_of, selection_number as selection_of, query_number as number_of, query_poly as query_poly_of};
ghost use Rattle.spiral_model.specs.Bodies.{IsQuery};
ghost use Rattle.regev_code.specs.Shapes.{OfDegree, under};

use gsw_code::{first_value, power_of, selection};
use no_memory::NoMemory;
use regev_code::{Draw, QueryBody, Secret, draw_cipher};
use ring_poly::{Poly, Ring};
use spiral_sets::{ParamSet, Q, digit_count};
use std::alloc::Global;

/// n zeros.
fn zeros(alloc: Global, n: usize) -> Result<Vec<u64>, NoMemory>
    ensures { IfOk result (λ v. v.items ≡ replicate n 0) }
{
    Ok(vec![in alloc; 0u64; n]?)
}

/// x / 2 modulo q: x times (q + 1) / 2, the inverse of 2. Both are below 2^56, so the product stays below 2^112.
fn half(x: u64) -> u64
    requires { x < q }
    ensures value { result ≡ x * ((q + 1) / 2) % q }
    ensures below { result < q }
{
    (u128::from(x) * u128::from((Q + 1) / 2) % u128::from(Q)) as u64
}

/// x / 2^times modulo q: halved once for each round of the expansion that doubles it.
fn halved(x: u64, times: u32) -> u64
    requires { x < q }
    ensures value { result ≡ halved_of times x }
    ensures below { result < q }
{
    let mut number = x;
    for _ in 0..times {
        number = half(number);
    }
    number
}

/// The selection side's number x, where x = l t + k for digit k of selection l: the digit's power 2^(w k) where the
/// selection's bit is set, else 0. Behind the last selection the numbers are 0.
fn selection_number(set: &ParamSet, index: u32, x: u32) -> u64
    requires { IsSet set.now }
    ensures value { result ≡ selection_of set.now index x }
    ensures below { result < q }
{
    let digits = digit_count(set.w_gsw);
    let l = x / digits;
    if l >= set.nu2 {
        return 0;
    }
    power_of(set, selection(set, index, l), x % digits)
}

/// Coefficient k of the query's polynomial. Place 2 u holds Delta / 2^(1 + nu1) where u is the asked place of the first
/// dimension, place 2 x + 1 the selection side's number x over 2^(1 + rho): what the rounds double gets whole again.
fn query_number(set: &ParamSet, index: u32, k: u32) -> u64
    requires { IsSet set.now }
    ensures value { result ≡ number_of set.now index k }
    ensures below { result < q }
{
    if k % 2 == 0 {
        halved(first_value(set, index, k / 2), 1 + set.nu1)
    } else {
        halved(selection_number(set, index, k / 2), 1 + set.rho())
    }
}

/// Writes the coefficients of the query's polynomial.
fn query_numbers(set: &ParamSet, index: u32, out: &mut [u64])
    requires known { IsSet set.now }
    requires degree { length out.old ≡ set.now.degree }
    ensures value { out.new ≡ reduced q set.now.degree (λ k. pos (number_of set.now index k)) }
    ensures residues { All (λ x. x < q) out.new }
{
    for k in 0..out.len() {
        out[k] = query_number(set, index, k as u32);
    }
}

/// The one message of a query that is expanded, as a polynomial: at place 2 u Delta / 2^(1 + nu1) for the asked place u of
/// the first dimension, at place 2 (l t + k) + 1 the power 2^(w k) / 2^(1 + rho) for each selection l whose bit is set and
/// each of its t digits k, and 0 elsewhere, all modulo q.
pub(crate) fn query_poly(alloc: Global, set: &ParamSet, index: u32) -> Result<Poly, NoMemory>
    requires { IsSet set.now }
    ensures value { IfOk result (λ a. a ≡ query_poly_of set.now index) }
    ensures degree { IfOk result (λ a. length a ≡ set.now.degree) }
{
    let mut numbers = zeros(alloc, set.degree as usize)?;
    let scratch = numbers.as_mut_slice();
    query_numbers(set, index, scratch);
    Ok(Poly::from_coeffs(alloc, scratch)?)
}

/// The query of a set that expands: one ciphertext of that message under the scalar secret, drawn from the next words.
pub(crate) fn draw_one(
    alloc: Global,
    ring: &Ring,
    set: &ParamSet,
    secret: &Secret,
    index: u32,
    draw: &mut Draw<'_>,
) -> Result<QueryBody, NoMemory>
    requires known { IsSet set.now }
    requires direct { set.now.direct ≡ false }
    requires ring { ring.now ≡ set.now.degree }
    requires degree { OfDegree ring.now secret.now }
    requires scalar { length (under ring.now secret.now true) ≡ 1 }
    requires enough { draw.old.used + words_of set.now (query_ciphertexts set.now) ≤ length draw.old.words }
    ensures query { IfOk result (λ query. IsQuery query) }
    ensures set { IfOk result (λ query. query.set ≡ set.now) }
    ensures ciphers { IfOk result (λ query. query.ciphers ≡ encrypted_all set.now.degree draw.old.words draw.old.used (under ring.now secret.now true) ((query_poly_of set.now index ∷ []) ∷ [])) }
{
    let mut messages = Vec::new(alloc);
    messages.push(query_poly(alloc, set, index)?)?;
    let mut ciphers = Vec::new(alloc);
    ciphers.push(draw_cipher(alloc, ring, secret, true, &messages, draw)?)?;
    Ok(QueryBody { set: *set, ciphers })
}
