ghost use Rattle.std.specs.Prelude.{◌≡◌, ◌+◌, ◌-◌, ◌*◌, ◌^◌, ◌<◌, ◌≤◌, length, map, All, unsigned_abs, pos, ◌-ℤ◌, ◌*ℤ◌, IfOk};
ghost use Rattle.std.specs.List.{range_with_len};
ghost use Rattle.negacyclic.specs.Sums.{total};
ghost use Rattle.negacyclic.specs.Ring.{at, product_at};
ghost use Rattle.spiral_sets.specs.Sets.{IsSet, p, entries, values_count};
ghost use Rattle.spiral_model.specs.Replies.{IsTernary, opened, opened_entry, opened_values, open_bytes};
ghost use Rattle.modulus_switch.specs.Numbers.{secret_number, opened_number};

use crate::reply::zeros;
use crate::rounding::nearest_residue;
use crate::{ClientState, Reply};
use no_memory::NoMemory;
use spiral_sets::ParamSet;
use std::alloc::Global;

/// s a for a number s of the secret.
fn signed(s: i8, a: u64) -> i64
    requires ternary { IsTernary s }
    requires below { a < 2 ^ 30 }
    ensures value { result ≡ s *ℤ pos a }
    ensures size { unsigned_abs result ≤ 2 ^ 30 }
{
    i64::from(s) * a as i64
}

/// The terms of place k of the product that don't wrap: the sum of s_i a_(k - i) over i ≤ k.
fn plain_terms(secret: &[i8], a: &[u64], k: usize) -> i64
    requires same_length { length secret.now ≡ length a.now }
    requires short { length a.now ≤ 2048 }
    requires place { k < length a.now }
    requires ternary { All IsTernary secret.now }
    requires below { All (λ x. x < 2 ^ 30) a.now }
    ensures value { result ≡ total (k + 1) (λ i. secret_number secret.now i *ℤ at a.now (k - i)) }
    ensures size { unsigned_abs result ≤ (k + 1) * 2 ^ 30 }
{
    let mut sum = 0i64;
    for i in 0..k + 1 {
        sum += signed(secret[i], a[k - i]);
    }
    sum
}

/// Place k of the negacyclic product of a row of the secret and the numbers of a polynomial, over the whole
/// numbers: the sum of s_i a_(k - i) over i ≤ k, less that of s_i a_(N + k - i) over the i from k + 1 on.
/// N is at most 2048 and each term below 2^30, so the sum stays below 2^41.
fn secret_product(secret: &[i8], a: &[u64], k: usize) -> i64
    requires same_length { length secret.now ≡ length a.now }
    requires short { length a.now ≤ 2048 }
    requires place { k < length a.now }
    requires ternary { All IsTernary secret.now }
    requires below { All (λ x. x < 2 ^ 30) a.now }
    ensures value { result ≡ product_at (length a.now) (secret_number secret.now) (at a.now) k }
    ensures size { unsigned_abs result ≤ 2 ^ 41 }
{
    let mut sum = plain_terms(secret, a, k);
    for i in k + 1..a.len() {
        sum -= signed(secret[i], a[a.len() + k - i]);
    }
    sum
}

/// x y, which fits an i128 for every two of the numbers.
fn times(x: i64, y: i64) -> i128
    ensures { result ≡ x *ℤ y }
{
    i128::from(x) * i128::from(y)
}

/// q2 b - q1 sa: as q2 b is at most 2^60 and q1 sa at most 2^58, it stays below 2^61.
fn scaled_difference(q1: u64, q2: u64, b: u64, sa: i64) -> i64
    requires q1 { q1 ≤ 2 ^ 17 }
    requires q2 { q2 ≤ 2 ^ 30 }
    requires number { b < 2 ^ 30 }
    requires product { unsigned_abs sa ≤ 2 ^ 41 }
    ensures value { result ≡ pos q2 *ℤ pos b -ℤ pos q1 *ℤ sa }
    ensures size { unsigned_abs result ≤ 2 ^ 61 }
{
    (q2 * b) as i64 - q1 as i64 * sa
}

/// What a number b of an entry opens to, with sa the product of the secret and the mask at its place: x / (q1 q2)
/// rounded to the nearest number, an exact half upwards, modulo p, where x = p (q2 b - q1 sa).
///
/// p ≤ 2^15, q1 ≤ 2^17 and q2 ≤ 2^30 in every set, so x stays below 2^76, far within an i128.
fn opened_value(set: &ParamSet, b: u64, sa: i64) -> u64
    requires known { IsSet set.now }
    requires number { b < 2 ^ 30 }
    requires product { unsigned_abs sa ≤ 2 ^ 41 }
    ensures { result ≡ opened set.now (pos b) sa }
{
    let p = set.p();
    let q1 = set.q1();
    let q2 = set.q2();
    let x = times(p as i64, scaled_difference(q1, q2, b, sa));
    nearest_residue(x, q1 * q2, p)
}

/// Writes what the numbers b of an entry open to, with the numbers of the mask in its column.
fn open_numbers(set: &ParamSet, secret: &[i8], mask: &[u64], b: &[u64], out: &mut [u64])
    requires known { IsSet set.now }
    requires secret_length { length secret.now ≡ set.now.degree }
    requires mask_length { length mask.now ≡ set.now.degree }
    requires b_length { length b.now ≡ set.now.degree }
    requires out_length { length out.old ≡ set.now.degree }
    requires ternary { All IsTernary secret.now }
    requires mask_below { All (λ x. x < 2 ^ 30) mask.now }
    requires b_below { All (λ x. x < 2 ^ 30) b.now }
    ensures { out.new ≡ map (opened_number set.now secret.now mask.now b.now) (range_with_len 0 set.now.degree) }
{
    for k in 0..out.len() {
        out[k] = opened_value(set, b[k], secret_product(secret, mask, k));
    }
}

/// Writes the N values of entry e, counted row by row from 0.
fn open_entry(state: &ClientState, reply: &Reply, e: u32, out: &mut [u64])
    requires set { state.now.set ≡ reply.now.set }
    requires entry { e < entries reply.now.set }
    requires room { length out.old ≡ reply.now.set.degree }
    ensures { out.new ≡ opened_entry state.now reply.now e }
{
    let set = &state.set;
    let degree = set.degree as usize;
    let row = e / set.n;
    let column = e % set.n;
    let start = row as usize * degree;
    let secret = &state.secret[start..start + degree];
    let mask = reply.numbers(0, column + 1);
    let b = reply.numbers(row + 1, column + 1);
    open_numbers(set, secret, mask, b, out);
}

/// Writes the values of all entries, row by row. They are below p.
fn open_entries(state: &ClientState, reply: &Reply, out: &mut [u64])
    requires set { state.now.set ≡ reply.now.set }
    requires room { length out.old ≡ values_count reply.now.set }
    ensures value { out.new ≡ opened_values state.now reply.now }
    ensures below { All (λ x. x < p reply.now.set) out.new }
{
    let set = reply.set();
    let degree = set.degree as usize;
    for e in 0..set.entries() {
        let start = e as usize * degree;
        open_entry(state, reply, e, &mut out[start..start + degree]);
    }
}

/// So many zero bytes.
fn zero_bytes(alloc: Global, count: usize) -> Result<Vec<u8>, NoMemory>
    ensures { IfOk result (λ bytes. length bytes.items ≡ count) }
{
    Ok(vec![in alloc; 0u8; count]?)
}

/// The record that the reply holds for the state: each value opened by the secret, the values as bytes, cut to
/// the record's length.
pub fn open_matrix(alloc: Global, state: &ClientState, reply: &Reply) -> Result<Vec<u8>, NoMemory>
    requires { state.now.set ≡ reply.now.set }
    ensures { IfOk result (λ bytes. bytes.items ≡ open_bytes state.now reply.now) }
{
    let set = reply.set();
    let mut values = zeros(alloc, (set.entries() * set.degree) as usize)?;
    open_entries(state, reply, &mut values);
    let mut bytes = zero_bytes(alloc, reply.length() as usize)?;
    bit_packing::pack(&values, set.p_bits, &mut bytes);
    Ok(bytes)
}
