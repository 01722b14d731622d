//! Lists of residues place by place. Each loop runs over an index, so that it compiles to vectors.

ghost use Rattle.std.specs.Prelude.{ℕ, ◌≡◌, ◌+◌, ◌-◌, ◌*◌, ◌^◌, ◌<◌, ◌≤◌, ◌%◌, length, map, slice_index, All};
ghost use Rattle.negacyclic.specs.Ring.{ring_add, ring_sub};
ghost use Rattle.word_prime.specs.Lanes.{IsModulus, products, accumulated};

use crate::arithmetic::{difference_of, product_of, sum_of, sum_of_product};

/// Adds b to a modulo P, place by place.
pub fn add_lanes<const P: u32>(a: &mut [u32], b: &[u32])
    requires modulus { IsModulus P }
    requires same_length { length b.now ≡ length a.old }
    requires a_residues { All (λ x. x < P) a.old }
    requires b_residues { All (λ x. x < P) b.now }
    ensures value { a.new ≡ ring_add P (length a.old) a.old b.now }
    ensures residues { All (λ x. x < P) a.new }
{
    for i in 0..a.len() {
        a[i] = sum_of::<P>(a[i], b[i]);
    }
}

/// Subtracts b from a modulo P, place by place.
pub fn sub_lanes<const P: u32>(a: &mut [u32], b: &[u32])
    requires modulus { IsModulus P }
    requires same_length { length b.now ≡ length a.old }
    requires a_residues { All (λ x. x < P) a.old }
    requires b_residues { All (λ x. x < P) b.now }
    ensures value { a.new ≡ ring_sub P (length a.old) a.old b.now }
    ensures residues { All (λ x. x < P) a.new }
{
    for i in 0..a.len() {
        a[i] = difference_of::<P>(a[i], b[i]);
    }
}

/// Multiplies a by b modulo P, place by place.
pub fn mul_lanes<const P: u32>(a: &mut [u32], b: &[u32])
    requires modulus { IsModulus P }
    requires same_length { length b.now ≡ length a.old }
    ensures value { a.new ≡ products P a.old b.now }
    ensures residues { All (λ x. x < P) a.new }
{
    for i in 0..a.len() {
        a[i] = product_of::<P>(a[i], b[i]);
    }
}

/// Adds the products of a and b to the sums modulo P, place by place. A product of two words and one word more stay below 2^64.
pub fn mul_add_lanes<const P: u32>(sums: &mut [u32], a: &[u32], b: &[u32])
    requires modulus { IsModulus P }
    requires a_length { length a.now ≡ length sums.old }
    requires b_length { length b.now ≡ length sums.old }
    ensures value { sums.new ≡ ring_add P (length sums.old) sums.old (products P a.now b.now) }
    ensures residues { All (λ x. x < P) sums.new }
{
    for i in 0..sums.len() {
        sums[i] = sum_of_product::<P>(sums[i], a[i], b[i]);
    }
}

/// Adds the products of a and b to the sums, place by place. Where a and b are residues modulo P and each sum is one of
/// `count` products of residues, each is one of `count + 1` afterwards; 256 of them fit where P has 28 bits.
pub fn mac_lanes<const P: u32>(sums: &mut [u64], a: &[u32], b: &[u32])
    requires a_length { length a.now ≡ length sums.old }
    requires b_length { length b.now ≡ length sums.old }
    requires room { (k : ℕ) → k < length sums.old → slice_index sums.old k + slice_index a.now k * slice_index b.now k < 2 ^ 64 }
    ensures value { sums.new ≡ accumulated sums.old a.now b.now }
    ensures most { (count : ℕ) → All (λ s. s ≤ count * ((P - 1) * (P - 1))) sums.old → All (λ x. x < P) a.now → All (λ x. x < P) b.now → All (λ s. s ≤ (count + 1) * ((P - 1) * (P - 1))) sums.new }
{
    for i in 0..sums.len() {
        sums[i] += u64::from(a[i]) * u64::from(b[i]);
    }
}

/// Writes the residues of the sums modulo P.
pub fn reduce_lanes<const P: u32>(sums: &[u64], out: &mut [u32])
    requires modulus { 0 < P }
    requires same_length { length out.old ≡ length sums.now }
    ensures value { out.new ≡ map (λ s. s % P) sums.now }
    ensures residues { All (λ x. x < P) out.new }
{
    for i in 0..out.len() {
        out[i] = (sums[i] % u64::from(P)) as u32;
    }
}

/// Adds the sums to the residues modulo P, place by place.
pub fn add_reduced_lanes<const P: u32>(out: &mut [u32], sums: &[u64])
    requires modulus { IsModulus P }
    requires same_length { length sums.now ≡ length out.old }
    requires residues { All (λ x. x < P) out.old }
    ensures value { out.new ≡ ring_add P (length out.old) out.old (map (λ s. s % P) sums.now) }
    ensures residues { All (λ x. x < P) out.new }
{
    for i in 0..out.len() {
        out[i] = sum_of::<P>(out[i], (sums[i] % u64::from(P)) as u32);
    }
}

/// Writes numbers that are residues modulo P already, without a division.
pub fn narrow_lanes<const P: u32>(numbers: &[u64], out: &mut [u32])
    requires same_length { length out.old ≡ length numbers.now }
    requires below { All (λ x. x < P) numbers.now }
    ensures value { out.new ≡ map (λ s. s % P) numbers.now }
    ensures residues { All (λ x. x < P) out.new }
{
    for i in 0..out.len() {
        out[i] = numbers[i] as u32;
    }
}
