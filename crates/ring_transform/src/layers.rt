//! The layers of the transform and of its inverse.

ghost use Rattle.std.specs.Prelude.{ℕ, ◌≡◌, ◌+◌, ◌*◌, ◌^◌, ◌<◌, ◌≤◌, ◌⊎◌, pos, ◌+ℤ◌, ◌-ℤ◌, ◌*ℤ◌, length, slice_index, slice_set, All};
ghost use Rattle.negacyclic.specs.Residues.{residue};
ghost use Rattle.negacyclic.specs.Ring.{at, reduced};
ghost use Rattle.word_prime.specs.Lanes.{IsModulus};
ghost use Rattle.ring_transform.specs.Points.{IsPrime};
ghost use Rattle.ring_transform.specs.Remainders.{Remainders};
ghost use Rattle.ring_transform.specs.Tables.{AreTwiddles, AreInverses, IsFactor, AreQuotients};

use crate::butterflies::{apart, joined, product_by};

/// The butterflies of two lists: the sums of low and w times high, and the differences.
fn apart_lists<const P: u32>(low: &mut [u32], high: &mut [u32], w: u32, quotient: u32)
    requires modulus { IsModulus P }
    requires factor { IsFactor P w quotient }
    requires same_length { length high.old ≡ length low.old }
    requires low_residues { All (λ x. x < P) low.old }
    ensures low { low.new ≡ reduced P (length low.old) (λ k. at low.old k +ℤ pos w *ℤ at high.old k) }
    ensures high { high.new ≡ reduced P (length low.old) (λ k. at low.old k -ℤ pos w *ℤ at high.old k) }
    ensures low_residues { All (λ x. x < P) low.new }
    ensures high_residues { All (λ x. x < P) high.new }
{
    for i in 0..low.len() {
        let (sum, difference) = apart::<P>(low[i], high[i], w, quotient);
        low[i] = sum;
        high[i] = difference;
    }
}

/// The same for the two halves of a list.
fn apart_halves<const P: u32>(block: &mut [u32], half: usize, w: u32, quotient: u32)
    requires modulus { IsModulus P }
    requires factor { IsFactor P w quotient }
    requires size { length block.old ≡ 2 * half }
    requires residues { All (λ x. x < P) block.old }
    ensures low { (t : ℕ) → t < half → slice_index block.new t ≡ residue P (at block.old t +ℤ pos w *ℤ at block.old (half + t)) }
    ensures high { (t : ℕ) → t < half → slice_index block.new (half + t) ≡ residue P (at block.old t -ℤ pos w *ℤ at block.old (half + t)) }
    ensures residues { All (λ x. x < P) block.new }
{
    let (low, high) = block.split_at_mut(half);
    apart_lists::<P>(low, high, w, quotient);
}

/// The butterflies of the inverse: the sums of low and high, and w times the differences.
fn joined_lists<const P: u32>(low: &mut [u32], high: &mut [u32], w: u32, quotient: u32)
    requires modulus { IsModulus P }
    requires factor { IsFactor P w quotient }
    requires same_length { length high.old ≡ length low.old }
    requires low_residues { All (λ x. x < P) low.old }
    requires high_residues { All (λ x. x < P) high.old }
    ensures low { low.new ≡ reduced P (length low.old) (λ k. at low.old k +ℤ at high.old k) }
    ensures high { high.new ≡ reduced P (length low.old) (λ k. (at low.old k -ℤ at high.old k) *ℤ pos w) }
    ensures low_residues { All (λ x. x < P) low.new }
    ensures high_residues { All (λ x. x < P) high.new }
{
    for i in 0..low.len() {
        let (sum, difference) = joined::<P>(low[i], high[i], w, quotient);
        low[i] = sum;
        high[i] = difference;
    }
}

/// The same for the two halves of a list.
fn joined_halves<const P: u32>(block: &mut [u32], half: usize, w: u32, quotient: u32)
    requires modulus { IsModulus P }
    requires factor { IsFactor P w quotient }
    requires size { length block.old ≡ 2 * half }
    requires residues { All (λ x. x < P) block.old }
    ensures low { (t : ℕ) → t < half → slice_index block.new t ≡ residue P (at block.old t +ℤ at block.old (half + t)) }
    ensures high { (t : ℕ) → t < half → slice_index block.new (half + t) ≡ residue P ((at block.old t -ℤ at block.old (half + t)) *ℤ pos w) }
    ensures residues { All (λ x. x < P) block.new }
{
    let (low, high) = block.split_at_mut(half);
    joined_lists::<P>(low, high, w, quotient);
}

/// Part i at a depth becomes two parts of `half` coefficients.
fn part_block<const P: u32>(
    twiddles: &[u32],
    quotients: &[u32],
    depth: u32,
    i: usize,
    half: usize,
    a: &mut [u32],
)
    requires prime { IsPrime P }
    requires deep { depth + 1 ≤ 9 }
    requires place { i < 2 ^ depth }
    requires table { AreTwiddles P twiddles.now }
    requires quotients { AreQuotients P twiddles.now quotients.now }
    requires room { 2 ^ (depth + 1) ≤ length twiddles.now }
    requires size { length a.old ≡ 2 ^ depth * (2 * half) }
    requires residues { All (λ x. x < P) a.old }
    ensures remainders { Remainders P half 1 depth i 1 (λ u. at a.old (i * (2 * half) + u)) (λ u. at a.new (i * (2 * half) + u)) }
    ensures rest { (k : ℕ) → (k < i * (2 * half)) ⊎ (i * (2 * half) + 2 * half ≤ k) → slice_index a.new k ≡ slice_index a.old k }
    ensures residues { All (λ x. x < P) a.new }
{
    let entry = (1 << depth) + i;
    let start = i * (2 * half);
    apart_halves::<P>(
        &mut a[start..start + 2 * half],
        half,
        twiddles[entry],
        quotients[entry],
    );
}

/// Two parts of `half` coefficients below part i at a depth become that part.
fn join_block<const P: u32>(
    inverses: &[u32],
    quotients: &[u32],
    depth: u32,
    i: usize,
    half: usize,
    a: &mut [u32],
)
    requires prime { IsPrime P }
    requires deep { depth + 1 ≤ 9 }
    requires place { i < 2 ^ depth }
    requires table { AreInverses P inverses.now }
    requires quotients { AreQuotients P inverses.now quotients.now }
    requires room { 2 ^ (depth + 1) ≤ length inverses.now }
    requires size { length a.old ≡ 2 ^ depth * (2 * half) }
    requires residues { All (λ x. x < P) a.old }
    ensures remainders { Remainders P half 1 depth i 2 (λ u. at a.new (i * (2 * half) + u)) (λ u. at a.old (i * (2 * half) + u)) }
    ensures rest { (k : ℕ) → (k < i * (2 * half)) ⊎ (i * (2 * half) + 2 * half ≤ k) → slice_index a.new k ≡ slice_index a.old k }
    ensures residues { All (λ x. x < P) a.new }
{
    let entry = (1 << depth) + i;
    let start = i * (2 * half);
    joined_halves::<P>(
        &mut a[start..start + 2 * half],
        half,
        inverses[entry],
        quotients[entry],
    );
}

/// One layer: each part at a depth becomes two parts of `half` coefficients.
fn part_layer<const P: u32>(
    twiddles: &[u32],
    quotients: &[u32],
    depth: u32,
    half: usize,
    a: &mut [u32],
)
    requires prime { IsPrime P }
    requires deep { depth + 1 ≤ 9 }
    requires table { AreTwiddles P twiddles.now }
    requires quotients { AreQuotients P twiddles.now quotients.now }
    requires room { 2 ^ (depth + 1) ≤ length twiddles.now }
    requires size { length a.old ≡ 2 ^ depth * (2 * half) }
    requires residues { All (λ x. x < P) a.old }
    ensures remainders { (i : ℕ) → i < 2 ^ depth → Remainders P half 1 depth i 1 (λ u. at a.old (i * (2 * half) + u)) (λ u. at a.new (i * (2 * half) + u)) }
    ensures residues { All (λ x. x < P) a.new }
{
    for i in 0..1usize << depth {
        part_block::<P>(twiddles, quotients, depth, i, half, a);
    }
}

/// One layer of the inverse: each two parts of `half` coefficients become the part above them, at a depth.
fn join_layer<const P: u32>(
    inverses: &[u32],
    quotients: &[u32],
    depth: u32,
    half: usize,
    a: &mut [u32],
)
    requires prime { IsPrime P }
    requires deep { depth + 1 ≤ 9 }
    requires table { AreInverses P inverses.now }
    requires quotients { AreQuotients P inverses.now quotients.now }
    requires room { 2 ^ (depth + 1) ≤ length inverses.now }
    requires size { length a.old ≡ 2 ^ depth * (2 * half) }
    requires residues { All (λ x. x < P) a.old }
    ensures remainders { (i : ℕ) → i < 2 ^ depth → Remainders P half 1 depth i 2 (λ u. at a.new (i * (2 * half) + u)) (λ u. at a.old (i * (2 * half) + u)) }
    ensures residues { All (λ x. x < P) a.new }
{
    for i in 0..1usize << depth {
        join_block::<P>(inverses, quotients, depth, i, half, a);
    }
}

/// The layers from the root down to parts of four coefficients.
pub(crate) fn part<const P: u32>(twiddles: &[u32], quotients: &[u32], layers: u32, a: &mut [u32])
    requires prime { IsPrime P }
    requires deep { layers ≤ 9 }
    requires table { AreTwiddles P twiddles.now }
    requires quotients { AreQuotients P twiddles.now quotients.now }
    requires room { 2 ^ layers ≤ length twiddles.now }
    requires size { length a.old ≡ 2 ^ layers * 4 }
    requires residues { All (λ x. x < P) a.old }
    ensures remainders { Remainders P 4 layers 0 0 1 (at a.old) (at a.new) }
    ensures residues { All (λ x. x < P) a.new }
{
    let mut size = a.len();
    for depth in 0..layers {
        size /= 2;
        part_layer::<P>(twiddles, quotients, depth, size, a);
    }
}

/// The layers of the inverse from parts of four coefficients up to the root.
pub(crate) fn join<const P: u32>(inverses: &[u32], quotients: &[u32], layers: u32, a: &mut [u32])
    requires prime { IsPrime P }
    requires deep { layers ≤ 9 }
    requires table { AreInverses P inverses.now }
    requires quotients { AreQuotients P inverses.now quotients.now }
    requires room { 2 ^ layers ≤ length inverses.now }
    requires size { length a.old ≡ 2 ^ layers * 4 }
    requires residues { All (λ x. x < P) a.old }
    ensures remainders { Remainders P 4 layers 0 0 (2 ^ layers) (at a.new) (at a.old) }
    ensures residues { All (λ x. x < P) a.new }
{
    let mut size = 4;
    let mut depth = layers;
    while depth > 0 {
        depth -= 1;
        join_layer::<P>(inverses, quotients, depth, size, a);
        size *= 2;
    }
}

/// Writes four numbers, one after the other.
fn put_four(a: &mut [u32], start: usize, y0: u32, y1: u32, y2: u32, y3: u32)
    requires { start + 4 ≤ length a.old }
    ensures { a.new ≡ slice_set (slice_set (slice_set (slice_set a.old start y0) (start + 1) y1) (start + 2) y2) (start + 3) y3 }
{
    a[start] = y0;
    a[start + 1] = y1;
    a[start + 2] = y2;
    a[start + 3] = y3;
}

/// The last two layers of four coefficients, those of part i.
fn part_four<const P: u32>(twiddles: &[u32], quotients: &[u32], depth: u32, i: usize, a: &mut [u32])
    requires prime { IsPrime P }
    requires deep { depth ≤ 9 }
    requires place { i < 2 ^ depth }
    requires table { AreTwiddles P twiddles.now }
    requires quotients { AreQuotients P twiddles.now quotients.now }
    requires room { length twiddles.now ≡ 2 ^ depth * 4 }
    requires size { length a.old ≡ 2 ^ depth * 4 }
    requires residues { All (λ x. x < P) a.old }
    ensures remainders { Remainders P 1 2 depth i 1 (λ u. at a.old (i * 4 + u)) (λ u. at a.new (i * 4 + u)) }
    ensures rest { (k : ℕ) → (k < i * 4) ⊎ (i * 4 + 4 ≤ k) → slice_index a.new k ≡ slice_index a.old k }
    ensures residues { All (λ x. x < P) a.new }
{
    let entry = (1 << depth) + i;
    let start = i * 4;
    let w = twiddles[entry];
    let quotient = quotients[entry];
    let (x0, x2) = apart::<P>(a[start], a[start + 2], w, quotient);
    let (x1, x3) = apart::<P>(a[start + 1], a[start + 3], w, quotient);
    let (y0, y1) = apart::<P>(x0, x1, twiddles[2 * entry], quotients[2 * entry]);
    let (y2, y3) = apart::<P>(x2, x3, twiddles[2 * entry + 1], quotients[2 * entry + 1]);
    put_four(a, start, y0, y1, y2, y3);
}

/// The last two layers of all parts of four coefficients.
pub(crate) fn part_fours<const P: u32>(
    twiddles: &[u32],
    quotients: &[u32],
    depth: u32,
    a: &mut [u32],
)
    requires prime { IsPrime P }
    requires deep { depth ≤ 9 }
    requires table { AreTwiddles P twiddles.now }
    requires quotients { AreQuotients P twiddles.now quotients.now }
    requires room { length twiddles.now ≡ 2 ^ depth * 4 }
    requires size { length a.old ≡ 2 ^ depth * 4 }
    requires residues { All (λ x. x < P) a.old }
    ensures remainders { (i : ℕ) → i < 2 ^ depth → Remainders P 1 2 depth i 1 (λ u. at a.old (i * 4 + u)) (λ u. at a.new (i * 4 + u)) }
    ensures residues { All (λ x. x < P) a.new }
{
    for i in 0..a.len() / 4 {
        part_four::<P>(twiddles, quotients, depth, i, a);
    }
}

/// The first two layers of the inverse of four values, those of part i.
fn join_four<const P: u32>(inverses: &[u32], quotients: &[u32], depth: u32, i: usize, a: &mut [u32])
    requires prime { IsPrime P }
    requires deep { depth ≤ 9 }
    requires place { i < 2 ^ depth }
    requires table { AreInverses P inverses.now }
    requires quotients { AreQuotients P inverses.now quotients.now }
    requires room { length inverses.now ≡ 2 ^ depth * 4 }
    requires size { length a.old ≡ 2 ^ depth * 4 }
    requires residues { All (λ x. x < P) a.old }
    ensures remainders { Remainders P 1 2 depth i 4 (λ u. at a.new (i * 4 + u)) (λ u. at a.old (i * 4 + u)) }
    ensures rest { (k : ℕ) → (k < i * 4) ⊎ (i * 4 + 4 ≤ k) → slice_index a.new k ≡ slice_index a.old k }
    ensures residues { All (λ x. x < P) a.new }
{
    let entry = (1 << depth) + i;
    let start = i * 4;
    let (x0, x1) = joined::<P>(
        a[start],
        a[start + 1],
        inverses[2 * entry],
        quotients[2 * entry],
    );
    let (x2, x3) = joined::<P>(
        a[start + 2],
        a[start + 3],
        inverses[2 * entry + 1],
        quotients[2 * entry + 1],
    );
    let w = inverses[entry];
    let quotient = quotients[entry];
    let (y0, y2) = joined::<P>(x0, x2, w, quotient);
    let (y1, y3) = joined::<P>(x1, x3, w, quotient);
    put_four(a, start, y0, y1, y2, y3);
}

/// The first two layers of the inverse of all parts of four values.
pub(crate) fn join_fours<const P: u32>(
    inverses: &[u32],
    quotients: &[u32],
    depth: u32,
    a: &mut [u32],
)
    requires prime { IsPrime P }
    requires deep { depth ≤ 9 }
    requires table { AreInverses P inverses.now }
    requires quotients { AreQuotients P inverses.now quotients.now }
    requires room { length inverses.now ≡ 2 ^ depth * 4 }
    requires size { length a.old ≡ 2 ^ depth * 4 }
    requires residues { All (λ x. x < P) a.old }
    ensures remainders { (i : ℕ) → i < 2 ^ depth → Remainders P 1 2 depth i 4 (λ u. at a.new (i * 4 + u)) (λ u. at a.old (i * 4 + u)) }
    ensures residues { All (λ x. x < P) a.new }
{
    for i in 0..a.len() / 4 {
        join_four::<P>(inverses, quotients, depth, i, a);
    }
}

/// Multiplies each number by w.
pub(crate) fn scale<const P: u32>(a: &mut [u32], w: u32, quotient: u32)
    requires modulus { IsModulus P }
    requires factor { IsFactor P w quotient }
    ensures value { a.new ≡ reduced P (length a.old) (λ k. pos w *ℤ at a.old k) }
    ensures residues { All (λ x. x < P) a.new }
{
    for i in 0..a.len() {
        a[i] = product_by::<P>(a[i], w, quotient);
    }
}
