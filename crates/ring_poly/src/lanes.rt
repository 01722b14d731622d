//! What is done with the residues of a polynomial modulo one of the two primes, P, place by place.

ghost use Rattle.std.specs.Prelude.{◌≡◌, ◌==◌, ◌*◌, ◌<◌, ◌≤◌, if◌then◌else◌, pos, neg_ℤ, length, replicate, ◌+ℤ◌, ◌*ℤ◌, All, IfOk};
ghost use Rattle.negacyclic.specs.Residues.{residue};
ghost use Rattle.negacyclic.specs.Ring.{at, turn, shift_at, reduced, ring_scale, ring_shift, ring_mul, tau};
ghost use Rattle.word_prime.specs.Lanes.{IsModulus};
ghost use Rattle.ring_transform.specs.Points.{IsPrime, IsDegree};

use no_memory::NoMemory;
use ring_transform::Tables;
use std::alloc::Global;
use word_prime::{difference_of, mul_lanes, product_of, sum_of};

/// n zeros.
pub(crate) fn zeros(alloc: Global, n: usize) -> Result<Vec<u32>, NoMemory>
    ensures { IfOk result (λ v. v.items ≡ replicate n 0) }
{
    Ok(vec![in alloc; 0u32; n]?)
}

/// Writes 0 at every place.
pub(crate) fn clear(a: &mut [u32])
    ensures { a.new ≡ replicate (length a.old) 0 }
{
    for place in 0..a.len() {
        a[place] = 0;
    }
}

/// z at place 0, and 0 at the others.
fn constant_at<const P: u32>(z: u64, place: usize) -> u32
    requires { IsModulus P }
    ensures { result ≡ residue P (if place == 0 then pos z else pos 0) }
{
    if place == 0 {
        (z % u64::from(P)) as u32
    } else {
        0
    }
}

/// Writes z at place 0 and 0 at the others.
pub(crate) fn put_constant<const P: u32>(a: &mut [u32], z: u64)
    requires { IsModulus P }
    ensures value { a.new ≡ reduced P (length a.old) (λ k. if k == 0 then pos z else pos 0) }
    ensures residues { All (λ x. x < P) a.new }
{
    for place in 0..a.len() {
        a[place] = constant_at::<P>(z, place);
    }
}

/// -x modulo P.
fn negated<const P: u32>(x: u32) -> u32
    requires { x < P }
    ensures { result ≡ residue P (neg_ℤ (pos x)) }
{
    if x == 0 { 0 } else { P - x }
}

/// Place k of x^e a. It comes from place k - e modulo 2N, where place N + j stands for place j with a minus sign.
fn shifted_place<const P: u32>(a: &[u32], e: usize, k: usize) -> u32
    requires short { length a.now ≤ 2048 }
    requires place { k < length a.now }
    requires power { e < 2 * length a.now }
    requires residues { All (λ x. x < P) a.now }
    ensures { result ≡ residue P (shift_at (length a.now) e (at a.now) k) }
{
    let n = a.len();
    let from = if k >= e { k - e } else { 2 * n + k - e };
    if from < n {
        a[from]
    } else {
        negated::<P>(a[from - n])
    }
}

/// Writes x^e a.
pub(crate) fn shift<const P: u32>(a: &[u32], e: usize, out: &mut [u32])
    requires modulus { IsModulus P }
    requires same_length { length out.old ≡ length a.now }
    requires short { length a.now ≤ 2048 }
    requires power { e < 2 * length a.now }
    requires a_residues { All (λ x. x < P) a.now }
    ensures value { out.new ≡ ring_shift P (length a.now) e a.now }
    ensures residues { All (λ x. x < P) out.new }
{
    for k in 0..out.len() {
        out[k] = shifted_place::<P>(a, e, k);
    }
}

/// Adds x times x^e to a: x at place e, or -x at place e - N from N on.
fn add_power<const P: u32>(x: u32, e: usize, a: &mut [u32])
    requires modulus { IsModulus P }
    requires residue { x < P }
    requires power { e < 2 * length a.old }
    requires short { length a.old ≤ 2048 }
    requires residues { All (λ v. v < P) a.old }
    ensures value { a.new ≡ reduced P (length a.old) (λ k. at a.old k +ℤ turn (length a.old) k e *ℤ pos x) }
    ensures residues { All (λ v. v < P) a.new }
{
    let n = a.len();
    if e < n {
        a[e] = sum_of::<P>(a[e], x);
    } else {
        a[e - n] = difference_of::<P>(a[e - n], x);
    }
}

/// Writes a(x^g), term by term.
pub(crate) fn auto<const P: u32>(a: &[u32], g: usize, out: &mut [u32])
    requires modulus { IsModulus P }
    requires same_length { length out.old ≡ length a.now }
    requires some { 0 < length a.now }
    requires short { length a.now ≤ 2048 }
    requires power { g < 2 * length a.now }
    requires a_residues { All (λ x. x < P) a.now }
    ensures value { out.new ≡ tau P (length a.now) g a.now }
    ensures residues { All (λ x. x < P) out.new }
{
    clear(out);
    let turn = 2 * a.len();
    for i in 0..a.len() {
        add_power::<P>(a[i], g * i % turn, out);
    }
}

/// Writes z a.
pub(crate) fn scale<const P: u32>(z: u64, a: &[u32], out: &mut [u32])
    requires modulus { IsModulus P }
    requires same_length { length out.old ≡ length a.now }
    ensures value { out.new ≡ ring_scale P (length a.now) (pos z) a.now }
    ensures residues { All (λ x. x < P) out.new }
{
    let factor = (z % u64::from(P)) as u32;
    for k in 0..out.len() {
        out[k] = product_of::<P>(factor, a[k]);
    }
}

/// a becomes the product of a and b in the ring, and b its values at the points.
pub(crate) fn multiply<const P: u32>(tables: &Tables<P>, a: &mut [u32], b: &mut [u32])
    requires prime { IsPrime P }
    requires degree { IsDegree tables.now }
    requires a_length { length a.old ≡ tables.now }
    requires b_length { length b.old ≡ tables.now }
    requires a_residues { All (λ x. x < P) a.old }
    requires b_residues { All (λ x. x < P) b.old }
    ensures value { a.new ≡ ring_mul P tables.now a.old b.old }
    ensures residues { All (λ x. x < P) a.new }
    ensures factor { All (λ x. x < P) b.new }
{
    tables.forward(a);
    tables.forward(b);
    mul_lanes::<P>(a, b);
    tables.inverse(a);
}
