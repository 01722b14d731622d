//! What a round of expansion makes of one ciphertext: c + Auto(c), and d + Auto(d) for d = x^(-2^j) c.

ghost use Rattle.std.specs.Prelude.{◌≡◌, ◌+◌, ◌-◌, ◌*◌, ◌%◌, ◌^◌, ◌<◌, ◌≤◌, length, All};
ghost use Rattle.spiral_model.specs.Expansion.{round_power, cipher_shift, even_half, odd_half};
ghost use Rattle.regev_code.specs.Products.{HasShape};
ghost use Rattle.regev_code.specs.KeyShapes.{IsKeyOf};

use auto_switch::apply_auto;
use regev_code::{Cipher, Scratch, SwitchKey};
use ring_poly::{Poly, Ring};

/// The automorphism of round j: N / 2^j + 1, an odd number.
fn automorphism_of(ring: &Ring, round: u32) -> usize
    requires { 2 ^ (round + 1) ≤ ring.now }
    ensures value { result ≡ round_power ring.now round }
    ensures odd { result % 2 ≡ 1 }
    ensures below { result < 2 * ring.now }
{
    ring.degree() / (1 << round) + 1
}

/// The power of x that moves the odd half of round j to the place of the even one: 2N - 2^j, which counts as -2^j, since x^2N = 1.
fn shift_of(ring: &Ring, round: u32) -> usize
    requires { 2 ^ (round + 1) ≤ ring.now }
    ensures value { result ≡ 2 * ring.now - 2 ^ round }
    ensures below { result < 2 * ring.now }
{
    2 * ring.degree() - (1 << round)
}

/// Writes x^e times each row.
fn shift_rows(ring: &Ring, e: usize, from: &[Poly], to: &mut [Poly])
    requires power { e < 2 * ring.now }
    requires same_length { length to.old ≡ length from.now }
    requires from_degree { All (λ a. length a ≡ ring.now) from.now }
    requires to_degree { All (λ a. length a ≡ ring.now) to.old }
    ensures { to.new ≡ cipher_shift ring.now e from.now }
{
    for i in 0..to.len() {
        let row = &mut to[i];
        ring.shift(&from[i], e, row);
    }
}

/// Writes x^e c.
fn shift_into(ring: &Ring, e: usize, c: &Cipher, out: &mut Cipher)
    requires power { e < 2 * ring.now }
    requires c { HasShape ring.now 2 c.now }
    requires out { HasShape ring.now 2 out.old }
    ensures value { out.new ≡ cipher_shift ring.now e c.now }
    ensures shape { HasShape ring.now 2 out.new }
{
    shift_rows(ring, e, &c.polys, &mut out.polys);
}

/// A ciphertext becomes the half of it that round j keeps in its place, c + Auto(c), with room for one ciphertext.
pub(crate) fn keep_even(
    ring: &Ring,
    round: u32,
    key: &SwitchKey,
    c: &mut Cipher,
    image: &mut Cipher,
    scratch: &mut Scratch,
)
    requires ring { ring.now ≡ scratch.old.degree }
    requires round { 2 ^ (round + 1) ≤ ring.now }
    requires key { IsKeyOf scratch.old 1 key.now }
    requires c { HasShape ring.now 2 c.old }
    requires image { HasShape ring.now 2 image.old }
    ensures value { c.new ≡ even_half ring.now round key.now c.old }
    ensures shape { HasShape ring.now 2 c.new }
    ensures image { HasShape ring.now 2 image.new }
    ensures scratch { scratch.new ≡ scratch.old }
{
    let g = automorphism_of(ring, round);
    apply_auto(ring, g, c, key, image, scratch);
    c.add_assign(image);
}

/// Writes the other half, d + Auto(d) where d = x^(-2^j) c, with room for one ciphertext.
pub(crate) fn write_odd(
    ring: &Ring,
    round: u32,
    key: &SwitchKey,
    c: &Cipher,
    out: &mut Cipher,
    image: &mut Cipher,
    scratch: &mut Scratch,
)
    requires ring { ring.now ≡ scratch.old.degree }
    requires round { 2 ^ (round + 1) ≤ ring.now }
    requires key { IsKeyOf scratch.old 1 key.now }
    requires c { HasShape ring.now 2 c.now }
    requires out { HasShape ring.now 2 out.old }
    requires image { HasShape ring.now 2 image.old }
    ensures value { out.new ≡ odd_half ring.now round key.now c.now }
    ensures shape { HasShape ring.now 2 out.new }
    ensures image { HasShape ring.now 2 image.new }
    ensures scratch { scratch.new ≡ scratch.old }
{
    let e = shift_of(ring, round);
    shift_into(ring, e, c, out);
    keep_even(ring, round, key, out, image, scratch);
}
