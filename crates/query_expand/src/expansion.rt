ghost use Rattle.std.specs.Prelude.{◌≡◌, ◌+◌, ◌*◌, ◌^◌, ◌≤◌, [], ◌∷◌, length, map, take, All, IfOk};
ghost use Rattle.spiral_sets.specs.Sets.{IsSet};
ghost use Rattle.spiral_model.specs.Expansion.{even_half, odd_half, expand_round, expanded};
ghost use Rattle.regev_code.specs.Products.{HasShape};
ghost use Rattle.regev_code.specs.KeyShapes.{IsKeyOf};

use crate::halves::{keep_even, write_odd};
use no_memory::NoMemory;
use regev_code::{Cipher, Scratch, SwitchKey};
use ring_poly::{Poly, Ring};
use spiral_sets::ParamSet;
use std::alloc::Global;

/// Writes over each ciphertext of `high` the odd half of the one of `low` in the same place. What stands behind these stays.
fn write_odd_halves(
    ring: &Ring,
    round: u32,
    key: &SwitchKey,
    low: &[Cipher],
    high: &mut [Cipher],
    image: &mut Cipher,
    scratch: &mut Scratch,
)
    requires ring { ring.now ≡ scratch.old.degree }
    requires round { 2 ^ (round + 1) ≤ ring.now }
    requires key { IsKeyOf scratch.old 1 key.now }
    requires room { length low.now ≤ length high.old }
    requires low { All (HasShape ring.now 2) low.now }
    requires high { All (HasShape ring.now 2) high.old }
    requires image { HasShape ring.now 2 image.old }
    ensures value { take (length low.now) high.new ≡ map (odd_half ring.now round key.now) low.now }
    ensures shapes { All (HasShape ring.now 2) high.new }
    ensures image { HasShape ring.now 2 image.new }
    ensures scratch { scratch.new ≡ scratch.old }
{
    for x in 0..low.len() {
        let partner = &mut high[x];
        write_odd(ring, round, key, &low[x], partner, image, scratch);
    }
}

/// Each ciphertext becomes its even half.
fn keep_even_halves(
    ring: &Ring,
    round: u32,
    key: &SwitchKey,
    ciphers: &mut [Cipher],
    image: &mut Cipher,
    scratch: &mut Scratch,
)
    requires ring { ring.now ≡ scratch.old.degree }
    requires round { 2 ^ (round + 1) ≤ ring.now }
    requires key { IsKeyOf scratch.old 1 key.now }
    requires ciphers { All (HasShape ring.now 2) ciphers.old }
    requires image { HasShape ring.now 2 image.old }
    ensures value { ciphers.new ≡ map (even_half ring.now round key.now) ciphers.old }
    ensures shapes { All (HasShape ring.now 2) ciphers.new }
    ensures image { HasShape ring.now 2 image.new }
    ensures scratch { scratch.new ≡ scratch.old }
{
    for x in 0..ciphers.len() {
        let cipher = &mut ciphers[x];
        keep_even(ring, round, key, cipher, image, scratch);
    }
}

/// Round j on the first `size` ciphertexts: the first 2 `size` become those of the round, in place.
fn expand_once(
    ring: &Ring,
    round: u32,
    key: &SwitchKey,
    size: usize,
    ciphers: &mut [Cipher],
    image: &mut Cipher,
    scratch: &mut Scratch,
)
    requires ring { ring.now ≡ scratch.old.degree }
    requires round { 2 ^ (round + 1) ≤ ring.now }
    requires key { IsKeyOf scratch.old 1 key.now }
    requires within { 2 * size ≤ length ciphers.old }
    requires shapes { All (HasShape ring.now 2) ciphers.old }
    requires image { HasShape ring.now 2 image.old }
    ensures value { take (2 * size) ciphers.new ≡ expand_round ring.now round key.now (take size ciphers.old) }
    ensures shapes { All (HasShape ring.now 2) ciphers.new }
    ensures image { HasShape ring.now 2 image.new }
    ensures scratch { scratch.new ≡ scratch.old }
{
    let (low, high) = ciphers.split_at_mut(size);
    write_odd_halves(ring, round, key, low, high, image, scratch);
    keep_even_halves(ring, round, key, low, image, scratch);
}

/// A round for each key, each on twice as many ciphertexts as the one before, from the first one on.
fn expand_all(
    ring: &Ring,
    rounds: &[SwitchKey],
    first_round: u32,
    ciphers: &mut [Cipher],
    image: &mut Cipher,
    scratch: &mut Scratch,
)
    requires ring { ring.now ≡ scratch.old.degree }
    requires keys { All (IsKeyOf scratch.old 1) rounds.now }
    requires rounds { 2 ^ (first_round + length rounds.now) ≤ ring.now }
    requires count { length ciphers.old ≡ 2 ^ length rounds.now }
    requires shapes { All (HasShape ring.now 2) ciphers.old }
    requires image { HasShape ring.now 2 image.old }
    ensures value { ciphers.new ≡ expanded ring.now first_round rounds.now (take 1 ciphers.old) }
    ensures shapes { All (HasShape ring.now 2) ciphers.new }
    ensures image { HasShape ring.now 2 image.new }
    ensures scratch { scratch.new ≡ scratch.old }
{
    // reading the degree makes known that it is 256 or 2048, so there are few rounds
    let _degree = ring.degree();
    let mut size = 1;
    let mut round = first_round;
    for key in rounds {
        expand_once(ring, round, key, size, ciphers, image, scratch);
        size *= 2;
        round += 1;
    }
}

/// The rows of a ciphertext, copied.
fn copied(alloc: Global, rows: &[Poly]) -> Result<Vec<Poly>, NoMemory>
    ensures { IfOk result (λ copies. copies.items ≡ rows.now) }
{
    let mut copies = Vec::new(alloc);
    for row in rows {
        copies.push(row.copy()?)?;
    }
    Ok(copies)
}

/// The same ciphertext.
fn copy_of(alloc: Global, c: &Cipher) -> Result<Cipher, NoMemory>
    ensures { IfOk result (λ d. d ≡ c.now) }
{
    Ok(Cipher::from_rows(copied(alloc, &c.polys)?))
}

/// So many scalar ciphertexts, at least one: a copy of c, and zeros behind it.
fn with_zeros(
    alloc: Global,
    set: &ParamSet,
    c: &Cipher,
    count: usize,
) -> Result<Vec<Cipher>, NoMemory>
    requires known { IsSet set.now }
    requires c { HasShape set.now.degree 2 c.now }
    requires some { 1 ≤ count }
    ensures first { IfOk result (λ ciphers. take 1 ciphers.items ≡ c.now ∷ []) }
    ensures count { IfOk result (λ ciphers. length ciphers.items ≡ count) }
    ensures shapes { IfOk result (λ ciphers. All (HasShape set.now.degree 2) ciphers.items) }
{
    let mut ciphers = Vec::new(alloc);
    ciphers.push(copy_of(alloc, c)?)?;
    for _ in 0..count - 1 {
        ciphers.push(Cipher::zero(alloc, set, 1)?)?;
    }
    Ok(ciphers)
}

/// The rounds of expansion from `first_round` on, one for each key: from one scalar ciphertext 2^(number of keys). Round j makes two of
/// each ciphertext c of a list: c + Auto(c), and behind all of these d + Auto(d), where d = x^(-2^j) c and Auto is the automorphism
/// x -> x^(N / 2^j + 1), switched back with the round's key. Where the phase of c is about p_0 + p_1 x + .. after the rounds before, the
/// first keeps the coefficients at the places that 2^(j+1) divides, doubled, and the second those at 2^j more, moved down by 2^j. All
/// ciphertexts are taken once, before the first round; the rounds work in place and take no memory. An error says that memory was wanting.
pub fn expand(
    alloc: Global,
    ring: &Ring,
    c: &Cipher,
    rounds: &[SwitchKey],
    first_round: u32,
    scratch: &mut Scratch,
) -> Result<Vec<Cipher>, NoMemory>
    requires ring { ring.now ≡ scratch.old.degree }
    requires c { HasShape ring.now 2 c.now }
    requires keys { All (IsKeyOf scratch.old 1) rounds.now }
    requires rounds { 2 ^ (first_round + length rounds.now) ≤ ring.now }
    ensures value { IfOk result (λ ciphers. ciphers.items ≡ expanded ring.now first_round rounds.now (c.now ∷ [])) }
    ensures many { IfOk result (λ ciphers. length ciphers.items ≡ 2 ^ length rounds.now) }
    ensures shapes { IfOk result (λ ciphers. All (HasShape ring.now 2) ciphers.items) }
    ensures scratch { scratch.new ≡ scratch.old }
{
    // reading the degree makes known that it is 256 or 2048, so there are few rounds
    let _degree = ring.degree();
    let set = scratch.set;
    let mut ciphers = with_zeros(alloc, &set, c, 1 << rounds.len())?;
    let mut image = Cipher::zero(alloc, &set, 1)?;
    expand_all(ring, rounds, first_round, &mut ciphers, &mut image, scratch);
    Ok(ciphers)
}
