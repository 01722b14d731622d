//! The conversion key, by which Regev ciphertexts are translated into the columns of row 0 of a GSW ciphertext.

ghost use Rattle.std.specs.Prelude.{◌≡◌, ◌+◌, ◌*◌, ◌^◌, ◌<◌, ◌≤◌, [], ◌∷◌, true, false, pos, length, map, All, IfOk, OnOk};
ghost use Rattle.std.specs.List.{range_with_len};
ghost use Rattle.negacyclic.specs.Ring.{ring_mul, ring_scale};
ghost use Rattle.spiral_sets.specs.Sets.{IsSet, q, digit_count as digit_count_of, has_keys, rows};
ghost use Rattle.spiral_sets.specs.Counts.{words_of, conversion_ciphertexts};
ghost use Rattle.spiral_model.specs.Ciphertexts.{words_taken};
ghost use Rattle.spiral_model.specs.Dealing.{conversion_messages};
ghost use Rattle.regev_code.specs.Shapes.{OfDegree, under};
ghost use Rattle.regev_code.specs.Drawn.{Drawn};
ghost use Rattle.key_deal.specs.DealtKeys.{scalar_of};

use auto_switch::{draw_next, gadget_power};
use gadget_digits::digit_count;
use no_memory::NoMemory;
use regev_code::{Cipher, Draw, Secret};
use ring_poly::{Poly, Ring};
use spiral_sets::ParamSet;
use std::alloc::Global;

/// The products s_i s of the secrets of so many rows with the scalar one.
fn products(
    alloc: Global,
    ring: &Ring,
    secret: &Secret,
    scalar: bool,
    count: u32,
) -> Result<Vec<Poly>, NoMemory>
    requires degree { OfDegree ring.now secret.now }
    requires scalar { length (under ring.now secret.now true) ≡ 1 }
    requires rows { length (under ring.now secret.now scalar) ≡ count }
    ensures { IfOk result (λ products. products.items ≡ map (λ a. ring_mul q ring.now a (scalar_of ring.now secret.now)) (under ring.now secret.now scalar)) }
{
    let s = secret.poly(true, 0);
    let mut products = Vec::new(alloc);
    for i in 0..count {
        products.push(ring.mul(secret.poly(scalar, i as usize), s)?)?;
    }
    Ok(products)
}

/// Each polynomial times 2^(w k).
fn multiples(
    alloc: Global,
    ring: &Ring,
    w: u32,
    k: u32,
    polys: &[Poly],
) -> Result<Vec<Poly>, NoMemory>
    requires some { 1 ≤ w }
    requires most { w ≤ 56 }
    requires digit { k < digit_count_of w }
    requires degree { All (λ a. length a ≡ ring.now) polys.now }
    ensures { IfOk result (λ multiples. multiples.items ≡ map (ring_scale q ring.now (pos (2 ^ (w * k)))) polys.now) }
{
    let power = gadget_power(w, k);
    let mut multiples = Vec::new(alloc);
    for i in 0..polys.len() {
        let mut multiple = Poly::zero(alloc, ring.degree())?;
        ring.scale(power, &polys[i], &mut multiple);
        multiples.push(multiple)?;
    }
    Ok(multiples)
}

/// Appends the encryption of these polynomials times 2^(w k), drawn from the next words.
fn draw_digit(
    alloc: Global,
    ring: &Ring,
    w: u32,
    k: u32,
    polys: &[Poly],
    secret: &Secret,
    scalar: bool,
    ciphers: &mut Vec<Cipher>,
    draw: &mut Draw<'_>,
) -> Result<(), NoMemory>
    requires w_some { 1 ≤ w }
    requires w_most { w ≤ 56 }
    requires digit { k < digit_count_of w }
    requires polys { All (λ a. length a ≡ ring.now) polys.now }
    requires some { 1 ≤ length polys.now }
    requires degree { OfDegree ring.now secret.now }
    requires rows { length polys.now ≡ length (under ring.now secret.now scalar) }
    requires enough { draw.old.used + words_taken ring.now (length polys.now) ≤ length draw.old.words }
    ensures { OnOk result (Drawn ring.now (length polys.now) (under ring.now secret.now scalar) (map (ring_scale q ring.now (pos (2 ^ (w * k)))) polys.now ∷ []) draw.old draw.new ciphers.old.items ciphers.new.items) }
{
    let messages = multiples(alloc, ring, w, k, polys)?;
    draw_next(alloc, ring, secret, scalar, &messages, ciphers, draw)?;
    Ok(())
}

/// Appends the encryptions of these polynomials times 2^(w k) for each digit k, drawn from the next words.
fn draw_digits(
    alloc: Global,
    ring: &Ring,
    w: u32,
    polys: &[Poly],
    secret: &Secret,
    scalar: bool,
    ciphers: &mut Vec<Cipher>,
    draw: &mut Draw<'_>,
) -> Result<(), NoMemory>
    requires w_some { 1 ≤ w }
    requires w_most { w ≤ 56 }
    requires polys { All (λ a. length a ≡ ring.now) polys.now }
    requires some { 1 ≤ length polys.now }
    requires degree { OfDegree ring.now secret.now }
    requires rows { length polys.now ≡ length (under ring.now secret.now scalar) }
    requires enough { draw.old.used + digit_count_of w * words_taken ring.now (length polys.now) ≤ length draw.old.words }
    ensures { OnOk result (Drawn ring.now (length polys.now) (under ring.now secret.now scalar) (map (λ k. map (ring_scale q ring.now (pos (2 ^ (w * k)))) polys.now) (range_with_len 0 (digit_count_of w))) draw.old draw.new ciphers.old.items ciphers.new.items) }
{
    for k in 0..digit_count(w) {
        draw_digit(alloc, ring, w, k, polys, secret, scalar, ciphers, draw)?;
    }
    Ok(())
}

/// Appends the conversion key of a set that expands, drawn from the next words.
fn draw_key(
    alloc: Global,
    ring: &Ring,
    set: &ParamSet,
    secret: &Secret,
    ciphers: &mut Vec<Cipher>,
    draw: &mut Draw<'_>,
) -> Result<(), NoMemory>
    requires known { IsSet set.now }
    requires expands { set.now.direct ≡ false }
    requires ring { ring.now ≡ set.now.degree }
    requires degree { OfDegree ring.now secret.now }
    requires scalar { length (under ring.now secret.now true) ≡ 1 }
    requires rows { length (under ring.now secret.now set.now.pack) ≡ rows set.now }
    requires enough { draw.old.used + words_of set.now (conversion_ciphertexts set.now) ≤ length draw.old.words }
    ensures { OnOk result (Drawn set.now.degree (rows set.now) (under set.now.degree secret.now set.now.pack) (conversion_messages set.now (scalar_of set.now.degree secret.now) (under set.now.degree secret.now set.now.pack)) draw.old draw.new ciphers.old.items ciphers.new.items) }
{
    let polys = products(alloc, ring, secret, set.pack, set.rows())?;
    draw_digits(
        alloc, ring, set.w_conv, &polys, secret, set.pack, ciphers, draw,
    )?;
    Ok(())
}

/// Appends the conversion key of a set, drawn from the next words: none where it is direct.
pub(crate) fn draw_conversion(
    alloc: Global,
    ring: &Ring,
    set: &ParamSet,
    secret: &Secret,
    ciphers: &mut Vec<Cipher>,
    draw: &mut Draw<'_>,
) -> Result<(), NoMemory>
    requires known { IsSet set.now }
    requires ring { ring.now ≡ set.now.degree }
    requires degree { OfDegree ring.now secret.now }
    requires scalar { length (under ring.now secret.now true) ≡ 1 }
    requires rows { length (under ring.now secret.now set.now.pack) ≡ rows set.now }
    requires enough { draw.old.used + words_of set.now (conversion_ciphertexts set.now) ≤ length draw.old.words }
    ensures { OnOk result (Drawn set.now.degree (rows set.now) (under set.now.degree secret.now set.now.pack) (conversion_messages set.now (scalar_of set.now.degree secret.now) (under set.now.degree secret.now set.now.pack)) draw.old draw.new ciphers.old.items ciphers.new.items) }
{
    if set.direct {
        return Ok(());
    }
    draw_key(alloc, ring, set, secret, ciphers, draw)?;
    Ok(())
}
