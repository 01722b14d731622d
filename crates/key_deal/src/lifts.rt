//! The lift keys, by which a scalar ciphertext is lifted into a row of a matrix ciphertext.

ghost use Rattle.std.specs.Prelude.{◌≡◌, ◌==◌, ◌+◌, ◌*◌, ◌^◌, ◌<◌, ◌≤◌, [], ◌∷◌, true, false, if◌then◌else◌, pos, neg_ℤ, length, IfOk, OnOk};
ghost use Rattle.negacyclic.specs.Ring.{ring_scale, ring_zero};
ghost use Rattle.spiral_sets.specs.Sets.{IsSet, q, digit_count as digit_count_of, has_keys};
ghost use Rattle.spiral_sets.specs.Counts.{words_of, lift_ciphertexts};
ghost use Rattle.spiral_model.specs.Ciphertexts.{words_taken};
ghost use Rattle.spiral_model.specs.Dealing.{lift_message, lift_row_messages, lift_messages};
ghost use Rattle.regev_code.specs.Shapes.{OfDegree, under};
ghost use Rattle.regev_code.specs.Drawn.{Drawn};
ghost use Rattle.key_deal.specs.DealtKeys.{scalar_of};

use auto_switch::{draw_next, negative_multiple_into};
use gadget_digits::digit_count;
use no_memory::NoMemory;
use regev_code::{Cipher, Draw, Secret};
use ring_poly::{Poly, Ring};
use spiral_sets::ParamSet;
use std::alloc::Global;

/// Writes what row i encrypts in ciphertext k of the lift key of row r: -s 2^(w k) where i is r, else 0.
fn part_into(ring: &Ring, set: &ParamSet, s: &Poly, r: u32, k: u32, i: u32, out: &mut Poly)
    requires known { IsSet set.now }
    requires keys { has_keys set.now ≡ true }
    requires ring { ring.now ≡ set.now.degree }
    requires s { length s.now ≡ ring.now }
    requires digit { k < digit_count_of set.now.w_conv }
    requires room { length out.old ≡ ring.now }
    ensures { out.new ≡ (if i == r then ring_scale q set.now.degree (neg_ℤ (pos (2 ^ (set.now.w_conv * k)))) s.now else ring_zero q set.now.degree) }
{
    if i == r {
        negative_multiple_into(ring, set.w_conv, k, s, out);
    } else {
        out.clear();
    }
}

/// What rows 1 to n encrypt in ciphertext k of the lift key of row r.
fn messages(
    alloc: Global,
    ring: &Ring,
    set: &ParamSet,
    s: &Poly,
    r: u32,
    k: u32,
) -> Result<Vec<Poly>, NoMemory>
    requires known { IsSet set.now }
    requires keys { has_keys set.now ≡ true }
    requires ring { ring.now ≡ set.now.degree }
    requires s { length s.now ≡ ring.now }
    requires digit { k < digit_count_of set.now.w_conv }
    ensures { IfOk result (λ messages. messages.items ≡ lift_message set.now s.now r k) }
{
    let mut messages = Vec::new(alloc);
    for i in 0..set.n {
        let mut part = Poly::zero(alloc, ring.degree())?;
        part_into(ring, set, s, r, k, i + 1, &mut part);
        messages.push(part)?;
    }
    Ok(messages)
}

/// Appends ciphertext k of the lift key of row r, drawn from the next words.
fn draw_digit(
    alloc: Global,
    ring: &Ring,
    set: &ParamSet,
    secret: &Secret,
    r: u32,
    k: u32,
    ciphers: &mut Vec<Cipher>,
    draw: &mut Draw<'_>,
) -> Result<(), NoMemory>
    requires known { IsSet set.now }
    requires keys { has_keys set.now ≡ true }
    requires ring { ring.now ≡ set.now.degree }
    requires degree { OfDegree ring.now secret.now }
    requires scalar { length (under ring.now secret.now true) ≡ 1 }
    requires rows { length (under ring.now secret.now false) ≡ set.now.n }
    requires digit { k < digit_count_of set.now.w_conv }
    requires enough { draw.old.used + words_taken set.now.degree set.now.n ≤ length draw.old.words }
    ensures { OnOk result (Drawn set.now.degree set.now.n (under set.now.degree secret.now false) (lift_message set.now (scalar_of set.now.degree secret.now) r k ∷ []) draw.old draw.new ciphers.old.items ciphers.new.items) }
{
    let parts = messages(alloc, ring, set, secret.poly(true, 0), r, k)?;
    draw_next(alloc, ring, secret, false, &parts, ciphers, draw)?;
    Ok(())
}

/// Appends the lift key of row r, drawn from the next words.
fn draw_lift(
    alloc: Global,
    ring: &Ring,
    set: &ParamSet,
    secret: &Secret,
    r: u32,
    ciphers: &mut Vec<Cipher>,
    draw: &mut Draw<'_>,
) -> Result<(), NoMemory>
    requires known { IsSet set.now }
    requires keys { has_keys set.now ≡ true }
    requires ring { ring.now ≡ set.now.degree }
    requires degree { OfDegree ring.now secret.now }
    requires scalar { length (under ring.now secret.now true) ≡ 1 }
    requires rows { length (under ring.now secret.now false) ≡ set.now.n }
    requires enough { draw.old.used + digit_count_of set.now.w_conv * words_taken set.now.degree set.now.n ≤ length draw.old.words }
    ensures { OnOk result (Drawn set.now.degree set.now.n (under set.now.degree secret.now false) (lift_row_messages set.now (scalar_of set.now.degree secret.now) r) draw.old draw.new ciphers.old.items ciphers.new.items) }
{
    for k in 0..digit_count(set.w_conv) {
        draw_digit(alloc, ring, set, secret, r, k, ciphers, draw)?;
    }
    Ok(())
}

/// Appends the lift keys of rows 1 to n, drawn from the next words.
pub(crate) fn draw_lifts(
    alloc: Global,
    ring: &Ring,
    set: &ParamSet,
    secret: &Secret,
    ciphers: &mut Vec<Cipher>,
    draw: &mut Draw<'_>,
) -> Result<(), NoMemory>
    requires known { IsSet set.now }
    requires keys { has_keys set.now ≡ true }
    requires ring { ring.now ≡ set.now.degree }
    requires degree { OfDegree ring.now secret.now }
    requires scalar { length (under ring.now secret.now true) ≡ 1 }
    requires rows { length (under ring.now secret.now false) ≡ set.now.n }
    requires enough { draw.old.used + words_of set.now (lift_ciphertexts set.now) ≤ length draw.old.words }
    ensures { OnOk result (Drawn set.now.degree set.now.n (under set.now.degree secret.now false) (lift_messages set.now (scalar_of set.now.degree secret.now)) draw.old draw.new ciphers.old.items ciphers.new.items) }
{
    for i in 0..set.n {
        draw_lift(alloc, ring, set, secret, i + 1, ciphers, draw)?;
    }
    Ok(())
}
