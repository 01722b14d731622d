ghost use Rattle.std.specs.Prelude.{◌≡◌, ◌+◌, ◌*◌, ◌%◌, ◌^◌, ◌<◌, ◌≤◌, [], ◌∷◌, true, length, pos, neg_ℤ, OnOk, OnErr, IfOk};
ghost use Rattle.negacyclic.specs.Ring.{ring_scale};
ghost use Rattle.spiral_sets.specs.Sets.{q, digit_count as digit_count_of};
ghost use Rattle.spiral_model.specs.Words.{poly_of};
ghost use Rattle.spiral_model.specs.Ciphertexts.{words_taken};
ghost use Rattle.spiral_model.specs.Dealing.{auto_messages};
ghost use Rattle.regev_code.specs.Shapes.{OfDegree, under};
ghost use Rattle.regev_code.specs.Drawn.{Drawn};

use crate::drawing::draw_next;
use crate::powers::negative_multiple_into;
use gadget_digits::digit_count;
use no_memory::NoMemory;
use regev_code::{Cipher, Draw, Secret};
use ring_poly::{Poly, Ring};
use std::alloc::Global;

/// -a 2^(w k), as the one message of a ciphertext.
fn message(alloc: Global, ring: &Ring, w: u32, k: u32, a: &Poly) -> Result<Vec<Poly>, NoMemory>
    requires some { 1 ≤ w }
    requires most { w ≤ 56 }
    requires digit { k < digit_count_of w }
    requires degree { length a.now ≡ ring.now }
    ensures { IfOk result (λ messages. messages.items ≡ ring_scale q ring.now (neg_ℤ (pos (2 ^ (w * k)))) a.now ∷ []) }
{
    let mut message = Poly::zero(alloc, ring.degree())?;
    negative_multiple_into(ring, w, k, a, &mut message);
    let mut messages = Vec::new(alloc);
    messages.push(message)?;
    Ok(messages)
}

/// Appends the encryption of -a 2^(w k) under the scalar secret, drawn from the next words.
fn draw_digit(
    alloc: Global,
    ring: &Ring,
    w: u32,
    k: u32,
    a: &Poly,
    secret: &Secret,
    ciphers: &mut Vec<Cipher>,
    draw: &mut Draw<'_>,
) -> Result<(), NoMemory>
    requires some { 1 ≤ w }
    requires most { w ≤ 56 }
    requires digit { k < digit_count_of w }
    requires a { length a.now ≡ ring.now }
    requires degree { OfDegree ring.now secret.now }
    requires scalar { length (under ring.now secret.now true) ≡ 1 }
    requires enough { draw.old.used + words_taken ring.now 1 ≤ length draw.old.words }
    ensures { OnOk result (Drawn ring.now 1 (under ring.now secret.now true) ((ring_scale q ring.now (neg_ℤ (pos (2 ^ (w * k)))) a.now ∷ []) ∷ []) draw.old draw.new ciphers.old.items ciphers.new.items) }
{
    let messages = message(alloc, ring, w, k, a)?;
    draw_next(alloc, ring, secret, true, &messages, ciphers, draw)?;
    Ok(())
}

/// The automorphism key of g (an encryption of -tau_g(s) 2^(w k) under s for each digit k), for digits of w bits, drawn from
/// the next words: t encryptions of one message each, for t digits. An error says that memory was wanting, and leaves the
/// draw as it was.
pub fn auto_key(
    alloc: Global,
    ring: &Ring,
    g: usize,
    w: u32,
    secret: &Secret,
    draw: &mut Draw<'_>,
) -> Result<Vec<Cipher>, NoMemory>
    requires odd { g % 2 ≡ 1 }
    requires power { g < 2 * ring.now }
    requires some { 1 ≤ w }
    requires most { w ≤ 56 }
    requires degree { OfDegree ring.now secret.now }
    requires scalar { length (under ring.now secret.now true) ≡ 1 }
    requires enough { draw.old.used + digit_count_of w * words_taken ring.now 1 ≤ length draw.old.words }
    ensures ok { IfOk result (λ ciphers. Drawn ring.now 1 (under ring.now secret.now true) (auto_messages ring.now g w (poly_of (under ring.now secret.now true) 0)) draw.old draw.new [] ciphers.items) }
    ensures err { OnErr result (draw.new ≡ draw.old) }
{
    let mut image = Poly::zero(alloc, ring.degree())?;
    ring.auto(g, secret.poly(true, 0), &mut image);
    let mut ahead = draw.again();
    let mut ciphers = Vec::new(alloc);
    for k in 0..digit_count(w) {
        draw_digit(alloc, ring, w, k, &image, secret, &mut ciphers, &mut ahead)?;
    }
    draw.take_over(&ahead);
    Ok(ciphers)
}
