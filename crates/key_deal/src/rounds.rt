//! The automorphism keys of the rounds in which a query is expanded.

ghost use Rattle.std.specs.Prelude.{◌≡◌, ◌+◌, ◌*◌, ◌%◌, ◌^◌, ◌<◌, ◌≤◌, true, false, length, OnOk};
ghost use Rattle.spiral_sets.specs.Sets.{IsSet, digit_count as digit_count_of};
ghost use Rattle.spiral_sets.specs.Counts.{words_of, round_ciphertexts};
ghost use Rattle.spiral_model.specs.Ciphertexts.{words_taken};
ghost use Rattle.spiral_model.specs.Expansion.{round_power};
ghost use Rattle.spiral_model.specs.Dealing.{auto_messages, rounds_messages, round_messages};
ghost use Rattle.regev_code.specs.Shapes.{OfDegree, under};
ghost use Rattle.regev_code.specs.Drawn.{Drawn};
ghost use Rattle.key_deal.specs.DealtKeys.{scalar_of};

use auto_switch::auto_key;
use no_memory::NoMemory;
use regev_code::{Cipher, Draw, Secret};
use ring_poly::Ring;
use spiral_sets::ParamSet;
use std::alloc::Global;

/// g_j = N / 2^j + 1, the automorphism of round j. N / 2^j is even, so it is odd.
fn automorphism(ring: &Ring, j: u32) -> usize
    requires { 2 ^ (j + 1) ≤ ring.now }
    ensures value { result ≡ round_power ring.now j }
    ensures odd { result % 2 ≡ 1 }
    ensures below { result < 2 * ring.now }
{
    (ring.degree() >> j) + 1
}

/// Appends the key of round j for digits of w bits, drawn from the next words.
fn draw_round(
    alloc: Global,
    ring: &Ring,
    j: u32,
    w: u32,
    secret: &Secret,
    ciphers: &mut Vec<Cipher>,
    draw: &mut Draw<'_>,
) -> Result<(), NoMemory>
    requires round { 2 ^ (j + 1) ≤ ring.now }
    requires some { 1 ≤ w }
    requires most { w ≤ 56 }
    requires degree { OfDegree ring.now secret.now }
    requires scalar { length (under ring.now secret.now true) ≡ 1 }
    requires enough { draw.old.used + digit_count_of w * words_taken ring.now 1 ≤ length draw.old.words }
    ensures { OnOk result (Drawn ring.now 1 (under ring.now secret.now true) (auto_messages ring.now (round_power ring.now j) w (scalar_of ring.now secret.now)) draw.old draw.new ciphers.old.items ciphers.new.items) }
{
    let g = automorphism(ring, j);
    let mut key = auto_key(alloc, ring, g, w, secret, draw)?;
    ciphers.append(&mut key)?;
    Ok(())
}

/// Appends the keys of so many rounds for digits of w bits, from round `first` on, drawn from the next words.
fn draw_side(
    alloc: Global,
    ring: &Ring,
    first: u32,
    count: u32,
    w: u32,
    secret: &Secret,
    ciphers: &mut Vec<Cipher>,
    draw: &mut Draw<'_>,
) -> Result<(), NoMemory>
    requires first { first ≤ 1 }
    requires count { count ≤ 8 }
    requires rounds { 2 ^ (first + count) ≤ ring.now }
    requires some { 1 ≤ w }
    requires most { w ≤ 56 }
    requires degree { OfDegree ring.now secret.now }
    requires scalar { length (under ring.now secret.now true) ≡ 1 }
    requires enough { draw.old.used + count * (digit_count_of w * words_taken ring.now 1) ≤ length draw.old.words }
    ensures { OnOk result (Drawn ring.now 1 (under ring.now secret.now true) (rounds_messages ring.now first count w (scalar_of ring.now secret.now)) draw.old draw.new ciphers.old.items ciphers.new.items) }
{
    for i in 0..count {
        draw_round(alloc, ring, first + i, w, secret, ciphers, draw)?;
    }
    Ok(())
}

/// Appends the keys of all rounds of a set that expands: of round 0, of the left rounds and of the right rounds.
fn draw_sides(
    alloc: Global,
    ring: &Ring,
    set: &ParamSet,
    secret: &Secret,
    ciphers: &mut Vec<Cipher>,
    draw: &mut Draw<'_>,
) -> Result<(), NoMemory>
    requires known { IsSet set.now }
    requires expands { set.now.direct ≡ false }
    requires ring { ring.now ≡ set.now.degree }
    requires degree { OfDegree ring.now secret.now }
    requires scalar { length (under ring.now secret.now true) ≡ 1 }
    requires enough { draw.old.used + words_of set.now (round_ciphertexts set.now) ≤ length draw.old.words }
    ensures { OnOk result (Drawn set.now.degree 1 (under set.now.degree secret.now true) (round_messages set.now (scalar_of set.now.degree secret.now)) draw.old draw.new ciphers.old.items ciphers.new.items) }
{
    draw_side(alloc, ring, 0, 1, set.w_right, secret, ciphers, draw)?;
    draw_side(alloc, ring, 1, set.nu1, set.w_left, secret, ciphers, draw)?;
    draw_side(
        alloc,
        ring,
        1,
        set.rho(),
        set.w_right,
        secret,
        ciphers,
        draw,
    )?;
    Ok(())
}

/// Appends the automorphism keys of a set, drawn from the next words: none where it is direct.
pub(crate) fn draw_rounds(
    alloc: Global,
    ring: &Ring,
    set: &ParamSet,
    secret: &Secret,
    ciphers: &mut Vec<Cipher>,
    draw: &mut Draw<'_>,
) -> Result<(), NoMemory>
    requires known { IsSet set.now }
    requires ring { ring.now ≡ set.now.degree }
    requires degree { OfDegree ring.now secret.now }
    requires scalar { length (under ring.now secret.now true) ≡ 1 }
    requires enough { draw.old.used + words_of set.now (round_ciphertexts set.now) ≤ length draw.old.words }
    ensures { OnOk result (Drawn set.now.degree 1 (under set.now.degree secret.now true) (round_messages set.now (scalar_of set.now.degree secret.now)) draw.old draw.new ciphers.old.items ciphers.new.items) }
{
    if set.direct {
        return Ok(());
    }
    draw_sides(alloc, ring, set, secret, ciphers, draw)?;
    Ok(())
}
