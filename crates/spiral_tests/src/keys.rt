//! The keys of tiny-pack, dealt from words and brought into product form. The expected numbers are worked out by hand.
ghost use Rattle.std.specs.Prelude.{true, false, ◌≡◌, ◌+◌, ◌≤◌, length, All, IfOk, OnOk};
ghost use Rattle.spiral_sets.specs.Sets.{IsSet};
ghost use Rattle.spiral_model.specs.Bodies.{IsSetup};
ghost use Rattle.regev_code.specs.Products.{HasShape};
ghost use Rattle.regev_code.specs.Shapes.{OfDegree, taken, under};
ghost use Rattle.spiral_tests.specs.Pack.{tiny_pack};

use crate::fixtures::{Rows, ScalarRows, expect_cipher, expect_form, expect_scalars};
use auto_switch::auto_key;
use key_deal::draw_keys;
use regev_code::{Draw, EvalKeys, KeyBody, Secret, SwitchKey, draw_secret};
use ring_poly::{Q, Ring};
use spiral_pack::lift_key;
use spiral_sets::{ParamSet, set_named};
use std::alloc::Global;
use std::process::Abort;
use std::test::Fail;

/// tiny-pack: N = 256, n = 2; a key of round 0 and rho = 4 right ones for digits of 1 bit, so t = 56; 2 left ones, 2 lift keys and
/// the conversion key for digits of 2 bits, so t = 28.
pub(crate) fn pack_set(rt: &impl Abort) -> ParamSet
    ensures known { IsSet result }
    ensures value { result ≡ tiny_pack }
{
    set_named("tiny-pack").expect(rt, "tiny-pack is a set")
}

/// How many words the secrets take, 3 * 256, and the keys: 336 ciphertexts of the rounds and 28 of the conversion key, 3 * 256
/// each, and 56 of the lift keys, 4 * 256 each.
const WORDS: usize = 337664;

/// Words 2 and 1 are 1 and 0 in a secret: s is x^5, and s_1 and s_2 are 0. The words behind them are 0, and so the uniform parts
/// and the errors: row 0 of each ciphertext is 0, and the others are its messages.
fn words(alloc: Global, count: usize) -> Result<Vec<u64>, Fail> {
    let mut words = Vec::new(alloc);
    for i in 0..count {
        words.push(match i {
            5 => 2,
            0..768 => 1,
            _ => 0,
        })?;
    }
    Ok(words)
}

/// The secrets that the next words give.
fn secret_of(rt: &impl Abort, alloc: Global, draw: &mut Draw<'_>) -> Result<Secret, Fail>
    requires { draw.old.used + 768 ≤ length draw.old.words }
    ensures degree { IfOk result (λ secret. OfDegree 256 secret) }
    ensures scalar { IfOk result (λ secret. length (under 256 secret true) ≡ 1) }
    ensures rows { IfOk result (λ secret. length (under 256 secret false) ≡ 2) }
    ensures taken { OnOk result (draw.new ≡ taken draw.old 768) }
{
    Ok(draw_secret(alloc, &pack_set(rt), draw)?)
}

/// s = x^5 becomes x^505 = -x^249 by x -> x^101, so ciphertext k is x^249 2^(28 k).
const DRAWN: [(usize, ScalarRows); 2] = [(0, [&[], &[(249, 1)]]), (1, [&[], &[(249, 268435456)]])];

#[test]
fn an_automorphism_key_is_drawn(rt: HostRuntime) -> Result<(), Fail> {
    let alloc = rt.alloc();
    let ring = Ring::new(alloc, 256)?;
    let words = words(alloc, 2304)?;
    assert!(rt; words.len() == 2304);
    let mut draw = Draw::new(&words);
    let secret = secret_of(&rt, alloc, &mut draw)?;
    let key = auto_key(alloc, &ring, 101, 28, &secret, &mut draw)?;
    assert_eq!(rt; (draw.used(), key.len()), (2304, 2));
    expect_scalars(&rt, alloc, &key, &DRAWN)?;
    Ok(())
}

/// The keys that these words deal.
pub(crate) fn setup(rt: &impl Abort, alloc: Global) -> Result<KeyBody, Fail>
    ensures set { IfOk result (λ body. body.set ≡ tiny_pack) }
    ensures setup { IfOk result (λ body. IsSetup body) }
{
    let ring = Ring::new(alloc, 256)?;
    let words = words(alloc, WORDS)?;
    assert!(rt; words.len() == 337664);
    let mut draw = Draw::new(&words);
    let secret = secret_of(rt, alloc, &mut draw)?;
    Ok(draw_keys(alloc, &ring, &pack_set(rt), &secret, &mut draw)?)
}

/// Ciphertexts of scalar keys, by their place.
const SCALAR: [(usize, ScalarRows); 7] = [
    // round 0: x^5 becomes x^1285 = -x^5 by x -> x^257
    (0, [&[], &[(5, 1)]]),
    (55, [&[], &[(5, 36028797018963968)]]),
    // left round 1: x^645 = x^133, by x -> x^129
    (57, [&[], &[(133, Q - 4)]]),
    // left round 2: x^325 = -x^69, by x -> x^65
    (84, [&[], &[(69, 1)]]),
    // right round 1
    (113, [&[], &[(133, Q - 2)]]),
    // right round 4: x^85, by x -> x^17
    (280, [&[], &[(85, Q - 1)]]),
    // conversion, digit 2: s s 2^4
    (394, [&[], &[(10, 16)]]),
];

/// Digit 1 of the lift key of row 2: -4 s.
const LIFT: Rows = [&[], &[], &[(5, Q - 4)]];

#[test]
fn keys_are_dealt(rt: HostRuntime) -> Result<(), Fail> {
    let alloc = rt.alloc();
    let setup = setup(&rt, alloc)?;
    assert!(rt; setup.ciphers.len() == 420);
    expect_scalars(&rt, alloc, &setup.ciphers, &SCALAR)?;
    expect_cipher(&rt, alloc, &setup.ciphers[365], LIFT)?;
    Ok(())
}

/// The same keys in product form.
pub(crate) fn keys(rt: &impl Abort, alloc: Global, ring: &Ring) -> Result<EvalKeys, Fail>
    requires { ring.now ≡ 256 }
    ensures { IfOk result (λ keys. keys.set ≡ tiny_pack) }
{
    Ok(EvalKeys::from_body(alloc, ring, &setup(rt, alloc)?)?)
}

/// Ciphertext k of a key with rows 0 to 2 has these rows.
fn expect_key(
    rt: &impl Abort,
    alloc: Global,
    key: &SwitchKey,
    k: u32,
    rows: Rows,
) -> Result<(), Fail>
    requires { All (HasShape 256 3) key.now.ciphers }
{
    assert!(rt; (k as usize) < key.ciphers.len());
    expect_form(rt, alloc, key.cipher(k), rows)?;
    Ok(())
}

/// The keys have digit 1 of the lift key of row 2.
pub(crate) fn expect_keys(rt: &impl Abort, alloc: Global, keys: &EvalKeys) -> Result<(), Fail>
    requires { keys.now.set ≡ tiny_pack }
{
    assert_eq!(rt;
        (keys.left.len(), keys.right.len(), keys.lift.len()),
        (2, 4, 2)
    );
    expect_key(rt, alloc, lift_key(keys, 2), 1, LIFT)?;
    Ok(())
}

#[test]
fn keys_are_brought_into_product_form(rt: HostRuntime) -> Result<(), Fail> {
    let alloc = rt.alloc();
    let ring = Ring::new(alloc, 256)?;
    expect_keys(&rt, alloc, &keys(&rt, alloc, &ring)?)?;
    Ok(())
}
