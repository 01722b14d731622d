//! Sums of ciphertexts and key switching. The expected numbers are worked out by hand.
ghost use Rattle.std.specs.Prelude.{◌≡◌, IfOk};
ghost use Rattle.regev_code.specs.KeyShapes.{IsKeyOf};
ghost use Rattle.spiral_tests.specs.Edge.{edge};

use crate::fixtures::{
    Rows, ScalarRows, cipher, edge_set, expect_cipher, expect_form, expect_polynomial, have_shape,
    polynomial, scalar,
};
use regev_code::{Cipher, CipherT, Room, Scratch, SwitchKey, form_of, lift_row, switch_key};
use ring_poly::{Q, Ring};
use std::alloc::Global;
use std::process::Abort;
use std::test::Fail;

/// 5, 300 x^3 and 900 x^200.
const FIRST: Rows = [&[(0, 5)], &[(3, 300)], &[(200, 900)]];

/// -5, x^3 and 2 + 100 x^200.
const SECOND: Rows = [&[(0, Q - 5)], &[(3, 1)], &[(0, 2), (200, 100)]];

const SUM: Rows = [&[], &[(3, 301)], &[(0, 2), (200, 1000)]];

#[test]
fn ciphertexts_are_added(rt: HostRuntime) -> Result<(), Fail> {
    let alloc = rt.alloc();
    let mut sum = cipher(&rt, alloc, FIRST)?;
    sum.add_assign(&cipher(&rt, alloc, SECOND)?);
    expect_cipher(&rt, alloc, &sum, SUM)?;
    Ok(())
}

#[test]
fn one_is_brought_into_product_form(rt: HostRuntime) -> Result<(), Fail> {
    let alloc = rt.alloc();
    let ring = Ring::new(alloc, 256)?;
    let form = form_of(alloc, &ring, &cipher(&rt, alloc, SECOND)?)?;
    assert_eq!(rt; form.rows(), 3);
    let mut row = polynomial(&rt, alloc, &[])?;
    ring.from_product(form.row(2), &mut row);
    expect_polynomial(&rt, alloc, &row, SECOND[2])?;
    Ok(())
}

/// The powers 128^k in row 0, and x times them in row 1: with these the digits of a polynomial a add up to a in row 0 and x a in
/// row 1.
const POWERS: [Rows; 8] = [
    [&[(0, 1)], &[(1, 1)], &[]],
    [&[(0, 128)], &[(1, 128)], &[]],
    [&[(0, 16384)], &[(1, 16384)], &[]],
    [&[(0, 2097152)], &[(1, 2097152)], &[]],
    [&[(0, 268435456)], &[(1, 268435456)], &[]],
    [&[(0, 34359738368)], &[(1, 34359738368)], &[]],
    [&[(0, 4398046511104)], &[(1, 4398046511104)], &[]],
    [&[(0, 562949953421312)], &[(1, 562949953421312)], &[]],
];

/// The key of these powers.
fn key(rt: &impl Abort, alloc: Global, ring: &Ring) -> Result<SwitchKey, Fail>
    requires { ring.now ≡ 256 }
    ensures { IfOk result (λ key. IsKeyOf edge 2 key) }
{
    let mut ciphers = Vec::new(alloc);
    for rows in &POWERS {
        ciphers.push(cipher(rt, alloc, *rows)?)?;
    }
    assert!(rt; ciphers.len() == 8 && have_shape(&ciphers));
    Ok(SwitchKey::from_ciphers(alloc, ring, 7, &ciphers)?)
}

#[test]
fn a_key_has_its_ciphertexts(rt: HostRuntime) -> Result<(), Fail> {
    let alloc = rt.alloc();
    let ring = Ring::new(alloc, 256)?;
    let key = key(&rt, alloc, &ring)?;
    assert!(rt; key.w == 7 && key.ciphers.len() == 8);
    expect_form(&rt, alloc, key.cipher(6), POWERS[6])?;
    Ok(())
}

/// a = 300 - x^255 and b = 5 x^2.
const PAIR: ScalarRows = [&[(0, 300), (255, Q - 1)], &[(2, 5)]];

/// a in row 0, x a = 1 + 300 x in row 1, b in row 2.
const SWITCHED: Rows = [&[(0, 300), (255, Q - 1)], &[(0, 1), (1, 300)], &[(2, 5)]];

#[test]
fn a_key_switches(rt: HostRuntime) -> Result<(), Fail> {
    let alloc = rt.alloc();
    let set = edge_set(&rt);
    let ring = Ring::new(alloc, 256)?;
    let key = key(&rt, alloc, &ring)?;
    let (a, b) = (
        polynomial(&rt, alloc, PAIR[0])?,
        polynomial(&rt, alloc, PAIR[1])?,
    );
    let mut out = cipher(&rt, alloc, FIRST)?;
    let mut sum = CipherT::zero(alloc, &set, 2)?;
    let mut room = Room::new(alloc, &set)?;
    switch_key(&ring, 2, 2, &key, &b, &a, &mut out, &mut sum, &mut room);
    expect_cipher(&rt, alloc, &out, SWITCHED)?;
    Ok(())
}

/// The same with b in row 1: 1 + 300 x + 5 x^2.
const LIFTED: Rows = [&[(0, 300), (255, Q - 1)], &[(0, 1), (1, 300), (2, 5)], &[]];

#[test]
fn a_scalar_ciphertext_is_lifted_into_row_1(rt: HostRuntime) -> Result<(), Fail> {
    let alloc = rt.alloc();
    let ring = Ring::new(alloc, 256)?;
    let key = key(&rt, alloc, &ring)?;
    let c = scalar(&rt, alloc, PAIR)?;
    let mut out = cipher(&rt, alloc, FIRST)?;
    let mut scratch = Scratch::new(alloc, &edge_set(&rt))?;
    lift_row(&ring, 1, &c, &key, &mut out, &mut scratch);
    expect_cipher(&rt, alloc, &out, LIFTED)?;
    Ok(())
}
