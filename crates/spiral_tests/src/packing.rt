//! Lifts, packing and translation with the keys of tiny-pack, whose row 0 is 0, where s = x^5. The expected numbers are worked out by hand.
ghost use Rattle.std.specs.Prelude.{All, IfOk};
ghost use Rattle.regev_code.specs.Products.{HasShape};

use crate::fixtures::{
    Rows, ScalarRows, expect_ciphers, expect_form, expect_scalars, scalar, scalars,
};
use crate::keys::{keys, pack_set};
use regev_code::{Cipher, CipherT, Scratch, from_form};
use regev_to_gsw::translate;
use ring_poly::{Q, Ring};
use spiral_pack::{lift_matrix, pack};
use std::alloc::Global;
use std::process::Abort;
use std::test::Fail;

/// c_0 = 3 and c_1 = 10 x, so that its phase is 10 x - 3 x^5.
const SCALAR: ScalarRows = [&[(0, 3)], &[(1, 10)]];

/// The lifts of that ciphertext.
fn lifts(rt: &impl Abort, alloc: Global) -> Result<Vec<CipherT>, Fail>
    ensures { IfOk result (λ columns. All (HasShape 256 3) columns.items) }
{
    let ring = Ring::new(alloc, 256)?;
    let keys = keys(rt, alloc, &ring)?;
    let mut scratch = Scratch::new(alloc, &pack_set(rt))?;
    let c = scalar(rt, alloc, SCALAR)?;
    Ok(lift_matrix(alloc, &ring, &c, &keys, &mut scratch)?)
}

/// Digit k of the lift key of row r is -s 4^k in row r, so that the digits of c_0 add up to -s c_0: row r is the phase.
#[test]
fn a_scalar_ciphertext_is_lifted_into_each_row(rt: HostRuntime) -> Result<(), Fail> {
    let alloc = rt.alloc();
    let columns = lifts(&rt, alloc)?;
    assert!(rt; columns.len() == 2);
    let (first, second) = (&columns[0], &columns[1]);
    expect_form(&rt, alloc, first, [&[], &[(1, 10), (5, Q - 3)], &[]])?;
    expect_form(&rt, alloc, second, [&[], &[], &[(1, 10), (5, Q - 3)]])?;
    Ok(())
}

/// Scalar ciphertexts with the phases 10 - x^5, 20 x, 2 = -2 x^256, and 7.
const ENTRIES: [ScalarRows; 4] = [
    [&[(0, 1)], &[(0, 10)]],
    [&[], &[(1, 20)]],
    [&[(251, 2)], &[]],
    [&[(0, 4)], &[(0, 7), (5, 4)]],
];

/// These phases: of the first two in row 1, of the others in row 2.
const PACKED: [Rows; 2] = [
    [&[], &[(0, 10), (5, Q - 1)], &[(0, 2)]],
    [&[], &[(1, 20)], &[(0, 7)]],
];

#[test]
fn scalar_ciphertexts_are_packed(rt: HostRuntime) -> Result<(), Fail> {
    let alloc = rt.alloc();
    let ring = Ring::new(alloc, 256)?;
    let keys = keys(&rt, alloc, &ring)?;
    let mut scratch = Scratch::new(alloc, &pack_set(&rt))?;
    let ciphers = scalars(&rt, alloc, &ENTRIES)?;
    assert!(rt; ciphers.len() == 4);
    let columns = pack(alloc, &ring, &ciphers, &keys, &mut scratch)?;
    assert!(rt; columns.len() == 2);
    expect_ciphers(&rt, alloc, &columns, &PACKED)?;
    Ok(())
}

const NONE: ScalarRows = [&[], &[]];

/// Ciphertexts of the digits of a bit, of which only those of digits 3 and 7 aren't 0.
const DIGITS: [ScalarRows; 8] = [NONE, NONE, NONE, SCALAR, NONE, NONE, NONE, [&[], &[(2, 5)]]];

/// Column k has c_1 of digit k in row 0 and s^2 c_0 in row 1, so the phase -s (c_1 - s c_0), since digit j of the conversion key is
/// s^2 4^j. Column 8 + k is the ciphertext itself.
const COLUMNS: [(usize, ScalarRows); 6] = [
    (3, [&[(1, 10)], &[(10, 3)]]),
    (7, [&[(2, 5)], &[]]),
    (8, NONE),
    (11, SCALAR),
    (12, NONE),
    (15, [&[], &[(2, 5)]]),
];

/// The columns of the GSW ciphertext of those digits.
fn translated(rt: &impl Abort, alloc: Global) -> Result<Vec<CipherT>, Fail>
    ensures { IfOk result (λ columns. All (HasShape 256 2) columns.items) }
{
    let set = pack_set(rt);
    let ring = Ring::new(alloc, 256)?;
    let keys = keys(rt, alloc, &ring)?;
    let mut scratch = Scratch::new(alloc, &set)?;
    let bits = scalars(rt, alloc, &DIGITS)?;
    assert!(rt; bits.len() == 8);
    Ok(translate(alloc, &ring, &set, &bits, &keys, &mut scratch)?)
}

/// The scalar ciphertexts, brought back from product form.
fn brought_back(rt: &impl Abort, alloc: Global, columns: &[CipherT]) -> Result<Vec<Cipher>, Fail>
    requires { All (HasShape 256 2) columns.now }
{
    let ring = Ring::new(alloc, 256)?;
    let mut back = Vec::new(alloc);
    for column in columns {
        let mut c = scalar(rt, alloc, NONE)?;
        from_form(&ring, column, &mut c);
        back.push(c)?;
    }
    Ok(back)
}

#[test]
fn digits_are_translated(rt: HostRuntime) -> Result<(), Fail> {
    let alloc = rt.alloc();
    let columns = translated(&rt, alloc)?;
    assert_eq!(rt; columns.len(), 16);
    expect_scalars(&rt, alloc, &brought_back(&rt, alloc, &columns)?, &COLUMNS)?;
    Ok(())
}
