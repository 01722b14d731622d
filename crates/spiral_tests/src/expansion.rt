//! One ciphertext expanded into two. The expected numbers are worked out by hand.
ghost use Rattle.std.specs.Prelude.{◌≡◌, All, IfOk};
ghost use Rattle.regev_code.specs.Products.{HasShape};
ghost use Rattle.regev_code.specs.KeyShapes.{IsKeyOf};
ghost use Rattle.spiral_tests.specs.Edge.{edge};

use crate::fixtures::{are_polynomials, are_scalar, edge_set, expect_polynomial, is_scalar};
use query_expand::expand;
use regev_code::{Cipher, Scratch, SwitchKey};
use ring_poly::{Poly, Ring, are_residues};
use std::alloc::Global;
use std::process::Abort;
use std::test::Fail;

/// The ciphertext whose row 0 is zero, and whose row 1 is 1 at each place.
fn ones(rt: &impl Abort, alloc: Global) -> Result<Cipher, Fail>
    ensures { IfOk result (λ c. HasShape 256 2 c) }
{
    let numbers = vec![in alloc; 1u64; 256]?;
    assert!(rt; numbers.len() == 256 && are_residues(&numbers));
    let mut rows = Vec::new(alloc);
    rows.push(Poly::zero(alloc, 256)?)?;
    rows.push(Poly::from_coeffs(alloc, &numbers)?)?;
    assert!(rt; rows.len() == 2 && are_polynomials(&rows));
    let c = Cipher::from_rows(rows);
    assert!(rt; is_scalar(&c));
    Ok(c)
}

/// The polynomial is 2 at the even places and 0 at the odd ones.
fn expect_twos(rt: &impl Abort, alloc: Global, a: &Poly) -> Result<(), Fail> {
    let mut numbers = vec![in alloc; 0u64; a.degree()]?;
    a.coeffs_into(&mut numbers);
    for place in 0..numbers.len() {
        assert_eq!(rt; numbers[place], if place % 2 == 0 { 2 } else { 0 });
    }
    Ok(())
}

/// A key of zeros, for digits of 7 bits. With it the automorphism of a ciphertext with row 0 zero is that of row 1.
fn zero_key(rt: &impl Abort, alloc: Global, ring: &Ring) -> Result<SwitchKey, Fail>
    requires { ring.now ≡ 256 }
    ensures { IfOk result (λ key. IsKeyOf edge 1 key) }
{
    let set = edge_set(rt);
    let mut ciphers = Vec::new(alloc);
    for _ in 0..8u32 {
        ciphers.push(Cipher::zero(alloc, &set, 1)?)?;
    }
    assert!(rt; ciphers.len() == 8 && are_scalar(&ciphers));
    Ok(SwitchKey::from_ciphers(alloc, ring, 7, &ciphers)?)
}

/// Round 0 with a key of zeros.
fn expanded_once(rt: &impl Abort, alloc: Global, c: &Cipher) -> Result<Vec<Cipher>, Fail>
    requires { HasShape 256 2 c.now }
    ensures { IfOk result (λ ciphers. All (HasShape 256 2) ciphers.items) }
{
    let ring = Ring::new(alloc, 256)?;
    let mut scratch = Scratch::new(alloc, &edge_set(rt))?;
    let keys = [zero_key(rt, alloc, &ring)?];
    Ok(expand(alloc, &ring, c, &keys, 0, &mut scratch)?)
}

/// Round 0 takes x to x^257 = -x, so row 1 of c + Auto(c) is the sum of x^i + (-x)^i. Row 1 of x^-1 c is 1 + .. + x^254 - x^255,
/// so d + Auto(d) is the same there.
#[test]
fn expands_into_two(rt: HostRuntime) -> Result<(), Fail> {
    let alloc = rt.alloc();
    let c = ones(&rt, alloc)?;
    let found = expanded_once(&rt, alloc, &c)?;
    assert!(rt; found.len() == 2);
    expect_polynomial(&rt, alloc, found[0].row(0), &[])?;
    expect_twos(&rt, alloc, found[0].row(1))?;
    expect_polynomial(&rt, alloc, found[1].row(0), &[])?;
    expect_twos(&rt, alloc, found[1].row(1))?;
    Ok(())
}
