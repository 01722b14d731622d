//! Polynomials of the ring, and digits of residues. The expected numbers are worked out by hand.
use crate::fixtures::{Terms, expect_polynomial, form_of, polynomial};
use gadget_digits::{digit_count, digits_into};
use ring_poly::{Poly, Q, Ring, are_residues};
use std::test::Fail;

#[test]
fn coefficients_come_and_go(rt: HostRuntime) -> Result<(), Fail> {
    let alloc = rt.alloc();
    let a = polynomial(&rt, alloc, &[(0, 4), (255, Q - 1)])?;
    assert!(rt; a.degree() == 256);
    let mut numbers = vec![in alloc; 0u64; 256]?;
    a.coeffs_into(&mut numbers);
    assert_eq!(rt;
        (numbers[0], numbers[254], numbers[255]),
        (4, 0, 66974689739603968)
    );
    let mut b = Poly::zero(alloc, 256)?;
    assert!(rt; are_residues(&numbers));
    b.put_coeffs(&numbers);
    expect_polynomial(&rt, alloc, &b.copy()?, &[(0, 4), (255, Q - 1)])?;
    // 4 and 1, since q - 1 counts as -1
    assert!(rt; b.norm1() == 5);
    b.clear();
    expect_polynomial(&rt, alloc, &b, &[])?;
    Ok(())
}

#[test]
fn sums_and_differences_by_hand(rt: HostRuntime) -> Result<(), Fail> {
    let alloc = rt.alloc();
    let mut a = polynomial(&rt, alloc, &[(0, Q - 1), (1, 1), (2, Q - 1), (255, 3)])?;
    let b = polynomial(&rt, alloc, &[(0, 1), (1, Q - 1), (2, Q - 1), (255, 4)])?;
    let mut sum = a.copy()?;
    sum.add_assign(&b);
    expect_polynomial(&rt, alloc, &sum, &[(2, Q - 2), (255, 7)])?;
    a.sub_assign(&b);
    expect_polynomial(&rt, alloc, &a, &[(0, Q - 2), (1, 2), (255, Q - 1)])?;
    Ok(())
}

/// 10 + 14x^2 + 15x^255 + 21x^257, and x^257 = -x
const PRODUCT: Terms = &[(0, 10), (1, Q - 21), (2, 14), (255, 15)];

#[test]
#[tactic(auto, unfolding(spiral_sets::specs::Sets::q))]
fn products_by_hand(rt: HostRuntime) -> Result<(), Fail> {
    let alloc = rt.alloc();
    let ring = Ring::new(alloc, 256)?;
    assert!(rt; ring.degree() == 256);
    let a = polynomial(&rt, alloc, &[(0, 2), (255, 3)])?;
    let b = polynomial(&rt, alloc, &[(0, 5), (2, 7)])?;
    expect_polynomial(&rt, alloc, &ring.mul(&a, &b)?, PRODUCT)?;
    let mut out = Poly::zero(alloc, 256)?;
    // 2x + 3x^256
    ring.shift(&a, 1, &mut out);
    expect_polynomial(&rt, alloc, &out, &[(0, Q - 3), (1, 2)])?;
    ring.scale(2, &b, &mut out);
    expect_polynomial(&rt, alloc, &out, &[(0, 10), (2, 14)])?;
    let constant = Poly::constant(alloc, 256, 8)?;
    expect_polynomial(&rt, alloc, &constant, &[(0, 8)])?;
    Ok(())
}

// 5 + x^255 x = 4, and twice that
#[test]
fn products_are_added(rt: HostRuntime) -> Result<(), Fail> {
    let alloc = rt.alloc();
    let ring = Ring::new(alloc, 256)?;
    let mut a = form_of(&rt, alloc, &[(255, 1)])?;
    let b = form_of(&rt, alloc, &[(1, 1)])?;
    let mut sum = form_of(&rt, alloc, &[(0, 5)])?;
    ring.mul_add(&mut sum, &a, &b);
    a.clear();
    a.add_assign(&sum);
    sum.add_assign(&a);
    let mut back = Poly::zero(alloc, 256)?;
    ring.from_product(&sum, &mut back);
    expect_polynomial(&rt, alloc, &back, &[(0, 8)])?;
    Ok(())
}

#[test]
fn small_numbers_are_put(rt: HostRuntime) -> Result<(), Fail> {
    let alloc = rt.alloc();
    let mut a = polynomial(&rt, alloc, &[(3, Q - 1)])?;
    a.put_small(vec![in alloc; 249561088u64; 256]?.as_slice());
    let mut numbers = vec![in alloc; 0u64; 256]?;
    a.coeffs_into(&mut numbers);
    assert_eq!(rt; (numbers[0], numbers[255]), (249561088, 249561088));
    Ok(())
}

#[test]
#[tactic(auto, unfolding(spiral_sets::specs::Sets::q))]
fn automorphisms_by_hand(rt: HostRuntime) -> Result<(), Fail> {
    let alloc = rt.alloc();
    let ring = Ring::new(alloc, 256)?;
    let mut out = Poly::zero(alloc, 256)?;
    // x^258 = -x^2
    ring.auto(129, &polynomial(&rt, alloc, &[(2, 1)])?, &mut out);
    expect_polynomial(&rt, alloc, &out, &[(2, Q - 1)])?;
    // x^129, and x^(257 255) = x^(255 + 256 255) = -x^255
    ring.auto(129, &polynomial(&rt, alloc, &[(1, 1)])?, &mut out);
    expect_polynomial(&rt, alloc, &out, &[(129, 1)])?;
    ring.auto(
        257,
        &polynomial(&rt, alloc, &[(254, 1), (255, 1)])?,
        &mut out,
    );
    expect_polynomial(&rt, alloc, &out, &[(254, 1), (255, Q - 1)])?;
    Ok(())
}

#[test]
fn digits_of_two_numbers(rt: HostRuntime) {
    // the second is q - 1
    let x = [300, 66974689739603968];
    assert_eq!(rt; digit_count(7), 8);
    assert!(rt; are_residues(&x));
    let mut out = [99u64; 16];
    digits_into(&x, 7, &mut out);
    // 300 is 2 * 128 + 44; of the other, python3: [(q - 1 >> 7 * k) % 128 for k in range(8)]
    let first = [44, 2, 0, 0, 0, 0, 0, 0];
    let second = [0, 0, 124, 118, 1, 36, 124, 118];
    for k in 0..8usize {
        assert_eq!(rt; out[2 * k], first[k]);
        assert_eq!(rt; out[2 * k + 1], second[k]);
    }
}
