//! Polynomials, ciphertexts and queries of degree 256, and what they are compared with.
ghost use Rattle.std.specs.Prelude.{◌≡◌, length, All, IfOk, IsTrue};
ghost use Rattle.spiral_sets.specs.Sets.{IsSet};
ghost use Rattle.spiral_model.specs.Bodies.{IsQuery};
ghost use Rattle.spiral_model.specs.Ciphertexts.{IsCipher};
ghost use Rattle.regev_code.specs.Products.{HasShape};
ghost use Rattle.spiral_tests.specs.Edge.{edge};

use gsw_code::encrypt_bit;
use regev_code::{Cipher, CipherT, Draw, QueryBody, draw_secret, from_form, is_cipher};
use ring_poly::{Poly, PolyT, Ring, are_residues};
use spiral_sets::{ParamSet, set_named};
use std::alloc::Global;
use std::process::Abort;
use std::test::Fail;

/// The terms of a polynomial: places and their coefficients.
pub(crate) type Terms = &'static [(usize, u64)];

/// The rows of a ciphertext.
pub(crate) type Rows = [Terms; 3];

/// The rows of a scalar ciphertext.
pub(crate) type ScalarRows = [Terms; 2];

/// How many words the secrets take, 2 * 256, and the 24 columns, 4 * 256 each.
const WORDS: usize = 25088;

/// edge-256: N = 256, n = 2, p = 2^8, q1 = 2^10, q2 = 2^12; 2 places, 2 folded ones and so 4 records of up to 1024 bytes,
/// and 1 selection; no keys, and it doesn't pack; digits of 7 bits, so t = 8.
pub(crate) fn edge_set(rt: &impl Abort) -> ParamSet
    ensures known { IsSet result }
    ensures value { result ≡ edge }
{
    set_named("edge-256").expect(rt, "edge-256 is a set")
}

/// The polynomial of degree 256 with these terms.
pub(crate) fn polynomial(rt: &impl Abort, alloc: Global, terms: Terms) -> Result<Poly, Fail>
    ensures { IfOk result (λ a. length a ≡ 256) }
{
    let mut numbers = vec![in alloc; 0u64; 256]?;
    for term in terms {
        let (place, number) = *term;
        assert!(rt; place < numbers.len());
        numbers[place] = number;
    }
    assert!(rt; numbers.len() == 256 && are_residues(&numbers));
    Ok(Poly::from_coeffs(alloc, &numbers)?)
}

/// A polynomial in product form.
pub(crate) fn form_of(rt: &impl Abort, alloc: Global, terms: Terms) -> Result<PolyT, Fail>
    ensures { IfOk result (λ a. length a ≡ 256) }
{
    let ring = Ring::new(alloc, 256)?;
    let mut form = PolyT::zero(alloc, 256)?;
    ring.to_product(&polynomial(rt, alloc, terms)?, &mut form);
    Ok(form)
}

fn numbers_of(alloc: Global, a: &Poly) -> Result<Vec<u64>, Fail> {
    let mut numbers = vec![in alloc; 0u64; a.degree()]?;
    a.coeffs_into(&mut numbers);
    Ok(numbers)
}

/// The polynomial has these terms and no others.
pub(crate) fn expect_polynomial(
    rt: &impl Abort,
    alloc: Global,
    a: &Poly,
    terms: Terms,
) -> Result<(), Fail> {
    let want = polynomial(rt, alloc, terms)?;
    let (found, want) = (numbers_of(alloc, a)?, numbers_of(alloc, &want)?);
    assert_eq!(rt; found.as_slice(), want.as_slice());
    Ok(())
}

pub(crate) fn are_polynomials(rows: &[Poly]) -> bool
    ensures { IsTrue result → All (λ a. length a ≡ 256) rows.now }
{
    rows.iter().all(|a| a.degree() == 256)
}

pub(crate) fn has_shape(c: &Cipher) -> bool
    ensures { IsTrue result → HasShape 256 3 c.now }
{
    c.rows() == 3 && c.degree() == 256
}

pub(crate) fn have_shape(ciphers: &[Cipher]) -> bool
    ensures { IsTrue result → All (HasShape 256 3) ciphers.now }
{
    ciphers.iter().all(|c| has_shape(c))
}

pub(crate) fn is_scalar(c: &Cipher) -> bool
    ensures { IsTrue result → HasShape 256 2 c.now }
{
    c.rows() == 2 && c.degree() == 256
}

pub(crate) fn are_scalar(ciphers: &[Cipher]) -> bool
    ensures { IsTrue result → All (HasShape 256 2) ciphers.now }
{
    ciphers.iter().all(|c| is_scalar(c))
}

pub(crate) fn are_ciphers(ciphers: &[Cipher]) -> bool
    ensures { IsTrue result → All (IsCipher 256 2) ciphers.now }
{
    ciphers.iter().all(|c| is_cipher(c, 256, 2))
}

/// The ciphertext with these rows.
pub(crate) fn cipher(rt: &impl Abort, alloc: Global, rows: Rows) -> Result<Cipher, Fail>
    ensures { IfOk result (λ c. HasShape 256 3 c) }
{
    let mut polys = Vec::new(alloc);
    for terms in rows {
        polys.push(polynomial(rt, alloc, terms)?)?;
    }
    assert!(rt; polys.len() == 3 && are_polynomials(&polys));
    let c = Cipher::from_rows(polys);
    assert!(rt; has_shape(&c));
    Ok(c)
}

/// The ciphertext has these rows.
pub(crate) fn expect_cipher(
    rt: &impl Abort,
    alloc: Global,
    c: &Cipher,
    rows: Rows,
) -> Result<(), Fail> {
    assert!(rt; c.rows() == 3);
    expect_polynomial(rt, alloc, c.row(0), rows[0])?;
    expect_polynomial(rt, alloc, c.row(1), rows[1])?;
    expect_polynomial(rt, alloc, c.row(2), rows[2])?;
    Ok(())
}

/// The ciphertexts have these rows.
pub(crate) fn expect_ciphers(
    rt: &impl Abort,
    alloc: Global,
    ciphers: &[Cipher],
    want: &[Rows],
) -> Result<(), Fail> {
    assert!(rt; want.len() <= ciphers.len());
    for (c, rows) in ciphers.iter().zip(want) {
        expect_cipher(rt, alloc, c, *rows)?;
    }
    Ok(())
}

/// The ciphertext in product form has these rows.
pub(crate) fn expect_form(
    rt: &impl Abort,
    alloc: Global,
    form: &CipherT,
    rows: Rows,
) -> Result<(), Fail>
    requires { HasShape 256 3 form.now }
{
    let ring = Ring::new(alloc, 256)?;
    let mut out = cipher(rt, alloc, [&[], &[], &[]])?;
    from_form(&ring, form, &mut out);
    expect_cipher(rt, alloc, &out, rows)?;
    Ok(())
}

/// The scalar ciphertext with these rows.
pub(crate) fn scalar(rt: &impl Abort, alloc: Global, rows: ScalarRows) -> Result<Cipher, Fail>
    ensures { IfOk result (λ c. HasShape 256 2 c) }
{
    let mut polys = Vec::new(alloc);
    for terms in rows {
        polys.push(polynomial(rt, alloc, terms)?)?;
    }
    assert!(rt; polys.len() == 2 && are_polynomials(&polys));
    let c = Cipher::from_rows(polys);
    assert!(rt; is_scalar(&c));
    Ok(c)
}

/// The scalar ciphertexts with these rows.
pub(crate) fn scalars(
    rt: &impl Abort,
    alloc: Global,
    all: &[ScalarRows],
) -> Result<Vec<Cipher>, Fail>
    ensures { IfOk result (λ ciphers. All (HasShape 256 2) ciphers.items) }
{
    let mut ciphers = Vec::new(alloc);
    for rows in all {
        ciphers.push(scalar(rt, alloc, *rows)?)?;
    }
    assert!(rt; are_scalar(&ciphers));
    Ok(ciphers)
}

/// The scalar ciphertexts at these places have these rows.
pub(crate) fn expect_scalars(
    rt: &impl Abort,
    alloc: Global,
    ciphers: &[Cipher],
    want: &[(usize, ScalarRows)],
) -> Result<(), Fail> {
    for (place, rows) in want {
        assert!(rt; *place < ciphers.len());
        let c = &ciphers[*place];
        assert!(rt; c.rows() == 2);
        expect_polynomial(rt, alloc, c.row(0), rows[0])?;
        expect_polynomial(rt, alloc, c.row(1), rows[1])?;
    }
    Ok(())
}

/// Words of the secrets, then zeros. Words 2 make s_1 1 at its first `ones` places, and words 1 make the rest of s_1
/// and s_2 0. Where all words are 0, the uniform part is 0 and so is each error: each row of a column is its message.
fn words(alloc: Global, ones: usize) -> Result<Vec<u64>, Fail> {
    let mut words = Vec::new(alloc);
    for i in 0..WORDS {
        words.push(if i < ones {
            2
        } else if i < 512 {
            1
        } else {
            0
        })?;
    }
    Ok(words)
}

/// The GSW columns of a bit, where s_1 is 1 at its first `ones` places and the secrets are else 0. Row 0 is 0. Column
/// 8 r + k has, for r from 1 on, the bit times 128^k in row r at place 0, and 0 in the other row; for r = 0, minus that
/// in row 1 at each place where s_1 is 1, and 0 in row 2.
pub(crate) fn columns_of(
    rt: &impl Abort,
    alloc: Global,
    ones: usize,
    bit: bool,
) -> Result<Vec<Cipher>, Fail> {
    let set = edge_set(rt);
    let ring = Ring::new(alloc, 256)?;
    let words = words(alloc, ones)?;
    assert!(rt; words.len() == WORDS);
    let mut draw = Draw::new(&words);
    let secret = draw_secret(alloc, &set, &mut draw)?;
    Ok(encrypt_bit(alloc, &ring, &set, &secret, bit, &mut draw)?)
}

/// The query whose ciphertexts of the first dimension have these rows, and whose selection is 1. Its secrets, uniform parts
/// and errors are 0.
pub(crate) fn query_of(
    rt: &impl Abort,
    alloc: Global,
    firsts: &[Rows; 4],
) -> Result<QueryBody, Fail>
    ensures set { IfOk result (λ query. query.set ≡ edge) }
    ensures query { IfOk result (λ query. IsQuery query) }
{
    let set = edge_set(rt);
    let mut ciphers = Vec::new(alloc);
    for rows in firsts {
        ciphers.push(cipher(rt, alloc, *rows)?)?;
    }
    for column in columns_of(rt, alloc, 0, true)? {
        ciphers.push(column)?;
    }
    assert!(rt; ciphers.len() == 28 && are_ciphers(&ciphers));
    Ok(QueryBody { set, ciphers })
}
