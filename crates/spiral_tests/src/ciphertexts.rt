//! Secrets and ciphertexts of words, their products, and replies. The expected numbers are worked out by hand.
ghost use Rattle.std.specs.Prelude.{◌≡◌, ◌<◌, length, All, IfOk, IfSome, IsTrue};
ghost use Rattle.spiral_sets.specs.Sets.{IsSet};
ghost use Rattle.spiral_model.specs.Ciphertexts.{IsCipher};
ghost use Rattle.spiral_tests.specs.Edge.{edge};

use crate::fixtures::{
    Rows, are_ciphers, cipher, columns_of, edge_set, expect_cipher, expect_form, expect_polynomial,
    polynomial,
};
use gsw_code::Gsw;
use modulus_switch::{ClientState, Reply, open_matrix};
use regev_code::{
    Cipher, CipherT, Draw, Room, Scratch, add_digit_sum, draw_cipher, draw_secret, forms_of,
    is_cipher, phase, seeded_words, to_form,
};
use ring_poly::{Poly, Q, Ring};
use spiral_sets::ParamSet;
use std::alloc::Global;
use std::process::Abort;
use std::test::Fail;

#[test]
fn words_of_a_seed(rt: HostRuntime) -> Result<(), Fail> {
    // the first 8 bytes of the key stream of ChaCha20 for a key of zeros, as a number, the least byte first
    let words = seeded_words(rt.alloc(), &[0u8; 32], 2)?;
    assert!(rt; words.len() == 2);
    assert_eq!(rt; words[0], 0x903d_f1a0_ade0_b876);
    Ok(())
}

/// Words of the secrets s_1 and s_2, of 256 numbers each, and of a ciphertext: 2 * 256 for the uniform part, 256 for each of two
/// errors. Words 0, 1 and 2 are -1, 0 and 1 in a secret, so s_1 is 1 and s_2 is -x^255. Two words 2 give the number UNIFORM at
/// place 255 of the uniform part. Word 1 is an error of 1, word 0xffff one of 16, and word 0xffff_0000 one of -16.
fn words(alloc: Global) -> Result<Vec<u64>, Fail> {
    let mut words = Vec::new(alloc);
    for i in 0..1536usize {
        words.push(match i {
            0 => 2,
            511 => 0,
            1..511 => 1,
            1022 | 1023 => 2,
            1024 => 1,
            1279 => 0xffff,
            1535 => 0xffff_0000,
            _ => 0,
        })?;
    }
    Ok(words)
}

/// python3: (2 * 2**64 + 2) % (268369921 * 249561089)
const UNIFORM: u64 = 57408790636920284;

/// The ciphertext of 7 x^255 and 900 x^255. Row 0 is the uniform part a. Row 1 is s_1 a + e_1 + 7 x^255 with s_1 = 1; row 2 is
/// s_2 a + e_2 + 900 x^255, where s_2 a = -x^255 x^255 UNIFORM = x^254 UNIFORM.
const DRAWN: Rows = [
    &[(255, UNIFORM)],
    &[(0, 1), (255, UNIFORM + 23)],
    &[(254, UNIFORM), (255, 884)],
];

fn are_of_degree(message: &[Poly]) -> bool
    ensures { IsTrue result → All (λ m. length m ≡ 256) message.now }
{
    message.iter().all(|m| m.degree() == 256)
}

#[test]
fn draws_a_secret(rt: HostRuntime) -> Result<(), Fail> {
    let alloc = rt.alloc();
    let words = words(alloc)?;
    assert!(rt; words.len() == 1536);
    let mut draw = Draw::new(&words);
    let secret = draw_secret(alloc, &edge_set(&rt), &mut draw)?;
    assert_eq!(rt; draw.used(), 512);
    assert!(rt; secret.scalar().is_none());
    assert_eq!(rt;
        (
            secret.number(1, 0),
            secret.number(1, 1),
            secret.number(2, 255)
        ),
        (1, 0, -1)
    );
    expect_polynomial(&rt, alloc, secret.row(1), &[(0, 1)])?;
    expect_polynomial(&rt, alloc, secret.poly(false, 1), &[(255, Q - 1)])?;
    Ok(())
}

#[test]
fn draws_a_ciphertext(rt: HostRuntime) -> Result<(), Fail> {
    let alloc = rt.alloc();
    let ring = Ring::new(alloc, 256)?;
    let words = words(alloc)?;
    assert!(rt; words.len() == 1536);
    let mut draw = Draw::new(&words);
    let secret = draw_secret(alloc, &edge_set(&rt), &mut draw)?;
    let message = [
        polynomial(&rt, alloc, &[(255, 7)])?,
        polynomial(&rt, alloc, &[(255, 900)])?,
    ];
    assert!(rt; are_of_degree(&message));
    let c = draw_cipher(alloc, &ring, &secret, false, &message, &mut draw)?;
    assert_eq!(rt; draw.used(), 1536);
    assert!(rt; is_cipher(&c, 256, 2));
    assert_eq!(rt; (c.rows(), c.degree()), (3, 256));
    expect_cipher(&rt, alloc, &c, DRAWN)?;
    // the message and its error
    let opened = phase(alloc, &ring, secret.row(2), &c, 2)?;
    expect_polynomial(&rt, alloc, &opened, &[(255, 884)])?;
    Ok(())
}

/// 5, 300 x^3 and 900 x^200.
const SAMPLE: Rows = [&[(0, 5)], &[(3, 300)], &[(200, 900)]];

const ZEROS: Rows = [&[], &[], &[]];

/// 2x times the sample.
const DOUBLED: Rows = [&[(1, 10)], &[(4, 600)], &[(201, 1800)]];

#[test]
fn multiplies_in_product_form(rt: HostRuntime) -> Result<(), Fail> {
    let alloc = rt.alloc();
    let set = edge_set(&rt);
    let ring = Ring::new(alloc, 256)?;
    let mut key = CipherT::zero(alloc, &set, 2)?;
    to_form(&ring, &cipher(&rt, alloc, SAMPLE)?, &mut key);
    expect_form(&rt, alloc, &key, SAMPLE)?;
    key.clear();
    expect_form(&rt, alloc, &key, ZEROS)?;
    let zero = Cipher::zero(alloc, &set, 2)?;
    expect_cipher(&rt, alloc, &zero, ZEROS)?;
    Ok(())
}

/// Columns of the bit 1, where s_1 is 1 at its first 4 places: column 8 r + k for the row r and the power 2^(7 k).
const COLUMNS: [(usize, Rows); 3] = [
    (
        1,
        [
            &[],
            &[(0, Q - 128), (1, Q - 128), (2, Q - 128), (3, Q - 128)],
            &[],
        ],
    ),
    (15, [&[], &[(0, 562949953421312)], &[]]),
    (18, [&[], &[], &[(0, 16384)]]),
];

/// The columns of the bit 1.
fn columns(rt: &impl Abort, alloc: Global) -> Result<Vec<Cipher>, Fail>
    ensures count { IfOk result (λ columns. length columns.items ≡ 24) }
    ensures ciphers { IfOk result (λ columns. All (IsCipher 256 2) columns.items) }
{
    let columns = columns_of(rt, alloc, 4, true)?;
    assert!(rt; columns.len() == 24 && are_ciphers(&columns));
    Ok(columns)
}

#[test]
fn columns_are_their_messages(rt: HostRuntime) -> Result<(), Fail> {
    let alloc = rt.alloc();
    let columns = columns(&rt, alloc)?;
    for column in &COLUMNS {
        let (place, rows) = *column;
        assert!(rt; place < columns.len());
        expect_cipher(&rt, alloc, &columns[place], rows)?;
    }
    Ok(())
}

/// Ciphertexts of edge-256 in product form.
fn key_of(alloc: Global, ring: &Ring, columns: &[Cipher]) -> Result<Vec<CipherT>, Fail>
    requires ring { ring.now ≡ 256 }
    requires columns { All (IsCipher 256 2) columns.now }
    ensures { IfOk result (λ key. key.items ≡ columns.now) }
{
    Ok(forms_of(alloc, ring, columns)?)
}

/// Columns 8 to 15 have the powers 2^(7 k) in row 1 and else 0, so the digits of x times these add up to x.
#[test]
fn digits_add_up(rt: HostRuntime) -> Result<(), Fail> {
    let alloc = rt.alloc();
    let set = edge_set(&rt);
    let ring = Ring::new(alloc, 256)?;
    let columns = columns(&rt, alloc)?;
    let part = &columns[8..16];
    assert!(rt; are_ciphers(part));
    let key = key_of(alloc, &ring, part)?;
    let mut sum = CipherT::zero(alloc, &set, 2)?;
    let mut room = Room::new(alloc, &set)?;
    let x = polynomial(&rt, alloc, &[(0, 300), (255, Q - 1)])?;
    add_digit_sum(&ring, &x, 7, &key, &mut sum, &mut room);
    expect_form(&rt, alloc, &sum, [&[], &[(0, 300), (255, Q - 1)], &[]])?;
    Ok(())
}

/// Row 0 is 0; row i is c_i - s_i c_0, so minus 5 at the first 4 places of row 1, and 300 - 5 at place 3.
const PRODUCT: Rows = [
    &[],
    &[(0, Q - 5), (1, Q - 5), (2, Q - 5), (3, 295)],
    &[(200, 900)],
];

/// low and the product with (3, 293, 900): minus 3 at the first 4 places of row 1, and 7 + 293 - 3 at place 3.
const SELECTED: Rows = [
    &[(0, 2)],
    &[(0, Q - 3), (1, Q - 3), (2, Q - 3), (3, 297)],
    &[(200, 900)],
];

#[test]
fn multiplies_and_selects_by_a_bit(rt: HostRuntime) -> Result<(), Fail> {
    let alloc = rt.alloc();
    let set = edge_set(&rt);
    let ring = Ring::new(alloc, 256)?;
    let columns = columns(&rt, alloc)?;
    let gsw = Gsw::from_columns(alloc, &ring, &set, &columns)?;
    expect_form(&rt, alloc, gsw.column(&set, 1, 7), COLUMNS[1].1)?;
    let mut scratch = Scratch::new(alloc, &set)?;
    let c = cipher(&rt, alloc, SAMPLE)?;
    let mut out = cipher(&rt, alloc, DOUBLED)?;
    gsw.external_into(&ring, &c, &mut out, &mut scratch);
    expect_cipher(&rt, alloc, &out, PRODUCT)?;
    let mut low = cipher(&rt, alloc, [&[(0, 2)], &[(3, 7)], &[]])?;
    gsw.select_into(&ring, &mut low, &c, &mut scratch);
    expect_cipher(&rt, alloc, &low, SELECTED)?;
    Ok(())
}

/// floor(q / 2048): just below half a step of q1 = 1024.
const HALF_Q1: u64 = 32_702_485_224_416;

/// floor(q / 8192): just below half a step of q2 = 4096.
const HALF_Q2: u64 = 8_175_621_306_104;

/// Ten times Delta = floor(q / 256), which is four steps of q1, and sixteen of q2.
const TEN: u64 = 10 * 261_619_881_795_328;

#[test]
fn a_result_is_switched(rt: HostRuntime) -> Result<(), Fail> {
    let alloc = rt.alloc();
    let mut reply = Reply::zero(alloc, &edge_set(&rt), 1, 700)?;
    assert_eq!(rt; (reply.count(), reply.length()), (1, 700));
    // Just below half a step goes down, and one more up; q - 1 goes up to the modulus, which is 0. By python3:
    // ((2 * c * m + q) // (2 * q)) % m.
    let body = polynomial(
        &rt,
        alloc,
        &[(0, TEN), (1, HALF_Q1), (2, HALF_Q1 + 1), (3, Q - 1)],
    )?;
    let mask = polynomial(
        &rt,
        alloc,
        &[(0, TEN), (1, HALF_Q2), (2, HALF_Q2 + 1), (3, Q - 1)],
    )?;
    reply.put(1, 2, &body);
    reply.put(0, 1, &mask);
    assert_eq!(rt; reply.set(), edge_set(&rt));
    assert_eq!(rt; &reply.numbers(1, 2)[..5], [40u64, 0, 1, 0, 0].as_slice());
    assert_eq!(rt; &reply.numbers(0, 1)[..5], [160u64, 0, 1, 0, 0].as_slice());
    Ok(())
}

/// The numbers 4v at each place v from 0 to 255.
fn ramp(alloc: Global) -> Result<Vec<u64>, Fail> {
    let mut numbers = Vec::new(alloc);
    for v in 0..256u64 {
        numbers.push(4 * v)?;
    }
    Ok(numbers)
}

fn are_below(numbers: &[u64]) -> bool
    ensures { IsTrue result → All (λ x. x < 1024) numbers.now }
{
    numbers.iter().all(|x| *x < 1024)
}

/// A reply of 700 bytes with 4v at the places v of each entry, and in row 0 with 16 everywhere in column 1, and 0 in column 2.
fn reply_of_ramps(rt: &impl Abort, alloc: Global) -> Result<Reply, Fail>
    ensures { IfOk result (λ reply. reply.set ≡ edge) }
{
    let mut reply = Reply::zero(alloc, &edge_set(rt), 1, 700)?;
    let numbers = ramp(alloc)?;
    assert!(rt; numbers.len() == 256 && are_below(&numbers));
    reply.put_numbers(1, 1, &numbers);
    reply.put_numbers(1, 2, &numbers);
    reply.put_numbers(2, 1, &numbers);
    reply.put_numbers(2, 2, &numbers);
    let mask = vec![in alloc; 16u64; 256]?;
    assert!(rt; mask.len() == 256 && are_below(&mask));
    reply.put_numbers(0, 1, &mask);
    Ok(reply)
}

/// The state of that secret.
fn state_of(set: ParamSet, secret: Vec<i8>) -> Option<ClientState>
    requires known { IsSet set }
    requires value { set ≡ edge }
    ensures { IfSome result (λ state. state.set ≡ edge) }
{
    if secret.len() != 512 {
        return None;
    }
    if !secret.iter().all(|s| s.unsigned_abs() <= 1) {
        return None;
    }
    Some(ClientState {
        set,
        index: 0,
        secret,
    })
}

/// The state with s_1 = x and s_2 = -1.
fn state(rt: &impl Abort, alloc: Global) -> Result<ClientState, Fail>
    ensures { IfOk result (λ state. state.set ≡ edge) }
{
    let mut secret = vec![in alloc; 0i8; 512]?;
    secret[1] = 1;
    secret[256] = -1;
    Ok(state_of(edge_set(rt), secret).expect(rt, "a state"))
}

/// A number b opens to b / 4 - (s a) / 16, rounded. s a is, in column 1, x times the sixteens in row 1, which is -16 at place
/// 0 and 16 elsewhere, and -16 in row 2. With b = 4v the values are v + 1 at place 0 and v - 1 elsewhere, then v; then
/// v + 1, then v.
fn value_of(entry: usize, place: usize) -> usize
    requires { place < 256 }
{
    match entry {
        0 if place == 0 => 1,
        0 => place - 1,
        2 => (place + 1) % 256,
        _ => place,
    }
}

#[test]
fn opens_by_the_secret(rt: HostRuntime) -> Result<(), Fail> {
    let alloc = rt.alloc();
    let reply = reply_of_ramps(&rt, alloc)?;
    let bytes = open_matrix(alloc, &state(&rt, alloc)?, &reply)?;
    assert_eq!(rt; bytes.len(), 700);
    for (i, byte) in bytes.iter().enumerate() {
        assert_eq!(rt; *byte as usize, value_of(i / 256, i % 256), "value {i}");
    }
    Ok(())
}
