ghost use Rattle.std.specs.Prelude.{◌≡◌, ◌+◌, ◌*◌, ◌^◌, ◌<◌, ◌≤◌, length, map, take, drop, All};
ghost use Rattle.std.specs.List.{range_with_len};
ghost use Rattle.negacyclic.specs.Ring.{ring_add};
ghost use Rattle.ring_poly.specs.Sums.{ProductSum};
ghost use Rattle.spiral_model.specs.Sets.{q, digit_count as digit_count_of};
ghost use Rattle.spiral_model.specs.Gadgets.{cipher_add, digit_sum};
ghost use Rattle.spiral_model.specs.Words.{row_of, cipher_at};
ghost use Rattle.regev_code.specs.Products.{HasShape, IsWidth};
ghost use Rattle.regev_code.specs.RowSums.{row_sum};

use crate::{CipherT, Room};
use gadget_digits::{digit_count, digits_into};
use ring_poly::{Poly, PolyT, Ring, SumT};

/// Writes the digits of w bits that stand for a polynomial. Up to 27 bits they are below both primes, so that no division is needed.
fn put_digit(poly: &mut Poly, w: u32, digit: &[u64])
    requires same_length { length digit.now ≡ length poly.old }
    requires residues { All (λ d. d < q) digit.now }
    requires width { All (λ d. d < 2 ^ w) digit.now }
    ensures { poly.new ≡ digit.now }
{
    if w <= 27 {
        poly.put_small(digit);
    } else {
        poly.put_coeffs(digit);
    }
}

/// Writes the product form of digit k, whose numbers stand behind those of the digits before it.
fn load_digit(ring: &Ring, w: u32, digits: &[u64], k: usize, poly: &mut Poly, form: &mut PolyT)
    requires room { k * ring.now + ring.now ≤ length digits.now }
    requires residues { All (λ d. d < q) digits.now }
    requires width { All (λ d. d < 2 ^ w) digits.now }
    requires poly { length poly.old ≡ ring.now }
    requires form { length form.old ≡ ring.now }
    ensures value { form.new ≡ take ring.now (drop (k * ring.now) digits.now) }
    ensures poly { length poly.new ≡ ring.now }
    ensures form { length form.new ≡ ring.now }
{
    let degree = ring.degree();
    let start = k * degree;
    put_digit(poly, w, &digits[start..start + degree]);
    ring.to_product(poly, form);
}

/// Writes the product forms of all digits, one after the other.
fn load_digits(ring: &Ring, w: u32, digits: &[u64], poly: &mut Poly, forms: &mut [PolyT])
    requires few { length forms.old ≤ 56 }
    requires room { length digits.now ≡ length forms.old * ring.now }
    requires residues { All (λ d. d < q) digits.now }
    requires width { All (λ d. d < 2 ^ w) digits.now }
    requires poly { length poly.old ≡ ring.now }
    requires forms { All (λ a. length a ≡ ring.now) forms.old }
    ensures value { forms.new ≡ map (λ k. take ring.now (drop (k * ring.now) digits.now)) (range_with_len 0 (length forms.old)) }
    ensures poly { length poly.new ≡ ring.now }
    ensures forms { All (λ a. length a ≡ ring.now) forms.new }
{
    // tells that the degree is one of the two
    let _ = ring.degree();
    for k in 0..forms.len() {
        let form = &mut forms[k];
        load_digit(ring, w, digits, k, poly, form);
    }
}

/// Works out row i of a digit sum: the sum over k of form k times row i of key ciphertext k. At most 56 products, so it is
/// reduced once, when it is added to a row.
fn sum_row(ring: &Ring, i: u32, forms: &[PolyT], key: &[CipherT], sum: &mut SumT)
    requires few { length forms.now ≤ 56 }
    requires forms { All (λ a. length a ≡ ring.now) forms.now }
    requires keys { length key.now ≡ length forms.now }
    requires row { All (λ c. i < length c) key.now }
    requires key { All (λ c. All (λ a. length a ≡ ring.now) c) key.now }
    requires sum { length sum.old.value ≡ ring.now }
    ensures { sum.new ≡ record { value = row_sum ring.now forms.now key.now i; count = length forms.now } }
{
    sum.clear();
    for k in 0..forms.len() {
        sum.add_product(&forms[k], key[k].row(i));
    }
}

/// Adds each row of a digit sum to that row.
fn add_rows(ring: &Ring, forms: &[PolyT], key: &[CipherT], rows: &mut [PolyT], sum: &mut SumT)
    requires few { length forms.now ≤ 56 }
    requires forms { All (λ a. length a ≡ ring.now) forms.now }
    requires keys { length key.now ≡ length forms.now }
    requires key { All (λ c. HasShape ring.now (length rows.old) c) key.now }
    requires count { length rows.old < 2 ^ 32 }
    requires rows { All (λ a. length a ≡ ring.now) rows.old }
    requires sum { length sum.old.value ≡ ring.now }
    ensures value { rows.new ≡ map (λ i. ring_add q ring.now (row_of rows.old i) (row_sum ring.now forms.now key.now i)) (range_with_len 0 (length rows.old)) }
    ensures sum { length sum.new.value ≡ ring.now }
{
    for i in 0..rows.len() {
        sum_row(ring, i as u32, forms, key, sum);
        let row = &mut rows[i];
        sum.add_to(row);
    }
}

/// Adds a digit sum, row by row.
fn add_sums(ring: &Ring, forms: &[PolyT], key: &[CipherT], cipher: &mut CipherT, sum: &mut SumT)
    requires few { length forms.now ≤ 56 }
    requires forms { All (λ a. length a ≡ ring.now) forms.now }
    requires keys { length key.now ≡ length forms.now }
    requires key { All (λ c. HasShape ring.now (length cipher.old) c) key.now }
    requires cipher { HasShape ring.now (length cipher.old) cipher.old }
    requires sum { length sum.old.value ≡ ring.now }
    ensures value { cipher.new ≡ map (λ i. ring_add q ring.now (row_of cipher.old i) (row_sum ring.now forms.now key.now i)) (range_with_len 0 (length cipher.old)) }
    ensures sum { length sum.new.value ≡ ring.now }
{
    add_rows(ring, forms, key, &mut cipher.polys, sum);
}

/// `add_digit_sum` in parts of its room of just the size: the numbers of x, their digits, one of these as a polynomial, their
/// product forms, and a sum.
fn add_used_digits(
    ring: &Ring,
    x: &Poly,
    w: u32,
    key: &[CipherT],
    cipher: &mut CipherT,
    numbers: &mut [u64],
    digits: &mut [u64],
    poly: &mut Poly,
    forms: &mut [PolyT],
    sum: &mut SumT,
)
    requires some { 1 ≤ w }
    requires most { w ≤ 56 }
    requires x { length x.now ≡ ring.now }
    requires keys { length key.now ≡ digit_count_of w }
    requires key { All (λ c. HasShape ring.now (length cipher.old) c) key.now }
    requires cipher { HasShape ring.now (length cipher.old) cipher.old }
    requires numbers { length numbers.old ≡ ring.now }
    requires digits { length digits.old ≡ digit_count_of w * ring.now }
    requires poly { length poly.old ≡ ring.now }
    requires forms_count { length forms.old ≡ digit_count_of w }
    requires forms { All (λ a. length a ≡ ring.now) forms.old }
    requires sum { length sum.old.value ≡ ring.now }
    ensures value { cipher.new ≡ cipher_add ring.now cipher.old (map (λ i. digit_sum ring.now w x.now (λ k. cipher_at key.now k) i) (range_with_len 0 (length cipher.old))) }
    ensures shape { HasShape ring.now (length cipher.old) cipher.new }
    ensures poly { length poly.new ≡ ring.now }
    ensures forms { All (λ a. length a ≡ ring.now) forms.new }
    ensures sum { length sum.new.value ≡ ring.now }
{
    x.coeffs_into(numbers);
    digits_into(numbers, w, digits);
    load_digits(ring, w, digits, poly, forms);
    add_sums(ring, forms, key, cipher, sum);
}

/// `add_digit_sum` in the parts of its room, which has digits and product forms for this width or a lesser one.
fn add_digits(
    ring: &Ring,
    x: &Poly,
    w: u32,
    key: &[CipherT],
    cipher: &mut CipherT,
    numbers: &mut [u64],
    digits: &mut [u64],
    poly: &mut Poly,
    forms: &mut [PolyT],
    sum: &mut SumT,
)
    requires some { 1 ≤ w }
    requires most { w ≤ 56 }
    requires x { length x.now ≡ ring.now }
    requires keys { length key.now ≡ digit_count_of w }
    requires key { All (λ c. HasShape ring.now (length cipher.old) c) key.now }
    requires cipher { HasShape ring.now (length cipher.old) cipher.old }
    requires numbers { length numbers.old ≡ ring.now }
    requires digits { digit_count_of w * ring.now ≤ length digits.old }
    requires poly { length poly.old ≡ ring.now }
    requires forms_count { digit_count_of w ≤ length forms.old }
    requires forms { All (λ a. length a ≡ ring.now) forms.old }
    requires sum { length sum.old.value ≡ ring.now }
    ensures value { cipher.new ≡ cipher_add ring.now cipher.old (map (λ i. digit_sum ring.now w x.now (λ k. cipher_at key.now k) i) (range_with_len 0 (length cipher.old))) }
    ensures shape { HasShape ring.now (length cipher.old) cipher.new }
    ensures poly { length poly.new ≡ ring.now }
    ensures forms { All (λ a. length a ≡ ring.now) forms.new }
    ensures sum { length sum.new.value ≡ ring.now }
{
    let count = digit_count(w) as usize;
    let used = &mut digits[..count * ring.degree()];
    let loaded = &mut forms[..count];
    add_used_digits(ring, x, w, key, cipher, numbers, used, poly, loaded, sum);
}

/// Adds the digit sum of x with a key of t ciphertexts K_k: to each row the sum over k of dig_k(x) times that row of
/// K_k, for digits of w bits. It takes no memory.
pub fn add_digit_sum(
    ring: &Ring,
    x: &Poly,
    w: u32,
    key: &[CipherT],
    sum: &mut CipherT,
    room: &mut Room,
)
    requires degree { ring.now ≡ room.old.degree }
    requires x { length x.now ≡ ring.now }
    requires width { IsWidth room.old w }
    requires keys { length key.now ≡ digit_count_of w }
    requires key { All (λ c. HasShape ring.now (length sum.old) c) key.now }
    requires sum { HasShape ring.now (length sum.old) sum.old }
    ensures value { sum.new ≡ cipher_add ring.now sum.old (map (λ i. digit_sum ring.now w x.now (λ k. cipher_at key.now k) i) (range_with_len 0 (length sum.old))) }
    ensures shape { HasShape ring.now (length sum.old) sum.new }
    ensures room { room.new ≡ room.old }
{
    let (numbers, digits) = (&mut room.numbers, &mut room.digits);
    let (poly, forms, total) = (&mut room.poly, &mut room.forms, &mut room.sum);
    add_digits(ring, x, w, key, sum, numbers, digits, poly, forms, total);
}
