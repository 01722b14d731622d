//! What the ciphertexts of a query are intended to encrypt, row by row.

ghost use Rattle.std.specs.Prelude.{◌≡◌, ◌==◌, ◌*◌, ◌^◌, ◌<◌, ◌≤◌, length, pos, neg_ℤ, if◌then◌else◌};
ghost use Rattle.negacyclic.specs.Residues.{residue};
ghost use Rattle.spiral_sets.specs.Sets.{IsSet, q, delta, digit_count as digit_count_of};
ghost use Rattle.spiral_model.specs.Queries.{first_place, selection_bit, row_message, column_message};
ghost use Rattle.regev_code.specs.Shapes.{OfDegree, under};

use regev_code::Secret;
use ring_poly::{Poly, Ring};
use spiral_sets::{ParamSet, Q};

/// The place of an index in the first dimension: the index modulo 2^nu1.
fn place_of(set: &ParamSet, index: u32) -> u32
    requires { IsSet set.now }
    ensures { result ≡ first_place set.now index }
{
    index % set.places()
}

/// Selection l: whether bit nu2 - 1 - l of the folded place, which is the index without its nu1 low bits, is 1.
pub fn selection(set: &ParamSet, index: u32, l: u32) -> bool
    requires known { IsSet set.now }
    requires dimension { l < set.now.nu2 }
    ensures { (if result then 1 else 0) ≡ selection_bit set.now index l }
{
    let folded = index >> set.nu1;
    (folded >> (set.nu2 - 1 - l)) % 2 == 1
}

/// Delta at the asked place of the first dimension, and 0 at the others.
pub fn first_value(set: &ParamSet, index: u32, u: u32) -> u64
    requires { IsSet set.now }
    ensures value { result ≡ (if u == first_place set.now index then delta set.now else 0) }
    ensures below { result < q }
{
    if u == place_of(set, index) {
        set.delta()
    } else {
        0
    }
}

/// What digit k counts, where the bit is set: 2^(w k), or 0.
pub fn power_of(set: &ParamSet, bit: bool, k: u32) -> u64
    requires known { IsSet set.now }
    requires digit { k < digit_count_of set.now.w_gsw }
    ensures value { result ≡ (if bit then 1 else 0) * 2 ^ (set.now.w_gsw * k) }
    ensures below { result < q }
{
    if bit { 1 << (set.w_gsw * k) } else { 0 }
}

/// The value in row r, and 0 in the others.
fn value_in(value: u64, r: u32, row: u32) -> u64
    requires residue { value < q }
    ensures value { result ≡ (if row == r then value else 0) }
    ensures below { result < q }
{
    if row == r { value } else { 0 }
}

/// The residue of -x.
fn negative(x: u64) -> u64
    requires { x < q }
    ensures value { result ≡ residue q (neg_ℤ (pos x)) }
    ensures below { result < q }
{
    if x == 0 { 0 } else { Q - x }
}

/// Writes what a row, from 1 on, encrypts in the first-dimension ciphertext of place u and column r: Delta where it is
/// row r and u is the asked place, else 0. It takes no memory.
pub fn first_message_into(set: &ParamSet, index: u32, u: u32, r: u32, row: u32, out: &mut Poly)
    requires known { IsSet set.now }
    requires room { length out.old ≡ set.now.degree }
    ensures value { out.new ≡ row_message set.now r (if u == first_place set.now index then pos (delta set.now) else pos 0) row }
    ensures degree { length out.new ≡ set.now.degree }
{
    out.put_constant(value_in(first_value(set, index, u), r, row));
}

/// Writes what a row, from 1 to m, encrypts in a column of row r with this power: the power in row r where r is from 1
/// on, and -s_i power in each row i where r is 0. It takes no memory.
pub fn column_message_into(
    ring: &Ring,
    secret: &Secret,
    scalar: bool,
    power: u64,
    r: u32,
    row: u32,
    out: &mut Poly,
)
    requires degree { OfDegree ring.now secret.now }
    requires first { 1 ≤ row }
    requires last { row ≤ length (under ring.now secret.now scalar) }
    requires residue { power < q }
    requires room { length out.old ≡ ring.now }
    ensures value { out.new ≡ column_message ring.now (under ring.now secret.now scalar) power r row }
    ensures degree { length out.new ≡ ring.now }
{
    if r == 0 {
        let key = secret.poly(scalar, row as usize - 1);
        ring.scale(negative(power), key, out);
    } else {
        out.put_constant(value_in(power, r, row));
    }
}
