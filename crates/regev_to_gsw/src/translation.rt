ghost use Rattle.std.specs.Prelude.{false, ◌≡◌, ◌+◌, length, All, IfOk};
ghost use Rattle.spiral_sets.specs.Sets.{IsSet, digit_count as digit_count_of, rows};
ghost use Rattle.spiral_sets.specs.Counts.{gsw_count};
ghost use Rattle.spiral_model.specs.Packing.{translated};
ghost use Rattle.regev_code.specs.Products.{HasShape};

use crate::columns::column;
use no_memory::NoMemory;
use regev_code::{Cipher, CipherT, EvalKeys, Scratch};
use ring_poly::Ring;
use spiral_sets::{ParamSet, digit_count};
use std::alloc::Global;

/// Translation: the columns of the GSW ciphertext of a bit, in product form, from the t scalar ciphertexts of its digits, of which number k
/// encrypts bit 2^(w k). Column (r, k), by r from 0 to m, within r by k, is for r = 0 ciphertext k with its phase times -s_i in
/// each row i, by the conversion key; for r from 1 on it is ciphertext k lifted into row r, or itself where the set packs. An error
/// says that memory was wanting.
pub fn translate(
    alloc: Global,
    ring: &Ring,
    set: &ParamSet,
    bits: &[Cipher],
    keys: &EvalKeys,
    scratch: &mut Scratch,
) -> Result<Vec<CipherT>, NoMemory>
    requires known { IsSet set.now }
    requires expanding { set.now.direct ≡ false }
    requires ring { ring.now ≡ set.now.degree }
    requires scratch { scratch.old ≡ set.now }
    requires keys { keys.now.set ≡ set.now }
    requires count { length bits.now ≡ digit_count_of set.now.w_gsw }
    requires bits { All (HasShape ring.now 2) bits.now }
    ensures value { IfOk result (λ columns. columns.items ≡ translated set.now keys.now bits.now) }
    ensures many { IfOk result (λ columns. length columns.items ≡ gsw_count set.now) }
    ensures shapes { IfOk result (λ columns. All (HasShape ring.now (rows set.now + 1)) columns.items) }
    ensures scratch { scratch.new ≡ scratch.old }
{
    let digits = digit_count(set.w_gsw);
    let mut columns = Vec::new(alloc);
    for place in 0..set.gsw_count() {
        let (r, k) = (place / digits, place % digits);
        let bit = &bits[k as usize];
        columns.push(column(alloc, ring, set, r, bit, keys, scratch)?)?;
    }
    Ok(columns)
}
