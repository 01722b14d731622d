ghost use Rattle.std.specs.Prelude.{false, ◌≡◌, ◌*◌, ◌^◌, ◌≤◌, [], ◌∷◌, length, map, take, drop, All, IfOk, ◌+◌};
ghost use Rattle.std.specs.List.{range_with_len, flat_map};
ghost use Rattle.spiral_sets.specs.Sets.{IsSet, digit_count as digit_count_of, rho, rows};
ghost use Rattle.spiral_sets.specs.Counts.{firsts_count};
ghost use Rattle.spiral_model.specs.Expansion.{expanded, sides};
ghost use Rattle.spiral_model.specs.Packing.{lift_matrix as lift_matrix_of};
ghost use Rattle.regev_code.specs.Products.{HasShape};
ghost use Rattle.gsw_code.specs.Products.{IsGsw};
ghost use Rattle.query_expand.specs.Parts.{firsts_from as firsts_from_of, gsws_from};

use crate::expand;
use gsw_code::Gsw;
use no_memory::NoMemory;
use regev_code::{Cipher, CipherT, EvalKeys, Scratch, forms_of};
use regev_to_gsw::translate;
use ring_poly::Ring;
use spiral_pack::lift_matrix;
use spiral_sets::{ParamSet, digit_count};
use std::alloc::Global;

/// Round 0 of expansion: the two sides of a query's one ciphertext, that of the first dimension and that of the selections.
pub(crate) fn two_sides(
    alloc: Global,
    ring: &Ring,
    c: &Cipher,
    keys: &EvalKeys,
    scratch: &mut Scratch,
) -> Result<Vec<Cipher>, NoMemory>
    requires ring { ring.now ≡ scratch.old.degree }
    requires keys { keys.now.set ≡ scratch.old }
    requires expanding { scratch.old.direct ≡ false }
    requires c { HasShape ring.now 2 c.now }
    ensures value { IfOk result (λ ciphers. ciphers.items ≡ sides ring.now keys.now c.now) }
    ensures many { IfOk result (λ ciphers. length ciphers.items ≡ 2) }
    ensures shapes { IfOk result (λ ciphers. All (HasShape ring.now 2) ciphers.items) }
    ensures scratch { scratch.new ≡ scratch.old }
{
    Ok(expand(alloc, ring, c, &keys.round0, 0, scratch)?)
}

/// The left rounds on the first side: a scalar ciphertext for each place of the first dimension.
fn left_ciphers(
    alloc: Global,
    ring: &Ring,
    side: &Cipher,
    keys: &EvalKeys,
    scratch: &mut Scratch,
) -> Result<Vec<Cipher>, NoMemory>
    requires ring { ring.now ≡ scratch.old.degree }
    requires keys { keys.now.set ≡ scratch.old }
    requires expanding { scratch.old.direct ≡ false }
    requires side { HasShape ring.now 2 side.now }
    ensures value { IfOk result (λ ciphers. ciphers.items ≡ expanded ring.now 1 keys.now.left (side.now ∷ [])) }
    ensures many { IfOk result (λ ciphers. length ciphers.items ≡ 2 ^ scratch.old.nu1) }
    ensures shapes { IfOk result (λ ciphers. All (HasShape ring.now 2) ciphers.items) }
    ensures scratch { scratch.new ≡ scratch.old }
{
    Ok(expand(alloc, ring, side, &keys.left, 1, scratch)?)
}

/// The right rounds on the second side: a scalar ciphertext for each digit of each selection's bit, and at its end what is left
/// over to a power of two.
fn right_ciphers(
    alloc: Global,
    ring: &Ring,
    side: &Cipher,
    keys: &EvalKeys,
    scratch: &mut Scratch,
) -> Result<Vec<Cipher>, NoMemory>
    requires ring { ring.now ≡ scratch.old.degree }
    requires keys { keys.now.set ≡ scratch.old }
    requires expanding { scratch.old.direct ≡ false }
    requires side { HasShape ring.now 2 side.now }
    ensures value { IfOk result (λ ciphers. ciphers.items ≡ expanded ring.now 1 keys.now.right (side.now ∷ [])) }
    ensures many { IfOk result (λ ciphers. length ciphers.items ≡ 2 ^ rho scratch.old) }
    ensures shapes { IfOk result (λ ciphers. All (HasShape ring.now 2) ciphers.items) }
    ensures scratch { scratch.new ≡ scratch.old }
{
    Ok(expand(alloc, ring, side, &keys.right, 1, scratch)?)
}

/// Each ciphertext lifted into rows 1 to n, one after the other.
fn lift_each(
    alloc: Global,
    ring: &Ring,
    ciphers: &[Cipher],
    keys: &EvalKeys,
    scratch: &mut Scratch,
) -> Result<Vec<CipherT>, NoMemory>
    requires ring { ring.now ≡ scratch.old.degree }
    requires keys { keys.now.set ≡ scratch.old }
    requires shapes { All (HasShape ring.now 2) ciphers.now }
    ensures value { IfOk result (λ firsts. firsts.items ≡ flat_map (lift_matrix_of scratch.old keys.now.lift) ciphers.now) }
    ensures shapes { IfOk result (λ firsts. All (HasShape ring.now (scratch.old.n + 1)) firsts.items) }
    ensures scratch { scratch.new ≡ scratch.old }
{
    let mut firsts = Vec::new(alloc);
    for c in ciphers {
        let mut columns = lift_matrix(alloc, ring, c, keys, scratch)?;
        firsts.append(&mut columns)?;
    }
    Ok(firsts)
}

/// The first dimension of the scalar ciphertexts of its places, by place, in product form: where the set packs these as they are, else
/// each one lifted into rows 1 to n.
fn firsts_from(
    alloc: Global,
    ring: &Ring,
    set: &ParamSet,
    ciphers: &[Cipher],
    keys: &EvalKeys,
    scratch: &mut Scratch,
) -> Result<Vec<CipherT>, NoMemory>
    requires ring { ring.now ≡ set.now.degree }
    requires scratch { scratch.old ≡ set.now }
    requires keys { keys.now.set ≡ set.now }
    requires shapes { All (HasShape ring.now 2) ciphers.now }
    ensures value { IfOk result (λ firsts. firsts.items ≡ firsts_from_of set.now keys.now.lift ciphers.now) }
    ensures many { IfOk result (λ firsts. length firsts.items ≡ length ciphers.now * rows set.now) }
    ensures shapes { IfOk result (λ firsts. All (HasShape ring.now (rows set.now + 1)) firsts.items) }
    ensures scratch { scratch.new ≡ scratch.old }
{
    if set.pack {
        Ok(forms_of(alloc, ring, ciphers)?)
    } else {
        Ok(lift_each(alloc, ring, ciphers, keys, scratch)?)
    }
}

/// The first dimension of an expanded query, from its left side.
pub(crate) fn expanded_firsts(
    alloc: Global,
    ring: &Ring,
    set: &ParamSet,
    side: &Cipher,
    keys: &EvalKeys,
    scratch: &mut Scratch,
) -> Result<Vec<CipherT>, NoMemory>
    requires expanding { set.now.direct ≡ false }
    requires ring { ring.now ≡ set.now.degree }
    requires scratch { scratch.old ≡ set.now }
    requires keys { keys.now.set ≡ set.now }
    requires side { HasShape ring.now 2 side.now }
    ensures value { IfOk result (λ firsts. firsts.items ≡ firsts_from_of set.now keys.now.lift (expanded ring.now 1 keys.now.left (side.now ∷ []))) }
    ensures many { IfOk result (λ firsts. length firsts.items ≡ firsts_count set.now) }
    ensures shapes { IfOk result (λ firsts. All (HasShape ring.now (rows set.now + 1)) firsts.items) }
    ensures scratch { scratch.new ≡ scratch.old }
{
    let ciphers = left_ciphers(alloc, ring, side, keys, scratch)?;
    Ok(firsts_from(alloc, ring, set, &ciphers, keys, scratch)?)
}

/// The GSW ciphertexts of the selections, each translated from the t scalar ciphertexts of its bit's digits.
fn translate_each(
    alloc: Global,
    ring: &Ring,
    set: &ParamSet,
    ciphers: &[Cipher],
    keys: &EvalKeys,
    scratch: &mut Scratch,
) -> Result<Vec<Gsw>, NoMemory>
    requires known { IsSet set.now }
    requires expanding { set.now.direct ≡ false }
    requires ring { ring.now ≡ set.now.degree }
    requires scratch { scratch.old ≡ set.now }
    requires keys { keys.now.set ≡ set.now }
    requires enough { digit_count_of set.now.w_gsw * set.now.nu2 ≤ length ciphers.now }
    requires shapes { All (HasShape ring.now 2) ciphers.now }
    ensures value { IfOk result (λ gsws. gsws.items ≡ gsws_from set.now keys.now ciphers.now) }
    ensures shapes { IfOk result (λ gsws. All (IsGsw set.now) gsws.items) }
    ensures scratch { scratch.new ≡ scratch.old }
{
    let digits = digit_count(set.w_gsw) as usize;
    let mut gsws = Vec::new(alloc);
    for l in 0..set.nu2 as usize {
        let start = l * digits;
        let bits = &ciphers[start..start + digits];
        let columns = translate(alloc, ring, set, bits, keys, scratch)?;
        gsws.push(Gsw::from_forms(columns))?;
    }
    Ok(gsws)
}

/// The GSW ciphertexts of an expanded query's selections, translated from its right side.
pub(crate) fn expanded_gsws(
    alloc: Global,
    ring: &Ring,
    set: &ParamSet,
    side: &Cipher,
    keys: &EvalKeys,
    scratch: &mut Scratch,
) -> Result<Vec<Gsw>, NoMemory>
    requires known { IsSet set.now }
    requires expanding { set.now.direct ≡ false }
    requires ring { ring.now ≡ set.now.degree }
    requires scratch { scratch.old ≡ set.now }
    requires keys { keys.now.set ≡ set.now }
    requires side { HasShape ring.now 2 side.now }
    ensures value { IfOk result (λ gsws. gsws.items ≡ gsws_from set.now keys.now (expanded ring.now 1 keys.now.right (side.now ∷ []))) }
    ensures shapes { IfOk result (λ gsws. All (IsGsw set.now) gsws.items) }
    ensures scratch { scratch.new ≡ scratch.old }
{
    let ciphers = right_ciphers(alloc, ring, side, keys, scratch)?;
    Ok(translate_each(alloc, ring, set, &ciphers, keys, scratch)?)
}
