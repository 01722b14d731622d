ghost use Rattle.std.specs.Prelude.{true, false, ◌≡◌, ◌<◌, ◌≤◌, ◌+◌, All, IfOk};
ghost use Rattle.spiral_sets.specs.Sets.{IsSet, rows};
ghost use Rattle.spiral_model.specs.Words.{row_of};
ghost use Rattle.spiral_model.specs.KeySwitching.{lifted};
ghost use Rattle.spiral_model.specs.Packing.{conversion_key as conversion_key_of, lift_row as lift_row_of, translated_column};
ghost use Rattle.regev_code.specs.Products.{HasShape};
ghost use Rattle.regev_code.specs.KeyShapes.{IsKeyOf};

use no_memory::NoMemory;
use regev_code::{Cipher, CipherT, EvalKeys, Scratch, SwitchKey, form_of, switch_form};
use ring_poly::{PolyT, Ring};
use spiral_pack::lift_form_into;
use spiral_sets::ParamSet;
use std::alloc::Global;

/// The conversion key of a set that expands its queries.
fn conversion_key(keys: &EvalKeys) -> &SwitchKey
    requires { keys.now.set.direct ≡ false }
    ensures value { result.now ≡ conversion_key_of keys.now.conv }
    ensures key { IsKeyOf keys.now.set (rows keys.now.set) result.now }
{
    match &keys.conv {
        Some(key) => key,
        None => unreachable!(),
    }
}

/// Row 1 of a scalar ciphertext in product form.
fn high_form(alloc: Global, ring: &Ring, c: &Cipher) -> Result<PolyT, NoMemory>
    requires { HasShape ring.now 2 c.now }
    ensures { IfOk result (λ high. high ≡ row_of c.now 1) }
{
    let mut high = PolyT::zero(alloc, ring.degree())?;
    ring.to_product(c.row(1), &mut high);
    Ok(high)
}

/// A scalar ciphertext with its phase times -s_i in each row i, in product form, with c_1 in that form: c_1 in row 0, plus the digit
/// sum of c_0 with the conversion key. It takes no memory.
fn convert_into(
    ring: &Ring,
    c: &Cipher,
    high: &PolyT,
    key: &SwitchKey,
    out: &mut CipherT,
    scratch: &mut Scratch,
)
    requires ring { ring.now ≡ scratch.old.degree }
    requires c { HasShape ring.now 2 c.now }
    requires high { high.now ≡ row_of c.now 1 }
    requires key { IsKeyOf scratch.old (rows scratch.old) key.now }
    requires out { HasShape ring.now (rows scratch.old + 1) out.old }
    ensures value { out.new ≡ lifted ring.now (rows scratch.old) 0 key.now c.now }
    ensures shape { HasShape ring.now (rows scratch.old + 1) out.new }
    ensures scratch { scratch.new ≡ scratch.old }
{
    let set = scratch.set;
    let m = set.rows();
    let room = &mut scratch.room;
    switch_form(ring, m, 0, key, high, c.row(0), out, room);
}

/// A column of row 0, in memory of its own.
fn converted(
    alloc: Global,
    ring: &Ring,
    set: &ParamSet,
    c: &Cipher,
    keys: &EvalKeys,
    scratch: &mut Scratch,
) -> Result<CipherT, NoMemory>
    requires known { IsSet set.now }
    requires expanding { set.now.direct ≡ false }
    requires ring { ring.now ≡ set.now.degree }
    requires scratch { scratch.old ≡ set.now }
    requires keys { keys.now.set ≡ set.now }
    requires c { HasShape ring.now 2 c.now }
    ensures value { IfOk result (λ column. column ≡ lifted set.now.degree (rows set.now) 0 (conversion_key_of keys.now.conv) c.now) }
    ensures shape { IfOk result (λ column. HasShape ring.now (rows set.now + 1) column) }
    ensures scratch { scratch.new ≡ scratch.old }
{
    let high = high_form(alloc, ring, c)?;
    let mut out = CipherT::zero(alloc, set, set.rows())?;
    convert_into(ring, c, &high, conversion_key(keys), &mut out, scratch);
    Ok(out)
}

/// A column of a row r from 1 on in a set that doesn't pack, in memory of its own.
fn lifted_into_row(
    alloc: Global,
    ring: &Ring,
    set: &ParamSet,
    r: u32,
    c: &Cipher,
    keys: &EvalKeys,
    scratch: &mut Scratch,
) -> Result<CipherT, NoMemory>
    requires known { IsSet set.now }
    requires ring { ring.now ≡ set.now.degree }
    requires scratch { scratch.old ≡ set.now }
    requires keys { keys.now.set ≡ set.now }
    requires first { 1 ≤ r }
    requires last { r ≤ set.now.n }
    requires c { HasShape ring.now 2 c.now }
    ensures value { IfOk result (λ column. column ≡ lift_row_of set.now keys.now.lift c.now r) }
    ensures shape { IfOk result (λ column. HasShape ring.now (set.now.n + 1) column) }
    ensures scratch { scratch.new ≡ scratch.old }
{
    let high = high_form(alloc, ring, c)?;
    let mut out = CipherT::zero(alloc, set, set.n)?;
    lift_form_into(ring, r, c, &high, keys, &mut out, scratch);
    Ok(out)
}

/// The column of row r for a digit, in product form, from the scalar ciphertext of the bit times that digit's power: converted for r = 0, else
/// lifted into row r, or the ciphertext itself where the set packs.
pub(crate) fn column(
    alloc: Global,
    ring: &Ring,
    set: &ParamSet,
    r: u32,
    c: &Cipher,
    keys: &EvalKeys,
    scratch: &mut Scratch,
) -> Result<CipherT, NoMemory>
    requires known { IsSet set.now }
    requires expanding { set.now.direct ≡ false }
    requires ring { ring.now ≡ set.now.degree }
    requires scratch { scratch.old ≡ set.now }
    requires keys { keys.now.set ≡ set.now }
    requires row { r ≤ rows set.now }
    requires c { HasShape ring.now 2 c.now }
    ensures value { IfOk result (λ column. column ≡ translated_column set.now keys.now c.now r) }
    ensures shape { IfOk result (λ column. HasShape ring.now (rows set.now + 1) column) }
    ensures scratch { scratch.new ≡ scratch.old }
{
    if r == 0 {
        Ok(converted(alloc, ring, set, c, keys, scratch)?)
    } else if set.pack {
        Ok(form_of(alloc, ring, c)?)
    } else {
        Ok(lifted_into_row(alloc, ring, set, r, c, keys, scratch)?)
    }
}
