ghost use Rattle.std.specs.Prelude.{true, ◌≡◌, ◌+◌, ◌-◌, ◌≤◌, All, IfOk};
ghost use Rattle.spiral_model.specs.Words.{row_of};
ghost use Rattle.spiral_model.specs.Keys.{key_at};
ghost use Rattle.spiral_model.specs.Packing.{lift_row as lift_row_of, lift_matrix as lift_matrix_of};
ghost use Rattle.regev_code.specs.Products.{HasShape};
ghost use Rattle.regev_code.specs.KeyShapes.{IsKeyOf};

use no_memory::NoMemory;
use regev_code::{Cipher, CipherT, EvalKeys, Scratch, SwitchKey, lift_form, lift_row};
use ring_poly::{PolyT, Ring};
use std::alloc::Global;

/// The lift key of row r, counted from 1.
pub fn lift_key(keys: &EvalKeys, r: u32) -> &SwitchKey
    requires first { 1 ≤ r }
    requires last { r ≤ keys.now.set.n }
    ensures value { result.now ≡ key_at keys.now.lift (r - 1) }
    ensures key { IsKeyOf keys.now.set keys.now.set.n result.now }
{
    &keys.lift[r as usize - 1]
}

/// A scalar ciphertext lifted into row r from 1 to n with that row's lift key: c_1 in that row, plus the digit sum of c_0 with
/// the key. Its phase in row r is that of the scalar ciphertext, in the others 0, each but for a small error. It takes no memory.
pub fn lift_into(
    ring: &Ring,
    r: u32,
    c: &Cipher,
    keys: &EvalKeys,
    out: &mut Cipher,
    scratch: &mut Scratch,
)
    requires ring { ring.now ≡ scratch.old.degree }
    requires set { keys.now.set ≡ scratch.old }
    requires first { 1 ≤ r }
    requires last { r ≤ scratch.old.n }
    requires c { HasShape ring.now 2 c.now }
    requires out { HasShape ring.now (scratch.old.n + 1) out.old }
    ensures value { out.new ≡ lift_row_of scratch.old keys.now.lift c.now r }
    ensures shape { HasShape ring.now (scratch.old.n + 1) out.new }
    ensures scratch { scratch.new ≡ scratch.old }
{
    let key = lift_key(keys, r);
    lift_row(ring, r, c, key, out, scratch);
}

/// `lift_into` in product form, with c_1 in that form. It takes no memory.
pub fn lift_form_into(
    ring: &Ring,
    r: u32,
    c: &Cipher,
    high: &PolyT,
    keys: &EvalKeys,
    out: &mut CipherT,
    scratch: &mut Scratch,
)
    requires ring { ring.now ≡ scratch.old.degree }
    requires set { keys.now.set ≡ scratch.old }
    requires first { 1 ≤ r }
    requires last { r ≤ scratch.old.n }
    requires c { HasShape ring.now 2 c.now }
    requires high { high.now ≡ row_of c.now 1 }
    requires out { HasShape ring.now (scratch.old.n + 1) out.old }
    ensures value { out.new ≡ lift_row_of scratch.old keys.now.lift c.now r }
    ensures shape { HasShape ring.now (scratch.old.n + 1) out.new }
    ensures scratch { scratch.new ≡ scratch.old }
{
    let key = lift_key(keys, r);
    lift_form(ring, r, c, high, key, out, scratch);
}

/// The lifts of a scalar ciphertext into rows 1 to n, each with that row's lift key, in product form: the columns of its
/// first-dimension matrix. They stay in that form from the start. An error says that memory was wanting.
pub fn lift_matrix(
    alloc: Global,
    ring: &Ring,
    c: &Cipher,
    keys: &EvalKeys,
    scratch: &mut Scratch,
) -> Result<Vec<CipherT>, NoMemory>
    requires ring { ring.now ≡ scratch.old.degree }
    requires set { keys.now.set ≡ scratch.old }
    requires c { HasShape ring.now 2 c.now }
    ensures value { IfOk result (λ columns. columns.items ≡ lift_matrix_of scratch.old keys.now.lift c.now) }
    ensures shapes { IfOk result (λ columns. All (HasShape ring.now (scratch.old.n + 1)) columns.items) }
    ensures scratch { scratch.new ≡ scratch.old }
{
    let set = keys.set;
    let mut high = PolyT::zero(alloc, ring.degree())?;
    ring.to_product(c.row(1), &mut high);
    let mut columns = Vec::new(alloc);
    for i in 0..set.n {
        let mut lifted = CipherT::zero(alloc, &set, set.n)?;
        lift_form_into(ring, i + 1, c, &high, keys, &mut lifted, scratch);
        columns.push(lifted)?;
    }
    Ok(columns)
}
