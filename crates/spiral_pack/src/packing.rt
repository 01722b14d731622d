ghost use Rattle.std.specs.Prelude.{◌≡◌, ◌+◌, ◌*◌, ◌<◌, length, replicate, All, IfOk};
ghost use Rattle.spiral_model.specs.Words.{cipher_at};
ghost use Rattle.spiral_model.specs.Packing.{packed_column, packed};
ghost use Rattle.regev_code.specs.Products.{HasShape};

use crate::lift_into;
use no_memory::NoMemory;
use regev_code::{Cipher, EvalKeys, Scratch};
use ring_poly::Ring;
use std::alloc::Global;

/// Entry (r, c), both counted from 0, of n times n ciphertexts, row by row.
fn entry(ciphers: &[Cipher], n: u32, r: u32, c: u32) -> &Cipher
    requires count { length ciphers.now ≡ n * n }
    requires row { r < n }
    requires column { c < n }
    ensures { result.now ≡ cipher_at ciphers.now (r * n + c) }
{
    let place = r as usize * n as usize + c as usize;
    &ciphers[place]
}

/// Adds the lifts of the entries of column c, entry (r, c) into row r + 1, to a ciphertext of zeros. `lifted` is room for one
/// lift. It takes no memory.
fn pack_column(
    ring: &Ring,
    c: u32,
    ciphers: &[Cipher],
    keys: &EvalKeys,
    lifted: &mut Cipher,
    out: &mut Cipher,
    scratch: &mut Scratch,
)
    requires ring { ring.now ≡ scratch.old.degree }
    requires set { keys.now.set ≡ scratch.old }
    requires column { c < scratch.old.n }
    requires count { length ciphers.now ≡ scratch.old.n * scratch.old.n }
    requires ciphers { All (HasShape ring.now 2) ciphers.now }
    requires lifted { HasShape ring.now (scratch.old.n + 1) lifted.old }
    requires zeros { out.old ≡ replicate (scratch.old.n + 1) (replicate scratch.old.degree 0) }
    ensures value { out.new ≡ packed_column scratch.old keys.now.lift ciphers.now c }
    ensures shape { HasShape ring.now (scratch.old.n + 1) out.new }
    ensures lifted { HasShape ring.now (scratch.old.n + 1) lifted.new }
    ensures scratch { scratch.new ≡ scratch.old }
{
    let n = keys.set.n;
    for r in 0..n {
        lift_into(ring, r + 1, entry(ciphers, n, r, c), keys, lifted, scratch);
        out.add_assign(lifted);
    }
}

/// Packing: n times n scalar ciphertexts, row by row, become the n columns of one matrix ciphertext. Column c is the sum over r
/// from 0 to n - 1 of entry (r, c) lifted into row r + 1; so its phase in row r + 1 is that of entry (r, c), but for the small
/// errors of the lift keys. Each column has n + 1 rows. An error says that memory was wanting.
pub fn pack(
    alloc: Global,
    ring: &Ring,
    ciphers: &[Cipher],
    keys: &EvalKeys,
    scratch: &mut Scratch,
) -> Result<Vec<Cipher>, NoMemory>
    requires ring { ring.now ≡ scratch.old.degree }
    requires set { keys.now.set ≡ scratch.old }
    requires count { length ciphers.now ≡ scratch.old.n * scratch.old.n }
    requires ciphers { All (HasShape ring.now 2) ciphers.now }
    ensures value { IfOk result (λ columns. columns.items ≡ packed scratch.old keys.now.lift ciphers.now) }
    ensures many { IfOk result (λ columns. length columns.items ≡ scratch.old.n) }
    ensures shapes { IfOk result (λ columns. All (HasShape ring.now (scratch.old.n + 1)) columns.items) }
    ensures scratch { scratch.new ≡ scratch.old }
{
    let set = keys.set;
    let mut lifted = Cipher::zero(alloc, &set, set.n)?;
    let mut columns = Vec::new(alloc);
    for c in 0..set.n {
        let mut column = Cipher::zero(alloc, &set, set.n)?;
        pack_column(ring, c, ciphers, keys, &mut lifted, &mut column, scratch);
        columns.push(column)?;
    }
    Ok(columns)
}
