//! Key switching of what stays in product form: nothing is brought back from it.

ghost use Rattle.std.specs.Prelude.{◌≡◌, ◌+◌, ◌<◌, ◌≤◌, length, slice_set, All};
ghost use Rattle.negacyclic.specs.Ring.{ring_add};
ghost use Rattle.spiral_sets.specs.Sets.{q};
ghost use Rattle.spiral_model.specs.Words.{row_of};
ghost use Rattle.spiral_model.specs.KeySwitching.{key_switched, lifted};
ghost use Rattle.regev_code.specs.Products.{HasShape};
ghost use Rattle.regev_code.specs.KeyShapes.{IsKeyOf};

use crate::{Cipher, CipherT, Room, Scratch, SwitchKey, add_digit_sum};
use ring_poly::{Poly, PolyT, Ring};

/// Adds b to row r.
fn add_to_form(rows: &mut [PolyT], r: usize, b: &PolyT)
    requires row { r < length rows.old }
    requires degree { All (λ a. length a ≡ length b.now) rows.old }
    ensures { rows.new ≡ slice_set rows.old r (ring_add q (length b.now) (row_of rows.old r) b.now) }
{
    let row = &mut rows[r];
    row.add_assign(b);
}

/// Adds b to row r of a ciphertext, whose other rows stay.
fn add_to_form_row(cipher: &mut CipherT, r: u32, b: &PolyT)
    requires row { r < length cipher.old }
    requires degree { All (λ a. length a ≡ length b.now) cipher.old }
    ensures { cipher.new ≡ slice_set cipher.old r (ring_add q (length b.now) (row_of cipher.old r) b.now) }
{
    add_to_form(&mut cipher.polys, r as usize, b);
}

/// Key switching whose result stays in product form, of b in that form: the ciphertext with rows 0 to m that has b in row r and
/// 0 in the others, plus the digit sum of a with the key. It takes no memory.
pub fn switch_form(
    ring: &Ring,
    m: u32,
    r: u32,
    key: &SwitchKey,
    b: &PolyT,
    a: &Poly,
    out: &mut CipherT,
    room: &mut Room,
)
    requires ring { ring.now ≡ room.old.degree }
    requires row { r ≤ m }
    requires key { IsKeyOf room.old m key.now }
    requires b { length b.now ≡ ring.now }
    requires a { length a.now ≡ ring.now }
    requires out { HasShape ring.now (m + 1) out.old }
    ensures value { out.new ≡ key_switched ring.now m r key.now b.now a.now }
    ensures shape { HasShape ring.now (m + 1) out.new }
    ensures room { room.new ≡ room.old }
{
    out.clear();
    add_digit_sum(ring, a, key.w, &key.ciphers, out, room);
    add_to_form_row(out, r, b);
}

/// A scalar ciphertext lifted into row `row` of a ciphertext with rows 0 to n, in product form, with c_1 in that form: c_1 in that
/// row, plus the digit sum of c_0 with the key. It takes no memory.
pub fn lift_form(
    ring: &Ring,
    row: u32,
    c: &Cipher,
    high: &PolyT,
    key: &SwitchKey,
    out: &mut CipherT,
    scratch: &mut Scratch,
)
    requires ring { ring.now ≡ scratch.old.degree }
    requires row { row ≤ scratch.old.n }
    requires c { HasShape ring.now 2 c.now }
    requires high { high.now ≡ row_of c.now 1 }
    requires key { IsKeyOf scratch.old scratch.old.n key.now }
    requires out { HasShape ring.now (scratch.old.n + 1) out.old }
    ensures value { out.new ≡ lifted ring.now scratch.old.n row key.now c.now }
    ensures shape { HasShape ring.now (scratch.old.n + 1) out.new }
    ensures scratch { scratch.new ≡ scratch.old }
{
    let n = scratch.set.n;
    let room = &mut scratch.room;
    switch_form(ring, n, row, key, high, c.row(0), out, room);
}
