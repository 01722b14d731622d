ghost use Rattle.std.specs.Prelude.{◌≡◌, ◌+◌, ◌*◌, ◌<◌, length, map, All};
ghost use Rattle.std.specs.List.{range_with_len};
ghost use Rattle.negacyclic.specs.Ring.{ring_sub};
ghost use Rattle.spiral_sets.specs.Sets.{IsSet, q, digit_count as digit_count_of, rows};
ghost use Rattle.spiral_model.specs.Gadgets.{cipher_add, cipher_sub, digit_sum, external_product, selected};
ghost use Rattle.spiral_model.specs.Words.{cipher_at};
ghost use Rattle.regev_code.specs.Products.{HasShape};
ghost use Rattle.gsw_code.specs.Products.{IsGsw};

use crate::Gsw;
use gadget_digits::digit_count;
use regev_code::{Cipher, CipherT, Room, Scratch, add_digit_sum, from_form};
use ring_poly::{Poly, Ring};
use spiral_sets::ParamSet;

/// Writes high - low.
fn write_difference(high: &Poly, low: &Poly, out: &mut Poly)
    requires low { length low.now ≡ length high.now }
    requires room { length out.old ≡ length high.now }
    ensures value { out.new ≡ ring_sub q (length high.now) high.now low.now }
    ensures degree { length out.new ≡ length high.now }
{
    out.clear();
    out.add_assign(high);
    out.sub_assign(low);
}

/// Adds rows in product form, one by one, with room for one row.
#[tactic(auto, using(negacyclic::proofs::Filled::filled_all))]
fn add_rows(ring: &Ring, sum: &CipherT, rows: &mut [Poly], room: &mut Poly)
    requires sum { HasShape ring.now (length rows.old) sum.now }
    requires rows { HasShape ring.now (length rows.old) rows.old }
    requires room { length room.old ≡ ring.now }
    ensures value { rows.new ≡ cipher_add ring.now rows.old sum.now }
    ensures room { length room.new ≡ ring.now }
{
    for i in 0..sum.rows() {
        let row = &mut rows[i as usize];
        ring.from_product(sum.row(i), room);
        row.add_assign(room);
    }
}

/// Adds a ciphertext in product form, with room for one row.
fn add_form(ring: &Ring, sum: &CipherT, low: &mut Cipher, room: &mut Poly)
    requires sum { HasShape ring.now (length low.old) sum.now }
    requires low { HasShape ring.now (length low.old) low.old }
    requires room { length room.old ≡ ring.now }
    ensures value { low.new ≡ cipher_add ring.now low.old sum.now }
    ensures shape { HasShape ring.now (length low.old) low.new }
    ensures room { length room.new ≡ ring.now }
{
    add_rows(ring, sum, &mut low.polys, room);
}

impl Gsw {
    /// Adds the digit sum of x with the columns of row r.
    fn add_row(
        &self,
        ring: &Ring,
        set: &ParamSet,
        r: u32,
        x: &Poly,
        sum: &mut CipherT,
        room: &mut Room,
    )
        requires known { IsSet set.now }
        requires ring { ring.now ≡ set.now.degree }
        requires gsw { IsGsw set.now self.now }
        requires row { r < rows set.now + 1 }
        requires x { length x.now ≡ ring.now }
        requires sum { HasShape ring.now (rows set.now + 1) sum.old }
        requires room { room.old ≡ set.now }
        ensures value { sum.new ≡ cipher_add ring.now sum.old (map (λ i. digit_sum ring.now set.now.w_gsw x.now (λ k. cipher_at self.now (r * digit_count_of set.now.w_gsw + k)) i) (range_with_len 0 (length sum.old))) }
        ensures shape { HasShape ring.now (rows set.now + 1) sum.new }
        ensures room { room.new ≡ set.now }
    {
        let count = digit_count(set.w_gsw) as usize;
        let start = r as usize * count;
        let columns = &self.columns[start..start + count];
        add_digit_sum(ring, x, set.w_gsw, columns, sum, room);
    }

    /// Works out G c in `product`.
    fn multiply(
        &self,
        ring: &Ring,
        set: &ParamSet,
        c: &Cipher,
        product: &mut CipherT,
        room: &mut Room,
    )
        requires known { IsSet set.now }
        requires ring { ring.now ≡ set.now.degree }
        requires gsw { IsGsw set.now self.now }
        requires c { HasShape ring.now (rows set.now + 1) c.now }
        requires product { HasShape ring.now (rows set.now + 1) product.old }
        requires room { room.old ≡ set.now }
        ensures value { product.new ≡ external_product ring.now set.now.w_gsw self.now c.now }
        ensures shape { HasShape ring.now (rows set.now + 1) product.new }
        ensures room { room.new ≡ set.now }
    {
        product.clear();
        for r in 0..c.rows() {
            self.add_row(ring, set, r, c.row(r), product, room);
        }
    }

    /// Works out G (high - low) in `sum`, with room for one row of the difference.
    fn multiply_difference(
        &self,
        ring: &Ring,
        set: &ParamSet,
        low: &Cipher,
        high: &Cipher,
        sum: &mut CipherT,
        room: &mut Room,
        row: &mut Poly,
    )
        requires known { IsSet set.now }
        requires ring { ring.now ≡ set.now.degree }
        requires gsw { IsGsw set.now self.now }
        requires low { HasShape ring.now (rows set.now + 1) low.now }
        requires high { HasShape ring.now (rows set.now + 1) high.now }
        requires sum { HasShape ring.now (rows set.now + 1) sum.old }
        requires room { room.old ≡ set.now }
        requires row { length row.old ≡ ring.now }
        ensures value { sum.new ≡ external_product ring.now set.now.w_gsw self.now (cipher_sub ring.now high.now low.now) }
        ensures shape { HasShape ring.now (rows set.now + 1) sum.new }
        ensures room { room.new ≡ set.now }
        ensures row { length row.new ≡ ring.now }
    {
        sum.clear();
        for r in 0..high.rows() {
            write_difference(high.row(r), low.row(r), row);
            self.add_row(ring, set, r, row, sum, room);
        }
    }

    /// Writes G c: the sum over the rows r of c and the digits k of dig_k(c_r) G_(r,k). Its phase is the bit times that
    /// of c, and a small error. It takes no memory.
    pub fn external_into(&self, ring: &Ring, c: &Cipher, out: &mut Cipher, scratch: &mut Scratch)
        requires ring { ring.now ≡ scratch.old.degree }
        requires gsw { IsGsw scratch.old self.now }
        requires c { HasShape ring.now (rows scratch.old + 1) c.now }
        requires out { HasShape ring.now (rows scratch.old + 1) out.old }
        ensures value { out.new ≡ external_product ring.now scratch.old.w_gsw self.now c.now }
        ensures shape { HasShape ring.now (rows scratch.old + 1) out.new }
        ensures scratch { scratch.new ≡ scratch.old }
    {
        let set = scratch.set;
        if set.pack {
            self.multiply(ring, &set, c, &mut scratch.scalar, &mut scratch.room);
            from_form(ring, &scratch.scalar, out);
        } else {
            self.multiply(ring, &set, c, &mut scratch.matrix, &mut scratch.room);
            from_form(ring, &scratch.matrix, out);
        }
    }

    /// Selects by the bit: low becomes low + G (high - low), whose phase is that of low for 0 and that of high for 1,
    /// and a small error. It takes no memory.
    pub fn select_into(&self, ring: &Ring, low: &mut Cipher, high: &Cipher, scratch: &mut Scratch)
        requires ring { ring.now ≡ scratch.old.degree }
        requires gsw { IsGsw scratch.old self.now }
        requires low { HasShape ring.now (rows scratch.old + 1) low.old }
        requires high { HasShape ring.now (rows scratch.old + 1) high.now }
        ensures value { low.new ≡ selected ring.now scratch.old.w_gsw self.now low.old high.now }
        ensures shape { HasShape ring.now (rows scratch.old + 1) low.new }
        ensures scratch { scratch.new ≡ scratch.old }
    {
        let set = scratch.set;
        if set.pack {
            self.multiply_difference(
                ring,
                &set,
                low,
                high,
                &mut scratch.scalar,
                &mut scratch.room,
                &mut scratch.first,
            );
            add_form(ring, &scratch.scalar, low, &mut scratch.second);
        } else {
            self.multiply_difference(
                ring,
                &set,
                low,
                high,
                &mut scratch.matrix,
                &mut scratch.room,
                &mut scratch.first,
            );
            add_form(ring, &scratch.matrix, low, &mut scratch.second);
        }
    }
}
