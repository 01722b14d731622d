ghost use Rattle.std.specs.Prelude.{◌≡◌, ◌*◌, ◌^◌, ◌<◌, ◌≤◌, length, replicate, map, All, IfOk};
ghost use Rattle.spiral_sets.specs.Sets.{IsSet, max_records, capacity, entries};
ghost use Rattle.spiral_model.specs.Replies.{switched, IsSwitched, IsReply};
ghost use Rattle.modulus_switch.specs.Places.{place_in_body, poly_in, put_poly, row_modulus, zero_reply};

use crate::switch::switch_all;
use no_memory::NoMemory;
use ring_poly::Poly;
use spiral_sets::ParamSet;
use std::alloc::Global;
use std::marker::Model;

/// The numbers of one polynomial of a reply.
#[derive(Debug, Drop)]
pub struct SwitchedPoly {
    items: Vec<u64>,
}

impl Model for SwitchedPoly {
    ghost use Rattle.spiral_model.specs.Words.{Poly};

    ghost Value = { Poly };

    ghost view = { λ a. a.items.items };
}

impl SwitchedPoly {
    /// The polynomial of these numbers, from place 0.
    pub fn from_numbers(items: Vec<u64>) -> SwitchedPoly
        ensures { result ≡ items.items }
    {
        SwitchedPoly { items }
    }

    /// Becomes these numbers, as many as it had.
    fn put(&mut self, numbers: &[u64])
        requires { length numbers.now ≡ length self.old }
        ensures { self.new ≡ numbers.now }
    {
        self.items.copy_from_slice(numbers);
    }

    /// Becomes the coefficients of a polynomial switched to a modulus, as many as it had.
    fn switch(&mut self, a: &Poly, m: u64)
        requires some { 0 < m }
        requires most { m ≤ 2 ^ 30 }
        requires room { length self.old ≡ length a.now }
        ensures value { self.new ≡ map (switched m) a.now }
        ensures degree { length self.new ≡ length a.now }
        ensures below { All (λ x. x < m) self.new }
    {
        a.coeffs_into(&mut self.items);
        switch_all(&mut self.items, m);
    }
}

/// A reply: the number of records and their length, and the result's polynomials after the modulus switch, those
/// of rows 1 to n modulo q1 and those of row 0 modulo q2.
#[derive(Debug)]
pub struct Reply {
    set: ParamSet,
    count: u32,
    record_length: u32,
    /// rows 1 to n, row by row
    body: Vec<SwitchedPoly>,
    /// row 0
    mask: Vec<SwitchedPoly>,
}

impl Model for Reply {
    ghost use Rattle.spiral_model.specs.Replies.{SwitchedReply, IsReply};

    ghost Value = { SwitchedReply };

    ghost view = { λ r. record { set = r.set; count = r.count; record_length = r.record_length; body = r.body.items; mask = r.mask.items } };

    ghost invariant = { λ r. IsReply (record { set = r.set; count = r.count; record_length = r.record_length; body = r.body.items; mask = r.mask.items }) };
}

/// By hand: a caller's proof then takes one step for it, and not one for each of its lists.
impl Drop for Reply {
    fn drop(self) {
        let Self {
            set: _,
            count: _,
            record_length: _,
            body: _,
            mask: _,
        } = self;
    }
}

/// So many zeros.
pub(crate) fn zeros(alloc: Global, count: usize) -> Result<Vec<u64>, NoMemory>
    ensures { IfOk result (λ v. v.items ≡ replicate count 0) }
{
    Ok(vec![in alloc; 0u64; count]?)
}

/// So many polynomials of zeros.
fn zero_polys(alloc: Global, count: u32, degree: usize) -> Result<Vec<SwitchedPoly>, NoMemory>
    ensures { IfOk result (λ v. v.items ≡ replicate count (replicate degree 0)) }
{
    let mut polys = Vec::new(alloc);
    for _ in 0..count {
        polys.push(SwitchedPoly {
            items: zeros(alloc, degree)?,
        })?;
    }
    Ok(polys)
}

/// Where the polynomial of a row and a column, both from 1, stands in the body.
fn body_place(set: &ParamSet, row: u32, column: u32) -> usize
    requires known { IsSet set.now }
    requires first_row { 1 ≤ row }
    requires row { row ≤ set.now.n }
    requires first_column { 1 ≤ column }
    requires column { column ≤ set.now.n }
    ensures value { result ≡ place_in_body set.now row column }
    ensures within { result < entries set.now }
{
    ((row - 1) * set.n + (column - 1)) as usize
}

impl Reply {
    /// The reply of these polynomials: those of rows 1 to n, row by row, and those of row 0.
    pub fn from_polys(
        set: &ParamSet,
        count: u32,
        length: u32,
        body: Vec<SwitchedPoly>,
        mask: Vec<SwitchedPoly>,
    ) -> Reply
        requires { IsReply (record { set = set.now; count = count; record_length = length; body = body.items; mask = mask.items }) }
        ensures { result ≡ record { set = set.now; count = count; record_length = length; body = body.items; mask = mask.items } }
    {
        Reply {
            set: *set,
            count,
            record_length: length,
            body,
            mask,
        }
    }

    /// A reply whose numbers are all 0.
    pub fn zero(alloc: Global, set: &ParamSet, count: u32, length: u32) -> Result<Reply, NoMemory>
        requires known { IsSet set.now }
        requires count { count ≤ max_records set.now }
        requires some_length { 0 < length }
        requires length { length ≤ capacity set.now }
        ensures { IfOk result (λ r. r ≡ zero_reply set.now count length) }
    {
        let body = zero_polys(alloc, set.entries(), set.degree as usize)?;
        let mask = zero_polys(alloc, set.n, set.degree as usize)?;
        Ok(Reply {
            set: *set,
            count,
            record_length: length,
            body,
            mask,
        })
    }

    /// The set of its database.
    pub fn set(&self) -> ParamSet
        ensures value { result ≡ self.now.set }
        ensures known { IsSet result }
        ensures kept { IsReply self.now }
    {
        self.set
    }

    /// How many records the database has.
    pub fn count(&self) -> u32
        ensures value { result ≡ self.now.count }
        ensures most { result ≤ max_records self.now.set }
    {
        self.count
    }

    /// How many bytes each record has.
    pub fn length(&self) -> u32
        ensures value { result ≡ self.now.record_length }
        ensures some { 0 < result }
        ensures most { result ≤ capacity self.now.set }
    {
        self.record_length
    }

    /// The numbers of the polynomial in a row (from 0) and a column (from 1): N of them, below q1 in rows 1 to n
    /// and below q2 in row 0.
    pub fn numbers(&self, row: u32, column: u32) -> &[u64]
        requires row { row ≤ self.now.set.n }
        requires first_column { 1 ≤ column }
        requires column { column ≤ self.now.set.n }
        ensures value { result.now ≡ poly_in self.now row column }
        ensures switched { IsSwitched self.now.set.degree (row_modulus self.now.set row) result.now }
    {
        if row == 0 {
            let poly = &self.mask[column as usize - 1];
            &poly.items
        } else {
            let entry = &self.body[body_place(&self.set, row, column)];
            &entry.items
        }
    }

    /// Puts the numbers of the polynomial in a row (from 0) and a column (from 1). It takes no memory.
    pub fn put_numbers(&mut self, row: u32, column: u32, numbers: &[u64])
        requires row { row ≤ self.old.set.n }
        requires first_column { 1 ≤ column }
        requires column { column ≤ self.old.set.n }
        requires degree { length numbers.now ≡ self.old.set.degree }
        requires below { All (λ x. x < row_modulus self.old.set row) numbers.now }
        ensures { self.new ≡ put_poly self.old row column numbers.now }
    {
        if row == 0 {
            let poly = &mut self.mask[column as usize - 1];
            poly.put(numbers);
        } else {
            let place = body_place(&self.set, row, column);
            let entry = &mut self.body[place];
            entry.put(numbers);
        }
    }

    /// Switches a polynomial of the result to the modulus of a row (from 0), q1 in rows 1 to n and q2 in row 0, and puts
    /// it there, in a column (from 1). All else stays. It takes no memory.
    pub fn put(&mut self, row: u32, column: u32, a: &Poly)
        requires row { row ≤ self.old.set.n }
        requires first_column { 1 ≤ column }
        requires column { column ≤ self.old.set.n }
        requires degree { length a.now ≡ self.old.set.degree }
        ensures { self.new ≡ put_poly self.old row column (map (switched (row_modulus self.old.set row)) a.now) }
    {
        if row == 0 {
            let m = self.set.q2();
            let poly = &mut self.mask[column as usize - 1];
            poly.switch(a, m);
        } else {
            let m = self.set.q1();
            let place = body_place(&self.set, row, column);
            let entry = &mut self.body[place];
            entry.switch(a, m);
        }
    }
}
