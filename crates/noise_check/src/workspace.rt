ghost use Rattle.std.specs.Prelude.{◌≡◌, ◌+◌, ◌*◌, ◌^◌, ◌<◌, ◌≤◌, false, length, All, IfOk, if◌then◌else◌, slice_index_or, [], not, nat_eq, unsigned_abs};
ghost use Rattle.negacyclic.specs.Residues.{norm};
ghost use Rattle.negacyclic.specs.Ring.{ring_add, ring_sub, ring_mul};
ghost use Rattle.spiral_sets.specs.Sets.{q, digit_count as digit_count_of, rows};
ghost use Rattle.spiral_model.specs.Words.{row_of, cipher_at};
ghost use Rattle.spiral_model.specs.Queries.{first_messages, gsw_messages};
ghost use Rattle.spiral_model.specs.Dealing.{lift_message};
ghost use Rattle.spiral_model.specs.Noise.{noise_norm, polys_of, secret_weight};
ghost use Rattle.regev_code.specs.Shapes.{OfDegree, numbers_under, scalar_of, secret_row};
ghost use Rattle.regev_code.specs.Products.{HasShape};
ghost use Rattle.gsw_code.specs.Columns.{row_secrets_of};
ghost use Rattle.gsw_code.specs.Products.{IsGsw};
ghost use Rattle.noise_check.specs.Rooms.{IsRowOf, IsLiftRow, opposite as opposite_of};

use crate::lift_message::lift_message_into;
use gsw_code::{Gsw, column_message_into, first_message_into, power_of};
use no_memory::NoMemory;
use regev_code::{CipherT, Secret};
use ring_poly::{Poly, PolyT, Ring};
use spiral_sets::ParamSet;
use std::alloc::Global;
use std::marker::Model;

/// The secrets, one row that is measured, and room for it, so that measuring takes no memory. Seen as the degree, the
/// secrets, the list in which the row's secret stands, and the row.
pub(crate) struct Workspace<'a> {
    secrets: &'a Secret,
    /// whether the row's secret is the scalar one, and not one of s_1 to s_n
    scalar: bool,
    /// the row, counted from 0
    row: u32,
    /// the opposite of its secret, in product form
    opposite: PolyT,
    /// the phase of a ciphertext, in product form
    form: PolyT,
    /// the same as a polynomial, then what it has beyond the message
    phase: Poly,
    /// the message
    message: Poly,
}

impl<'a> Model for Workspace<'a> {
    ghost use Rattle.std.specs.Prelude.{length};
    ghost use Rattle.noise_check.specs.Rooms.{MeasuredRow, IsWorkspace};

    ghost Value = { MeasuredRow };

    ghost view = { λ w. record { degree = length w.opposite; secrets = w.secrets.now; scalar = w.scalar; row = w.row } };

    ghost invariant = { λ w. IsWorkspace (record { degree = length w.opposite; secrets = w.secrets.now; scalar = w.scalar; row = w.row }) w.opposite w.form w.phase w.message };
}

/// By hand: a caller's proof then takes one step for it, and not one for each of its lists.
impl Drop for Workspace<'_> {
    fn drop(self) {
        let Self {
            secrets: _,
            scalar: _,
            row: _,
            opposite: _,
            form: _,
            phase: _,
            message: _,
        } = self;
    }
}

/// Writes the product form of -s for a secret s, with room for -s.
fn write_opposite(ring: &Ring, secret: &Poly, room: &mut Poly, out: &mut PolyT)
    requires secret { length secret.now ≡ ring.now }
    requires room { length room.old ≡ ring.now }
    requires out { length out.old ≡ ring.now }
    ensures value { out.new ≡ opposite_of ring.now secret.now }
    ensures room { length room.new ≡ ring.now }
{
    room.clear();
    room.sub_assign(secret);
    ring.to_product(room, out);
}

/// The norm of what a ciphertext's phase has in a row beyond a message, with the opposite of the row's secret in product
/// form. The phase c_i - s c_0 is worked out as (-s) c_0 + c_i in that form, so that one polynomial is brought back from
/// it. N is at most 2048 and each coefficient counts less than 2^55, so the norm is at most 2^66.
fn norm_beyond(
    ring: &Ring,
    opposite: &PolyT,
    column: &CipherT,
    row: u32,
    message: &Poly,
    form: &mut PolyT,
    phase: &mut Poly,
) -> u128
    requires row { row < length column.now }
    requires degrees { All (λ a. length a ≡ ring.now) column.now }
    requires opposite { length opposite.now ≡ ring.now }
    requires message { length message.now ≡ ring.now }
    requires form { length form.old ≡ ring.now }
    requires phase { length phase.old ≡ ring.now }
    ensures value { result ≡ norm q (ring_sub q ring.now (ring_add q ring.now (row_of column.now row) (ring_mul q ring.now opposite.now (row_of column.now 0))) message.now) }
    ensures size { result ≤ 2 ^ 66 }
    ensures form { length form.new ≡ ring.now }
    ensures phase { length phase.new ≡ ring.now }
{
    // tells that the degree is one of the two
    let _ = ring.degree();
    form.clear();
    ring.mul_add(form, opposite, column.row(0));
    form.add_assign(column.row(row));
    ring.from_product(form, phase);
    phase.sub_assign(message);
    phase.norm1()
}

/// 1 for a number that isn't 0.
fn counts(z: i8) -> u64
    ensures value { result ≡ (if not (nat_eq (unsigned_abs z) 0) then 1 else 0) }
    ensures size { result ≤ 1 }
{
    if z == 0 { 0 } else { 1 }
}

/// How many of the N numbers of s_r aren't 0.
fn weight_of(secrets: &Secret, r: u32, degree: usize) -> u64
    requires first { 1 ≤ r }
    requires last { r ≤ length secrets.now.rows }
    requires degree { length (secret_row secrets.now r) ≡ degree }
    ensures value { result ≡ secret_weight (secret_row secrets.now r) }
    ensures size { result ≤ degree }
{
    let mut weight = 0u64;
    for place in 0..degree {
        weight += counts(secrets.number(r, place));
    }
    weight
}

impl<'a> Workspace<'a> {
    /// Room for the rows of these secrets, turned to that of s_1.
    pub(crate) fn new(
        alloc: Global,
        ring: &Ring,
        secrets: &'a Secret,
    ) -> Result<Workspace<'a>, NoMemory>
        requires degrees { OfDegree ring.now secrets.now }
        requires some { 0 < length secrets.now.rows }
        ensures { IfOk result (λ room. room ≡ record { degree = ring.now; secrets = secrets.now; scalar = false; row = 0 }) }
    {
        let degree = ring.degree();
        let mut phase = Poly::zero(alloc, degree)?;
        let mut opposite = PolyT::zero(alloc, degree)?;
        write_opposite(ring, secrets.poly(false, 0), &mut phase, &mut opposite);
        Ok(Workspace {
            secrets,
            scalar: false,
            row: 0,
            opposite,
            form: PolyT::zero(alloc, degree)?,
            phase,
            message: Poly::zero(alloc, degree)?,
        })
    }

    /// Turns to a row of the scalar secret, or of s_1 to s_n, counted from 0.
    pub(crate) fn turn_to(&mut self, ring: &Ring, scalar: bool, row: u32)
        requires degree { self.old.degree ≡ ring.now }
        requires row { row < length (numbers_under self.old.secrets scalar) }
        requires few { row < 2 ^ 31 }
        ensures { self.new ≡ record self.old { scalar = scalar; row = row } }
    {
        let secrets = self.secrets;
        let secret = secrets.poly(scalar, row as usize);
        write_opposite(ring, secret, &mut self.phase, &mut self.opposite);
        self.scalar = scalar;
        self.row = row;
    }

    /// The weight of the row's secret, which is one of s_1 to s_n.
    pub(crate) fn weight(&self, ring: &Ring) -> u64
        requires degree { self.now.degree ≡ ring.now }
        requires row { self.now.row < length self.now.secrets.rows }
        ensures value { result ≡ secret_weight (slice_index_or self.now.secrets.rows self.now.row []) }
        ensures size { result ≤ ring.now }
    {
        weight_of(self.secrets, self.row + 1, ring.degree())
    }

    /// The norm of the noise of the first-dimension ciphertext of place u and column c, counted from 0.
    pub(crate) fn first_norm(
        &mut self,
        ring: &Ring,
        set: &ParamSet,
        index: u32,
        u: u32,
        c: u32,
        column: &CipherT,
    ) -> u128
        requires measured { IsRowOf set.now ring.now self.old }
        requires column { HasShape set.now.degree (rows set.now + 1) column.now }
        requires few { c < 2 ^ 31 }
        ensures value { result ≡ noise_norm set.now.degree (row_secrets_of set.now self.old.secrets) column.now (first_messages set.now index u (c + 1)) self.old.row }
        ensures size { result ≤ 2 ^ 66 }
        ensures room { self.new ≡ self.old }
    {
        let row = self.row + 1;
        first_message_into(set, index, u, c + 1, row, &mut self.message);
        norm_beyond(
            ring,
            &self.opposite,
            column,
            row,
            &self.message,
            &mut self.form,
            &mut self.phase,
        )
    }

    /// The norm of the noise of column (r, k) of a GSW ciphertext of a bit.
    pub(crate) fn column_norm(
        &mut self,
        ring: &Ring,
        set: &ParamSet,
        bit: bool,
        r: u32,
        k: u32,
        gsw: &Gsw,
    ) -> u128
        requires measured { IsRowOf set.now ring.now self.old }
        requires gsw { IsGsw set.now gsw.now }
        requires row { r ≤ rows set.now }
        requires digit { k < digit_count_of set.now.w_gsw }
        ensures value { result ≡ noise_norm set.now.degree (row_secrets_of set.now self.old.secrets) (cipher_at gsw.now (r * digit_count_of set.now.w_gsw + k)) (gsw_messages set.now (row_secrets_of set.now self.old.secrets) (if bit then 1 else 0) r k) self.old.row }
        ensures size { result ≤ 2 ^ 66 }
        ensures room { self.new ≡ self.old }
    {
        let secrets = self.secrets;
        let row = self.row + 1;
        let power = power_of(set, bit, k);
        column_message_into(ring, secrets, set.pack, power, r, row, &mut self.message);
        norm_beyond(
            ring,
            &self.opposite,
            gsw.column(set, r, k),
            row,
            &self.message,
            &mut self.form,
            &mut self.phase,
        )
    }

    /// The norm of the noise of ciphertext k of the lift key of row r.
    pub(crate) fn lift_norm(
        &mut self,
        ring: &Ring,
        set: &ParamSet,
        r: u32,
        k: u32,
        cipher: &CipherT,
    ) -> u128
        requires measured { IsLiftRow set.now ring.now self.old }
        requires cipher { HasShape set.now.degree (set.now.n + 1) cipher.now }
        requires digit { k < digit_count_of set.now.w_conv }
        ensures value { result ≡ noise_norm set.now.degree (polys_of set.now self.old.secrets.rows) cipher.now (lift_message set.now (scalar_of set.now.degree self.old.secrets) r k) self.old.row }
        ensures size { result ≤ 2 ^ 66 }
        ensures room { self.new ≡ self.old }
    {
        let row = self.row + 1;
        lift_message_into(ring, set, self.secrets, r, k, row, &mut self.message);
        norm_beyond(
            ring,
            &self.opposite,
            cipher,
            row,
            &self.message,
            &mut self.form,
            &mut self.phase,
        )
    }
}
