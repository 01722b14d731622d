ghost use Rattle.std.specs.Prelude.{◌≡◌, ◌+◌, ◌*◌, ◌<◌, ◌≤◌, length, All, IfOk};
ghost use Rattle.spiral_sets.specs.Sets.{IsSet, digit_count as digit_count_of, rows};
ghost use Rattle.spiral_sets.specs.Counts.{gsw_count};
ghost use Rattle.spiral_model.specs.Words.{cipher_at};
ghost use Rattle.regev_code.specs.Products.{HasShape};
ghost use Rattle.gsw_code.specs.Products.{IsGsw};

use gadget_digits::digit_count;
use no_memory::NoMemory;
use regev_code::{Cipher, CipherT, forms_of};
use ring_poly::Ring;
use spiral_sets::ParamSet;
use std::alloc::Global;
use std::marker::Model;

/// A GSW ciphertext of a bit, ready to multiply by: its columns in product form, by r from 0 to m, within r by k below
/// t. Seen as the list of these columns.
#[derive(Debug, Drop)]
pub struct Gsw {
    pub(crate) columns: Vec<CipherT>,
}

impl Model for Gsw {
    ghost use Rattle.spiral_model.specs.Words.{Gsw as GswOf};

    ghost Value = { GswOf };

    ghost view = { λ g. g.columns.items };
}

/// A query as a server works with it, in product form: the ciphertexts of the first dimension by place, within a place by
/// column, and the GSW ciphertext of each selection, that of the highest bit first.
#[derive(Debug)]
pub struct Ready {
    pub firsts: Vec<CipherT>,
    pub gsws: Vec<Gsw>,
}

impl Model for Ready {
    ghost use Rattle.spiral_model.specs.Answering.{Ready as ReadyOf};

    ghost Value = { ReadyOf };

    ghost view = { λ r. record { firsts = r.firsts.items; gsws = r.gsws.items } };
}

/// By hand: a caller's proof then takes one step for it, and not one for each of its lists.
impl Drop for Ready {
    fn drop(self) {
        let Self { firsts: _, gsws: _ } = self;
    }
}

impl Gsw {
    /// The GSW ciphertext with these columns.
    pub fn from_columns(
        alloc: Global,
        ring: &Ring,
        set: &ParamSet,
        columns: &[Cipher],
    ) -> Result<Gsw, NoMemory>
        requires known { IsSet set.now }
        requires ring { ring.now ≡ set.now.degree }
        requires count { length columns.now ≡ gsw_count set.now }
        requires shapes { All (HasShape set.now.degree (rows set.now + 1)) columns.now }
        ensures value { IfOk result (λ gsw. gsw ≡ columns.now) }
        ensures shape { IfOk result (λ gsw. IsGsw set.now gsw) }
    {
        Ok(Gsw {
            columns: forms_of(alloc, ring, columns)?,
        })
    }

    /// The GSW ciphertext with these columns, which are in product form already.
    pub fn from_forms(columns: Vec<CipherT>) -> Gsw
        ensures { result ≡ columns.items }
    {
        Gsw { columns }
    }

    /// Column (r, k), for a row r from 0 to m and a digit k below t.
    pub fn column(&self, set: &ParamSet, r: u32, k: u32) -> &CipherT
        requires known { IsSet set.now }
        requires gsw { IsGsw set.now self.now }
        requires row { r ≤ rows set.now }
        requires digit { k < digit_count_of set.now.w_gsw }
        ensures value { result.now ≡ cipher_at self.now (r * digit_count_of set.now.w_gsw + k) }
        ensures shape { HasShape set.now.degree (rows set.now + 1) result.now }
    {
        &self.columns[r as usize * digit_count(set.w_gsw) as usize + k as usize]
    }
}
