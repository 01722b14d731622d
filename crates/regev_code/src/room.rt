ghost use Rattle.std.specs.Prelude.{◌≡◌, IfOk};
ghost use Rattle.spiral_model.specs.Sets.{IsSet};

use crate::CipherT;
use crate::product_form::zero_forms;
use gadget_digits::digit_count;
use no_memory::NoMemory;
use ring_poly::{Poly, PolyT, SumT};
use spiral_model::ParamSet;
use std::alloc::Global;
use std::marker::Model;

/// Room in which digit sums of a set are worked out, so that they take no memory. Seen as its set alone.
pub struct Room {
    set: ParamSet,
    /// the numbers of a polynomial
    pub(crate) numbers: Vec<u64>,
    /// their digits, at the set's least width
    pub(crate) digits: Vec<u64>,
    /// one of its digits
    pub(crate) poly: Poly,
    /// all of them in product form
    pub(crate) forms: Vec<PolyT>,
    /// their products with a row of a key
    pub(crate) sum: SumT,
}

impl Model for Room {
    ghost use Rattle.spiral_sets.specs.declared.param_set.ParamSet.{ParamSet};
    ghost use Rattle.regev_code.specs.Products.{IsRoom};

    ghost Value = { ParamSet };

    ghost view = { λ r. r.set };

    ghost invariant = { λ r. IsRoom r.set r.numbers.items r.digits.items r.poly r.forms.items r.sum };
}

/// By hand: a caller's proof then takes one step for it, and not one for each of its lists.
impl Drop for Room {
    fn drop(self) {
        let Self {
            set: _,
            numbers: _,
            digits: _,
            poly: _,
            forms: _,
            sum: _,
        } = self;
    }
}

impl Room {
    /// Room for a set.
    pub fn new(alloc: Global, set: &ParamSet) -> Result<Room, NoMemory>
        requires { IsSet set.now }
        ensures { IfOk result (λ room. room ≡ set.now) }
    {
        let degree = set.degree as usize;
        let count = digit_count(set.least_width());
        Ok(Room {
            set: *set,
            numbers: vec![in alloc; 0u64; degree]?,
            digits: vec![in alloc; 0u64; count as usize * degree]?,
            poly: Poly::zero(alloc, degree)?,
            forms: zero_forms(alloc, degree, count)?,
            sum: SumT::zero(alloc, degree)?,
        })
    }
}

/// Room in which a set's products of ciphertexts are worked out, so that they take no memory. Seen as its set alone.
pub struct Scratch {
    pub set: ParamSet,
    pub room: Room,
    /// a ciphertext of rows 0 to n
    pub matrix: CipherT,
    /// a ciphertext of rows 0 and 1
    pub scalar: CipherT,
    pub first: Poly,
    pub second: Poly,
}

impl Model for Scratch {
    ghost use Rattle.spiral_sets.specs.declared.param_set.ParamSet.{ParamSet};
    ghost use Rattle.regev_code.specs.Products.{IsScratch};

    ghost Value = { ParamSet };

    ghost view = { λ s. s.set };

    ghost invariant = { λ s. IsScratch s.set s.room s.matrix s.scalar s.first s.second };
}

/// By hand: a caller's proof then takes one step for it, and not one for each of its lists.
impl Drop for Scratch {
    fn drop(self) {
        let Self {
            set: _,
            room: _,
            matrix: _,
            scalar: _,
            first: _,
            second: _,
        } = self;
    }
}

impl Scratch {
    /// Room for a set.
    pub fn new(alloc: Global, set: &ParamSet) -> Result<Scratch, NoMemory>
        requires { IsSet set.now }
        ensures { IfOk result (λ scratch. scratch ≡ set.now) }
    {
        let degree = set.degree as usize;
        Ok(Scratch {
            set: *set,
            room: Room::new(alloc, set)?,
            matrix: CipherT::zero(alloc, set, set.n)?,
            scalar: CipherT::zero(alloc, set, 1)?,
            first: Poly::zero(alloc, degree)?,
            second: Poly::zero(alloc, degree)?,
        })
    }
}
