//! The negacyclic ring and numbers by their digits: definitions, and the laws that they obey.
//! The definitions stand in `specs/`; each law is the contract of a function that does nothing.
#![tactic(auto)]

ghost use Rattle.negacyclic.specs.Laws.{NumbersOfDigits, DigitsOfNumbers, RepackedBack};

mod ring_laws;

pub use ring_laws::{
    cen_is_least, cen_of_multiple, cen_of_residue, cen_of_sum, norm_bounds_product,
    ring_add_associates, ring_add_commutes, ring_mul_associates, ring_mul_by_difference,
    ring_mul_by_sum, ring_mul_by_zero, ring_mul_commutes, ring_mul_of_difference, ring_mul_of_sum,
    ring_mul_of_total, ring_one_is_neutral, ring_sub_undoes_add, ring_zero_is_neutral,
    scale_of_product, scale_of_sum, shift_by_half, shift_by_whole, shift_keeps_bound,
    shift_of_product, shift_of_sum, shifts_compose, tau_keeps_bound, tau_of_product, tau_of_shift,
    tau_of_sum, taus_compose, total_of_none, total_of_one_more,
};

/// The digits of a number write that number again, modulo the power of the base that they reach.
pub fn numbers_of_digits()
    ensures { NumbersOfDigits }
{}

/// The digits of the number that a list of digits writes are that list.
pub fn digits_of_numbers()
    ensures { DigitsOfNumbers }
{}

/// Values of one width, cut into values of another width and back, are the same values.
pub fn repacked_back()
    ensures { RepackedBack }
{}
