//! The laws of the negacyclic ring, each the contract of a function that does nothing.

ghost use Rattle.negacyclic.specs.RingLaws.{RingAddCommutes, RingAddAssociates, RingZeroIsNeutral, RingSubUndoesAdd, RingMulCommutes, RingMulAssociates, RingMulOfSum, RingMulBySum, RingMulOfDifference, RingMulByDifference, RingMulByZero, RingOneIsNeutral, ScaleOfSum, ScaleOfProduct, RingMulOfTotal, TotalOfNone, TotalOfOneMore, ShiftsCompose, ShiftOfSum, ShiftOfProduct, ShiftByHalf, ShiftByWhole, TauOfSum, TauOfProduct, TausCompose, TauOfShift, CenOfResidue, CenIsLeast, CenOfSum, CenOfMultiple, NormBoundsProduct, ShiftKeepsBound, TauKeepsBound};

/// The order of two summands is free.
#[tactic(auto, using(crate::proofs::Ring::ring_add_comm))]
pub fn ring_add_commutes()
    ensures { RingAddCommutes }
{}

/// The order of two additions is free.
#[tactic(auto, using(crate::proofs::Ring::ring_add_assoc))]
pub fn ring_add_associates()
    ensures { RingAddAssociates }
{}

/// A polynomial plus 0 is that polynomial.
#[tactic(auto, using(crate::proofs::Ring::ring_add_zero))]
pub fn ring_zero_is_neutral()
    ensures { RingZeroIsNeutral }
{}

/// What was taken away and is added again makes no difference.
#[tactic(auto, using(crate::proofs::Ring::ring_add_sub))]
pub fn ring_sub_undoes_add()
    ensures { RingSubUndoesAdd }
{}

/// The order of two factors is free.
#[tactic(auto, using(crate::proofs::Ring::ring_mul_comm))]
pub fn ring_mul_commutes()
    ensures { RingMulCommutes }
{}

/// The order of two products is free.
#[tactic(auto, using(crate::proofs::Ring::ring_mul_assoc))]
pub fn ring_mul_associates()
    ensures { RingMulAssociates }
{}

/// The product with a sum is the sum of the products.
#[tactic(auto, using(crate::proofs::Ring::ring_mul_add))]
pub fn ring_mul_of_sum()
    ensures { RingMulOfSum }
{}

/// The product of a sum is the sum of the products.
#[tactic(auto, using(crate::proofs::Ring::ring_add_mul))]
pub fn ring_mul_by_sum()
    ensures { RingMulBySum }
{}

/// The product with a difference is the difference of the products.
#[tactic(auto, using(crate::proofs::Ring::ring_mul_sub))]
pub fn ring_mul_of_difference()
    ensures { RingMulOfDifference }
{}

/// The product of a difference is the difference of the products.
#[tactic(auto, using(crate::proofs::Ring::ring_sub_mul))]
pub fn ring_mul_by_difference()
    ensures { RingMulByDifference }
{}

/// The product with 0 is 0.
#[tactic(auto, using(crate::proofs::Ring::ring_mul_zero))]
pub fn ring_mul_by_zero()
    ensures { RingMulByZero }
{}

/// The product of 1 and a polynomial is that polynomial.
#[tactic(auto, using(crate::proofs::Ring::ring_one_mul))]
pub fn ring_one_is_neutral()
    ensures { RingOneIsNeutral }
{}

/// A multiple of a sum is the sum of the multiples.
#[tactic(auto, using(crate::proofs::Ring::ring_scale_add))]
pub fn scale_of_sum()
    ensures { ScaleOfSum }
{}

/// A multiple of a product is the product with the multiple of a factor.
#[tactic(auto, using(crate::proofs::Ring::ring_scale_mul))]
pub fn scale_of_product()
    ensures { ScaleOfProduct }
{}

/// The product with a sum of many is the sum of the products.
#[tactic(auto, using(crate::proofs::Ring::ring_mul_total))]
pub fn ring_mul_of_total()
    ensures { RingMulOfTotal }
{}

/// The sum of no polynomials is 0.
#[tactic(auto, using(crate::proofs::Ring::ring_total_none))]
pub fn total_of_none()
    ensures { TotalOfNone }
{}

/// One polynomial more in a sum is added to it.
#[tactic(auto, using(crate::proofs::Ring::ring_total_more))]
pub fn total_of_one_more()
    ensures { TotalOfOneMore }
{}

/// x^s (x^t a) = x^(s + t) a
#[tactic(auto, using(crate::proofs::Shift::ring_shift_shift))]
pub fn shifts_compose()
    ensures { ShiftsCompose }
{}

/// x^s (a + b) = x^s a + x^s b
#[tactic(auto, using(crate::proofs::Shift::ring_shift_add))]
pub fn shift_of_sum()
    ensures { ShiftOfSum }
{}

/// x^s (a b) = (x^s a) b
#[tactic(auto, using(crate::proofs::Shift::ring_shift_mul))]
pub fn shift_of_product()
    ensures { ShiftOfProduct }
{}

/// x^N a = -a
#[tactic(auto, using(crate::proofs::Shift::ring_shift_half))]
pub fn shift_by_half()
    ensures { ShiftByHalf }
{}

/// x^(2N) a = a
#[tactic(auto, using(crate::proofs::Shift::ring_shift_round))]
pub fn shift_by_whole()
    ensures { ShiftByWhole }
{}

/// The automorphism of a sum is the sum of the automorphisms.
#[tactic(auto, using(crate::proofs::Automorphism::tau_add))]
pub fn tau_of_sum()
    ensures { TauOfSum }
{}

/// The automorphism of a product is the product of the automorphisms.
#[tactic(auto, using(crate::proofs::Automorphism::tau_mul))]
pub fn tau_of_product()
    ensures { TauOfProduct }
{}

/// The automorphism of g after that of e is the automorphism of g e.
#[tactic(auto, using(crate::proofs::Automorphism::tau_tau))]
pub fn taus_compose()
    ensures { TausCompose }
{}

/// The automorphism of x^s a is x^(g s) times the automorphism of a.
#[tactic(auto, using(crate::proofs::Automorphism::tau_shift))]
pub fn tau_of_shift()
    ensures { TauOfShift }
{}

/// The centred representative of a residue has that residue.
#[tactic(auto, using(crate::proofs::Residues::residue_cen))]
pub fn cen_of_residue()
    ensures { CenOfResidue }
{}

/// No whole number with that residue is smaller in absolute value.
#[tactic(auto, using(crate::proofs::Residues::cen_smallest))]
pub fn cen_is_least()
    ensures { CenIsLeast }
{}

/// The triangle law: a sum modulo q is at most as large as its two summands together.
#[tactic(auto, using(crate::proofs::Residues::cen_residue_add))]
pub fn cen_of_sum()
    ensures { CenOfSum }
{}

/// A multiple modulo q is at most as large as the multiple of the absolute value.
#[tactic(auto, using(crate::proofs::Residues::cen_residue_mul))]
pub fn cen_of_multiple()
    ensures { CenOfMultiple }
{}

/// Where m bounds the centred representatives of a, m times the norm of b bounds those of the product.
#[tactic(auto, using(crate::proofs::Norm::norm_bounds))]
pub fn norm_bounds_product()
    ensures { NormBoundsProduct }
{}

/// A product with a power of x keeps a bound of the centred representatives.
#[tactic(auto, using(crate::proofs::Bounds::ring_shift_bound))]
pub fn shift_keeps_bound()
    ensures { ShiftKeepsBound }
{}

/// The automorphism of g, where g e = 1 modulo 2N for some e, keeps a bound of the centred representatives.
pub fn tau_keeps_bound()
    ensures { TauKeepsBound }
{}
