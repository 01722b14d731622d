ghost use Rattle.std.specs.Prelude.{◌≡◌, ◌<◌, ◌≤◌, length, slice_index, All, IfOk};
ghost use Rattle.negacyclic.specs.Residues.{residue};
ghost use Rattle.negacyclic.specs.Ring.{reduced};
ghost use Rattle.spiral_model.specs.Sets.{q};
ghost use Rattle.spiral_model.specs.Records.{centred_value};
ghost use Rattle.ring_poly.specs.Polynomials.{AreResidues};

use no_memory::NoMemory;
use ring_poly::{Poly, PolyT, Ring};
use spiral_sets::Q;
use std::alloc::Global;

/// The residue of a value below p, taken as a whole number around 0: v where v is below p / 2, else q - (p - v).
#[tactic(auto, unfolding(spiral_sets::specs::Sets::q))]
fn residue_of(v: u64, p: u64) -> u64
    requires most { p ≤ 32768 }
    requires value { v < p }
    ensures value { result ≡ residue q (centred_value p v) }
    ensures residue { result < q }
{
    if v < p / 2 { v } else { Q - (p - v) }
}

/// Replaces each value by its residue.
fn centre(numbers: &mut [u64], p: u64)
    requires most { p ≤ 32768 }
    requires values { All (λ v. v < p) numbers.old }
    ensures value { numbers.new ≡ reduced q (length numbers.old) (λ k. centred_value p (slice_index numbers.old k)) }
    ensures residues { AreResidues numbers.new }
{
    for k in 0..numbers.len() {
        numbers[k] = residue_of(numbers[k], p);
    }
}

/// An entry of a record's matrix, in product form, from its values below p, which it overwrites; `poly` is room for
/// the entry.
pub(crate) fn entry_form(
    alloc: Global,
    ring: &Ring,
    values: &mut [u64],
    p: u64,
    poly: &mut Poly,
) -> Result<PolyT, NoMemory>
    requires most { p ≤ 32768 }
    requires values { All (λ v. v < p) values.old }
    requires degree { length values.old ≡ ring.now }
    requires poly { length poly.old ≡ ring.now }
    ensures value { IfOk result (λ a. a ≡ reduced q ring.now (λ k. centred_value p (slice_index values.old k))) }
    ensures poly { length poly.new ≡ ring.now }
{
    centre(values, p);
    poly.put_coeffs(values);
    let mut form = PolyT::zero(alloc, ring.degree())?;
    ring.to_product(poly, &mut form);
    Ok(form)
}
