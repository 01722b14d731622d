ghost use Rattle.std.specs.Prelude.{ℕ, ◌≡◌, ◌^◌, ◌<◌, length, slice_index, All, IfOk};
ghost use Rattle.spiral_model.specs.Sets.{entries, max_records};
ghost use Rattle.spiral_model.specs.Records.{entry_of};
ghost use Rattle.spiral_model.specs.Databases.{values_at, matrix_of, matrices_of};

use crate::entries::entry_form;
use crate::prepared::Matrix;
use no_memory::NoMemory;
use record_store::Database;
use ring_poly::{Poly, Ring};
use std::alloc::Global;

/// Writes the values of entry e of the matrix of record i.
fn write_values(db: &Database, i: u32, e: u32, values: &mut [u64])
    requires record { i < max_records db.now.set }
    requires entry { e < entries db.now.set }
    requires count { length values.old ≡ db.now.set.degree }
    ensures value { (k : ℕ) → k < db.now.set.degree → slice_index values.new k ≡ slice_index (entry_of db.now.set (values_at db.now i) e) k }
    ensures below { All (λ v. v < 2 ^ db.now.set.p_bits) values.new }
{
    let degree = db.set().degree;
    for k in 0..degree {
        values[k as usize] = db.value(i, e, k);
    }
}

/// The matrix of record i, or of a place without a record; `values` and `poly` are room for an entry.
fn record_matrix(
    alloc: Global,
    ring: &Ring,
    db: &Database,
    i: u32,
    values: &mut [u64],
    poly: &mut Poly,
) -> Result<Matrix, NoMemory>
    requires degree { ring.now ≡ db.now.set.degree }
    requires record { i < max_records db.now.set }
    requires values { length values.old ≡ ring.now }
    requires poly { length poly.old ≡ ring.now }
    ensures value { IfOk result (λ matrix. matrix ≡ matrix_of db.now i) }
    ensures poly { length poly.new ≡ ring.now }
{
    let set = db.set();
    let mut entries = Vec::new(alloc);
    for e in 0..set.entries() {
        write_values(db, i, e, values);
        entries.push(entry_form(alloc, ring, values, set.p(), poly)?)?;
    }
    Ok(Matrix { entries })
}

/// The matrices of all places of a database.
pub(crate) fn record_matrices(
    alloc: Global,
    ring: &Ring,
    db: &Database,
) -> Result<Vec<Matrix>, NoMemory>
    requires { ring.now ≡ db.now.set.degree }
    ensures { IfOk result (λ matrices. matrices.items ≡ matrices_of db.now) }
{
    let mut values = vec![in alloc; 0u64; ring.degree()]?;
    let mut poly = Poly::zero(alloc, ring.degree())?;
    let mut matrices = Vec::new(alloc);
    for i in 0..db.set().max_records() as u32 {
        matrices.push(record_matrix(alloc, ring, db, i, &mut values, &mut poly)?)?;
    }
    Ok(matrices)
}
