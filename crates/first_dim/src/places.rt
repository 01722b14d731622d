ghost use Rattle.std.specs.Prelude.{◌≡◌, ◌+◌, ◌*◌, ◌^◌, ◌<◌};
ghost use Rattle.spiral_model.specs.Sets.{IsSet, rows, columns};
ghost use Rattle.spiral_model.specs.Answering.{place_product, first_row};
ghost use Rattle.first_dim.specs.Preparations.{IsMatrix, AreMatrices, AreFirsts, IsSum, added};

use crate::prepared::Matrix;
use regev_code::CipherT;
use ring_poly::{PolyT, Ring};
use spiral_sets::ParamSet;

/// Adds the products of place i: ciphertext r of the place times entry r n + c of the record's matrix, for r below m.
/// It takes no memory.
fn add_place(
    ring: &Ring,
    set: &ParamSet,
    matrix: &[PolyT],
    firsts: &[CipherT],
    i: usize,
    c: usize,
    sum: &mut CipherT,
)
    requires known { IsSet set.now }
    requires degree { ring.now ≡ set.now.degree }
    requires matrix { IsMatrix set.now matrix.now }
    requires firsts { AreFirsts set.now firsts.now }
    requires place { i < 2 ^ set.now.nu1 }
    requires column { c < columns set.now }
    requires sum { IsSum set.now.degree (rows set.now + 1) sum.old }
    ensures value { sum.new ≡ added set.now.degree sum.old (place_product set.now firsts.now matrix.now i c) }
    ensures sum { IsSum set.now.degree (rows set.now + 1) sum.new }
{
    let rows = set.rows() as usize;
    let n = set.n as usize;
    for r in 0..rows {
        sum.add_product(ring, &matrix[r * n + c], &firsts[i * rows + r]);
    }
}

/// Adds the products of all places of the first dimension, at folded place j: those of place i with the matrix of record
/// j 2^nu1 + i. It takes no memory.
pub(crate) fn add_places(
    ring: &Ring,
    set: &ParamSet,
    matrices: &[Matrix],
    firsts: &[CipherT],
    j: usize,
    c: usize,
    sum: &mut CipherT,
)
    requires degree { ring.now ≡ set.now.degree }
    requires matrices { AreMatrices set.now matrices.now }
    requires firsts { AreFirsts set.now firsts.now }
    requires folded { j < 2 ^ set.now.nu2 }
    requires column { c < columns set.now }
    requires sum { IsSum set.now.degree (rows set.now + 1) sum.old }
    ensures value { sum.new ≡ added set.now.degree sum.old (first_row set.now matrices.now firsts.now j c) }
    ensures sum { IsSum set.now.degree (rows set.now + 1) sum.new }
{
    let places = set.places() as usize;
    for i in 0..places {
        let matrix = &matrices[j * places + i];
        add_place(ring, set, &matrix.entries, firsts, i, c, sum);
    }
}
