ghost use Rattle.std.specs.Prelude.{◌≡◌, ◌+◌, ◌*◌, ◌^◌, ◌<◌, ◌≤◌, length, All};
ghost use Rattle.spiral_model.specs.Sets.{rows, columns};
ghost use Rattle.spiral_model.specs.Answering.{first_product, first_products};
ghost use Rattle.spiral_model.specs.Counts.{firsts_count};
ghost use Rattle.regev_code.specs.Products.{HasShape};
ghost use Rattle.first_dim.specs.Preparations.{AreMatrices, AreFirsts};

use crate::Prepared;
use crate::places::add_places;
use crate::prepared::Matrix;
use pir_io::Gate;
use regev_code::{Cipher, CipherT, Scratch, from_form};
use ring_poly::Ring;
use spiral_sets::ParamSet;
use std::thread::Threads;

/// Writes column c of R_j, summed up in `sum`. It takes no memory.
fn product_into(
    ring: &Ring,
    set: &ParamSet,
    matrices: &[Matrix],
    firsts: &[CipherT],
    j: usize,
    c: usize,
    sum: &mut CipherT,
    out: &mut Cipher,
)
    requires degree { ring.now ≡ set.now.degree }
    requires matrices { AreMatrices set.now matrices.now }
    requires firsts { AreFirsts set.now firsts.now }
    requires folded { j < 2 ^ set.now.nu2 }
    requires column { c < columns set.now }
    requires sum { HasShape set.now.degree (rows set.now + 1) sum.old }
    requires out { HasShape set.now.degree (rows set.now + 1) out.old }
    ensures value { out.new ≡ first_product set.now matrices.now firsts.now j c }
    ensures shape { HasShape set.now.degree (rows set.now + 1) out.new }
    ensures sum { HasShape set.now.degree (rows set.now + 1) sum.new }
{
    sum.clear();
    add_places(ring, set, matrices, firsts, j, c, sum);
    from_form(ring, sum, out);
}

/// Writes column c of R_j, with the scratch's sum of so many rows. It takes no memory.
fn product_by(
    ring: &Ring,
    set: &ParamSet,
    matrices: &[Matrix],
    firsts: &[CipherT],
    j: usize,
    c: usize,
    scratch: &mut Scratch,
    out: &mut Cipher,
)
    requires degree { ring.now ≡ set.now.degree }
    requires matrices { AreMatrices set.now matrices.now }
    requires firsts { AreFirsts set.now firsts.now }
    requires folded { j < 2 ^ set.now.nu2 }
    requires column { c < columns set.now }
    requires scratch { scratch.old ≡ set.now }
    requires out { HasShape set.now.degree (rows set.now + 1) out.old }
    ensures value { out.new ≡ first_product set.now matrices.now firsts.now j c }
    ensures shape { HasShape set.now.degree (rows set.now + 1) out.new }
    ensures scratch { scratch.new ≡ scratch.old }
{
    if set.pack {
        product_into(ring, set, matrices, firsts, j, c, &mut scratch.scalar, out);
    } else {
        product_into(ring, set, matrices, firsts, j, c, &mut scratch.matrix, out);
    }
}

/// Writes all columns, with one scratch. It takes no memory.
fn products_by(
    ring: &Ring,
    set: &ParamSet,
    matrices: &[Matrix],
    firsts: &[CipherT],
    out: &mut [Cipher],
    scratch: &mut Scratch,
)
    requires degree { ring.now ≡ set.now.degree }
    requires matrices { AreMatrices set.now matrices.now }
    requires firsts { AreFirsts set.now firsts.now }
    requires count { length out.old ≡ 2 ^ set.now.nu2 * columns set.now }
    requires shapes { All (λ c. HasShape set.now.degree (rows set.now + 1) c) out.old }
    requires scratch { scratch.old ≡ set.now }
    ensures value { out.new ≡ first_products set.now matrices.now firsts.now }
    ensures shapes { All (λ c. HasShape set.now.degree (rows set.now + 1) c) out.new }
    ensures scratch { scratch.new ≡ scratch.old }
{
    let columns = set.columns() as usize;
    for place in 0..out.len() {
        let cipher = &mut out[place];
        product_by(
            ring,
            set,
            matrices,
            firsts,
            place / columns,
            place % columns,
            scratch,
            cipher,
        );
    }
}

/// Writes the first dimension of an answer: at place j columns + c column c of R_j, the sum over the places i of the
/// ciphertexts of place i times the matrix of record j 2^nu1 + i. It works in one piece, with the first scratch alone,
/// and takes no memory.
pub fn products<R: Threads + Sync, G: Gate>(
    _rt: &R,
    ring: &Ring,
    db: &Prepared,
    firsts: &[CipherT],
    out: &mut [Cipher],
    scratch: &mut [Scratch],
    gate: &G,
)
    requires degree { ring.now ≡ db.now.set.degree }
    requires firsts { length firsts.now ≡ firsts_count db.now.set }
    requires first_shapes { All (λ c. HasShape db.now.set.degree (rows db.now.set + 1) c) firsts.now }
    requires out { length out.old ≡ 2 ^ db.now.set.nu2 * columns db.now.set }
    requires out_shapes { All (λ c. HasShape db.now.set.degree (rows db.now.set + 1) c) out.old }
    requires some { 1 ≤ length scratch.old }
    requires few { length scratch.old ≤ 64 }
    requires scratch { All (λ s. s ≡ db.now.set) scratch.old }
    ensures value { out.new ≡ first_products db.now.set db.now.matrices firsts.now }
    ensures shapes { All (λ c. HasShape db.now.set.degree (rows db.now.set + 1) c) out.new }
    ensures scratch { All (λ s. s ≡ db.now.set) scratch.new }
{
    gate.pass(0);
    let room = &mut scratch[0];
    products_by(ring, &db.set, &db.matrices, firsts, out, room);
}
