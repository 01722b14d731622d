ghost use Rattle.std.specs.Prelude.{◌≡◌, ◌+◌, ◌*◌, ◌^◌, ◌≤◌, length, take, All};
ghost use Rattle.spiral_model.specs.Sets.{IsSet, rows, columns, folded_places};
ghost use Rattle.spiral_model.specs.Answering.{first_products, folded};
ghost use Rattle.regev_code.specs.Products.{HasShape};
ghost use Rattle.gsw_code.specs.Products.{IsReady};

use first_dim::{Prepared, products};
use fold_dims::fold;
use gsw_code::Ready;
use pir_io::Gate;
use regev_code::{Cipher, Scratch};
use ring_poly::Ring;
use spiral_model::ParamSet;
use std::thread::Threads;

/// Works out the first dimension of a query made ready, and folds it: the first `columns` ciphertexts hold the result. It takes no
/// memory.
pub(crate) fn work_out<R: Threads + Sync, G: Gate>(
    rt: &R,
    ring: &Ring,
    set: &ParamSet,
    prepared: &Prepared,
    ready: &Ready,
    outputs: &mut [Cipher],
    scratch: &mut [Scratch],
    gate: &G,
)
    requires known { IsSet set.now }
    requires prepared { prepared.now.set ≡ set.now }
    requires degree { ring.now ≡ set.now.degree }
    requires ready { IsReady set.now ready.now }
    requires count { length outputs.old ≡ folded_places set.now * columns set.now }
    requires shapes { All (HasShape set.now.degree (rows set.now + 1)) outputs.old }
    requires some { 1 ≤ length scratch.old }
    requires few { length scratch.old ≤ 64 }
    requires sets { All (λ s. s ≡ set.now) scratch.old }
    ensures value { take (columns set.now) outputs.new ≡ folded set.now.degree set.now.w_gsw ready.now.gsws (first_products set.now prepared.now.matrices ready.now.firsts) }
    ensures shapes { All (HasShape set.now.degree (rows set.now + 1)) outputs.new }
    ensures sets { All (λ s. s ≡ set.now) scratch.new }
{
    products(rt, ring, prepared, &ready.firsts, outputs, scratch, gate);
    fold(rt, ring, set, outputs, &ready.gsws, scratch, gate);
}
