//! The server's fold: it halves a list of ciphertexts once for each selection, until one place is left.
#![tactic(auto)]

ghost use Rattle.std.specs.Prelude.{◌≡◌, ◌+◌, ◌*◌, ◌^◌, ◌≤◌, length, take, All};
ghost use Rattle.spiral_model.specs.Sets.{IsSet, columns, rows};
ghost use Rattle.spiral_model.specs.Answering.{folded};
ghost use Rattle.regev_code.specs.Products.{HasShape};
ghost use Rattle.gsw_code.specs.Products.{IsGsw};

mod steps;

use crate::steps::fold_all;
use gsw_code::Gsw;
use pir_io::Gate;
use regev_code::{Cipher, Scratch};
use ring_poly::Ring;
use spiral_sets::ParamSet;
use std::thread::Threads;

/// Folds the ciphertexts of the first dimension, by folded place, within it by column: for each selection, that of the
/// highest bit first, the lower half of the list at hand is selected against the upper half. The first `columns`
/// ciphertexts are the result; what stands behind them isn't promised. The work is done in one piece, and takes no
/// memory.
pub fn fold<R: Threads + Sync, G: Gate>(
    _rt: &R,
    ring: &Ring,
    set: &ParamSet,
    ciphers: &mut [Cipher],
    gsws: &[Gsw],
    scratch: &mut [Scratch],
    gate: &G,
)
    requires known { IsSet set.now }
    requires ring { ring.now ≡ set.now.degree }
    requires count { length ciphers.old ≡ 2 ^ set.now.nu2 * columns set.now }
    requires shapes { All (HasShape ring.now (rows set.now + 1)) ciphers.old }
    requires gsw_count { length gsws.now ≡ set.now.nu2 }
    requires gsws { All (IsGsw set.now) gsws.now }
    requires some { 1 ≤ length scratch.old }
    requires most { length scratch.old ≤ 64 }
    requires scratch { All (λ s. s ≡ set.now) scratch.old }
    ensures value { take (columns set.now) ciphers.new ≡ folded set.now.degree set.now.w_gsw gsws.now ciphers.old }
    ensures shapes { All (HasShape ring.now (rows set.now + 1)) ciphers.new }
    ensures length { length ciphers.new ≡ length ciphers.old }
    ensures scratch { All (λ s. s ≡ set.now) scratch.new }
{
    gate.pass(0);
    let room = &mut scratch[0];
    fold_all(ring, gsws, ciphers, room);
}
