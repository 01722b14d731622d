ghost use Rattle.std.specs.Prelude.{◌≡◌, ℕ, ◌+◌, ◌*◌, ◌^◌, ◌≤◌, length, map, take, All};
ghost use Rattle.std.specs.List.{range_with_len};
ghost use Rattle.spiral_model.specs.Sets.{rows};
ghost use Rattle.spiral_model.specs.Words.{cipher_at};
ghost use Rattle.spiral_model.specs.Gadgets.{selected};
ghost use Rattle.spiral_model.specs.Answering.{fold_step, folded};
ghost use Rattle.regev_code.specs.Products.{HasShape};
ghost use Rattle.gsw_code.specs.Products.{IsGsw};

use gsw_code::Gsw;
use regev_code::{Cipher, Scratch};
use ring_poly::Ring;

/// Selects each ciphertext of `low` against that of `high` in the same place.
fn fold_half(ring: &Ring, gsw: &Gsw, low: &mut [Cipher], high: &[Cipher], scratch: &mut Scratch)
    requires ring { ring.now ≡ scratch.old.degree }
    requires gsw { IsGsw scratch.old gsw.now }
    requires partners { length low.old ≤ length high.now }
    requires low { All (HasShape ring.now (rows scratch.old + 1)) low.old }
    requires high { All (HasShape ring.now (rows scratch.old + 1)) high.now }
    ensures value { low.new ≡ map (λ x. selected ring.now scratch.old.w_gsw gsw.now (cipher_at low.old x) (cipher_at high.now x)) (range_with_len 0 (length low.old)) }
    ensures shapes { All (HasShape ring.now (rows scratch.old + 1)) low.new }
    ensures scratch { scratch.new ≡ scratch.old }
{
    for x in 0..low.len() {
        let cipher = &mut low[x];
        gsw.select_into(ring, cipher, &high[x], scratch);
    }
}

/// One step on the first 2 `half` ciphertexts: the first `half` become those of the step.
fn fold_once(ring: &Ring, gsw: &Gsw, half: usize, ciphers: &mut [Cipher], scratch: &mut Scratch)
    requires ring { ring.now ≡ scratch.old.degree }
    requires gsw { IsGsw scratch.old gsw.now }
    requires within { 2 * half ≤ length ciphers.old }
    requires shapes { All (HasShape ring.now (rows scratch.old + 1)) ciphers.old }
    ensures value { take half ciphers.new ≡ fold_step ring.now scratch.old.w_gsw gsw.now (take (2 * half) ciphers.old) }
    ensures shapes { All (HasShape ring.now (rows scratch.old + 1)) ciphers.new }
    ensures scratch { scratch.new ≡ scratch.old }
{
    let (low, high) = ciphers.split_at_mut(half);
    fold_half(ring, gsw, low, high, scratch);
}

/// A step for each selection, each on half as many ciphertexts as the one before. `count` are left of 2^k `count` for k
/// selections.
pub(crate) fn fold_all(ring: &Ring, gsws: &[Gsw], ciphers: &mut [Cipher], scratch: &mut Scratch)
    requires ring { ring.now ≡ scratch.old.degree }
    requires gsws { All (IsGsw scratch.old) gsws.now }
    requires shapes { All (HasShape ring.now (rows scratch.old + 1)) ciphers.old }
    ensures value { (count : ℕ) → length ciphers.old ≡ 2 ^ length gsws.now * count → take count ciphers.new ≡ folded ring.now scratch.old.w_gsw gsws.now ciphers.old }
    ensures shapes { All (HasShape ring.now (rows scratch.old + 1)) ciphers.new }
    ensures scratch { scratch.new ≡ scratch.old }
{
    let mut size = ciphers.len();
    for gsw in gsws {
        size /= 2;
        fold_once(ring, gsw, size, ciphers, scratch);
    }
}
