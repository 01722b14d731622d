ghost use Rattle.std.specs.Prelude.{◌≡◌, ◌+◌, ◌≤◌, true, false, length, IfOk, OnOk};
ghost use Rattle.spiral_sets.specs.Sets.{IsSet, has_keys};
ghost use Rattle.spiral_sets.specs.Counts.{setup_ciphertexts, words_of};
ghost use Rattle.spiral_model.specs.Bodies.{IsSetup};
ghost use Rattle.regev_code.specs.Shapes.{OfDegree, taken, under};
ghost use Rattle.key_deal.specs.DealtKeys.{keys_behind};

use crate::conversion::draw_conversion;
use crate::lifts::draw_lifts;
use crate::rounds::draw_rounds;
use no_memory::NoMemory;
use regev_code::{Draw, KeyBody, Secret};
use ring_poly::Ring;
use spiral_sets::ParamSet;
use std::alloc::Global;

/// The keys that words deal for a set: rounds under s, lifts under s_1 to s_n, the conversion key under the secrets of GSW
/// ciphertexts. A round's key is that of its automorphism g_j = N / 2^j + 1; ciphertext k of the lift key of row r encrypts
/// -s 2^(w k) in row r, and of the conversion key s_i s 2^(w k) in each row i. A direct set has lift keys alone. An error says
/// that memory was wanting; what the draw then took is not said.
pub fn draw_keys(
    alloc: Global,
    ring: &Ring,
    set: &ParamSet,
    secret: &Secret,
    draw: &mut Draw<'_>,
) -> Result<KeyBody, NoMemory>
    requires known { IsSet set.now }
    requires keys { has_keys set.now ≡ true }
    requires ring { ring.now ≡ set.now.degree }
    requires degree { OfDegree ring.now secret.now }
    requires scalar { length (under ring.now secret.now true) ≡ 1 }
    requires rows { length (under ring.now secret.now false) ≡ set.now.n }
    requires enough { draw.old.used + words_of set.now (setup_ciphertexts set.now) ≤ length draw.old.words }
    ensures set { IfOk result (λ body. body.set ≡ set.now) }
    ensures shape { IfOk result (λ body. IsSetup body) }
    ensures taken { OnOk result (draw.new ≡ taken draw.old (words_of set.now (setup_ciphertexts set.now))) }
    ensures ciphers { IfOk result (λ body. body.ciphers ≡ keys_behind set.now secret.now draw.old) }
{
    let mut ciphers = Vec::new(alloc);
    draw_rounds(alloc, ring, set, secret, &mut ciphers, draw)?;
    draw_lifts(alloc, ring, set, secret, &mut ciphers, draw)?;
    draw_conversion(alloc, ring, set, secret, &mut ciphers, draw)?;
    Ok(KeyBody { set: *set, ciphers })
}
