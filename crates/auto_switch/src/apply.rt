ghost use Rattle.std.specs.Prelude.{◌≡◌, ◌*◌, ◌%◌, ◌<◌};
ghost use Rattle.spiral_model.specs.KeySwitching.{auto_applied};
ghost use Rattle.regev_code.specs.Products.{HasShape};
ghost use Rattle.regev_code.specs.KeyShapes.{IsKeyOf};

use regev_code::{Cipher, Scratch, SwitchKey, switch_key};
use ring_poly::Ring;

/// The automorphism x -> x^g of a scalar ciphertext, for an odd g, switched back to its secret s: row 0 is 0 and row 1 is tau_g(c_1),
/// and to both is added the digit sum of tau_g(c_0) with the key, whose ciphertexts W_k encrypt -tau_g(s) 2^(w k). Its phase is tau_g of
/// that of c, and a small error. It takes no memory.
pub fn apply_auto(
    ring: &Ring,
    g: usize,
    c: &Cipher,
    key: &SwitchKey,
    out: &mut Cipher,
    scratch: &mut Scratch,
)
    requires ring { ring.now ≡ scratch.old.degree }
    requires odd { g % 2 ≡ 1 }
    requires power { g < 2 * ring.now }
    requires c { HasShape ring.now 2 c.now }
    requires key { IsKeyOf scratch.old 1 key.now }
    requires out { HasShape ring.now 2 out.old }
    ensures value { out.new ≡ auto_applied ring.now g key.now c.now }
    ensures shape { HasShape ring.now 2 out.new }
    ensures scratch { scratch.new ≡ scratch.old }
{
    ring.auto(g, c.row(1), &mut scratch.second);
    ring.auto(g, c.row(0), &mut scratch.first);
    switch_key(
        ring,
        1,
        1,
        key,
        &scratch.second,
        &scratch.first,
        out,
        &mut scratch.scalar,
        &mut scratch.room,
    );
}
