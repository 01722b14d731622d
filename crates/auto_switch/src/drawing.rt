ghost use Rattle.std.specs.Prelude.{◌≡◌, ◌+◌, ◌≤◌, [], ◌∷◌, length, All, OnOk};
ghost use Rattle.spiral_model.specs.Ciphertexts.{words_taken};
ghost use Rattle.regev_code.specs.Shapes.{OfDegree, under};
ghost use Rattle.regev_code.specs.Drawn.{Drawn};

use no_memory::NoMemory;
use regev_code::{Cipher, Draw, Secret, draw_cipher};
use ring_poly::{Poly, Ring};
use std::alloc::Global;

/// Appends the encryption of messages under the scalar secret, where `scalar` holds, else under s_1 to s_n, drawn from the
/// next words: N (2 + m) of them for m messages.
pub fn draw_next(
    alloc: Global,
    ring: &Ring,
    secret: &Secret,
    scalar: bool,
    messages: &[Poly],
    ciphers: &mut Vec<Cipher>,
    draw: &mut Draw<'_>,
) -> Result<(), NoMemory>
    requires degree { OfDegree ring.now secret.now }
    requires some { 1 ≤ length messages.now }
    requires secrets { length messages.now ≡ length (under ring.now secret.now scalar) }
    requires messages { All (λ m. length m ≡ ring.now) messages.now }
    requires enough { draw.old.used + words_taken ring.now (length messages.now) ≤ length draw.old.words }
    ensures { OnOk result (Drawn ring.now (length messages.now) (under ring.now secret.now scalar) (messages.now ∷ []) draw.old draw.new ciphers.old.items ciphers.new.items) }
{
    ciphers.push(draw_cipher(alloc, ring, secret, scalar, messages, draw)?)?;
    Ok(())
}
