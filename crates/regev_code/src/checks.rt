ghost use Rattle.std.specs.Prelude.{◌≡◌, ◌<◌, ◌↔◌, length, All, IsTrue};
ghost use Rattle.spiral_model.specs.Sets.{q};
ghost use Rattle.spiral_model.specs.Ciphertexts.{IsCipher};

use crate::Cipher;
use ring_poly::Poly;

/// Whether a polynomial has n coefficients. They are residues in any case.
fn is_row(a: &Poly, n: usize) -> bool
    ensures { IsTrue result ↔ (length a.now ≡ n) × All (λ x. x < q) a.now }
{
    a.degree() == n
}

/// Whether a ciphertext has rows 0 to m, each of n coefficients.
pub fn is_cipher(c: &Cipher, n: usize, m: u32) -> bool
    ensures { IsTrue result ↔ IsCipher n m c.now }
{
    c.polys.len() == m as usize + 1 && c.polys.iter().all(|a| is_row(a, n))
}
