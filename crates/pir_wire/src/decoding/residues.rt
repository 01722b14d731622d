ghost use Rattle.std.specs.Prelude.{◌≡◌, ◌+◌, ◌*◌, ◌<◌, ◌≤◌, ℕ, length, All, IfSome, IfNone};
ghost use Rattle.spiral_sets.specs.Sets.{q};
ghost use Rattle.frame_headers.specs.Headers.{number};
ghost use Rattle.ring_poly.specs.Polynomials.{IsDegree};

use super::pieces::{Piece, pieces};
use frame_headers::number_at;
use no_memory::NoMemory;
use regev_code::Cipher;
use ring_poly::Poly;
use spiral_sets::Q;
use std::alloc::Global;

/// How many bytes a residue has: q is below 2^56.
const RESIDUE: usize = 7;

/// A residue: its 7 bytes, the least first.
impl Piece for u64 {
    ghost use Rattle.negacyclic.proofs.Digits.{length-digits};

    ghost may_have = { λ N m. Unit {0} };

    ghost fits = { λ N m x. x < q };

    ghost spell = { λ N m. number 7 };

    ghost len = { λ N m. 7 };

    ghost sized = { λ N m x below. length-digits 256 7 x };

    fn len(degree: usize, m: usize) -> usize {
        RESIDUE
    }

    fn read(alloc: Global, degree: usize, m: usize, bytes: &[u8]) -> Result<Option<u64>, NoMemory> {
        let mut eight = [0; 8];
        eight[..RESIDUE].copy_from_slice(bytes);
        let number = number_at(&eight, 0);
        if number >= Q {
            return Ok(None);
        }
        Ok(Some(number))
    }
}

/// A polynomial: its residues, from place 0.
impl Piece for Poly {
    ghost use Rattle.std.proofs.Common.{◌∙◌, ap};
    ghost use Rattle.spiral_frames.specs.Frames.{poly_bytes};
    ghost use Rattle.spiral_frames.proofs.Bodies.{length-poly_bytes};

    ghost may_have = { λ N m. IsDegree N };

    ghost fits = { λ N m poly. (length poly ≡ N) × All (λ x. x < q) poly };

    ghost spell = { λ N m. poly_bytes };

    ghost len = { λ N m. 7 * N };

    ghost sized = { λ N m poly is. length-poly_bytes poly ∙ ap (λ (n : ℕ). 7 * n) is.0 };

    fn len(degree: usize, m: usize) -> usize {
        RESIDUE * degree
    }

    fn read(
        alloc: Global,
        degree: usize,
        m: usize,
        bytes: &[u8],
    ) -> Result<Option<Poly>, NoMemory> {
        let Some(residues) = pieces::<u64>(alloc, degree, m, degree, bytes)? else {
            return Ok(None);
        };
        Ok(Some(Poly::from_coeffs(alloc, &residues)?))
    }
}

/// A ciphertext: its rows, from row 0.
impl Piece for Cipher {
    ghost use Rattle.spiral_model.specs.Ciphertexts.{IsCipher};
    ghost use Rattle.spiral_frames.specs.Frames.{rows_bytes};
    ghost use Rattle.spiral_frames.proofs.Bodies.{rows_of_cipher};

    ghost may_have = { λ N m. IsDegree N × (1 ≤ m) × (m ≤ 4) };

    ghost fits = { IsCipher };

    ghost spell = { λ N m. rows_bytes };

    ghost len = { λ N m. (m + 1) * (7 * N) };

    ghost sized = { rows_of_cipher };

    fn len(degree: usize, m: usize) -> usize {
        (m + 1) * (RESIDUE * degree)
    }

    fn read(
        alloc: Global,
        degree: usize,
        m: usize,
        bytes: &[u8],
    ) -> Result<Option<Cipher>, NoMemory> {
        let Some(rows) = pieces::<Poly>(alloc, degree, m, m + 1, bytes)? else {
            return Ok(None);
        };
        Ok(Some(Cipher::from_rows(rows)))
    }
}
