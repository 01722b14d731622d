ghost use Rattle.std.specs.Prelude.{◌≡◌, ◌*◌, ℕ, List, length, IfOk, IfSome, IfNone};
ghost use Rattle.pir_wire.specs.Pieces.{AreSpelled};

use no_memory::NoMemory;
use std::alloc::Global;

/// What stands in bytes one behind the other, each in as many bytes: a residue, a polynomial or a ciphertext. Two
/// numbers say which: the degree, and the size, that is how many rows a ciphertext has below row 0, or the width of the
/// numbers of a packed polynomial.
pub(crate) trait Piece: Sized {
    /// These may be the degree and the size.
    ghost may_have: { ℕ → ℕ → Type 0 };

    /// It is of that degree and size.
    ghost fits: { ℕ → ℕ → Self → Type 0 };

    /// Its bytes.
    ghost spell: { ℕ → ℕ → Self → List ℕ };

    /// How many bytes it has.
    ghost len: { ℕ → ℕ → ℕ };

    /// How many bytes it has.
    fn len(degree: usize, size: usize) -> usize
        requires { may_have degree size }
        ensures { result ≡ len degree size };

    /// What the bytes write; `None` exactly where they write none.
    fn read(
        alloc: Global,
        degree: usize,
        size: usize,
        bytes: &[u8],
    ) -> Result<Option<Self>, NoMemory>
        requires sizes { may_have degree size }
        requires room { length bytes.now ≡ len degree size }
        ensures found { IfOk result (λ found. IfSome found (λ x. fits degree size x × (spell degree size x ≡ bytes.now))) }
        ensures none { IfOk result (λ found. IfNone found ((x : Self) → fits degree size x → spell degree size x ≡ bytes.now → ⊥)) };

    /// It has so many bytes.
    ghost sized: { (N s : ℕ) (x : Self) → fits N s x → length (spell N s x) ≡ len N s };
}

/// The `count` pieces that the bytes write, one after the other; `None` exactly where they write none.
pub(crate) fn pieces<P: Piece + Drop>(
    alloc: Global,
    degree: usize,
    size: usize,
    count: usize,
    bytes: &[u8],
) -> Result<Option<Vec<P>>, NoMemory>
    requires sizes { P.may_have degree size }
    requires room { length bytes.now ≡ count * P.len degree size }
    ensures found { IfOk result (λ found. IfSome found (λ xs. AreSpelled (P.fits degree size) (P.spell degree size) count bytes.now xs.items)) }
    ensures none { IfOk result (λ found. IfNone found ((xs : List P) → AreSpelled (P.fits degree size) (P.spell degree size) count bytes.now xs → ⊥)) }
{
    let len = P::len(degree, size);
    let mut pieces = Vec::with_capacity(alloc, count)?;
    for k in 0..count {
        let Some(piece) = P::read(alloc, degree, size, &bytes[k * len..k * len + len])? else {
            return Ok(None);
        };
        pieces.push(piece)?;
    }
    Ok(Some(pieces))
}
