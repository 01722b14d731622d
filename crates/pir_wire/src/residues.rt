ghost use Rattle.std.specs.Prelude.{◌≡◌, ◌++◌, length, All, IfOk};
ghost use Rattle.frame_headers.specs.Headers.{number};
ghost use Rattle.spiral_frames.specs.Frames.{poly_bytes, rows_bytes, cipher_bytes};

use no_memory::NoMemory;
use regev_code::Cipher;
use ring_poly::Poly;

/// Appends a residue: its 7 bytes, the least first.
fn push_residue(out: &mut Vec<u8>, residue: u64) -> Result<(), NoMemory>
    ensures { IfOk result (λ _. out.new.items ≡ out.old.items ++ number 7 residue) }
{
    let bytes = residue.to_le_bytes();
    out.extend_from_slice(&bytes[..7])?;
    Ok(())
}

/// Appends residues, one after the other.
fn push_residues(out: &mut Vec<u8>, residues: &[u64]) -> Result<(), NoMemory>
    ensures { IfOk result (λ _. out.new.items ≡ out.old.items ++ poly_bytes residues.now) }
{
    for residue in residues {
        push_residue(out, *residue)?;
    }
    Ok(())
}

/// Appends the residues of a polynomial, from place 0. `numbers` is a buffer for them.
fn push_poly(out: &mut Vec<u8>, poly: &Poly, numbers: &mut [u64]) -> Result<(), NoMemory>
    requires { length numbers.old ≡ length poly.now }
    ensures { IfOk result (λ _. out.new.items ≡ out.old.items ++ poly_bytes poly.now) }
{
    poly.coeffs_into(numbers);
    push_residues(out, numbers)
}

/// Appends the rows of a ciphertext, from row 0. `numbers` is a buffer for those of one row.
fn push_cipher(out: &mut Vec<u8>, cipher: &Cipher, numbers: &mut [u64]) -> Result<(), NoMemory>
    requires { All (λ poly. length poly ≡ length numbers.old) cipher.now }
    ensures { IfOk result (λ _. out.new.items ≡ out.old.items ++ rows_bytes cipher.now) }
{
    for r in 0..cipher.rows() {
        push_poly(out, cipher.row(r), numbers)?;
    }
    Ok(())
}

/// Appends ciphertexts, one after the other. `numbers` is a buffer for the numbers of one row.
pub(crate) fn push_ciphers(
    out: &mut Vec<u8>,
    ciphers: &[Cipher],
    numbers: &mut [u64],
) -> Result<(), NoMemory>
    requires { All (λ cipher. All (λ poly. length poly ≡ length numbers.old) cipher) ciphers.now }
    ensures { IfOk result (λ _. out.new.items ≡ out.old.items ++ cipher_bytes ciphers.now) }
{
    for cipher in ciphers {
        push_cipher(out, cipher, numbers)?;
    }
    Ok(())
}
