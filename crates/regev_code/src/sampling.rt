ghost use Rattle.std.specs.Prelude.{◌≡◌, ◌+◌, ◌*◌, ◌<◌, ◌≤◌, length, replicate, All, IfOk, unsigned_abs};
ghost use Rattle.negacyclic.specs.Residues.{residue};
ghost use Rattle.spiral_model.specs.Sets.{q};
ghost use Rattle.spiral_model.specs.Replies.{IsTernary};
ghost use Rattle.spiral_model.specs.Sampling.{uniform_number, uniform_poly, error_number, error_poly, secret_number, secret_numbers, secret_poly};

use no_memory::NoMemory;
use ring_poly::Q;
use std::alloc::Global;

/// n zeros.
pub(crate) fn zeros(alloc: Global, n: usize) -> Result<Vec<u64>, NoMemory>
    ensures { IfOk result (λ v. v.items ≡ replicate n 0) }
{
    Ok(vec![in alloc; 0u64; n]?)
}

/// The number of two words, below 2^128, modulo q.
pub(crate) fn uniform_number(high: u64, low: u64) -> u64
    ensures value { result ≡ uniform_number high low }
    ensures below { result < q }
{
    ((u128::from(high) * (1 << 64) + u128::from(low)) % u128::from(Q)) as u64
}

/// The ones among bits 0 to 15 of a word, less those among bits 16 to 31: a number from -16 to 16.
pub(crate) fn error_number(word: u64) -> i8
    ensures value { result ≡ error_number word }
    ensures size { unsigned_abs result ≤ 16 }
{
    let plus = (word & 0xffff).count_ones();
    let minus = (word >> 16 & 0xffff).count_ones();
    plus as i8 - minus as i8
}

/// A word modulo 3, less 1: a number from -1 to 1.
pub(crate) fn secret_number(word: u64) -> i8
    ensures value { result ≡ secret_number word }
    ensures ternary { IsTernary result }
{
    (word % 3) as i8 - 1
}

/// The residue of a small number.
fn residue_of(z: i8) -> u64
    ensures value { result ≡ residue q z }
    ensures below { result < q }
{
    if z < 0 {
        Q - u64::from(z.unsigned_abs())
    } else {
        z as u64
    }
}

/// Writes a number for each two words from `start` on.
pub(crate) fn uniform_part(words: &[u64], start: usize, out: &mut [u64])
    requires { start + 2 * length out.old ≤ length words.now }
    ensures value { out.new ≡ uniform_poly (length out.old) words.now start }
    ensures residues { All (λ x. x < q) out.new }
{
    for k in 0..out.len() {
        out[k] = uniform_number(words[start + 2 * k], words[start + 2 * k + 1]);
    }
}

/// Writes the residue of an error for each word from `start` on.
pub(crate) fn error_part(words: &[u64], start: usize, out: &mut [u64])
    requires { start + length out.old ≤ length words.now }
    ensures value { out.new ≡ error_poly (length out.old) words.now start }
    ensures residues { All (λ x. x < q) out.new }
{
    for k in 0..out.len() {
        out[k] = residue_of(error_number(words[start + k]));
    }
}

/// Writes a number of a secret for each word from `start` on.
pub(crate) fn secret_part(words: &[u64], start: usize, out: &mut [i8])
    requires { start + length out.old ≤ length words.now }
    ensures value { out.new ≡ secret_numbers (length out.old) words.now start }
    ensures ternary { All IsTernary out.new }
{
    for k in 0..out.len() {
        out[k] = secret_number(words[start + k]);
    }
}

/// Writes the residues of a secret's numbers.
pub(crate) fn secret_residues(numbers: &[i8], out: &mut [u64])
    requires { length out.old ≡ length numbers.now }
    ensures value { out.new ≡ secret_poly (length numbers.now) numbers.now }
    ensures residues { All (λ x. x < q) out.new }
{
    for k in 0..out.len() {
        out[k] = residue_of(numbers[k]);
    }
}
