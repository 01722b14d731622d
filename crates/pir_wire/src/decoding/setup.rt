ghost use Rattle.std.specs.Prelude.{◌≡◌, ◌+◌, ◌*◌, ◌≤◌, ◌++◌, List, length, IfOk, IfSome, IfNone};
ghost use Rattle.spiral_sets.specs.Sets.{IsSet};
ghost use Rattle.spiral_sets.specs.Counts.{round_ciphertexts, lift_ciphertexts, conversion_ciphertexts, ciphertext_count, bytes_of};
ghost use Rattle.spiral_model.specs.Words.{Cipher as CipherOf};
ghost use Rattle.pir_wire.specs.Pieces.{AreCiphersAt};

use super::FramedMessage;
use super::pieces::{Piece, pieces};
use frame_headers::FrameKind;
use no_memory::NoMemory;
use regev_code::{Cipher, KeyBody};
use spiral_sets::{ParamSet, digit_count};
use std::alloc::Global;

/// How many ciphertexts the automorphism keys of the expansion's rounds have; a set that expands nothing has none.
pub(crate) fn rounds_count(set: &ParamSet) -> usize
    requires { IsSet set.now }
    ensures { result ≡ ciphertext_count (round_ciphertexts set.now) }
{
    if set.direct {
        return 0;
    }
    let right = digit_count(set.w_right);
    (right + set.nu1 * digit_count(set.w_left) + set.rho() * right) as usize
}

/// How many ciphertexts the lift keys have; a set without keys has none.
pub(crate) fn lifts_count(set: &ParamSet) -> usize
    requires { IsSet set.now }
    ensures { result ≡ ciphertext_count (lift_ciphertexts set.now) }
{
    if !set.has_keys() {
        return 0;
    }
    (set.n * digit_count(set.w_conv)) as usize
}

/// How many ciphertexts the conversion key has; a set that expands nothing has none.
fn conversions_count(set: &ParamSet) -> usize
    requires { IsSet set.now }
    ensures { result ≡ ciphertext_count (conversion_ciphertexts set.now) }
{
    if set.direct {
        return 0;
    }
    digit_count(set.w_conv) as usize
}

/// Where the lift keys start in a body: behind the round keys, whose ciphertexts have rows 0 and 1.
fn lifts_start(set: &ParamSet) -> usize
    requires { IsSet set.now }
    ensures { result ≡ bytes_of set.now (round_ciphertexts set.now) }
{
    rounds_count(set) * Cipher::len(set.degree as usize, 1)
}

/// Where the conversion key starts in a body: behind the lift keys, whose ciphertexts have rows 0 to n.
fn conversions_start(set: &ParamSet) -> usize
    requires { IsSet set.now }
    ensures { result ≡ bytes_of set.now (round_ciphertexts set.now) + bytes_of set.now (lift_ciphertexts set.now) }
{
    lifts_start(set) + lifts_count(set) * Cipher::len(set.degree as usize, set.n as usize)
}

/// The `count` ciphertexts with rows 0 to m that the bytes from `start` on write, one after the other; `None` exactly
/// where they write none.
fn ciphers_at(
    alloc: Global,
    set: &ParamSet,
    m: usize,
    count: usize,
    bytes: &[u8],
    start: usize,
) -> Result<Option<Vec<Cipher>>, NoMemory>
    requires known { IsSet set.now }
    requires some { 1 ≤ m }
    requires most { m ≤ 4 }
    requires room { start + count * ((m + 1) * (7 * set.now.degree)) ≤ length bytes.now }
    ensures found { IfOk result (λ found. IfSome found (λ ciphers. AreCiphersAt set.now.degree m count bytes.now start ciphers.items)) }
    ensures none { IfOk result (λ found. IfNone found ((ciphers : List CipherOf) → AreCiphersAt set.now.degree m count bytes.now start ciphers → ⊥)) }
{
    let degree = set.degree as usize;
    let len = count * Cipher::len(degree, m);
    pieces(alloc, degree, m, count, &bytes[start..start + len])
}

/// The ciphertexts of three lists, one list behind the other.
fn joined(
    mut first: Vec<Cipher>,
    mut second: Vec<Cipher>,
    mut third: Vec<Cipher>,
) -> Result<Vec<Cipher>, NoMemory>
    ensures { IfOk result (λ all. all.items ≡ first.items ++ second.items ++ third.items) }
{
    first.append(&mut second)?;
    first.append(&mut third)?;
    Ok(first)
}

impl FramedMessage for KeyBody {
    ghost use Rattle.std.specs.Prelude.{refl};
    ghost use Rattle.frame_headers.specs.declared.kind.FrameKind.TheVariants.{Setup};
    ghost use Rattle.spiral_frames.specs.Frames.{setup_message};

    ghost message = { setup_message };

    ghost KIND = { Setup };

    const KIND: FrameKind = FrameKind::Setup;

    ghost kind_is = { λ _. refl };

    ghost one_length = { tt };

    /// The residues of the ciphertexts, 7 bytes each: those of the round keys, with rows 0 and 1, of the lift keys, with
    /// rows 0 to n, and of the conversion key, with rows 0 to m of the set's GSW ciphertexts.
    fn from_body(alloc: Global, set: &ParamSet, body: &[u8]) -> Result<Option<KeyBody>, NoMemory> {
        if body.len() as u64 != set.setup_len() {
            return Ok(None);
        }
        let Some(rounds) = ciphers_at(alloc, set, 1, rounds_count(set), body, 0)? else {
            return Ok(None);
        };
        let (n, lifts_at) = (set.n as usize, lifts_start(set));
        let Some(lifts) = ciphers_at(alloc, set, n, lifts_count(set), body, lifts_at)? else {
            return Ok(None);
        };
        let (m, conversions_at) = (set.rows() as usize, conversions_start(set));
        let count = conversions_count(set);
        let Some(conversions) = ciphers_at(alloc, set, m, count, body, conversions_at)? else {
            return Ok(None);
        };
        let ciphers = joined(rounds, lifts, conversions)?;
        Ok(Some(KeyBody { set: *set, ciphers }))
    }
}
