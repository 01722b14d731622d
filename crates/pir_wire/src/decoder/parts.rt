//! Ciphertexts out of the bytes of their residues, as these come.

ghost use Rattle.std.specs.Prelude.{◌≡◌, ◌+◌, ◌*◌, ◌^◌, ◌<◌, ◌≤◌, true, [], length, slice_index_or, take, drop, All, IfOk, MatchResult};
ghost use Rattle.negacyclic.specs.Digits.{number_of};
ghost use Rattle.spiral_sets.specs.Sets.{IsSet, q, name_of};
ghost use Rattle.frame_headers.specs.declared.frame_error.FrameError.TheVariants.{Residue};
ghost use Rattle.frame_headers.specs.Headers.{number};
ghost use Rattle.frame_headers.specs.Kinds.{body_len_of};
ghost use Rattle.pir_wire.specs.CipherParts.{kind_by, shapes, made, bytes_made, IsFilling, IsAtHand, Settles, PutsCipher, Takes, GrownBy, RefusedBy};

use super::body::GrowError;
use crate::decoding::{lifts_count, rounds_count, rows_below};
use frame_headers::{FrameError, number_at};
use no_memory::NoMemory;
use regev_code::Cipher;
use ring_poly::Poly;
use spiral_sets::{ParamSet, Q};
use std::alloc::Global;

/// How many bytes a residue has: q is below 2^56.
pub(crate) const RESIDUE: usize = 7;

/// How many bytes the header of a set's frame has.
fn header_len(set: &ParamSet) -> usize
    requires { IsSet set.now }
    ensures value { result ≡ 15 + length (name_of set.now) }
    ensures most { result ≤ 270 }
{
    15 + set.name().len()
}

/// What a residue that isn't below q is refused for, behind so many residues of a body of that set.
fn residue_refusal(set: &ParamSet, count: usize, value: u64) -> FrameError
    requires known { IsSet set.now }
    requires few { count ≤ 2 ^ 24 }
    ensures { result ≡ Residue (15 + length (name_of set.now) + 7 * count) value q }
{
    FrameError::Residue {
        place: (header_len(set) + RESIDUE * count) as u64,
        value,
        bound: Q,
    }
}

/// How many rows ciphertext k of a Setup has below row 0: 1 for the round keys, n for the lift keys, and m of the set's GSW ciphertexts for the
/// conversion key.
fn rows_of_key(set: &ParamSet, k: usize) -> usize
    requires known { IsSet set.now }
    requires there { k < length (shapes true set.now) }
    ensures value { result ≡ slice_index_or (shapes true set.now) k 0 }
    ensures some { 1 ≤ result }
    ensures most { result ≤ 4 }
{
    let rounds = rounds_count(set);
    if k < rounds {
        return 1;
    }
    if k - rounds < lifts_count(set) {
        return set.n as usize;
    }
    set.rows() as usize
}

/// How many rows ciphertext k of a body has below row 0.
fn rows_at(set: &ParamSet, is_setup: bool, k: usize) -> usize
    requires known { IsSet set.now }
    requires there { k < length (shapes is_setup set.now) }
    ensures value { result ≡ slice_index_or (shapes is_setup set.now) k 0 }
    ensures some { 1 ≤ result }
    ensures most { result ≤ 4 }
{
    if is_setup {
        return rows_of_key(set, k);
    }
    rows_below(set)
}

/// The residue that 7 bytes write, the least first, whether below q or not.
fn residue_of(bytes: &[u8]) -> u64
    requires { length bytes.now ≡ 7 }
    ensures value { result ≡ number_of 256 bytes.now }
    ensures spelled { number 7 result ≡ bytes.now }
{
    let mut eight = [0; 8];
    eight[..RESIDUE].copy_from_slice(bytes);
    u64::from_le_bytes(eight)
}

/// The residue that the 7 bytes at a place write. Where an eighth byte follows, all eight are read at once.
fn residue_at(piece: &[u8], place: usize) -> u64
    requires { place + 7 ≤ length piece.now }
    ensures value { result ≡ number_of 256 (take 7 (drop place piece.now)) }
    ensures spelled { number 7 result ≡ take 7 (drop place piece.now) }
{
    if place + 8 <= piece.len() {
        return number_at(piece, place) % (1 << 56);
    }
    residue_of(&piece[place..place + RESIDUE])
}

/// Appends the residues at the front of a piece, at most so many, up to the first one that isn't below q; says how many.
fn take_residues(piece: &[u8], wanted: usize, numbers: &mut Vec<u64>) -> Result<usize, NoMemory>
    requires some { 1 ≤ wanted }
    requires whole { 7 ≤ length piece.now }
    ensures { IfOk result (λ count. Takes piece.now numbers.old.items numbers.new.items wanted count) }
{
    let most = wanted.min(piece.len() / RESIDUE);
    numbers.reserve(wanted)?;
    for k in 0..most {
        let number = residue_at(piece, RESIDUE * k);
        if number >= Q {
            return Ok(k);
        }
        numbers.push(number)?;
    }
    Ok(most)
}

/// The rows become a ciphertext where there are m + 1; gives those that are left.
fn put_cipher(
    alloc: Global,
    m: usize,
    rows: Vec<Poly>,
    ciphers: &mut Vec<Cipher>,
) -> Result<Vec<Poly>, NoMemory>
    requires some { 1 ≤ m }
    requires few { length rows.items ≤ m + 1 }
    requires most { m ≤ 4 }
    requires same { All (λ a. length a ≡ length (slice_index_or rows.items 0 [])) rows.items }
    ensures { IfOk result (λ left. PutsCipher m rows.items ciphers.old.items left.items ciphers.new.items) }
{
    if rows.len() <= m {
        return Ok(rows);
    }
    ciphers.push(Cipher::from_rows(rows))?;
    Ok(Vec::new(alloc))
}

/// Whole ciphertexts of a body, whole rows of the ciphertext at hand, and residues of the row at hand; `count` is how many residues these are
/// in all.
pub(crate) struct Parts {
    pub(crate) alloc: Global,
    pub(crate) is_setup: bool,
    pub(crate) set: ParamSet,
    pub(crate) ciphers: Vec<Cipher>,
    pub(crate) rows: Vec<Poly>,
    pub(crate) numbers: Vec<u64>,
    pub(crate) count: usize,
}

/// By hand: a caller's proof then takes one step for it, and not one for each of its lists.
impl Drop for Parts {
    fn drop(self) {
        let Self {
            alloc: _,
            is_setup: _,
            set: _,
            ciphers: _,
            rows: _,
            numbers: _,
            count: _,
        } = self;
    }
}

impl Parts {
    /// Nothing has come.
    pub(crate) fn none(alloc: Global, set: &ParamSet, is_setup: bool) -> Parts
        requires { IsSet set.now }
        ensures at_hand { IsAtHand (made result) [] }
        ensures same_set { result.set ≡ set.now }
        ensures same_kind { result.is_setup ≡ is_setup }
        ensures empty { bytes_made (made result) ≡ [] }
    {
        Parts {
            alloc,
            is_setup,
            set: *set,
            ciphers: Vec::new(alloc),
            rows: Vec::new(alloc),
            numbers: Vec::new(alloc),
            count: 0,
        }
    }

    /// The row at hand becomes a row of the ciphertext at hand where it is whole, and this one a ciphertext of the body where it has its rows.
    /// The memory of the row is used again.
    fn settled(self) -> Result<Parts, NoMemory>
        requires { IsFilling (made self) }
        ensures { IfOk result (λ parts. Settles (made self) (made parts)) }
    {
        if self.numbers.len() < self.set.degree as usize {
            return Ok(self);
        }
        let m = rows_at(&self.set, self.is_setup, self.ciphers.len());
        let Parts {
            alloc,
            is_setup,
            set,
            mut ciphers,
            mut rows,
            mut numbers,
            count,
        } = self;
        rows.push(Poly::from_coeffs(alloc, &numbers)?)?;
        numbers.clear();
        let rows = put_cipher(alloc, m, rows, &mut ciphers)?;
        Ok(Parts {
            alloc,
            is_setup,
            set,
            ciphers,
            rows,
            numbers,
            count,
        })
    }

    /// The parts with what comes of a piece's front where fewer than 7 bytes are at hand: those up to the end of their residue; the bytes that are
    /// at hand then; and how many bytes were taken.
    pub(crate) fn with_part(
        self,
        few: Vec<u8>,
        piece: &[u8],
    ) -> Result<(Parts, Vec<u8>, usize), GrowError>
        requires at_hand { IsAtHand (made self) few.items }
        requires some { 0 < length piece.now }
        requires unfinished { length (bytes_made (made self)) < body_len_of (kind_by self.is_setup) self.set }
        ensures { MatchResult result (λ r. GrownBy (made self) few.items piece.now (made r.0) r.1.items r.2) (λ e. RefusedBy (made self) few.items piece.now e) }
    {
        let (mut parts, mut few) = (self, few);
        let taken = piece.len().min(RESIDUE - few.len());
        few.extend_from_slice(&piece[..taken])?;
        if few.len() < RESIDUE {
            return Ok((parts, few, taken));
        }
        let number = residue_of(&few);
        if number >= Q {
            return Err(GrowError::Refused(residue_refusal(&parts.set, parts.count, number)));
        }
        few.clear();
        parts.numbers.push(number)?;
        parts.count += 1;
        Ok((parts.settled()?, few, taken))
    }

    /// The parts with the whole residues of a piece's front, at most those that the row at hand still wants; and how many bytes these were.
    pub(crate) fn with_residues(self, piece: &[u8]) -> Result<(Parts, usize), GrowError>
        requires at_hand { IsAtHand (made self) [] }
        requires some { 7 ≤ length piece.now }
        requires unfinished { length (bytes_made (made self)) < body_len_of (kind_by self.is_setup) self.set }
        ensures { MatchResult result (λ r. GrownBy (made self) [] piece.now (made r.0) [] r.1) (λ e. RefusedBy (made self) [] piece.now e) }
    {
        let mut parts = self;
        let wanted = parts.set.degree as usize - parts.numbers.len();
        let count = take_residues(piece, wanted, &mut parts.numbers)?;
        if count == 0 {
            let number = residue_at(piece, 0);
            return Err(GrowError::Refused(residue_refusal(&parts.set, parts.count, number)));
        }
        parts.count += count;
        Ok((parts.settled()?, RESIDUE * count))
    }

    /// Whether they are a Setup's, the set, and the whole ciphertexts.
    pub(crate) fn into_ciphers(self) -> (bool, ParamSet, Vec<Cipher>)
        ensures kind { result.0 ≡ self.is_setup }
        ensures set { result.1 ≡ self.set }
        ensures ciphers { result.2.items ≡ self.ciphers.items }
    {
        let Parts {
            alloc: _,
            is_setup,
            set,
            ciphers,
            rows: _,
            numbers: _,
            count: _,
        } = self;
        (is_setup, set, ciphers)
    }
}
