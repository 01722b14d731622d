//! Bit packing: values of a width of bits in a string of bytes, one after the other, the least bit of each first.
#![tactic(auto)]

ghost use Rattle.std.specs.Prelude.{◌≡◌, ◌+◌, ◌*◌, ◌<◌, ◌≤◌, ◌^◌, length, take, All};
ghost use Rattle.negacyclic.specs.Digits.{digit, number_of, repacked};

/// The widest value, in bits.
pub const MAX_WIDTH: u32 = 32;

/// The bytes that are read at once: a value overlaps at most five, since it begins at one of the eight bits of the first.
const WINDOW: usize = 8;

/// The number that the first bytes write, at most `WINDOW` of them.
fn number_of_bytes(bytes: &[u8]) -> u64
    ensures { result ≡ number_of 256 (take WINDOW bytes.now) }
{
    if let Some(window) = bytes.first_chunk::<WINDOW>() {
        return u64::from_le_bytes(*window);
    }
    let mut number: u64 = 0;
    for k in 0..bytes.len() {
        number += (bytes[k] as u64) << (8 * k);
    }
    number
}

/// The number that the first values write, at most `count` of them.
fn number_of_values(values: &[u64], width: u32, count: usize) -> u128
    requires fit { All (λ x. x < 2 ^ width) values.now }
    requires room { width * count ≤ 128 }
    ensures { result ≡ number_of (2 ^ width) (take count values.now) }
{
    let mut number: u128 = 0;
    for k in 0..values.len().min(count) {
        number += (values[k] as u128) << (width as usize * k);
    }
    number
}

/// Value `index` of `width` bits in the bytes; bits past the last byte are zero.
pub fn value_at(bytes: &[u8], width: u32, index: usize) -> u64
    requires some { 0 < width }
    requires narrow { width ≤ MAX_WIDTH }
    ensures { result ≡ digit (2 ^ width) index (number_of 256 bytes.now) }
{
    let position = width as u128 * index as u128;
    let first = position / 8;
    if first >= bytes.len() as u128 {
        return 0;
    }
    let window = number_of_bytes(&bytes[first as usize..]);
    (window >> (position % 8)) & ((1 << width) - 1)
}

/// Byte `index` of the packed values; bits past the last value are zero.
fn byte_at(values: &[u64], width: u32, index: usize) -> u8
    requires some { 0 < width }
    requires narrow { width ≤ MAX_WIDTH }
    requires fit { All (λ x. x < 2 ^ width) values.now }
    ensures { result ≡ digit 256 index (number_of (2 ^ width) values.now) }
{
    let position = 8 * index as u128;
    let first = position / width as u128;
    if first >= values.len() as u128 {
        return 0;
    }
    let skipped = (position % width as u128) as usize;
    let count = (skipped + 7) / width as usize + 1;
    let window = number_of_values(&values[first as usize..], width, count);
    ((window >> skipped) & 255) as u8
}

/// Cuts the bytes into `out.len()` values of `width` bits each.
pub fn unpack(bytes: &[u8], width: u32, out: &mut [u64])
    requires some { 0 < width }
    requires narrow { width ≤ MAX_WIDTH }
    ensures { out.new ≡ repacked 8 width (length out.old) bytes.now }
{
    for (k, place) in out.iter_mut().enumerate() {
        *place = value_at(bytes, width, k);
    }
}

/// Packs values of `width` bits each into `out.len()` bytes; zeros follow the last value.
pub fn pack(values: &[u64], width: u32, out: &mut [u8])
    requires some { 0 < width }
    requires narrow { width ≤ MAX_WIDTH }
    requires fit { All (λ x. x < 2 ^ width) values.now }
    ensures { out.new ≡ repacked width 8 (length out.old) values.now }
{
    for (k, place) in out.iter_mut().enumerate() {
        *place = byte_at(values, width, k);
    }
}
