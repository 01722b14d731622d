//! The digits of residues in a base 2^w: the gadget decomposition of polynomials.
#![tactic(auto)]

ghost use Rattle.std.specs.Prelude.{◌≡◌, ◌*◌, ◌^◌, ◌<◌, ◌≤◌, length, All};
ghost use Rattle.std.specs.List.{range_with_len, flat_map};
ghost use Rattle.negacyclic.specs.Digits.{digit, digit_poly};
ghost use Rattle.spiral_sets.specs.Sets.{q, digit_count as digit_count_of};

pub use spiral_sets::digit_count;

/// Digit k of x: floor(x / 2^(w k)) mod 2^w. Since w k is at most 55, the shift is in range.
fn digit_of(x: u64, w: u32, k: u32) -> u64
    requires some { 1 ≤ w }
    requires most { w ≤ 56 }
    requires digit { k < digit_count_of w }
    ensures value { result ≡ digit (2 ^ w) k x }
    ensures residue { result ≤ x }
    ensures width { result < 2 ^ w }
{
    (x >> (w * k)) & ((1 << w) - 1)
}

/// Writes digit k of each number of x.
fn digit_row(x: &[u64], w: u32, k: u32, out: &mut [u64])
    requires some { 1 ≤ w }
    requires most { w ≤ 56 }
    requires digit { k < digit_count_of w }
    requires room { length out.old ≡ length x.now }
    ensures { out.new ≡ digit_poly w k x.now }
{
    for c in 0..x.len() {
        out[c] = digit_of(x[c], w, k);
    }
}

/// Writes the digits of w bits of each number of x, the lowest first: place k n + c of `out` is digit k of x_c, where x
/// has n numbers.
pub fn digits_into(x: &[u64], w: u32, out: &mut [u64])
    requires some { 1 ≤ w }
    requires most { w ≤ 56 }
    requires residues { All (λ a. a < q) x.now }
    requires room { length out.old ≡ digit_count_of w * length x.now }
    ensures value { out.new ≡ flat_map (λ k. digit_poly w k x.now) (range_with_len 0 (digit_count_of w)) }
    ensures residues { All (λ d. d < q) out.new }
    ensures width { All (λ d. d < 2 ^ w) out.new }
{
    let n = x.len();
    let count = digit_count(w);
    for k in 0..count {
        let start = k as usize * n;
        digit_row(x, w, k, &mut out[start..start + n]);
    }
}
