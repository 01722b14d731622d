//! The numbers that a set's dimensions give.

ghost use Rattle.std.specs.Prelude.{true, false, ◌≡◌, ◌≢◌, ◌*◌, ◌^◌, ◌<◌, ◌≤◌, ◌↔◌, IsTrue};
ghost use Rattle.spiral_sets.specs.Sets.{IsSet, q, digit_count as digit_count_of, p, q1_bits, q1, q2, delta, rows, columns, has_keys, entries, places, folded_places, smallest_width};
ghost use Rattle.spiral_sets.specs.Counts.{firsts_count, gsw_count, state_len};

use crate::ParamSet;

/// The ring's modulus q = 268369921 * 249561089.
pub const Q: u64 = 66974689739603969;

/// t, how many digits of w bits a residue has: ceil(56 / w), since a residue is below 2^56.
pub fn digit_count(w: u32) -> u32
    requires some { 1 ≤ w }
    requires most { w ≤ 56 }
    ensures value { result ≡ digit_count_of w }
    ensures some { 1 ≤ result }
    ensures most { result ≤ 56 }
{
    (56 + w - 1) / w
}

impl ParamSet {
    /// Whether it is the same set.
    pub fn is(&self, other: &ParamSet) -> bool
        ensures same { result ≡ true → self.now ≡ other.now }
        ensures other { result ≡ false → self.now ≢ other.now }
    {
        *self == *other
    }

    /// p, the modulus of a record's values, at most 2^15.
    pub fn p(&self) -> u64
        requires { IsSet self.now }
        ensures value { result ≡ p self.now }
        ensures some { 4 ≤ result }
        ensures most { result ≤ 32768 }
    {
        1 << self.p_bits
    }

    /// The width in bits of a reply's numbers in rows 1 to n, at most 17.
    pub fn q1_bits(&self) -> u32
        requires { IsSet self.now }
        ensures value { result ≡ q1_bits self.now }
        ensures some { 4 ≤ result }
        ensures most { result ≤ 17 }
    {
        self.p_bits + 2
    }

    /// q1 = 4p, the modulus of a reply's numbers in rows 1 to n, at most 2^17.
    pub fn q1(&self) -> u64
        requires { IsSet self.now }
        ensures value { result ≡ q1 self.now }
        ensures some { 16 ≤ result }
        ensures most { result ≤ 131072 }
    {
        1 << self.q1_bits()
    }

    /// q2, the modulus of a reply's numbers in row 0, at most 2^30.
    pub fn q2(&self) -> u64
        requires { IsSet self.now }
        ensures value { result ≡ q2 self.now }
        ensures some { 4096 ≤ result }
        ensures most { result ≤ 1073741824 }
    {
        1 << self.q2_bits
    }

    /// Delta, what a value is scaled by in a ciphertext: floor(q / p), a residue.
    #[tactic(auto, unfolding(crate::specs::Sets::q))]
    pub fn delta(&self) -> u64
        requires { IsSet self.now }
        ensures value { result ≡ delta self.now }
        ensures residue { result < q }
    {
        Q / self.p()
    }

    /// m, the rows below row 0 of first-dimension and GSW ciphertexts: one where the set packs, else n.
    pub fn rows(&self) -> u32
        requires { IsSet self.now }
        ensures value { result ≡ rows self.now }
        ensures some { 1 ≤ result }
        ensures most { result ≤ self.now.n }
        ensures few { result ≤ 4 }
    {
        if self.pack { 1 } else { self.n }
    }

    /// How many ciphertexts a folded place has: n times n where the set packs, else n.
    pub fn columns(&self) -> u32
        requires { IsSet self.now }
        ensures value { result ≡ columns self.now }
        ensures some { 2 ≤ result }
        ensures most { result ≤ 16 }
    {
        if self.pack { self.n * self.n } else { self.n }
    }

    /// How many entries a record's matrix has: n times n.
    pub fn entries(&self) -> u32
        requires { IsSet self.now }
        ensures value { result ≡ entries self.now }
        ensures some { 4 ≤ result }
        ensures most { result ≤ 16 }
    {
        self.n * self.n
    }

    /// The places of the first dimension: 2^nu1.
    pub fn places(&self) -> u32
        requires { IsSet self.now }
        ensures value { result ≡ places self.now }
        ensures some { 2 ≤ result }
        ensures most { result ≤ 256 }
    {
        1 << self.nu1
    }

    /// The folded places: 2^nu2.
    pub fn folded_places(&self) -> u32
        requires { IsSet self.now }
        ensures value { result ≡ folded_places self.now }
        ensures some { 2 ≤ result }
        ensures most { result ≤ 16 }
    {
        1 << self.nu2
    }

    /// How many ciphertexts the first dimension takes: m for each of its places.
    pub fn firsts_count(&self) -> u32
        requires { IsSet self.now }
        ensures value { result ≡ firsts_count self.now }
        ensures some { 1 ≤ result }
        ensures most { result ≤ 1024 }
    {
        self.places() * self.rows()
    }

    /// How many columns a GSW ciphertext has: t for each of the rows 0 to m.
    pub fn gsw_count(&self) -> u32
        requires { IsSet self.now }
        ensures value { result ≡ gsw_count self.now }
        ensures some { 1 ≤ result }
        ensures most { result ≤ 280 }
    {
        (self.rows() + 1) * digit_count(self.w_gsw)
    }

    /// Whether the client sends keys, and so has a scalar secret.
    pub fn has_keys(&self) -> bool
        ensures { result ≡ has_keys self.now }
    {
        !self.direct || self.pack
    }

    /// The least width of the set's digits, that with the most digits.
    pub fn least_width(&self) -> u32
        requires { IsSet self.now }
        ensures value { result ≡ smallest_width self.now }
        ensures some { 1 ≤ result }
        ensures most { result ≤ 56 }
    {
        if self.direct {
            self.w_gsw
        } else {
            self.w_right
        }
    }

    /// How many bytes the body of a State frame has: 8 for the index and one for each number of the secrets.
    pub fn state_len(&self) -> u64
        requires { IsSet self.now }
        ensures value { result ≡ state_len self.now }
        ensures most { result ≤ 8200 }
    {
        8 + u64::from(self.n) * u64::from(self.degree)
    }
}
