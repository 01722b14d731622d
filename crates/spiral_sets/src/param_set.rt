/// A parameter set: one of the ten named choices of dimensions and widths.
///
/// N is the degree of the ring, p = 2^p_bits the modulus of a record's values, 2^nu1 the size of the first
/// dimension and nu2 the number of binary dimensions that are folded. A width is the number of bits of a
/// gadget's digit, or 0 where the set makes no such digits.
#[derive(Clone, Copy, Debug, PartialEq, Eq)]
pub struct ParamSet {
    /// The position in the table of sets, from 0.
    pub id: u8,
    /// The query's ciphertexts are sent as they are used, and not expanded from one.
    pub direct: bool,
    /// Results are scalar ciphertexts, packed into one matrix ciphertext.
    pub pack: bool,
    /// The degree N of the ring, 256 or 2048.
    pub degree: u32,
    /// A record is a matrix of n times n polynomials.
    pub n: u32,
    /// The values of a record are below 2^p_bits.
    pub p_bits: u32,
    /// The first dimension has 2^nu1 places.
    pub nu1: u32,
    /// How many binary dimensions are folded.
    pub nu2: u32,
    /// The width of the automorphism keys of the expansion's first-dimension side.
    pub w_left: u32,
    /// The width of the automorphism keys of the expansion's selection side.
    pub w_right: u32,
    /// The width of the conversion and lift keys.
    pub w_conv: u32,
    /// The width of the GSW ciphertexts.
    pub w_gsw: u32,
    /// The reply's modulus of row 0 is 2^q2_bits.
    pub q2_bits: u32,
    /// The noise stays within its bound for every list of words.
    pub always: bool,
}
