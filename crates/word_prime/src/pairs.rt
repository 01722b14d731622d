//! A residue of the ring as the pair of its residues modulo two primes.

ghost use Rattle.std.specs.Prelude.{ℕ, ◌≡◌, ◌<◌, ◌%◌};
ghost use Rattle.spiral_sets.specs.Sets.{q};

/// The greater prime.
pub const P1: u32 = 268369921;

/// The lesser prime. Q is P1 times P2.
pub const P2: u32 = 249561089;

/// The inverse of P1 modulo P2: 268369921 * 97389680 is 249561089 * 104729711 + 1.
const INVERSE: u64 = 97389680;

/// The residues of x modulo the two primes. No other number below q has them.
pub fn split_pair(x: u64) -> (u32, u32)
    requires { x < q }
    ensures first { result.0 ≡ x % P1 }
    ensures second { result.1 ≡ x % P2 }
    ensures only { (y : ℕ) → y < q → y % P1 ≡ result.0 → y % P2 ≡ result.1 → y ≡ x }
{
    ((x % u64::from(P1)) as u32, (x % u64::from(P2)) as u32)
}

/// The number below q with these residues, by Chinese remainders. There is no other one.
pub fn join_pair(a: u32, b: u32) -> u64
    requires first { a < P1 }
    requires second { b < P2 }
    ensures below { result < q }
    ensures first { result % P1 ≡ a }
    ensures second { result % P2 ≡ b }
    ensures only { (y : ℕ) → y < q → y % P1 ≡ a → y % P2 ≡ b → y ≡ result }
{
    let modulus = u64::from(P2);
    let differ = u64::from(b) + modulus - u64::from(a) % modulus;
    u64::from(a) + u64::from(P1) * (differ * INVERSE % modulus)
}
