ghost use Rattle.std.specs.Prelude.{◌≡◌, ◌*◌, ◌^◌, ◌<◌, ◌≤◌, length, map, All, pos, unsigned_abs};
ghost use Rattle.spiral_model.specs.Replies.{switched as switched_to};

use crate::rounding::nearest_residue;
use ring_poly::Q;

/// c m, which stays below 2^94.
fn scaled(c: u64, m: u64) -> i128
    requires { m ≤ 2 ^ 30 }
    ensures value { result ≡ pos (c * m) }
    ensures size { unsigned_abs result ≤ 2 ^ 100 }
{
    (u128::from(c) * u128::from(m)) as i128
}

/// The modulus switch of a residue c modulo q: c m / q rounded to the nearest number, an exact half upwards, modulo m.
fn switched(c: u64, m: u64) -> u64
    requires some { 0 < m }
    requires most { m ≤ 2 ^ 30 }
    ensures value { result ≡ switched_to m c }
    ensures below { result < m }
{
    nearest_residue(scaled(c, m), Q, m)
}

/// Switches each of the numbers.
pub(crate) fn switch_all(numbers: &mut [u64], m: u64)
    requires some { 0 < m }
    requires most { m ≤ 2 ^ 30 }
    ensures value { numbers.new ≡ map (switched_to m) numbers.old }
    ensures below { All (λ x. x < m) numbers.new }
{
    for k in 0..numbers.len() {
        numbers[k] = switched(numbers[k], m);
    }
}
