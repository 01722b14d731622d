ghost use Rattle.std.specs.Prelude.{◌≡◌, ◌^◌, ◌<◌, ◌≤◌, unsigned_abs};
ghost use Rattle.negacyclic.specs.Residues.{residue, nearest};

/// z / d rounded to the nearest number, an exact half upwards, modulo `modulus`.
pub(crate) fn nearest_residue(z: i128, d: u64, modulus: u64) -> u64
    requires size { unsigned_abs z ≤ 2 ^ 100 }
    requires divisor { 0 < d }
    requires modulus { 0 < modulus }
    ensures { result ≡ residue modulus (nearest z d) }
{
    let wide = i128::from(d);
    let rounded = (2 * z + wide).div_euclid(2 * wide);
    rounded.rem_euclid(i128::from(modulus)) as u64
}
