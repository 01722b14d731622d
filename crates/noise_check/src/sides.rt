ghost use Rattle.std.specs.Prelude.{◌≡◌, ◌*◌, ◌^◌, ◌<◌, ◌≤◌, ◌↔◌, length, IsTrue, MatchOption};
ghost use Rattle.spiral_sets.specs.Sets.{IsSet, q, p, q1, q2};
ghost use Rattle.spiral_model.specs.Noise.{noise_left, noise_right};
ghost use Rattle.noise_check.specs.Reports.{left_of, reported, RowFits, ReportFits, LeastMiss};

use crate::reported::{Report, RowNoise, RowReport};
use spiral_sets::{ParamSet, Q};

/// q1 q2, at most 2^17 2^30 = 2^47.
fn reply_moduli(set: &ParamSet) -> u128
    requires { IsSet set.now }
    ensures value { result ≡ q1 set.now * q2 set.now }
    ensures size { result ≤ 2 ^ 47 }
{
    u128::from(set.q1()) * u128::from(set.q2())
}

/// 2 p q1 q2 T for T below q: at most 2^16 2^47 2^56 = 2^119.
fn noise_part(set: &ParamSet, noise: u128) -> u128
    requires known { IsSet set.now }
    requires noise { noise < q }
    ensures value { result ≡ 2 * p set.now * (q1 set.now * q2 set.now) * noise }
    ensures size { result ≤ 2 ^ 119 }
{
    2 * u128::from(set.p()) * reply_moduli(set) * noise
}

/// p q q2: at most 2^15 2^56 2^30 = 2^101.
fn rounding_part(set: &ParamSet) -> u128
    requires { IsSet set.now }
    ensures value { result ≡ p set.now * q * q2 set.now }
    ensures size { result ≤ 2 ^ 101 }
{
    u128::from(set.p()) * u128::from(Q) * u128::from(set.q2())
}

/// p q q1 S for S below q2: at most 2^15 2^56 2^17 2^30 = 2^118.
fn weight_part(set: &ParamSet, weight: u64) -> u128
    requires known { IsSet set.now }
    requires weight { weight < q2 set.now }
    ensures value { result ≡ p set.now * q * q1 set.now * weight }
    ensures size { result ≤ 2 ^ 118 }
{
    u128::from(set.p()) * u128::from(Q) * u128::from(set.q1()) * u128::from(weight)
}

/// The left side of a row, for T below q and S below q2: below 2^120.
fn left_side(set: &ParamSet, row: &RowNoise) -> u128
    requires known { IsSet set.now }
    requires noise { row.now.noise < q }
    requires weight { row.now.weight < q2 set.now }
    ensures { result ≡ noise_left set.now row.now }
{
    noise_part(set, row.noise) + rounding_part(set) + weight_part(set, row.weight)
}

/// The right side q q1 q2: at most 2^56 2^47 = 2^103.
fn right_side(set: &ParamSet) -> u128
    requires { IsSet set.now }
    ensures { result ≡ noise_right set.now }
{
    u128::from(Q) * reply_moduli(set)
}

/// The left side of a row; `None` exactly where T is at least q.
fn left_where_small(set: &ParamSet, row: &RowNoise) -> Option<u128>
    requires known { IsSet set.now }
    requires weight { row.now.weight < q2 set.now }
    ensures { result ≡ left_of set.now row.now }
{
    if row.noise >= u128::from(Q) {
        return None;
    }
    Some(left_side(set, row))
}

/// The report of a row, counted from 0.
pub(crate) fn reported_row(set: &ParamSet, r: u32, row: &RowNoise) -> RowReport
    requires known { IsSet set.now }
    requires few { r < 2 ^ 31 }
    requires weight { row.now.weight < q2 set.now }
    ensures { result ≡ reported set.now r row.now }
{
    RowReport {
        row: r + 1,
        noise: row.noise,
        secret: row.weight,
        left: left_where_small(set, row),
        right: right_side(set),
    }
}

/// Whether a row has a left side that is below the right one. A row without one misses: its noise is too large already.
fn row_fits(row: &RowReport) -> bool
    ensures { IsTrue result ↔ RowFits row.now }
{
    match row.left {
        Some(left) => left < row.right,
        None => false,
    }
}

/// Whether each row has a left side that is below the right one, so that the answer opens.
pub fn fits(report: &Report) -> bool
    ensures { IsTrue result ↔ ReportFits report.now }
{
    report.rows.iter().all(|row| row_fits(row))
}

/// The least row that doesn't fit, as a position from 0; `None` exactly where the report fits.
pub fn first_miss(report: &Report) -> Option<u32>
    requires { length report.now.rows.items < 2 ^ 32 }
    ensures { MatchOption result (ReportFits report.now) (λ place. LeastMiss report.now place) }
{
    let rows = &report.rows;
    for place in 0..rows.len() {
        if !row_fits(&rows[place]) {
            return Some(place as u32);
        }
    }
    None
}
