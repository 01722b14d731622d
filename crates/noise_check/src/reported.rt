ghost use Rattle.std.specs.Prelude.{◌≡◌};

use std::marker::Model;

/// What a row's noise is: T, the most that an answer has, and S, the weight of the row's secret. Seen as a row of the
/// model's report.
#[derive(Clone, Copy, Debug, PartialEq, Eq)]
pub(crate) struct RowNoise {
    pub(crate) noise: u128,
    pub(crate) weight: u64,
}

impl Model for RowNoise {
    ghost use Rattle.spiral_model.specs.Noise.{NoiseRow};

    ghost Value = { NoiseRow };

    ghost view = { λ r. record { noise = r.noise; weight = r.weight } };

    ghost inverse = { λ r. record { noise = r.noise; weight = r.weight } };
}

/// A row of a report.
#[derive(Clone, Copy, Debug, PartialEq, Eq)]
pub struct RowReport {
    /// which of rows 1 to n it is
    pub row: u32,
    /// T, the noise that an answer has at most in this row
    pub noise: u128,
    /// S, how many numbers of the row's secret aren't 0
    pub secret: u64,
    /// the left side of the inequality; `None` exactly where the noise is at least q
    pub left: Option<u128>,
    /// the right side
    pub right: u128,
}

/// What the noise of a query is, row by row, that of s_1 first.
#[derive(Debug, Drop)]
pub struct Report {
    pub rows: Vec<RowReport>,
}
