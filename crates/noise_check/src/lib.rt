//! The noise of a query made ready, measured by the client before it sends, and the inequality under which its answer opens.
#![tactic(auto)]

ghost use Rattle.noise_check.specs.Reports.{ReportsFit};

mod lift_message;
mod lift_noise;
mod measuring;
mod reported;
mod sides;
mod sums;
mod workspace;

pub use measuring::measure;
pub use reported::{Report, RowReport};
pub use sides::{first_miss, fits};

/// A report fits exactly where its rows do in the words of the model.
pub fn reports_fit()
    ensures { ReportsFit }
{}
