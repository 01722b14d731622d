//! The laws of noise, each the contract of a function that does nothing: how far each step of an answer moves a phase, and that the
//! answer opens to the record wherever the inequality Fits holds of the query.
#![tactic(auto)]

ghost use Rattle.noise_laws.specs.Laws.{FirstDimensionKeeps, SelectionKeeps, FoldKeeps, PackingKeeps, RowOpens, ReadyOpens, DealtOpens};

/// The first dimension keeps Delta times the entry of the record at the asked place, in each row.
#[tactic(auto, using(crate::proofs::FirstDimension::first_dimension_keeps))]
pub fn first_dimension_keeps()
    ensures { FirstDimensionKeeps }
{}

/// A selection keeps the phase of that ciphertext which the bit says.
#[tactic(auto, using(crate::proofs::Selections::selection_keeps))]
pub fn selection_keeps()
    ensures { SelectionKeeps }
{}

/// The fold keeps the phase of each column of the asked folded place.
#[tactic(auto, using(crate::proofs::Folding::fold_keeps))]
pub fn fold_keeps()
    ensures { FoldKeeps }
{}

/// Packing keeps the phase of each entry, which then stands in its row.
#[tactic(auto, using(crate::proofs::Packing::packing_keeps))]
pub fn packing_keeps()
    ensures { PackingKeeps }
{}

/// A row whose noise is small enough opens, each coefficient to its value.
#[tactic(auto, using(crate::proofs::Openings::row_opens))]
pub fn row_opens()
    ensures { RowOpens }
{}

/// From any query made ready the reply opens to the record that was asked for, wherever the report of its noise fits.
pub fn ready_opens()
    ensures { ReadyOpens }
{}

/// From any words the reply to the query that they deal opens to the record, wherever Fits holds.
#[tactic(auto, using(crate::proofs::Dealt::dealt_opens))]
pub fn dealt_opens()
    ensures { DealtOpens }
{}
