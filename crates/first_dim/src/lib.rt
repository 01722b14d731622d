//! The first dimension of an answer: a query's ciphertexts times the matrices of a database's records.
#![tactic(auto)]

mod columns;
mod entries;
mod places;
mod prepared;
mod records;

pub use columns::products;
pub use prepared::Prepared;
