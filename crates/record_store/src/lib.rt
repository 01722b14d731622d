//! A database of records of one length: prepared from bytes, written as one frame, and read back.
#![tactic(auto)]

mod database;
mod decoding;
mod encoding;
mod preparing;
mod storing;

pub use database::Database;
pub use preparing::{PrepareError, check_length, prepare};
pub use storing::{DbError, read_db, write_db};
