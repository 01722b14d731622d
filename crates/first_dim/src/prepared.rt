ghost use Rattle.std.specs.Prelude.{◌≡◌, IfOk};
ghost use Rattle.spiral_model.specs.Databases.{matrices_of};

use crate::records::record_matrices;
use no_memory::NoMemory;
use record_store::Database;
use ring_poly::{PolyT, Ring};
use spiral_sets::ParamSet;
use std::alloc::Global;
use std::marker::Model;
use std::thread::Threads;

/// The matrix of a record, its entries in product form, row by row. Seen as the list of its entries.
#[derive(Drop)]
pub(crate) struct Matrix {
    pub(crate) entries: Vec<PolyT>,
}

impl Model for Matrix {
    ghost use Rattle.spiral_model.specs.Words.{Matrix};

    ghost Value = { Matrix };

    ghost view = { λ m. m.entries.items };
}

/// The records of a database as the first dimension reads them: the matrix of each place, the places without a record
/// too. Seen as the set and the list of the matrices.
#[derive(Drop)]
pub struct Prepared {
    pub(crate) set: ParamSet,
    pub(crate) matrices: Vec<Matrix>,
}

impl Model for Prepared {
    ghost use Rattle.first_dim.specs.Preparations.{PreparedRecords, AreMatrices};

    ghost Value = { PreparedRecords };

    ghost view = { λ p. record { set = p.set; matrices = p.matrices.items } };

    ghost invariant = { λ p. AreMatrices p.set p.matrices.items };
}

impl Prepared {
    /// The records of a database, with the ring of its set. The work is done in one piece.
    pub fn new<R: Threads + Sync>(
        _rt: &R,
        alloc: Global,
        ring: &Ring,
        db: &Database,
    ) -> Result<Prepared, NoMemory>
        requires { ring.now ≡ db.now.set.degree }
        ensures { IfOk result (λ prepared. prepared ≡ record { set = db.now.set; matrices = matrices_of db.now }) }
    {
        Ok(Prepared {
            set: db.set(),
            matrices: record_matrices(alloc, ring, db)?,
        })
    }
}
