ghost use Rattle.std.specs.Prelude.{true, ◌≡◌, ◌≤◌, IfOk};
ghost use Rattle.std.specs.Option.{option_copied};
ghost use Rattle.spiral_model.specs.Sets.{IsSet, has_keys};
ghost use Rattle.spiral_model.specs.Bodies.{IsSetup, IsQuery};
ghost use Rattle.spiral_model.specs.Keys.{keys_in};
ghost use Rattle.spiral_model.specs.Answering.{ready_of, answer_of};
ghost use Rattle.regev_code.specs.KeyShapes.{AreKeysFor};

use crate::answering::{blank_reply, scratches, zero_outputs};
use crate::folding::work_out;
use crate::results::put_result;
use first_dim::Prepared;
use modulus_switch::Reply;
use no_memory::NoMemory;
use pir_io::Gate;
use query_expand::ready;
use record_store::Database;
use regev_code::{Cipher, EvalKeys, KeyBody, QueryBody, Scratch};
use ring_poly::Ring;
use spiral_model::ParamSet;
use std::alloc::Global;
use std::marker::Model;
use std::thread::Threads;

/// A database made ready to answer queries, with the working memory of its workers. Seen as the database and the number of
/// workers.
pub struct Server {
    alloc: Global,
    db: Database,
    prepared: Prepared,
    ring: Ring,
    /// one for each worker
    scratch: Vec<Scratch>,
    /// room for the ciphertexts of the first dimension
    outputs: Vec<Cipher>,
}

impl Model for Server {
    ghost use Rattle.std.specs.Prelude.{length};
    ghost use Rattle.pir_server.specs.Served.{Served, IsServed};

    ghost Value = { Served };

    ghost view = { λ s. record { table = s.db; workers = length s.scratch.items } };

    ghost invariant = { λ s. IsServed s.db s.prepared s.ring s.scratch.items s.outputs.items };
}

/// By hand: a caller's proof then takes one step for it, and not one for each of its lists.
impl Drop for Server {
    fn drop(self) {
        let Self {
            alloc: _,
            db: _,
            prepared: _,
            ring: _,
            scratch: _,
            outputs: _,
        } = self;
    }
}

impl Server {
    /// A server of the database with so many workers, from 1 to 64.
    pub fn new<R: Threads + Sync>(
        rt: &R,
        alloc: Global,
        db: Database,
        workers: u32,
    ) -> Result<Server, NoMemory>
        requires some { 1 ≤ workers }
        requires few { workers ≤ 64 }
        ensures { IfOk result (λ server. server ≡ record { table = db; workers = workers }) }
    {
        let set = db.set;
        let ring = Ring::new(alloc, set.degree as usize)?;
        let prepared = Prepared::new(rt, alloc, &ring, &db)?;
        Ok(Server {
            alloc,
            prepared,
            ring,
            scratch: scratches(alloc, &set, workers)?,
            outputs: zero_outputs(alloc, &set)?,
            db,
        })
    }

    /// The set of its database.
    pub fn set(&self) -> ParamSet
        ensures { result ≡ self.now.table.set }
    {
        self.db.set
    }

    /// The allocator that it was made with, and the set of its database.
    pub(crate) fn context(&self) -> (Global, ParamSet)
        ensures set { result.1 ≡ self.now.table.set }
        ensures known { IsSet result.1 }
    {
        (self.alloc, self.db.set)
    }

    /// The keys that a setup of its set carries, in product form. Brought into it once, they serve every query of that setup.
    pub fn keys(&self, setup: &KeyBody) -> Result<EvalKeys, NoMemory>
        requires set { setup.now.set ≡ self.now.table.set }
        requires keys { has_keys setup.now.set ≡ true }
        requires setup { IsSetup setup.now }
        ensures { IfOk result (λ keys. keys ≡ keys_in setup.now) }
    {
        EvalKeys::from_body(self.alloc, &self.ring, setup)
    }

    /// The answer to a query, which a set that isn't direct expands by its keys: the first dimension over the database, folded by the
    /// query's selections, packed by the lift keys where the set packs, and switched to the small moduli of a reply. The same for each
    /// number of workers. An error says that memory was wanting.
    pub fn answer<R: Threads + Sync, G: Gate>(
        &mut self,
        rt: &R,
        keys: Option<&EvalKeys>,
        query: &QueryBody,
        gate: &G,
    ) -> Result<Reply, NoMemory>
        requires set { query.now.set ≡ self.old.table.set }
        requires query { IsQuery query.now }
        requires keys { AreKeysFor self.old.table.set (option_copied keys) }
        ensures reply { IfOk result (λ reply. reply ≡ answer_of self.old.table (option_copied keys.entry) (ready_of self.old.table.set (option_copied keys.entry) query.now.ciphers)) }
        ensures server { self.new ≡ self.old }
    {
        let mut reply = blank_reply(self.alloc, &self.db)?;
        let set = self.db.set();
        let room = &mut self.scratch[0];
        let ready = ready(self.alloc, &self.ring, &set, keys, query, room)?;
        work_out(
            rt,
            &self.ring,
            &set,
            &self.prepared,
            &ready,
            &mut self.outputs,
            &mut self.scratch,
            gate,
        );
        let folded = &self.outputs[..set.columns() as usize];
        let room = &mut self.scratch[0];
        put_result(self.alloc, &self.ring, &set, keys, folded, &mut reply, room)?;
        Ok(reply)
    }
}
