ghost use Rattle.std.specs.Prelude.{◌≡◌, ◌+◌, ◌*◌, ◌^◌, ◌<◌, ◌≤◌, length, replicate, slice_set, All, IfOk};
ghost use Rattle.spiral_model.specs.Sets.{IsSet, rows, columns, entries};
ghost use Rattle.spiral_model.specs.Databases.{record_count};
ghost use Rattle.spiral_model.specs.Replies.{switched_entry, switched_zeroth, switched_body, switched_mask};
ghost use Rattle.regev_code.specs.Products.{HasShape};
ghost use Rattle.modulus_switch.specs.Places.{zero_reply};

use modulus_switch::Reply;
use no_memory::NoMemory;
use record_store::Database;
use regev_code::{Cipher, Scratch};
use spiral_model::ParamSet;
use std::alloc::Global;

/// A reply of zeros for a database.
pub(crate) fn blank_reply(alloc: Global, db: &Database) -> Result<Reply, NoMemory>
    ensures { IfOk result (λ reply. reply ≡ zero_reply db.now.set (record_count db.now) db.now.record_length) }
{
    Reply::zero(alloc, &db.set, db.count(), db.length)
}

/// A scratch for each worker.
pub(crate) fn scratches(
    alloc: Global,
    set: &ParamSet,
    workers: u32,
) -> Result<Vec<Scratch>, NoMemory>
    requires { IsSet set.now }
    ensures { IfOk result (λ scratch. scratch.items ≡ replicate workers set.now) }
{
    let mut scratch = Vec::new(alloc);
    for _ in 0..workers {
        scratch.push(Scratch::new(alloc, set)?)?;
    }
    Ok(scratch)
}

/// Ciphertexts of zeros, as many as the first dimension gives.
pub(crate) fn zero_outputs(alloc: Global, set: &ParamSet) -> Result<Vec<Cipher>, NoMemory>
    requires { IsSet set.now }
    ensures { IfOk result (λ outputs. outputs.items ≡ replicate (2 ^ set.now.nu2 * columns set.now) (replicate (rows set.now + 1) (replicate set.now.degree 0))) }
{
    let rows = set.rows();
    let mut outputs = Vec::new(alloc);
    for _ in 0..set.folded_places() * set.columns() {
        outputs.push(Cipher::zero(alloc, set, rows)?)?;
    }
    Ok(outputs)
}

/// Switches entry e, row by row from 0, out of the columns of the result, into a reply.
fn put_entry(set: &ParamSet, columns: &[Cipher], e: u32, reply: &mut Reply)
    requires known { IsSet set.now }
    requires set { reply.old.set ≡ set.now }
    requires entry { e < entries set.now }
    requires enough { set.now.n ≤ length columns.now }
    requires shapes { All (HasShape set.now.degree (set.now.n + 1)) columns.now }
    ensures { reply.new ≡ record reply.old { body = slice_set reply.old.body e (switched_entry set.now columns.now e) } }
{
    let row = e / set.n + 1;
    let column = e % set.n;
    let cipher = &columns[column as usize];
    reply.put(row, column + 1, cipher.row(row));
}

/// Switches row 0 of column c, from 0, of the result into a reply.
fn put_zeroth(set: &ParamSet, columns: &[Cipher], c: u32, reply: &mut Reply)
    requires known { IsSet set.now }
    requires set { reply.old.set ≡ set.now }
    requires column { c < set.now.n }
    requires enough { set.now.n ≤ length columns.now }
    requires shapes { All (HasShape set.now.degree (set.now.n + 1)) columns.now }
    ensures { reply.new ≡ record reply.old { mask = slice_set reply.old.mask c (switched_zeroth set.now columns.now c) } }
{
    let cipher = &columns[c as usize];
    reply.put(0, c + 1, cipher.row(0));
}

/// Switches rows 1 to n of the result's columns into a reply.
fn put_body(set: &ParamSet, columns: &[Cipher], reply: &mut Reply)
    requires known { IsSet set.now }
    requires set { reply.old.set ≡ set.now }
    requires entries { length reply.old.body ≡ entries set.now }
    requires enough { set.now.n ≤ length columns.now }
    requires shapes { All (HasShape set.now.degree (set.now.n + 1)) columns.now }
    ensures { reply.new ≡ record reply.old { body = switched_body set.now columns.now } }
{
    for e in 0..set.entries() {
        put_entry(set, columns, e, reply);
    }
}

/// Switches row 0 of the result's columns into a reply.
fn put_mask(set: &ParamSet, columns: &[Cipher], reply: &mut Reply)
    requires known { IsSet set.now }
    requires set { reply.old.set ≡ set.now }
    requires columns { length reply.old.mask ≡ set.now.n }
    requires enough { set.now.n ≤ length columns.now }
    requires shapes { All (HasShape set.now.degree (set.now.n + 1)) columns.now }
    ensures { reply.new ≡ record reply.old { mask = switched_mask set.now columns.now } }
{
    for c in 0..set.n {
        put_zeroth(set, columns, c, reply);
    }
}

/// Switches the first n ciphertexts, the columns of the result, into a reply. It takes no memory.
pub(crate) fn fill_reply(set: &ParamSet, columns: &[Cipher], reply: &mut Reply)
    requires known { IsSet set.now }
    requires set { reply.old.set ≡ set.now }
    requires entries { length reply.old.body ≡ entries set.now }
    requires columns { length reply.old.mask ≡ set.now.n }
    requires enough { set.now.n ≤ length columns.now }
    requires shapes { All (HasShape set.now.degree (set.now.n + 1)) columns.now }
    ensures { reply.new ≡ record reply.old { body = switched_body set.now columns.now; mask = switched_mask set.now columns.now } }
{
    put_body(set, columns, reply);
    put_mask(set, columns, reply);
}
