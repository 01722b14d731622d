ghost use Rattle.std.specs.Prelude.{true, ◌≡◌, ◌+◌, length, All, OnOk};
ghost use Rattle.std.specs.Option.{option_copied};
ghost use Rattle.spiral_model.specs.Sets.{IsSet, rows, columns, entries};
ghost use Rattle.spiral_model.specs.Keys.{lift_keys};
ghost use Rattle.spiral_model.specs.Packing.{packed};
ghost use Rattle.spiral_model.specs.Answering.{result_columns};
ghost use Rattle.regev_code.specs.Products.{HasShape};
ghost use Rattle.regev_code.specs.KeyShapes.{AreKeysFor};
ghost use Rattle.pir_server.specs.Switched.{switched_from};

use crate::answering::fill_reply;
use modulus_switch::Reply;
use no_memory::NoMemory;
use regev_code::{Cipher, EvalKeys, Scratch};
use ring_poly::Ring;
use spiral_model::ParamSet;
use spiral_pack::pack;
use std::alloc::Global;

/// Packs the n times n scalar ciphertexts that the fold left into the n columns of the result, and switches these into a reply.
fn put_packed(
    alloc: Global,
    ring: &Ring,
    set: &ParamSet,
    keys: &EvalKeys,
    folded: &[Cipher],
    reply: &mut Reply,
    scratch: &mut Scratch,
) -> Result<(), NoMemory>
    requires known { IsSet set.now }
    requires packs { set.now.pack ≡ true }
    requires ring { ring.now ≡ set.now.degree }
    requires keys { keys.now.set ≡ set.now }
    requires count { length folded.now ≡ columns set.now }
    requires shapes { All (HasShape set.now.degree (rows set.now + 1)) folded.now }
    requires set { reply.old.set ≡ set.now }
    requires entries { length reply.old.body ≡ entries set.now }
    requires columns { length reply.old.mask ≡ set.now.n }
    requires scratch { scratch.old ≡ set.now }
    ensures value { OnOk result (reply.new ≡ switched_from set.now reply.old (packed set.now keys.now.lift folded.now)) }
    ensures scratch { scratch.new ≡ scratch.old }
{
    let columns = pack(alloc, ring, folded, keys, scratch)?;
    fill_reply(set, &columns, reply);
    Ok(())
}

/// Switches the result of a query into a reply: its columns are what the fold left, the first `columns` ciphertexts, or where the
/// set packs, these n times n scalar ciphertexts packed with the lift keys. No ciphertext is copied. Memory is
/// taken only for packing, and an error says that it was wanting.
pub(crate) fn put_result(
    alloc: Global,
    ring: &Ring,
    set: &ParamSet,
    keys: Option<&EvalKeys>,
    folded: &[Cipher],
    reply: &mut Reply,
    scratch: &mut Scratch,
) -> Result<(), NoMemory>
    requires known { IsSet set.now }
    requires ring { ring.now ≡ set.now.degree }
    requires keys { AreKeysFor set.now (option_copied keys) }
    requires count { length folded.now ≡ columns set.now }
    requires shapes { All (HasShape set.now.degree (rows set.now + 1)) folded.now }
    requires set { reply.old.set ≡ set.now }
    requires entries { length reply.old.body ≡ entries set.now }
    requires columns { length reply.old.mask ≡ set.now.n }
    requires scratch { scratch.old ≡ set.now }
    ensures value { OnOk result (reply.new ≡ switched_from set.now reply.old (result_columns set.now (lift_keys (option_copied keys.entry)) folded.now)) }
    ensures scratch { scratch.new ≡ scratch.old }
{
    if set.pack {
        match keys {
            Some(keys) => put_packed(alloc, ring, set, keys, folded, reply, scratch),
            None => unreachable!(),
        }
    } else {
        fill_reply(set, folded, reply);
        Ok(())
    }
}
