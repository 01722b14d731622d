ghost use Rattle.std.specs.Prelude.{true, false, ◌≡◌, ◌+◌, ◌*◌, length, All, IfOk};
ghost use Rattle.std.specs.Option.{option_copied};
ghost use Rattle.spiral_sets.specs.Sets.{IsSet, rows};
ghost use Rattle.spiral_sets.specs.Counts.{firsts_count, gsw_count};
ghost use Rattle.spiral_model.specs.Bodies.{IsQuery};
ghost use Rattle.spiral_model.specs.Answering.{firsts_of, gsws_of, ready_of};
ghost use Rattle.regev_code.specs.Products.{HasShape};
ghost use Rattle.gsw_code.specs.Products.{IsGsw, IsReady};
ghost use Rattle.regev_code.specs.KeyShapes.{AreKeysFor};
ghost use Rattle.query_expand.specs.Parts.{both_parts};

use crate::expanded_parts::{expanded_firsts, expanded_gsws, two_sides};
use gsw_code::{Gsw, Ready};
use no_memory::NoMemory;
use regev_code::{Cipher, EvalKeys, QueryBody, Scratch, forms_of};
use ring_poly::Ring;
use spiral_sets::ParamSet;
use std::alloc::Global;

/// The GSW ciphertexts that a query sends: the columns of each selection, behind the ciphertexts of the first dimension.
fn sent_gsws(
    alloc: Global,
    ring: &Ring,
    set: &ParamSet,
    ciphers: &[Cipher],
) -> Result<Vec<Gsw>, NoMemory>
    requires known { IsSet set.now }
    requires ring { ring.now ≡ set.now.degree }
    requires count { length ciphers.now ≡ firsts_count set.now + set.now.nu2 * gsw_count set.now }
    requires shapes { All (HasShape set.now.degree (rows set.now + 1)) ciphers.now }
    ensures value { IfOk result (λ gsws. gsws.items ≡ gsws_of set.now ciphers.now) }
    ensures shapes { IfOk result (λ gsws. All (IsGsw set.now) gsws.items) }
{
    let firsts = set.firsts_count() as usize;
    let count = set.gsw_count() as usize;
    let mut gsws = Vec::new(alloc);
    for l in 0..set.nu2 as usize {
        let start = firsts + l * count;
        gsws.push(Gsw::from_columns(alloc, ring, set, &ciphers[start..start + count])?)?;
    }
    Ok(gsws)
}

/// The ciphertexts of a query that sends them all, cut into the two parts.
fn ready_sent(
    alloc: Global,
    ring: &Ring,
    set: &ParamSet,
    ciphers: &[Cipher],
) -> Result<Ready, NoMemory>
    requires known { IsSet set.now }
    requires ring { ring.now ≡ set.now.degree }
    requires count { length ciphers.now ≡ firsts_count set.now + set.now.nu2 * gsw_count set.now }
    requires shapes { All (HasShape set.now.degree (rows set.now + 1)) ciphers.now }
    ensures value { IfOk result (λ ready. ready ≡ record { firsts = firsts_of set.now ciphers.now; gsws = gsws_of set.now ciphers.now }) }
    ensures shape { IfOk result (λ ready. IsReady set.now ready) }
{
    let firsts = set.firsts_count() as usize;
    Ok(Ready {
        firsts: forms_of(alloc, ring, &ciphers[..firsts])?,
        gsws: sent_gsws(alloc, ring, set, ciphers)?,
    })
}

/// The two parts that a query's one ciphertext expands to.
fn ready_expanded(
    alloc: Global,
    ring: &Ring,
    set: &ParamSet,
    c: &Cipher,
    keys: &EvalKeys,
    scratch: &mut Scratch,
) -> Result<Ready, NoMemory>
    requires known { IsSet set.now }
    requires expanding { set.now.direct ≡ false }
    requires ring { ring.now ≡ set.now.degree }
    requires scratch { scratch.old ≡ set.now }
    requires keys { keys.now.set ≡ set.now }
    requires c { HasShape ring.now 2 c.now }
    ensures value { IfOk result (λ ready. ready ≡ both_parts set.now keys.now c.now) }
    ensures shape { IfOk result (λ ready. IsReady set.now ready) }
    ensures scratch { scratch.new ≡ scratch.old }
{
    let sides = two_sides(alloc, ring, c, keys, scratch)?;
    Ok(Ready {
        firsts: expanded_firsts(alloc, ring, set, &sides[0], keys, scratch)?,
        gsws: expanded_gsws(alloc, ring, set, &sides[1], keys, scratch)?,
    })
}

/// A query made ready: its ciphertexts as they were sent, or where the set isn't direct, those that its one ciphertext expands to with
/// the set's keys. There are two sides after round 0. The left rounds make of the one a scalar ciphertext for each place of the first
/// dimension; where the set packs these are the first dimension, else their lifts into rows 1 to n. The right rounds and translation
/// make the selections of the other. The keys of a direct set, if any, aren't looked at. An error says that memory was wanting.
pub fn ready(
    alloc: Global,
    ring: &Ring,
    set: &ParamSet,
    keys: Option<&EvalKeys>,
    query: &QueryBody,
    scratch: &mut Scratch,
) -> Result<Ready, NoMemory>
    requires known { IsSet set.now }
    requires ring { ring.now ≡ set.now.degree }
    requires set { query.now.set ≡ set.now }
    requires query { IsQuery query.now }
    requires keys { AreKeysFor set.now (option_copied keys) }
    requires scratch { scratch.old ≡ set.now }
    ensures value { IfOk result (λ ready. ready ≡ ready_of set.now (option_copied keys.entry) query.now.ciphers) }
    ensures shape { IfOk result (λ ready. IsReady set.now ready) }
    ensures scratch { scratch.new ≡ scratch.old }
{
    if set.direct {
        Ok(ready_sent(alloc, ring, set, &query.ciphers)?)
    } else {
        match keys {
            Some(keys) => {
                let c = &query.ciphers[0];
                Ok(ready_expanded(alloc, ring, set, c, keys, scratch)?)
            }
            None => unreachable!(),
        }
    }
}
