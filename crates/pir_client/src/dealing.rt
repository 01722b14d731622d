ghost use Rattle.std.specs.Prelude.{◌≡◌, ◌<◌, ◌≤◌, true, length, IfOk, IfSome, OnOk};
ghost use Rattle.std.specs.Option.{option_map, option_copied};
ghost use Rattle.spiral_sets.specs.Sets.{IsSet, max_records, rows, has_keys};
ghost use Rattle.spiral_sets.specs.Counts.{secret_words, words_needed};
ghost use Rattle.spiral_model.specs.Bodies.{IsSetup, IsQuery};
ghost use Rattle.spiral_model.specs.Keys.{keys_in, lift_keys};
ghost use Rattle.spiral_model.specs.Answering.{ready_of};
ghost use Rattle.spiral_model.specs.Noise.{report_of};
ghost use Rattle.spiral_model.specs.Dealing.{query_words, query_body_of};
ghost use Rattle.regev_code.specs.Shapes.{OfDegree, secrets_from, scalar_of};
ghost use Rattle.gsw_code.specs.Columns.{row_secrets_of};
ghost use Rattle.regev_code.specs.KeyShapes.{AreKeysFor};
ghost use Rattle.noise_check.specs.Reports.{IsReport};
ghost use Rattle.pir_client.specs.Asks.{IsDealt, setup_body};

use crate::query::draw_query;
use crate::query_message::draw_one;
use crate::state::state_of_secret;
use key_deal::draw_keys;
use modulus_switch::ClientState;
use no_memory::NoMemory;
use noise_check::{Report, measure};
use query_expand::ready;
use regev_code::{Draw, EvalKeys, KeyBody, QueryBody, Scratch, Secret, draw_secret};
use ring_poly::Ring;
use spiral_sets::ParamSet;
use std::alloc::Global;

/// What words deal for an index, and its noise.
#[derive(Drop)]
pub(crate) struct Dealt {
    pub(crate) state: ClientState,
    /// the keys, where the set has them
    pub(crate) setup: Option<KeyBody>,
    pub(crate) query: QueryBody,
    pub(crate) report: Report,
}

/// The keys that the words behind the secrets give; none in a set without keys.
fn deal_keys(
    alloc: Global,
    ring: &Ring,
    set: &ParamSet,
    secret: &Secret,
    draw: &mut Draw<'_>,
) -> Result<Option<KeyBody>, NoMemory>
    requires known { IsSet set.now }
    requires ring { ring.now ≡ set.now.degree }
    requires degree { OfDegree ring.now secret.now }
    requires secret { secret.now ≡ secrets_from set.now draw.old.words 0 }
    requires place { draw.old.used ≡ secret_words set.now }
    requires enough { query_words set.now ≤ length draw.old.words }
    ensures keys { IfOk result (λ setup. setup ≡ setup_body set.now draw.old.words) }
    ensures shape { IfOk result (λ setup. IfSome setup (λ body. IsSetup body)) }
    ensures place { OnOk result (draw.new ≡ record { words = draw.old.words; used = query_words set.now }) }
{
    if set.has_keys() {
        Ok(Some(draw_keys(alloc, ring, set, secret, draw)?))
    } else {
        Ok(None)
    }
}

/// The query for an index that the words behind the keys give: its ciphertexts as they are used, or where the set isn't
/// direct, the one that is expanded.
fn deal_query(
    alloc: Global,
    ring: &Ring,
    set: &ParamSet,
    secret: &Secret,
    index: u32,
    draw: &mut Draw<'_>,
) -> Result<QueryBody, NoMemory>
    requires known { IsSet set.now }
    requires ring { ring.now ≡ set.now.degree }
    requires degree { OfDegree ring.now secret.now }
    requires secret { secret.now ≡ secrets_from set.now draw.old.words 0 }
    requires place { draw.old.used ≡ query_words set.now }
    requires enough { words_needed set.now ≤ length draw.old.words }
    ensures query { IfOk result (λ query. query ≡ query_body_of set.now draw.old.words index) }
    ensures shape { IfOk result (λ query. IsQuery query) }
{
    if set.direct {
        Ok(draw_query(alloc, ring, set, secret, index, draw)?)
    } else {
        Ok(draw_one(alloc, ring, set, secret, index, draw)?)
    }
}

/// The keys in product form, where there are any.
fn keys_in_form(
    alloc: Global,
    ring: &Ring,
    setup: Option<&KeyBody>,
) -> Result<Option<EvalKeys>, NoMemory>
    requires { IfSome (option_copied setup) (λ body. (has_keys body.set ≡ true) × (ring.now ≡ body.set.degree) × IsSetup body) }
    ensures { IfOk result (λ keys. keys ≡ option_map keys_in (option_copied setup.entry)) }
{
    match setup {
        Some(body) => Ok(Some(EvalKeys::from_body(alloc, ring, body)?)),
        None => Ok(None),
    }
}

/// The noise of a query with the keys that go with it: the query is made ready as a server makes it, and then measured.
fn noise_of(
    alloc: Global,
    ring: &Ring,
    set: &ParamSet,
    secret: &Secret,
    index: u32,
    query: &QueryBody,
    keys: Option<&EvalKeys>,
) -> Result<Report, NoMemory>
    requires known { IsSet set.now }
    requires ring { ring.now ≡ set.now.degree }
    requires degree { OfDegree ring.now secret.now }
    requires secrets { length (row_secrets_of set.now secret.now) ≡ rows set.now }
    requires rows { length secret.now.rows ≡ set.now.n }
    requires set { query.now.set ≡ set.now }
    requires query { IsQuery query.now }
    requires keys { AreKeysFor set.now (option_copied keys) }
    ensures { IfOk result (λ report. IsReport set.now (report_of set.now (scalar_of set.now.degree secret.now) secret.now.rows index (lift_keys (option_copied keys.entry)) (ready_of set.now (option_copied keys.entry) query.now.ciphers)) report) }
{
    let mut scratch = Scratch::new(alloc, set)?;
    let ready = ready(alloc, ring, set, keys, query, &mut scratch)?;
    Ok(measure(alloc, ring, set, secret, index, &ready, keys)?)
}

/// The state, the keys and the query that the words give for the index, and the noise of the query. The words are used in
/// order: N for each secret, then those of each ciphertext of the keys, then those of the query's.
pub(crate) fn deal(
    alloc: Global,
    set: &ParamSet,
    index: u32,
    words: &[u64],
) -> Result<Dealt, NoMemory>
    requires known { IsSet set.now }
    requires index { index < max_records set.now }
    requires words { words_needed set.now ≤ length words.now }
    ensures { IfOk result (λ dealt. IsDealt set.now index words.now dealt) }
{
    let mut draw = Draw::new(words);
    let secret = draw_secret(alloc, set, &mut draw)?;
    let state = state_of_secret(alloc, set, index, &secret)?;
    let ring = Ring::new(alloc, set.degree as usize)?;
    let setup = deal_keys(alloc, &ring, set, &secret, &mut draw)?;
    let query = deal_query(alloc, &ring, set, &secret, index, &mut draw)?;
    let keys = keys_in_form(alloc, &ring, setup.as_ref())?;
    let report = noise_of(alloc, &ring, set, &secret, index, &query, keys.as_ref())?;
    Ok(Dealt {
        state,
        setup,
        query,
        report,
    })
}
