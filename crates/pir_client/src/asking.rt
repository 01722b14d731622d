ghost use Rattle.std.specs.Prelude.{◌≡◌, take, IfOk, IfSome, MatchResult};
ghost use Rattle.std.specs.Option.{option_copied};
ghost use Rattle.spiral_sets.specs.Sets.{IsSet};
ghost use Rattle.spiral_sets.specs.Counts.{words_needed};
ghost use Rattle.spiral_model.specs.Bodies.{IsSetup};
ghost use Rattle.pir_client.specs.Asks.{Asks, IsAsked, MayAsk, Measures, frame_if_any};

use crate::dealing::deal;
use modulus_switch::ClientState;
use no_memory::NoMemory;
use noise_check::{Report, first_miss};
use pir_wire::{encode_query, encode_setup};
use regev_code::KeyBody;
use spiral_sets::ParamSet;
use std::alloc::Global;
use thiserror::Error;

/// What a client keeps and sends to look up one index.
#[derive(Drop)]
pub struct Asked {
    /// what it keeps to open the reply
    pub state: ClientState,
    /// the Setup frame; empty in a set without keys
    pub setup: Vec<u8>,
    /// the Query frame
    pub query: Vec<u8>,
    /// the noise of the query, which fits
    pub report: Report,
}

/// Why no query was made.
#[derive(Clone, Copy, Debug, PartialEq, Eq, Error)]
pub enum AskError {
    #[error("index {index} is not below {bound}")]
    IndexRange { index: u32, bound: u64 },
    #[error("{needed} words are needed and {given} were given")]
    WordsShort { needed: u64, given: u64 },
    #[error("the noise {noise} of row {row} is too large")]
    TooNoisy { row: u32, noise: u128 },
    #[error("memory was wanting")]
    NoMemory,
}

impl From<NoMemory> for AskError {
    ghost use Rattle.std.specs.Prelude.{◌≡◌};
    ghost use Rattle.pir_client.specs.declared.asking.AskError.TheVariants.{NoMemory as out_of_memory};

    ghost from_gives = { λ _ e. e ≡ out_of_memory };

    fn from(_: NoMemory) -> Self {
        AskError::NoMemory
    }
}

/// Whether the index is in range, and there are as many words as the set needs.
fn check_words(set: &ParamSet, index: u32, words: &[u64]) -> Result<(), AskError>
    requires { IsSet set.now }
    ensures { MatchResult result (λ _. MayAsk set.now index words.now) (λ error. Measures set.now index words.now (Err error)) }
{
    let bound = set.max_records();
    if u64::from(index) >= bound {
        return Err(AskError::IndexRange { index, bound });
    }
    let needed = set.words_needed();
    let given = words.len() as u64;
    if given < needed {
        return Err(AskError::WordsShort { needed, given });
    }
    Ok(())
}

/// The Setup frame of the keys, where there are any; else no bytes.
fn setup_bytes(alloc: Global, setup: Option<&KeyBody>) -> Result<Vec<u8>, NoMemory>
    requires { IfSome (option_copied setup) (λ body. IsSetup body) }
    ensures { IfOk result (λ bytes. bytes.items ≡ frame_if_any (option_copied setup.entry)) }
{
    match setup {
        Some(body) => Ok(encode_setup(alloc, body)?),
        None => Ok(Vec::new(alloc)),
    }
}

/// The keys and the query for the record at an index, and what the client keeps to open the reply, dealt from words: where
/// Fits holds of the query's noise, so that the reply opens to that record and no other.
///
/// **One fresh seed per query: two queries from the same words show the server how their indices differ.** Words past
/// the needed ones change nothing.
pub fn ask(alloc: Global, set: &ParamSet, index: u32, words: &[u64]) -> Result<Asked, AskError>
    requires known { IsSet set.now }
    ensures asks { Asks set.now index words.now result }
    ensures front { IfOk result (λ asked. IsAsked set.now index (take (words_needed set.now) words.now) asked) }
{
    check_words(set, index, words)?;
    let dealt = deal(alloc, set, index, words)?;
    if let Some(miss) = first_miss(&dealt.report) {
        let row = &dealt.report.rows[miss as usize];
        return Err(AskError::TooNoisy {
            row: row.row,
            noise: row.noise,
        });
    }
    let setup = setup_bytes(alloc, dealt.setup.as_ref())?;
    let query = encode_query(alloc, &dealt.query)?;
    Ok(Asked {
        state: dealt.state,
        setup,
        query,
        report: dealt.report,
    })
}

/// The noise of the query that words give for an index: the report that `ask` makes, whether Fits holds of it or not.
pub fn measure_for(
    alloc: Global,
    set: &ParamSet,
    index: u32,
    words: &[u64],
) -> Result<Report, AskError>
    requires known { IsSet set.now }
    ensures measures { Measures set.now index words.now result }
{
    check_words(set, index, words)?;
    let dealt = deal(alloc, set, index, words)?;
    Ok(dealt.report)
}
