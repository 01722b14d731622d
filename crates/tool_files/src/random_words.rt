ghost use Rattle.std.specs.Prelude.{◌≡◌, ◌≤◌, [], length, take, nat_le, if◌then◌else◌, IfOk};
ghost use Rattle.spiral_model.specs.Sampling.{seeded_words as seed_words};
ghost use Rattle.tool_base.specs.Sources.{source_seen};
ghost use Rattle.tool_files.specs.RandomWords.{ReadsWords, words_written};

use frame_headers::number_at;
use no_memory::NoMemory;
use pir_io::{Files, IoFault, read_front};
use regev_code::seeded_words;
use std::alloc::Global;
use tool_base::Source;

/// How many bytes a word has.
const WORD: usize = 8;

/// How many bytes a seed has.
const SEED: usize = 32;

// The words that bytes write, 8 bytes each.
fn written_words(alloc: Global, bytes: &[u8]) -> Result<Vec<u64>, NoMemory>
    ensures { IfOk result (λ words. words.items ≡ words_written bytes.now) }
{
    let mut words = Vec::new(alloc);
    for k in 0..bytes.len() / WORD {
        words.push(number_at(bytes, WORD * k))?;
    }
    Ok(words)
}

// The words that the first 32 bytes give as a seed, none where there are fewer.
fn words_of_seed(alloc: Global, bytes: &[u8], needed: usize) -> Result<Vec<u64>, NoMemory>
    ensures { IfOk result (λ words. words.items ≡ (if nat_le 32 (length bytes.now) then seed_words (take 32 bytes.now) needed else [])) }
{
    match bytes.first_chunk::<SEED>() {
        Some(seed) => seeded_words(alloc, seed, needed),
        None => Ok(Vec::new(alloc)),
    }
}

/// Reads the words of a source, `needed` at most: so many words of a file of words, or those that the 32 bytes of a
/// seed give. Fewer come where the file holds fewer. `Failed` is a fault at the file that the source names.
pub fn read_words<F: Files>(
    alloc: Global,
    files: &mut F,
    source: Source<'_>,
    needed: usize,
) -> Result<Vec<u64>, IoFault>
    ensures { ReadsWords (F.seen files.old) (F.seen files.new) (source_seen source.entry) needed (λ words. words.items) result }
{
    let words = match source {
        Source::Words(name) => {
            // No file's front that is in memory has as many bytes as the number at which this product stops.
            let bytes = read_front(alloc, files, name, needed.saturating_mul(WORD))?;
            written_words(alloc, &bytes)
        }
        Source::Seed(name) => {
            let bytes = read_front(alloc, files, name, SEED)?;
            words_of_seed(alloc, &bytes, needed)
        }
    };
    match words {
        Ok(words) => Ok(words),
        Err(NoMemory) => Err(IoFault::NoMemory),
    }
}
