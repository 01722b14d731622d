ghost use Rattle.std.specs.Prelude.{◌≡◌, ◌≤◌, length, MatchResult};
ghost use Rattle.tool_base.specs.Sources.{source_seen};
ghost use Rattle.tool_base.specs.Steps.{scene, never};
ghost use Rattle.spiral_sets.specs.Sets.{IsSet};
ghost use Rattle.tool_files.specs.WithWords.{with_words_for, with_words, HasWordsFor, HasWords};

use crate::random_words::read_words;
use pir_io::{Files, IoFault, Sink};
use spiral_sets::ParamSet;
use std::alloc::Global;
use tool_base::{
    FILE_FAULT, Source, Status, find_set, index_range_text, refuse, refuse_by_text,
    words_short_text,
};

/// A set, and random words for a query of it: as many as it needs.
#[derive(Drop)]
pub struct GivenWords {
    /// The set.
    pub set: ParamSet,
    /// As many words as it needs.
    pub words: Vec<u64>,
}

/// The random words that a source gives for a query of an index of that set; or how the command ends, where there are none.
pub fn words_for<F: Files, O: Sink>(
    alloc: Global,
    files: &mut F,
    sink: &mut O,
    set: &ParamSet,
    index: u32,
    source: Source<'_>,
) -> Result<Vec<u64>, Status>
    requires { IsSet set.now }
    ensures { MatchResult result (λ words. HasWordsFor set.now index (source_seen source.entry) (F.seen files.old) (F.seen files.new) words.items × (O.seen sink.new ≡ O.seen sink.old)) (λ status. with_words_for set.now index (source_seen source.entry) (λ _. never) (scene (F.seen files.old) (F.seen files.new) (O.seen sink.old) (O.seen sink.new)) status) }
{
    let bound = set.max_records();
    if u64::from(index) >= bound {
        let text = index_range_text(alloc, index, bound);
        return Err(refuse_by_text(sink, text, Status::IndexRange));
    }
    let needed = set.words_needed();
    let words = match read_words(alloc, files, source, needed as usize) {
        Ok(words) => words,
        Err(IoFault::Failed) => return Err(refuse(sink, FILE_FAULT, Status::FileFault)),
        Err(IoFault::NoMemory) => return Err(Status::NoMemory),
    };
    if (words.len() as u64) < needed {
        let text = words_short_text(alloc, needed, words.len());
        return Err(refuse_by_text(sink, text, Status::WordsShort));
    }
    Ok(words)
}

/// The set of a name and the random words that a source gives for a query of an index; or how the command ends, where
/// there are none.
pub fn given_words<F: Files, O: Sink>(
    alloc: Global,
    files: &mut F,
    sink: &mut O,
    set_name: &str,
    index: u32,
    source: Source<'_>,
) -> Result<GivenWords, Status>
    ensures { MatchResult result (λ given. HasWords set_name.now index (source_seen source.entry) (F.seen files.old) (F.seen files.new) given.set given.words.items × (O.seen sink.new ≡ O.seen sink.old)) (λ status. with_words set_name.now index (source_seen source.entry) (λ _ _. never) (scene (F.seen files.old) (F.seen files.new) (O.seen sink.old) (O.seen sink.new)) status) }
{
    let Some(set) = find_set(set_name) else {
        return Err(refuse(sink, b"unknown set\n", Status::UnknownSet));
    };
    match words_for(alloc, files, sink, &set, index, source) {
        Ok(words) => Ok(GivenWords { set, words }),
        Err(status) => Err(status),
    }
}
