ghost use Rattle.std.specs.Prelude.{◌≡◌, ◌≢◌, ◌++◌, ◌<◌, List, ℕ, length, MatchOption};
ghost use Rattle.tool_base.specs.Sources.{WordSource, NamesSource, source_seen};

/// Where a command takes its random words from.
#[derive(Clone, Copy, Debug)]
pub enum Source<'a> {
    /// `words:FILE`: words of 8 bytes, the least byte first; a rest of fewer bytes is no word.
    Words(&'a str),
    /// `seed:FILE`: the words that the file's first 32 bytes give as a seed; a shorter file holds none.
    Seed(&'a str),
}

// What stands behind the prefix in a word; `None` exactly where the word is no prefix with something behind it.
fn name_behind<'a>(word: &'a str, prefix: &str) -> Option<&'a str>
    ensures { MatchOption result ((name : List ℕ) → 0 < length name → word.now ≢ prefix.now ++ name) (λ name. (0 < length name.now) × (word.now ≡ prefix.now ++ name.now)) }
{
    let name = word.strip_prefix(prefix)?;
    if name.is_empty() {
        return None;
    }
    Some(name)
}

impl<'a> Source<'a> {
    /// The source that a word of the command line names; `None` exactly where it names none.
    pub fn from_word(word: &'a str) -> Option<Source<'a>>
        ensures { MatchOption result ((source : WordSource) → NamesSource word.now source → ⊥) (λ source. NamesSource word.now (source_seen source)) }
    {
        if let Some(name) = name_behind(word, "words:") {
            return Some(Source::Words(name));
        }
        let name = name_behind(word, "seed:")?;
        Some(Source::Seed(name))
    }
}
