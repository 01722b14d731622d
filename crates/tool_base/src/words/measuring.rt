ghost use Rattle.std.specs.Prelude.{map, string_bytes};
ghost use Rattle.tool_base.specs.Words.{ReadsArgs, noise_seen, noise_args, NoiseForm};

use super::plain_number;
use crate::source::Source;

/// What `noise SET INDEX WORDS` says.
#[derive(Clone, Copy, Debug)]
pub struct Noise<'a> {
    /// The name of the parameter set.
    pub set: &'a str,
    /// Which record would be asked for.
    pub index: u32,
    /// Where the random words come from.
    pub source: Source<'a>,
}

impl<'a> Noise<'a> {
    /// What the words behind `noise` say; `None` exactly where they aren't in form.
    pub fn from_args(args: &'a [String]) -> Option<Noise<'a>>
        ensures { ReadsArgs noise_seen NoiseForm noise_args (map string_bytes args.now) result }
    {
        let [set, index, source] = args else {
            return None;
        };
        Some(Noise {
            set: set.as_str(),
            index: plain_number(index.as_str())?,
            source: Source::from_word(source.as_str())?,
        })
    }
}
