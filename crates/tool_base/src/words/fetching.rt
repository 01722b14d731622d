ghost use Rattle.std.specs.Prelude.{map, string_bytes};
ghost use Rattle.tool_base.specs.Words.{ReadsArgs, fetch_seen, fetch_args, FetchForm};

use super::plain_number;
use crate::source::Source;

/// What `fetch ADDR SET INDEX WORDS OUT` says.
#[derive(Clone, Copy, Debug)]
pub struct Fetch<'a> {
    /// The address of the server.
    pub addr: &'a str,
    /// The name of the parameter set.
    pub set: &'a str,
    /// Which record is asked for.
    pub index: u32,
    /// Where the random words come from.
    pub source: Source<'a>,
    /// The file that the record goes to.
    pub out: &'a str,
}

impl<'a> Fetch<'a> {
    /// What the words behind `fetch` say; `None` exactly where they aren't in form.
    pub fn from_args(args: &'a [String]) -> Option<Fetch<'a>>
        ensures { ReadsArgs fetch_seen FetchForm fetch_args (map string_bytes args.now) result }
    {
        let [addr, set, index, source, out] = args else {
            return None;
        };
        Some(Fetch {
            addr: addr.as_str(),
            set: set.as_str(),
            index: plain_number(index.as_str())?,
            source: Source::from_word(source.as_str())?,
            out: out.as_str(),
        })
    }
}
