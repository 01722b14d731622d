ghost use Rattle.std.specs.Prelude.{map, string_bytes};
ghost use Rattle.tool_base.specs.Words.{ReadsArgs, ask_seen, ask_args, AskForm};

use super::plain_number;
use crate::source::Source;

/// What `ask SET INDEX WORDS STATE SETUP QUERY` says.
#[derive(Clone, Copy, Debug)]
pub struct Ask<'a> {
    /// The name of the parameter set.
    pub set: &'a str,
    /// Which record is asked for.
    pub index: u32,
    /// Where the random words come from.
    pub source: Source<'a>,
    /// The file that the state goes to.
    pub state: &'a str,
    /// The file that the setup goes to.
    pub setup: &'a str,
    /// The file that the query goes to.
    pub query: &'a str,
}

impl<'a> Ask<'a> {
    /// What the words behind `ask` say; `None` exactly where they aren't in form.
    pub fn from_args(args: &'a [String]) -> Option<Ask<'a>>
        ensures { ReadsArgs ask_seen AskForm ask_args (map string_bytes args.now) result }
    {
        let [set, index, source, state, setup, query] = args else {
            return None;
        };
        Some(Ask {
            set: set.as_str(),
            index: plain_number(index.as_str())?,
            source: Source::from_word(source.as_str())?,
            state: state.as_str(),
            setup: setup.as_str(),
            query: query.as_str(),
        })
    }
}
