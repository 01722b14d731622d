ghost use Rattle.std.specs.Prelude.{map, string_bytes};
ghost use Rattle.tool_base.specs.Words.{ReadsArgs, local_seen, local_args, LocalForm};

use super::{LARGEST_CUT, MOST_WORKERS, count_to, plain_number};
use crate::source::Source;

/// What `local DB INDEX WORDS TRANSCRIPT OUT WORKERS CUT` says.
#[derive(Clone, Copy, Debug)]
pub struct Local<'a> {
    /// The file that holds the database.
    pub db: &'a str,
    /// Which record is asked for.
    pub index: u32,
    /// Where the random words come from.
    pub source: Source<'a>,
    /// The file that the bytes of both directions go to.
    pub transcript: &'a str,
    /// The file that the record goes to.
    pub out: &'a str,
    /// How many workers share the work, 1 to 64.
    pub workers: u32,
    /// How many bytes the other side is handed at once, 1 to 1048576.
    pub cut: u32,
}

impl<'a> Local<'a> {
    /// What the words behind `local` say; `None` exactly where they aren't in form.
    pub fn from_args(args: &'a [String]) -> Option<Local<'a>>
        ensures { ReadsArgs local_seen LocalForm local_args (map string_bytes args.now) result }
    {
        let [db, index, source, transcript, out, workers, cut] = args else {
            return None;
        };
        Some(Local {
            db: db.as_str(),
            index: plain_number(index.as_str())?,
            source: Source::from_word(source.as_str())?,
            transcript: transcript.as_str(),
            out: out.as_str(),
            workers: count_to(MOST_WORKERS, workers.as_str())?,
            cut: count_to(LARGEST_CUT, cut.as_str())?,
        })
    }
}
