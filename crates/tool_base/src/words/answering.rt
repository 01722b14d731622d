ghost use Rattle.std.specs.Prelude.{map, string_bytes};
ghost use Rattle.tool_base.specs.Words.{ReadsArgs, answer_seen, answer_args, AnswerForm};

use super::{MOST_WORKERS, count_to};

/// What `answer DB SETUP QUERY REPLY WORKERS` says.
#[derive(Clone, Copy, Debug)]
pub struct Answer<'a> {
    /// The file that holds the database.
    pub db: &'a str,
    /// The file that holds the setup.
    pub setup: &'a str,
    /// The file that holds the query.
    pub query: &'a str,
    /// The file that the reply goes to.
    pub reply: &'a str,
    /// How many workers share the work, 1 to 64.
    pub workers: u32,
}

impl<'a> Answer<'a> {
    /// What the words behind `answer` say; `None` exactly where they aren't in form.
    pub fn from_args(args: &'a [String]) -> Option<Answer<'a>>
        ensures { ReadsArgs answer_seen AnswerForm answer_args (map string_bytes args.now) result }
    {
        let [db, setup, query, reply, workers] = args else {
            return None;
        };
        Some(Answer {
            db: db.as_str(),
            setup: setup.as_str(),
            query: query.as_str(),
            reply: reply.as_str(),
            workers: count_to(MOST_WORKERS, workers.as_str())?,
        })
    }
}
