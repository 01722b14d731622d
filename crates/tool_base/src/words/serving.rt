ghost use Rattle.std.specs.Prelude.{map, string_bytes};
ghost use Rattle.tool_base.specs.Words.{ReadsArgs, serve_seen, serve_args, ServeForm};

use super::{MOST_SESSIONS, MOST_WORKERS, count_to};

/// What `serve ADDR DB SESSIONS WORKERS` says.
#[derive(Clone, Copy, Debug)]
pub struct Serve<'a> {
    /// The address to listen at.
    pub addr: &'a str,
    /// The file that holds the database.
    pub db: &'a str,
    /// After how many sessions the server ends, 1 to 1000000.
    pub sessions: u32,
    /// How many workers share the work, 1 to 64.
    pub workers: u32,
}

impl<'a> Serve<'a> {
    /// What the words behind `serve` say; `None` exactly where they aren't in form.
    pub fn from_args(args: &'a [String]) -> Option<Serve<'a>>
        ensures { ReadsArgs serve_seen ServeForm serve_args (map string_bytes args.now) result }
    {
        let [addr, db, sessions, workers] = args else {
            return None;
        };
        Some(Serve {
            addr: addr.as_str(),
            db: db.as_str(),
            sessions: count_to(MOST_SESSIONS, sessions.as_str())?,
            workers: count_to(MOST_WORKERS, workers.as_str())?,
        })
    }
}
