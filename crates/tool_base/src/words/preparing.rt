ghost use Rattle.std.specs.Prelude.{map, string_bytes};
ghost use Rattle.tool_base.specs.Words.{ReadsArgs, prepare_seen, prepare_args, PrepareForm};

use super::plain_number;

/// What `prepare SET LENGTH INPUT DB` says.
#[derive(Clone, Copy, Debug)]
pub struct Prepare<'a> {
    /// The name of the parameter set.
    pub set: &'a str,
    /// How many bytes a record has.
    pub length: u32,
    /// The file that holds the records, one after the other.
    pub input: &'a str,
    /// The file that the database goes to.
    pub db: &'a str,
}

impl<'a> Prepare<'a> {
    /// What the words behind `prepare` say; `None` exactly where they aren't in form.
    pub fn from_args(args: &'a [String]) -> Option<Prepare<'a>>
        ensures { ReadsArgs prepare_seen PrepareForm prepare_args (map string_bytes args.now) result }
    {
        let [set, length, input, db] = args else {
            return None;
        };
        Some(Prepare {
            set: set.as_str(),
            length: plain_number(length.as_str())?,
            input: input.as_str(),
            db: db.as_str(),
        })
    }
}
