ghost use Rattle.std.specs.Prelude.{map, string_bytes};
ghost use Rattle.tool_base.specs.Words.{ReadsArgs, open_seen, open_args, OpenForm};

/// What `open STATE REPLY OUT` says.
#[derive(Clone, Copy, Debug)]
pub struct Open<'a> {
    /// The file that holds the state.
    pub state: &'a str,
    /// The file that holds the reply.
    pub reply: &'a str,
    /// The file that the record goes to.
    pub out: &'a str,
}

impl<'a> Open<'a> {
    /// What the words behind `open` say; `None` exactly where they aren't in form.
    pub fn from_args(args: &'a [String]) -> Option<Open<'a>>
        ensures { ReadsArgs open_seen OpenForm open_args (map string_bytes args.now) result }
    {
        let [state, reply, out] = args else {
            return None;
        };
        Some(Open {
            state: state.as_str(),
            reply: reply.as_str(),
            out: out.as_str(),
        })
    }
}
