ghost use Rattle.std.specs.Prelude.{◌≡◌};
ghost use Rattle.spiral_sets.specs.Sets.{IsSet};
ghost use Rattle.frame_headers.specs.Kinds.{code_of_kind, kind_of_code, body_len_of};

use spiral_sets::ParamSet;

/// The kinds of frames.
#[derive(Clone, Copy, Debug, PartialEq, Eq)]
pub enum FrameKind {
    /// The keys of a client.
    Setup,
    /// A query of a client.
    Query,
    /// A reply of a server.
    Reply,
    /// A server's refusal.
    Refuse,
    /// What a client keeps of its query.
    State,
    /// A database.
    Database,
}

impl FrameKind {
    /// The code that stands for it in a header, 1 to 6.
    pub fn code(self) -> u8
        ensures { result ≡ code_of_kind self }
    {
        match self {
            FrameKind::Setup => 1,
            FrameKind::Query => 2,
            FrameKind::Reply => 3,
            FrameKind::Refuse => 4,
            FrameKind::State => 5,
            FrameKind::Database => 6,
        }
    }

    /// The kind of a code. None exactly where no kind has it.
    pub fn from_code(code: u8) -> Option<FrameKind>
        ensures { result ≡ kind_of_code code }
    {
        match code {
            1 => Some(FrameKind::Setup),
            2 => Some(FrameKind::Query),
            3 => Some(FrameKind::Reply),
            4 => Some(FrameKind::Refuse),
            5 => Some(FrameKind::State),
            6 => Some(FrameKind::Database),
            _ => None,
        }
    }

    /// How many bytes the body of such a frame has; that of a database has at least so many.
    pub fn body_len(self, set: &ParamSet) -> u64
        requires { IsSet set.now }
        ensures { result ≡ body_len_of self set.now }
    {
        match self {
            FrameKind::Setup => set.setup_len(),
            FrameKind::Query => set.query_len(),
            FrameKind::Reply => set.reply_len(),
            FrameKind::Refuse => 9,
            FrameKind::State => set.state_len(),
            FrameKind::Database => 16,
        }
    }
}
