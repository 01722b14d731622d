ghost use Rattle.std.specs.Prelude.{◌≡◌};
ghost use Rattle.tool_base.specs.Statuses.{number_of_status};

/// How a command ended.
#[derive(Clone, Copy, Debug, PartialEq, Eq)]
pub enum Status {
    /// What the command promises stands.
    Done,
    /// Memory was wanting.
    NoMemory,
    /// The words fit no command's form.
    Usage,
    /// No set has the name.
    UnknownSet,
    /// The index isn't below the count of records that the set has at most.
    IndexRange,
    /// The source holds fewer words than are needed.
    WordsShort,
    /// The query has too much noise: its answer might open to another record.
    TooNoisy,
    /// A file couldn't be read or written.
    FileFault,
    /// A call of the net failed.
    LinkFault,
    /// An input file isn't the one frame that is expected there.
    BadFrame,
    /// An input is of another set than an earlier one.
    WrongSet,
    /// The asked index isn't below the count of records.
    Absent,
    /// The server refused the query: it sent this in place of a reply.
    PeerRefused,
    /// The bytes of an input aren't the records of a database.
    BadRecords,
    /// The line couldn't be put.
    SinkFault,
    /// A session took as many bytes as it may.
    InputLimit,
}

impl Status {
    /// The status that the program ends with.
    pub fn number(self) -> u8
        ensures { result ≡ number_of_status self }
    {
        match self {
            Status::Done => 0,
            Status::NoMemory => 1,
            Status::Usage => 2,
            Status::UnknownSet => 3,
            Status::IndexRange => 4,
            Status::WordsShort => 5,
            Status::TooNoisy => 6,
            Status::FileFault => 7,
            Status::LinkFault => 8,
            Status::BadFrame => 9,
            Status::WrongSet => 10,
            Status::Absent => 11,
            Status::PeerRefused => 12,
            Status::BadRecords => 13,
            Status::SinkFault => 14,
            Status::InputLimit => 15,
        }
    }
}
