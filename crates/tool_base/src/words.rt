ghost use Rattle.std.specs.Prelude.{ℕ, map, string_bytes, MatchOption};
ghost use Rattle.tool_base.specs.Words.{Gives, IsNumber, IsCountTo};

mod answering;
mod asking;
mod fetching;
mod local;
mod measuring;
mod opening;
mod preparing;
mod serving;

pub use answering::Answer;
pub use asking::Ask;
pub use fetching::Fetch;
pub use local::Local;
pub use measuring::Noise;
pub use opening::Open;
pub use preparing::Prepare;
pub use serving::Serve;

/// How many workers a command may ask for at most.
const MOST_WORKERS: u32 = 64;

/// How many bytes a cut of a session's bytes may have at most.
const LARGEST_CUT: u32 = 1_048_576;

/// How many sessions a server may be asked to serve at most.
const MOST_SESSIONS: u32 = 1_000_000;

/// What a command line asks for.
#[derive(Clone, Copy, Debug)]
pub enum Command<'a> {
    /// `prepare SET LENGTH INPUT DB`: makes a database of records.
    Prepare(Prepare<'a>),
    /// `ask SET INDEX WORDS STATE SETUP QUERY`: makes a query, its setup and the state that opens the reply.
    Ask(Ask<'a>),
    /// `answer DB SETUP QUERY REPLY WORKERS`: answers a query from a database.
    Answer(Answer<'a>),
    /// `open STATE REPLY OUT`: opens a reply by a state and writes the record.
    Open(Open<'a>),
    /// `noise SET INDEX WORDS`: reports the noise of the query that these words give.
    Noise(Noise<'a>),
    /// `local DB INDEX WORDS TRANSCRIPT OUT WORKERS CUT`: a client and a server in one program, over bytes in memory.
    Local(Local<'a>),
    /// `serve ADDR DB SESSIONS WORKERS`: serves sessions over the net.
    Serve(Serve<'a>),
    /// `fetch ADDR SET INDEX WORDS OUT`: fetches a record from a server.
    Fetch(Fetch<'a>),
}

// The number below 2^32 that a word is in plain decimal; `None` exactly where it is none.
fn plain_number(word: &str) -> Option<u32>
    ensures { MatchOption result ((number : ℕ) → IsNumber word.now number → ⊥) (λ number. IsNumber word.now number) }
{
    // `parse` takes a plus and leading zeros too.
    if word.starts_with('+') {
        return None;
    }
    if word.starts_with('0') && word.len() > 1 {
        return None;
    }
    word.parse::<u32>().ok()
}

// The number from 1 to `most` that a word is in plain decimal; `None` exactly where it is none.
fn count_to(most: u32, word: &str) -> Option<u32>
    ensures { MatchOption result ((number : ℕ) → IsCountTo most word.now number → ⊥) (λ number. IsCountTo most word.now number) }
{
    match plain_number(word) {
        Some(number) if number >= 1 && number <= most => Some(number),
        _ => None,
    }
}

impl<'a> Command<'a> {
    /// The command that the words give; `None` exactly where they fit no command's form.
    pub fn from_words(words: &'a [String]) -> Option<Command<'a>>
        ensures { Gives result (map string_bytes words.now) }
    {
        let [name, args @ ..] = words else {
            return None;
        };
        match name.as_str() {
            "prepare" => Some(Command::Prepare(Prepare::from_args(args)?)),
            "ask" => Some(Command::Ask(Ask::from_args(args)?)),
            "answer" => Some(Command::Answer(Answer::from_args(args)?)),
            "open" => Some(Command::Open(Open::from_args(args)?)),
            "noise" => Some(Command::Noise(Noise::from_args(args)?)),
            "local" => Some(Command::Local(Local::from_args(args)?)),
            "serve" => Some(Command::Serve(Serve::from_args(args)?)),
            "fetch" => Some(Command::Fetch(Fetch::from_args(args)?)),
            _ => None,
        }
    }
}
