//! What all commands share: the words of a command line, the statuses that they end with, the lines that they put,
//! and the files that they write.
#![tactic(auto)]

mod lines;
mod output;
mod set_names;
mod source;
mod status;
mod texts;
mod words;

pub use lines::{
    FILE_FAULT, INPUT_LIMIT, LINK_FAULT, finish, refuse, refuse_by_text, write_and_finish,
};
pub use output::{Output, write_outputs};
pub use set_names::find_set;
pub use source::Source;
pub use status::Status;
pub use texts::{
    absent_text, bad_frame_text, bad_records_text, database_text, index_range_text,
    peer_refused_text, query_text, record_text, reply_text, report_row_text, report_text,
    too_noisy_text, words_short_text, wrong_set_text,
};
pub use words::{Answer, Ask, Command, Fetch, Local, Noise, Open, Prepare, Serve};
