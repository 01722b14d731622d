use modulus_switch::{ClientState, Reply};
use regev_code::{KeyBody, QueryBody};
use spiral_sets::ParamSet;

/// What a frame carries. Contracts see it by `message_seen`.
#[derive(Drop)]
pub enum Message {
    /// The keys of a client.
    Setup(KeyBody),
    /// A query of a client.
    Query(QueryBody),
    /// A reply of a server.
    Reply(Reply),
    /// A server's refusal: its set, and the code and place of what it refuses.
    Refuse { set: ParamSet, code: u8, at: u64 },
    /// What a client keeps of its query.
    State(ClientState),
}
