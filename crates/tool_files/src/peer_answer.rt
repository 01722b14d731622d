use modulus_switch::Reply;

/// What a server sent for a query.
#[derive(Drop)]
pub enum PeerAnswer {
    /// Its reply.
    Reply(Reply),
    /// A refusal: the code says why, and the place where in what the server read.
    Refuse { code: u8, place: u64 },
}
