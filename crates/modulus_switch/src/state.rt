use spiral_sets::ParamSet;
use std::marker::Model;

/// What the client keeps of a query until the reply comes: the set, the index that it asked for, and the
/// secrets s_1 to s_n row by row, each N numbers of -1, 0 and 1.
#[derive(Drop)]
pub struct ClientState {
    pub set: ParamSet,
    pub index: u32,
    pub secret: Vec<i8>,
}

impl Model for ClientState {
    ghost use Rattle.spiral_model.specs.Replies.{QueryState, IsState};

    ghost Value = { QueryState };

    ghost view = { λ s. record { set = s.set; index = s.index; secret = s.secret.items } };

    ghost invariant = { λ s. IsState (record { set = s.set; index = s.index; secret = s.secret.items }) };
}
