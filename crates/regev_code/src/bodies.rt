use crate::Cipher;
use spiral_model::ParamSet;
use std::marker::Model;

/// A set and the ciphertexts of its keys, in the order of a Setup body.
#[derive(Debug, Drop)]
pub struct KeyBody {
    pub set: ParamSet,
    pub ciphers: Vec<Cipher>,
}

impl Model for KeyBody {
    ghost use Rattle.spiral_model.specs.Bodies.{CipherBody};

    ghost Value = { CipherBody };

    ghost view = { λ b. record { set = b.set; ciphers = b.ciphers.items } };
}

/// A set and the ciphertexts of a query, in the order of a Query body.
#[derive(Debug, Drop)]
pub struct QueryBody {
    pub set: ParamSet,
    pub ciphers: Vec<Cipher>,
}

impl Model for QueryBody {
    ghost use Rattle.spiral_model.specs.Bodies.{CipherBody};

    ghost Value = { CipherBody };

    ghost view = { λ b. record { set = b.set; ciphers = b.ciphers.items } };
}
