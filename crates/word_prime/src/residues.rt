//! A residue as a type of its own.

ghost use Rattle.std.specs.Prelude.{◌≡◌, ◌<◌, ◌≤◌, ◌%◌, ◌^◌, pos, ◌+ℤ◌, ◌-ℤ◌, ◌*ℤ◌, MatchOption};
ghost use Rattle.negacyclic.specs.Residues.{residue};
ghost use Rattle.word_prime.specs.Lanes.{IsModulus};

use crate::arithmetic::{difference_of, product_of, sum_of};
use std::marker::Model;

/// A residue modulo P, seen as a number below P.
#[derive(Clone, Copy, Debug, PartialEq, Eq)]
pub struct Residue<const P: u32> {
    value: u32,
}

impl<const P: u32> Model for Residue<P> {
    ghost use Rattle.std.specs.Prelude.{ℕ, ◌<◌};

    ghost Value = { ℕ };

    ghost view = { λ a. a.value };

    ghost invariant = { λ a. a.value < P };

    ghost inverse = { λ n. record { value = n } };
}

impl<const P: u32> Residue<P> {
    /// The residue x. There is none exactly where x is at least P.
    pub fn new(x: u32) -> Option<Residue<P>>
        ensures { MatchOption result (P ≤ x) (λ a. (a ≡ x) × (x < P)) }
    {
        if x < P {
            Some(Residue { value: x })
        } else {
            None
        }
    }

    /// The number, below P.
    pub fn get(self) -> u32
        ensures value { result ≡ self.entry }
        ensures below { result < P }
    {
        self.value
    }

    /// The sum modulo P.
    pub fn add(self, other: Residue<P>) -> Residue<P>
        requires { IsModulus P }
        ensures { result ≡ residue P (pos self.entry +ℤ pos other.entry) }
    {
        Residue {
            value: sum_of::<P>(self.value, other.value),
        }
    }

    /// The difference modulo P.
    pub fn sub(self, other: Residue<P>) -> Residue<P>
        requires { IsModulus P }
        ensures { result ≡ residue P (pos self.entry -ℤ pos other.entry) }
    {
        Residue {
            value: difference_of::<P>(self.value, other.value),
        }
    }

    /// The product modulo P.
    pub fn mul(self, other: Residue<P>) -> Residue<P>
        requires { IsModulus P }
        ensures { result ≡ residue P (pos self.entry *ℤ pos other.entry) }
    {
        Residue {
            value: product_of::<P>(self.value, other.value),
        }
    }

    /// The power of an exponent modulo P, by squares.
    pub fn pow(self, exponent: u32) -> Residue<P>
        requires { IsModulus P }
        ensures { result ≡ self.entry ^ exponent % P }
    {
        let mut power = self.value;
        let mut product = 1 % P;
        let mut rest = exponent;
        while rest > 0 {
            if rest % 2 == 1 {
                product = product_of::<P>(product, power);
            }
            power = product_of::<P>(power, power);
            rest /= 2;
        }
        Residue { value: product }
    }
}
