ghost use Rattle.std.specs.Prelude.{◌≡◌, ◌+◌, ◌*◌, ◌<◌, ◌≤◌, length, OnOk, OnErr, IfOk, All, IsTrue};
ghost use Rattle.spiral_model.specs.Sets.{IsSet};
ghost use Rattle.spiral_model.specs.Counts.{secret_words};
ghost use Rattle.spiral_model.specs.Ciphertexts.{encrypted, words_taken};
ghost use Rattle.regev_code.specs.Shapes.{OfDegree, secrets_from, taken, under};

use crate::encrypt::encrypt;
use crate::secret::word_count;
use crate::{Cipher, Secret};
use no_memory::NoMemory;
use ring_poly::{Poly, Ring};
use spiral_model::ParamSet;
use std::alloc::Global;
use std::marker::Model;

/// A cursor over a query's words. Each draw takes the next ones, exactly as many as its rule says.
///
/// One fresh seed per query: two queries from the same words show the server how their indices differ.
#[derive(Drop)]
pub struct Draw<'a> {
    words: &'a [u64],
    used: usize,
}

impl<'a> Model for Draw<'a> {
    ghost use Rattle.std.specs.Prelude.{◌≤◌, length};
    ghost use Rattle.regev_code.specs.Seen.{Cursor};

    ghost Value = { Cursor };

    ghost view = { λ d. record { words = d.words.now; used = d.used } };

    ghost invariant = { λ d. d.used ≤ length d.words.now };
}

impl<'a> Draw<'a> {
    /// At the front of the words.
    pub fn new(words: &'a [u64]) -> Draw<'a>
        ensures { result ≡ record { words = words.now; used = 0 } }
    {
        Draw { words, used: 0 }
    }

    /// How many words were taken.
    pub fn used(&self) -> usize
        ensures { result ≡ self.now.used }
    {
        self.used
    }

    /// A second cursor at the same place, to draw ahead with: while this one stays, nothing counts as taken.
    pub fn again(&self) -> Draw<'a>
        ensures { result ≡ self.now }
    {
        Draw {
            words: self.words,
            used: self.used,
        }
    }

    /// Moves to the place of a cursor that drew ahead.
    pub fn take_over(&mut self, ahead: &Draw<'a>)
        ensures { self.new ≡ ahead.now }
    {
        self.words = ahead.words;
        self.used = ahead.used;
    }
}

/// The secrets of a set that the next words give: first the scalar one, where the set has keys, then s_1 to s_n, a
/// word for each number. After an error the draw is as before.
pub fn draw_secret(alloc: Global, set: &ParamSet, draw: &mut Draw<'_>) -> Result<Secret, NoMemory>
    requires known { IsSet set.now }
    requires enough { draw.old.used + secret_words set.now ≤ length draw.old.words }
    ensures ok { IfOk result (λ secret. secret ≡ secrets_from set.now draw.old.words draw.old.used) }
    ensures degree { IfOk result (λ secret. OfDegree set.now.degree secret) }
    ensures taken { OnOk result (draw.new ≡ taken draw.old (secret_words set.now)) }
    ensures err { OnErr result (draw.new ≡ draw.old) }
{
    let secret = Secret::from_words(alloc, set, draw.words, draw.used)?;
    draw.used += word_count(set);
    Ok(secret)
}

/// The encryption of messages under the scalar secret, where `scalar` holds, else under s_1 to s_n, by the next words:
/// 2N for the uniform part a, then N for the error of each row. Row 0 is a, row i is s_i a + e_i + M_i. After an error
/// the draw is as before.
pub fn draw_cipher(
    alloc: Global,
    ring: &Ring,
    secret: &Secret,
    scalar: bool,
    message: &[Poly],
    draw: &mut Draw<'_>,
) -> Result<Cipher, NoMemory>
    requires degree { OfDegree ring.now secret.now }
    requires some { 1 ≤ length message.now }
    requires secrets { length message.now ≡ length (under ring.now secret.now scalar) }
    requires messages { All (λ m. length m ≡ ring.now) message.now }
    requires enough { draw.old.used + words_taken ring.now (length message.now) ≤ length draw.old.words }
    ensures ok { IfOk result (λ c. c ≡ encrypted ring.now draw.old.words draw.old.used (under ring.now secret.now scalar) message.now) }
    ensures rows { IfOk result (λ c. length c ≡ length message.now + 1) }
    ensures degree { IfOk result (λ c. All (λ a. length a ≡ ring.now) c) }
    ensures taken { OnOk result (draw.new ≡ taken draw.old (words_taken ring.now (length message.now))) }
    ensures err { OnErr result (draw.new ≡ draw.old) }
{
    let cipher = encrypt(alloc, ring, secret, scalar, message, draw.words, draw.used)?;
    draw.used += ring.degree() * (2 + message.len());
    Ok(cipher)
}
