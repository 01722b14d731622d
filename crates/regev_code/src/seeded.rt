ghost use Rattle.std.specs.Prelude.{◌≡◌, ◌+◌, ◌*◌, ◌^◌, ◌<◌, length, IfOk};
ghost use Rattle.rand_chacha.specs.ChaCha.{word_at};
ghost use Rattle.spiral_model.specs.Sampling.{seeded_words as words_of_seed};

use crate::sampling::zeros;
use no_memory::NoMemory;
use rand_chacha::ChaCha20Rng;
use rand_core::SeedableRng;
use rand_core::utils::NextWord;
use std::alloc::Global;

/// The next two words of a stream as one number, the first one low.
fn next_number(stream: &mut ChaCha20Rng) -> u64
    requires { stream.old.word_pos + 2 < 2 ^ 68 }
    ensures value { result ≡ word_at 10 stream.old.key stream.old.stream stream.old.word_pos + 2 ^ 32 * word_at 10 stream.old.key stream.old.stream (stream.old.word_pos + 1) }
    ensures rest { stream.new ≡ record stream.old { word_pos = stream.old.word_pos + 2 } }
{
    let low = u64::from(stream.next_word());
    let high = u64::from(stream.next_word());
    low + high * (1 << 32)
}

/// Writes the first words of a seed.
fn fill_seeded(seed: &[u8; 32], out: &mut [u64])
    ensures { out.new ≡ words_of_seed seed.now (length out.old) }
{
    let mut stream = ChaCha20Rng::from_seed(*seed);
    for i in 0..out.len() {
        out[i] = next_number(&mut stream);
    }
}

/// The first `count` words of a seed: 64-bit words of ChaCha20's stream 0 with the seed as its key.
pub fn seeded_words(alloc: Global, seed: &[u8; 32], count: usize) -> Result<Vec<u64>, NoMemory>
    ensures { IfOk result (λ words. words.items ≡ words_of_seed seed.now count) }
{
    let mut words = zeros(alloc, count)?;
    fill_seeded(seed, &mut words);
    Ok(words)
}
