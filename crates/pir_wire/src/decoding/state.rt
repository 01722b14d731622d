ghost use Rattle.std.specs.Prelude.{◌≡◌, ◌≤◌, List, ℤ, map, All, IfOk, IfSome, IfNone};
ghost use Rattle.spiral_model.specs.Replies.{IsTernary};
ghost use Rattle.spiral_frames.specs.Frames.{secret_byte};

use super::FramedMessage;
use frame_headers::{FrameKind, number_at};
use modulus_switch::ClientState;
use no_memory::NoMemory;
use spiral_sets::ParamSet;
use std::alloc::Global;

/// The secret number that a byte stands for: the byte less 1.
fn secret_number(byte: u8) -> i8
    requires { byte ≤ 2 }
    ensures ternary { IsTernary result }
    ensures byte { secret_byte result ≡ byte }
{
    byte as i8 - 1
}

/// The numbers of the secret that the bytes stand for; `None` exactly where a byte is above 2.
fn secret_of(alloc: Global, bytes: &[u8]) -> Result<Option<Vec<i8>>, NoMemory>
    ensures ternary { IfOk result (λ found. IfSome found (λ secret. All IsTernary secret.items)) }
    ensures spelled { IfOk result (λ found. IfSome found (λ secret. map secret_byte secret.items ≡ bytes.now)) }
    ensures none { IfOk result (λ found. IfNone found ((secret : List ℤ) → All IsTernary secret → map secret_byte secret ≡ bytes.now → ⊥)) }
{
    let mut secret = Vec::new(alloc);
    for byte in bytes {
        if *byte > 2 {
            return Ok(None);
        }
        secret.push(secret_number(*byte))?;
    }
    Ok(Some(secret))
}

impl FramedMessage for ClientState {
    ghost use Rattle.std.specs.Prelude.{refl};
    ghost use Rattle.frame_headers.specs.declared.kind.FrameKind.TheVariants.{State};
    ghost use Rattle.spiral_frames.specs.Frames.{state_message};

    ghost message = { state_message };

    ghost KIND = { State };

    const KIND: FrameKind = FrameKind::State;

    ghost kind_is = { λ _. refl };

    ghost one_length = { tt };

    /// The index, then a byte for each number of the secrets.
    fn from_body(
        alloc: Global,
        set: &ParamSet,
        body: &[u8],
    ) -> Result<Option<ClientState>, NoMemory> {
        if body.len() as u64 != set.state_len() {
            return Ok(None);
        }
        let index = number_at(body, 0);
        if index >= set.max_records() {
            return Ok(None);
        }
        let Some(secret) = secret_of(alloc, &body[8..])? else {
            return Ok(None);
        };
        Ok(Some(ClientState {
            set: *set,
            index: index as u32,
            secret,
        }))
    }
}
