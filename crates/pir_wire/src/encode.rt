ghost use Rattle.std.specs.Prelude.{◌≡◌, ◌++◌, map, replicate, All, IfOk};
ghost use Rattle.spiral_sets.specs.Sets.{IsSet};
ghost use Rattle.spiral_model.specs.Replies.{IsTernary};
ghost use Rattle.spiral_frames.specs.Frames.{IsMessage, Spell, setup_message, query_message, reply_message, refuse_message, state_message, secret_byte as secret_byte_of};

use crate::header::begin_frame;
use crate::reply::{push_body, push_mask};
use crate::residues::push_ciphers;
use frame_headers::FrameKind;
use modulus_switch::{ClientState, Reply};
use no_memory::NoMemory;
use regev_code::{KeyBody, QueryBody};
use spiral_sets::ParamSet;
use std::alloc::Global;

/// The byte of a number of a secret: the number plus 1.
fn secret_byte(number: i8) -> u8
    requires { IsTernary number }
    ensures { result ≡ secret_byte_of number }
{
    (number + 1) as u8
}

/// Appends a byte for each number of a secret.
fn push_secret(out: &mut Vec<u8>, secret: &[i8]) -> Result<(), NoMemory>
    requires { All IsTernary secret.now }
    ensures { IfOk result (λ _. out.new.items ≡ out.old.items ++ map secret_byte_of secret.now) }
{
    for number in secret {
        out.push(secret_byte(*number))?;
    }
    Ok(())
}

/// The State frame of a state.
pub fn encode_state(alloc: Global, state: &ClientState) -> Result<Vec<u8>, NoMemory>
    requires { IsMessage (state_message state.now) }
    ensures { IfOk result (λ bytes. Spell (state_message state.now) bytes.items) }
{
    let mut out = begin_frame(alloc, FrameKind::State, &state.set)?;
    out.extend_from_slice(&u64::from(state.index).to_le_bytes())?;
    push_secret(&mut out, &state.secret)?;
    Ok(out)
}

/// So many zeros.
fn zeros(alloc: Global, count: usize) -> Result<Vec<u64>, NoMemory>
    ensures { IfOk result (λ v. v.items ≡ replicate count 0) }
{
    Ok(vec![in alloc; 0u64; count]?)
}

/// The Setup frame of a set's keys.
pub fn encode_setup(alloc: Global, keys: &KeyBody) -> Result<Vec<u8>, NoMemory>
    requires { IsMessage (setup_message keys.now) }
    ensures { IfOk result (λ bytes. Spell (setup_message keys.now) bytes.items) }
{
    let mut numbers = zeros(alloc, keys.set.degree as usize)?;
    let mut out = begin_frame(alloc, FrameKind::Setup, &keys.set)?;
    push_ciphers(&mut out, &keys.ciphers, &mut numbers)?;
    Ok(out)
}

/// The Query frame of a query.
pub fn encode_query(alloc: Global, query: &QueryBody) -> Result<Vec<u8>, NoMemory>
    requires { IsMessage (query_message query.now) }
    ensures { IfOk result (λ bytes. Spell (query_message query.now) bytes.items) }
{
    let mut numbers = zeros(alloc, query.set.degree as usize)?;
    let mut out = begin_frame(alloc, FrameKind::Query, &query.set)?;
    push_ciphers(&mut out, &query.ciphers, &mut numbers)?;
    Ok(out)
}

/// The Reply frame of a reply.
pub fn encode_reply(alloc: Global, reply: &Reply) -> Result<Vec<u8>, NoMemory>
    ensures { IfOk result (λ bytes. Spell (reply_message reply.now) bytes.items) }
{
    let set = reply.set();
    let mut out = begin_frame(alloc, FrameKind::Reply, &set)?;
    out.extend_from_slice(&u64::from(reply.count()).to_le_bytes())?;
    out.extend_from_slice(&u64::from(reply.length()).to_le_bytes())?;
    push_body(&mut out, reply)?;
    push_mask(&mut out, reply)?;
    Ok(out)
}

/// The Refuse frame of a server of that set: the code in a byte, and the place in 8.
pub fn encode_refuse(alloc: Global, set: &ParamSet, code: u8, at: u64) -> Result<Vec<u8>, NoMemory>
    requires { IsSet set.now }
    ensures { IfOk result (λ bytes. Spell (refuse_message (record { set = set.now; code = code; place = at })) bytes.items) }
{
    let mut out = begin_frame(alloc, FrameKind::Refuse, set)?;
    out.push(code)?;
    out.extend_from_slice(&at.to_le_bytes())?;
    Ok(out)
}
