ghost use Rattle.std.specs.Prelude.{IsTrue, ◌≡◌};
ghost use Rattle.spiral_sets.specs.Sets.{IsSet};
ghost use Rattle.spiral_frames.specs.Frames.{frame_of, reply_message};
ghost use Rattle.pir_server.specs.Talks.{OnlyWrites, GivesUp, Sends, Refuses};

use super::EndCause;
use modulus_switch::Reply;
use pir_io::{IoFault, Link};
use pir_wire::{encode_refuse, encode_reply};
use spiral_sets::ParamSet;
use std::alloc::Global;

/// Ends a session that memory failed: the Refuse frame of code 13 is tried, and what becomes of it changes nothing.
pub(crate) fn give_up<L: Link>(alloc: Global, link: &mut L, set: &ParamSet) -> EndCause
    requires open { IsTrue (L.seen link.old).is_open }
    requires known { IsSet set.now }
    ensures { GivesUp set.now (L.seen link.old) (L.seen link.new) result }
{
    match encode_refuse(alloc, set, 13, 0) {
        Ok(frame) => {
            let _tried = link.write(&frame);
            EndCause::NoMemory
        }
        Err(_) => EndCause::NoMemory,
    }
}

/// Writes bytes. An error says why the session ends.
fn send<L: Link>(alloc: Global, link: &mut L, set: &ParamSet, bytes: &[u8]) -> Result<(), EndCause>
    requires open { IsTrue (L.seen link.old).is_open }
    requires known { IsSet set.now }
    ensures { Sends set.now bytes.now (L.seen link.old) (L.seen link.new) result }
{
    match link.write(bytes) {
        Ok(()) => Ok(()),
        Err(IoFault::Failed) => Err(EndCause::LinkFault),
        Err(IoFault::NoMemory) => Err(give_up(alloc, link, set)),
    }
}

/// Writes a reply's frame.
pub(crate) fn send_reply<L: Link>(
    alloc: Global,
    link: &mut L,
    set: &ParamSet,
    reply: &Reply,
) -> Result<(), EndCause>
    requires open { IsTrue (L.seen link.old).is_open }
    requires known { IsSet set.now }
    ensures { Sends set.now (frame_of (reply_message reply.now)) (L.seen link.old) (L.seen link.new) result }
{
    match encode_reply(alloc, reply) {
        Ok(frame) => send(alloc, link, set, &frame),
        Err(_) => Err(give_up(alloc, link, set)),
    }
}

/// Ends a session whose input is refused: the Refuse frame is written.
pub(crate) fn refuse<L: Link>(
    alloc: Global,
    link: &mut L,
    set: &ParamSet,
    code: u8,
    at: u64,
) -> EndCause
    requires open { IsTrue (L.seen link.old).is_open }
    requires known { IsSet set.now }
    ensures { Refuses (record { set = set.now; code = code; place = at }) (L.seen link.old) (L.seen link.new) result }
{
    match encode_refuse(alloc, set, code, at) {
        Ok(frame) => match send(alloc, link, set, &frame) {
            Ok(()) => EndCause::Refused { code, at },
            Err(cause) => cause,
        },
        Err(_) => give_up(alloc, link, set),
    }
}
