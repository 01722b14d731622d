ghost use Rattle.std.specs.Prelude.{ℕ, ◌≡◌, ◌++◌, ◌≤◌, IsTrue, OnOk, OnErr, Ok, [], map, is_some, string_bytes};
ghost use Rattle.std.specs.Option.{option_copied, option_map, option_or};
ghost use Rattle.pir_io.specs.Link.{ReadsLink};
ghost use Rattle.pir_io.specs.Net.{IsFresh, at_hand};
ghost use Rattle.pir_io.specs.NetPlan.{ReadsInput, written_in, unused_net};
ghost use Rattle.pir_io.specs.PlannedCalls.{none_left};
ghost use Rattle.pir_io.specs.Sessions.{sessions_seen, sessions_log, sessions_plan, input_of, start_by};

use crate::peer_input::{ended_after, next_piece};
use std::alloc::{AllocError, Global};

#[derive(Clone, Copy)]
pub(crate) enum Opening {
    Connect,
    Accept,
}

/// A session that is over.
#[derive(Drop)]
pub(crate) struct PastSession {
    pub(crate) took: Vec<u8>,
    pub(crate) wrote: Vec<u8>,
    pub(crate) ended: bool,
    pub(crate) opening: Opening,
    pub(crate) faults: u64,
}

/// The sessions of a net in memory. The peer of session k sends input k, and nothing past the last one. While no session
/// is at hand, it tells no bytes.
pub(crate) struct Sessions {
    pub(crate) alloc: Global,
    pub(crate) inputs: Vec<Vec<u8>>,
    pub(crate) piece: usize,
    pub(crate) past: Vec<PastSession>,
    pub(crate) addr: Option<String>,
    // the session at hand: how it was opened, the count of faults then, the bytes read and written, and its ends
    pub(crate) opening: Option<Opening>,
    pub(crate) faults_at_start: u64,
    pub(crate) read: usize,
    pub(crate) wrote: Vec<u8>,
    pub(crate) ended: bool,
    pub(crate) closed: bool,
}

/// By hand: a caller's proof then takes one step for it, and not one for each of its lists.
impl Drop for Sessions {
    fn drop(self) {
        let Self {
            alloc: _,
            inputs: _,
            piece: _,
            past: _,
            addr: _,
            opening: _,
            faults_at_start: _,
            read: _,
            wrote: _,
            ended: _,
            closed: _,
        } = self;
    }
}

impl Sessions {
    /// No session has begun. A read gives at most `piece` bytes.
    pub(crate) fn new(alloc: Global, inputs: Vec<Vec<u8>>, piece: usize) -> Self
        requires { 1 ≤ piece }
        ensures seen { sessions_seen 0 result ≡ unused_net }
        ensures plan { sessions_plan result ≡ record { inputs = map (λ input. input.items) inputs.items; piece = piece } }
    {
        Sessions {
            alloc,
            inputs,
            piece,
            past: Vec::new(alloc),
            addr: None,
            opening: None,
            faults_at_start: 0,
            read: 0,
            wrote: Vec::new(alloc),
            ended: false,
            closed: false,
        }
    }

    /// What was written in a session. None where it hasn't begun.
    pub(crate) fn wrote(&self, session: usize) -> Option<&[u8]>
        ensures { (faults : ℕ) → option_copied result ≡ written_in (sessions_seen faults self.now) session }
    {
        match self.past.get(session) {
            Some(past) => Some(past.wrote.as_slice()),
            None if session == self.past.len() && self.opening.is_some() => {
                Some(self.wrote.as_slice())
            }
            None => None,
        }
    }

    /// What the peer sends in the session at hand.
    fn input(&self) -> &[u8]
        ensures { result.now ≡ input_of self.now }
    {
        match self.inputs.get(self.past.len()) {
            Some(input) => input.as_slice(),
            None => &[],
        }
    }

    /// Whether no input is left for one more session.
    pub(crate) fn has_none_left(&self) -> bool
        ensures { (faults : ℕ) → result ≡ none_left (sessions_plan self.now) (sessions_seen faults self.now) }
    {
        match self.opening {
            Some(_) => self.inputs.len() <= self.past.len() + 1,
            None => self.inputs.len() <= self.past.len(),
        }
    }

    /// Takes the next bytes of the input, as many as a read may give.
    pub(crate) fn read(&mut self, into: &mut [u8]) -> usize
        requires { IsTrue (is_some self.old.opening) }
        ensures reads { (faults : ℕ) → ReadsLink (sessions_seen faults self.old) (sessions_seen faults self.new) into.old into.new (Ok result) }
        ensures exact { (faults : ℕ) → ReadsInput (sessions_plan self.old) (sessions_seen faults self.old) into.new (Ok result) }
        ensures plan { sessions_plan self.new ≡ sessions_plan self.old }
    {
        let count = next_piece(self.input(), self.read, self.piece, into);
        self.read += count;
        self.ended = ended_after(self.ended, count, into.len());
        count
    }

    /// Puts the session at hand behind the past ones, where there is one. `faults` is what was counted by now.
    fn keep(&mut self, faults: u64) -> Result<(), AllocError>
        ensures past { OnOk result ((sessions_log self.new).past ≡ (sessions_log self.old).past ++ at_hand (sessions_seen faults self.old)) }
        ensures same { self.new ≡ record self.old { past = self.new.past } }
        ensures err { OnErr result (self.new.past.items ≡ self.old.past.items) }
    {
        if let Some(opening) = self.opening {
            let input = self.input();
            let read = self.read.min(input.len());
            let session = PastSession {
                took: input[..read].to_vec(self.alloc)?,
                wrote: self.wrote.to_vec(self.alloc)?,
                ended: self.ended,
                opening,
                faults: faults.saturating_sub(self.faults_at_start),
            };
            self.past.push(session)?;
        }
        Ok(())
    }

    /// Ends the session at hand, where there is one, and begins another where an opening is given. An address that is
    /// given takes the place of the one before. `before` and `after` are the faults counted before and after the call.
    pub(crate) fn begin(
        &mut self,
        opening: Option<Opening>,
        addr: Option<String>,
        before: u64,
        after: u64,
    ) -> Result<(), AllocError>
        ensures log { OnOk result (sessions_log self.new ≡ record {
          past = (sessions_log self.old).past ++ at_hand (sessions_seen before self.old);
          addr = option_map string_bytes (option_or addr self.old.addr);
          start = option_map start_by opening;
          faults_at_start = after;
        }) }
        ensures fresh { OnOk result (IsFresh (sessions_seen after self.new)) }
        ensures is_open { OnOk result ((sessions_seen after self.new).is_open ≡ is_some opening) }
        ensures err { OnErr result (sessions_seen before self.new ≡ sessions_seen before self.old) }
        ensures plan { sessions_plan self.new ≡ sessions_plan self.old }
    {
        self.keep(before)?;
        self.addr = addr.or(self.addr.take());
        self.opening = opening;
        self.faults_at_start = after;
        self.read = 0;
        self.wrote = Vec::new(self.alloc);
        self.ended = false;
        self.closed = false;
        Ok(())
    }
}
