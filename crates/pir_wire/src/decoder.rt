ghost use Rattle.std.specs.Prelude.{◌≡◌, ◌≢◌, ◌+◌, ◌^◌, ◌≤◌, ◌<◌, [], ◌∷◌, length, All, Err, IfOk, IfSome, MatchResult, option_map, Some, None};
ghost use Rattle.frame_headers.specs.declared.kind.FrameKind.TheVariants.{Database};
ghost use Rattle.frame_headers.specs.declared.header.HeaderRead.TheVariants.{More};
ghost use Rattle.frame_headers.specs.Kinds.{code_of_kind};
ghost use Rattle.frame_headers.specs.Refusals.{place_of};
ghost use Rattle.frame_headers.specs.Checks.{header_read};
ghost use Rattle.frame_streams.specs.Decoding.{AreKinds, HasRoom, RoomIn, begun, decoded, moved as moved_by, refused, wanting};
ghost use Rattle.spiral_frames.specs.Frames.{IsMessage};
ghost use Rattle.pir_wire.specs.Messages.{message_seen};
ghost use Rattle.pir_wire.specs.declared.decoder.FeedError.TheVariants.{Frame};
ghost use Rattle.pir_wire.specs.Making.{body_seen, frame_bytes, IsComing, IsAtHand};
ghost use Rattle.pir_wire.specs.Standing.{condition_of, StageIs};
ghost use Rattle.pir_wire.specs.Steps.{with_bytes, MayGoOn, TakesSome, ComesTo};
ghost use Rattle.pir_wire.specs.Feeding.{FeedGives, Takes, ends_by};

mod body;
mod ciphers;
mod in_frame;
mod parts;
mod places;
mod refuse;
mod reply;
mod state;

use crate::message::Message;
use body::{Body, GrowError};
use frame_headers::{FrameError, FrameKind, HeaderRead, read_header};
use no_memory::NoMemory;
use places::moved;
use std::alloc::{AllocFailed, Global};
use std::collections::VecDeque;
use std::marker::Model;
use std::mem;

/// Why a decoder takes no more.
#[derive(Clone, Copy, Debug, PartialEq, Eq)]
pub enum FeedError {
    /// The input is refused, here with its place in the whole input.
    Frame(FrameError),
    /// Memory was wanting.
    NoMemory,
}

impl From<NoMemory> for FeedError {
    ghost use Rattle.std.specs.Prelude.{◌≡◌};
    ghost use Rattle.pir_wire.specs.declared.decoder.FeedError.TheVariants as wrong;

    ghost from_gives = { λ _ e. e ≡ wrong.NoMemory };

    fn from(_: NoMemory) -> Self {
        FeedError::NoMemory
    }
}

impl<T: Drop> From<AllocFailed<T>> for FeedError {
    ghost use Rattle.std.specs.Prelude.{◌≡◌};
    ghost use Rattle.pir_wire.specs.declared.decoder.FeedError.TheVariants as wrong;

    ghost from_gives = { λ _ e. e ≡ wrong.NoMemory };

    fn from(_: AllocFailed<T>) -> Self {
        FeedError::NoMemory
    }
}

/// A message, and the place of its frame's first byte in the input.
#[derive(Drop)]
struct PlacedMessage {
    place: u64,
    message: Message,
}

impl Model for PlacedMessage {
    ghost use Rattle.frame_streams.specs.Decoding.{Placed};
    ghost use Rattle.spiral_frames.specs.Frames.{IsMessage};
    ghost use Rattle.pir_wire.specs.Messages.{message_seen};

    ghost Value = { Placed };

    ghost view = { λ p. record { place = p.place; message = message_seen p.message } };

    ghost invariant = { λ p. IsMessage (message_seen p.message) };
}

impl PlacedMessage {
    /// Its place, and the message.
    fn into_parts(self) -> (u64, Message)
        ensures place { result.0 ≡ self.place }
        ensures message { message_seen result.1 ≡ self.message }
        ensures is { IsMessage (message_seen result.1) }
    {
        let Self { place, message } = self;
        (place, message)
    }
}

/// How reading stands: a header or a body at hand, the input refused, or memory was wanting.
#[derive(Drop)]
enum Stage {
    /// A header of which these bytes have come.
    Header(Vec<u8>),
    /// A body, and how many bytes of its frame have come.
    Body { body: Body, come: u64 },
    /// The input is refused, here with its place in the whole input.
    Failed(FrameError),
    /// Memory was wanting.
    Stuck,
}

/// Reads frames out of an input that comes in pieces, whatever these are.
pub struct Decoder {
    alloc: Global,
    kinds: u8,
    ready: VecDeque<PlacedMessage>,
    last: u64,
    at: u64,
    stage: Stage,
}

impl Model for Decoder {
    ghost use Rattle.frame_streams.specs.Decoding.{Decoding};
    ghost use Rattle.pir_wire.specs.Standing.{condition_of, IsStanding};

    ghost Value = { Decoding };

    ghost view = { λ d. record { kinds = d.kinds; ready = d.ready.items; last = d.last; at = d.at; condition = condition_of d.stage } };

    ghost invariant = { λ d. IsStanding d.kinds d.at d.stage };
}

/// The front of the bytes, read as a header.
fn read_front(bytes: &[u8], kinds: u8) -> HeaderRead
    ensures read { result ≡ header_read bytes.now kinds }
    ensures below { All (λ b. b < 256) bytes.now }
{
    read_header(bytes, kinds)
}

/// How many bytes of a header there are, where more are wanted. The kinds are there for the clause alone.
fn header_held(bytes: &[u8], kinds: u8) -> usize
    requires { header_read bytes.now kinds ≡ More }
    ensures { result ≤ 269 }
{
    let _ = kinds;
    bytes.len()
}

/// The kind of a code that passed the checks of a header: 1 to 5.
fn passed_kind(code: u8) -> FrameKind
    requires some { 1 ≤ code }
    requires most { code ≤ 5 }
    ensures code { code ≡ code_of_kind result }
    ensures other { result ≢ Database }
{
    match code {
        1 => FrameKind::Setup,
        2 => FrameKind::Query,
        3 => FrameKind::Reply,
        4 => FrameKind::Refuse,
        _ => FrameKind::State,
    }
}

impl Drop for Decoder {
    fn drop(self) {
        let Self {
            alloc: _,
            kinds: _,
            ready: _,
            last: _,
            at: _,
            stage: _,
        } = self;
    }
}

impl Decoder {
    /// A decoder of frames of these kinds, as bits: bit k says that kind k is accepted, for k from 1 to 5. Nothing has been fed yet.
    pub fn new(alloc: Global, kinds: u8) -> Result<Decoder, NoMemory>
        requires { AreKinds kinds }
        ensures { IfOk result (λ d. d ≡ begun kinds) }
    {
        Ok(Decoder {
            alloc,
            kinds,
            ready: VecDeque::new(alloc),
            last: 0,
            at: 0,
            stage: Stage::Header(Vec::new(alloc)),
        })
    }

    /// Reads a piece of the input.
    pub fn feed(&mut self, piece: &[u8]) -> Result<(), FeedError>
        requires { HasRoom self.old (length piece.now) }
        ensures { FeedGives self.old (decoded self.old piece.now) self.new result }
    {
        self.may_go_on()?;
        let mut place = 0;
        while place < piece.len() {
            place += self.take_some(&piece[place..])?;
        }
        Ok(())
    }

    /// Whether more can be fed.
    fn may_go_on(&self) -> Result<(), FeedError>
        ensures { MayGoOn self.now result }
    {
        match &self.stage {
            Stage::Header(_) => Ok(()),
            Stage::Body { .. } => Ok(()),
            Stage::Failed(error) => Err(FeedError::Frame(*error)),
            Stage::Stuck => Err(FeedError::NoMemory),
        }
    }

    /// Takes bytes from the front of a piece, at least one. The stage is Stuck meanwhile, so that it stays so where memory is wanting.
    fn take_some(&mut self, piece: &[u8]) -> Result<usize, FeedError>
        requires some { 0 < length piece.now }
        requires room { HasRoom self.old (length piece.now) }
        ensures { TakesSome self.old self.new piece.now result }
    {
        match mem::replace(&mut self.stage, Stage::Stuck) {
            Stage::Header(bytes) => self.take_header(bytes, piece[0]),
            Stage::Body { body, come } => self.take_body(body, come, piece),
            Stage::Failed(error) => {
                self.put(Stage::Failed(error));
                Err(FeedError::Frame(error))
            }
            Stage::Stuck => Err(FeedError::NoMemory),
        }
    }

    /// Takes one byte behind those of a header. The body begins by the header's last one.
    fn take_header(&mut self, mut bytes: Vec<u8>, byte: u8) -> Result<usize, FeedError>
        requires stuck { self.old.condition ≡ wanting }
        requires kinds { AreKinds self.old.kinds }
        requires wanted { header_read bytes.items self.old.kinds ≡ More }
        requires room { self.old.at + length bytes.items + 1 < 2 ^ 64 }
        ensures { TakesSome (with_bytes self.old bytes.items) self.new (byte ∷ []) result }
    {
        bytes.push(byte)?;
        match read_front(&bytes, self.kinds) {
            HeaderRead::More => self.put(Stage::Header(bytes)),
            HeaderRead::Refused(error) => return self.refuse(error),
            HeaderRead::Whole { kind, set, .. } => {
                let body = Body::begin(self.alloc, passed_kind(kind), &set);
                self.go_on(body, bytes.len() as u64)?;
            }
        }
        Ok(1)
    }

    /// Takes bytes of a body from the front of a piece, at least one.
    fn take_body(&mut self, mut body: Body, come: u64, piece: &[u8]) -> Result<usize, FeedError>
        requires stuck { self.old.condition ≡ wanting }
        requires kinds { AreKinds self.old.kinds }
        requires hand { IsAtHand self.old.kinds come (body_seen body) }
        requires some { 0 < length piece.now }
        requires room { self.old.at + come + length piece.now < 2 ^ 64 }
        ensures { TakesSome (with_bytes self.old (frame_bytes (body_seen body))) self.new piece.now result }
    {
        match body.grow(piece) {
            Ok(count) => {
                self.go_on(body, come + count as u64)?;
                Ok(count)
            }
            Err(GrowError::Refused(error)) => self.refuse(error),
            Err(GrowError::NoMemory) => Err(FeedError::NoMemory),
        }
    }

    /// Keeps a body at hand, or, where all of it has come, its message.
    fn go_on(&mut self, body: Body, come: u64) -> Result<(), NoMemory>
        requires stuck { self.old.condition ≡ wanting }
        requires kinds { AreKinds self.old.kinds }
        requires coming { IsComing self.old.kinds come (body_seen body) }
        requires room { self.old.at + come < 2 ^ 64 }
        ensures { ComesTo self.old (frame_bytes (body_seen body)) self.new result }
    {
        if !body.is_whole() {
            self.put(Stage::Body { body, come });
            return Ok(());
        }
        let message = body.finish()?;
        self.ready.push_back(PlacedMessage {
            place: self.at,
            message,
        })?;
        self.at += come;
        self.put(Stage::Header(Vec::new(self.alloc)));
        Ok(())
    }

    /// Refuses the input from now on. The place is counted from the first byte of the frame at hand.
    fn refuse(&mut self, error: FrameError) -> Result<usize, FeedError>
        requires { self.old.at + place_of error < 2 ^ 64 }
        ensures stands { self.new ≡ record self.old { condition = refused (moved_by self.old.at error) } }
        ensures answer { result ≡ Err (Frame (moved_by self.old.at error)) }
    {
        let error = moved(self.at, error);
        self.put(Stage::Failed(error));
        Err(FeedError::Frame(error))
    }

    /// Puts a stage in the place of the one before.
    fn put(&mut self, stage: Stage)
        requires stage { StageIs self.old.kinds stage }
        requires room { RoomIn (condition_of stage) self.old.at 0 }
        ensures { self.new ≡ record self.old { condition = condition_of stage } }
    {
        self.stage = stage;
    }

    /// The next message, in order; `None` exactly where all that are whole were taken.
    pub fn take(&mut self) -> Option<Message>
        ensures takes { Takes self.old self.new (option_map message_seen result) }
        ensures is { IfSome result (λ m. IsMessage (message_seen m)) }
    {
        let next = self.ready.pop_front()?;
        let (place, message) = next.into_parts();
        self.last = place;
        Some(message)
    }

    /// The place of the first byte of the message taken last; 0 before any was.
    pub fn start(&self) -> u64
        ensures { result ≡ self.now.last }
    {
        self.last
    }

    /// How many bytes of the input are kept that aren't yet part of a message: those of a header, or of a polynomial.
    pub fn held(&self) -> usize
        ensures { result ≤ 14607 }
    {
        match &self.stage {
            Stage::Header(bytes) => header_held(bytes, self.kinds),
            Stage::Body { body, .. } => body.held(),
            Stage::Failed(_) | Stage::Stuck => 0,
        }
    }

    /// What an input that ends here is refused for: its own refusal, or Short inside a frame.
    pub fn finish(&self) -> Result<(), FrameError>
        requires { self.now.condition ≢ wanting }
        ensures { MatchResult result (λ _. ends_by self.now.condition self.now.at ≡ None) (λ error. ends_by self.now.condition self.now.at ≡ Some error) }
    {
        let come = match &self.stage {
            Stage::Header(bytes) => bytes.len() as u64,
            Stage::Body { come, .. } => *come,
            Stage::Failed(error) => return Err(*error),
            Stage::Stuck => 0,
        };
        if come == 0 {
            return Ok(());
        }
        Err(FrameError::Short {
            place: self.at + come,
        })
    }
}
