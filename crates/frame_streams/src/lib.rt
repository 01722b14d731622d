//! Streams of frames: in `specs/` how an input is read as messages, whatever pieces it comes in, and what a server writes for it; here the
//! laws that reading obeys, each the contract of a function that does nothing.
#![tactic(auto)]

ghost use Rattle.frame_streams.specs.StreamLaws.{SpelledOnce, NoProperPrefix, FrameIsFirst, WholeIsSpelled, PiecesDontMatter, InputIsRead, FramesAreShort};

/// Bytes spell at most one message.
pub fn spelled_once()
    ensures { SpelledOnce }
{}

/// No spelling is a proper prefix of another.
pub fn no_proper_prefix()
    ensures { NoProperPrefix }
{}

/// The frame of a message of an accepted kind stands at the front of whatever begins with it, and is read as that message.
#[tactic(auto, using(crate::proofs::FrameFirst::frame_first, crate::proofs::ReadAgain::read_again))]
pub fn frame_is_first()
    ensures { FrameIsFirst }
{}

/// What is read as a whole frame is spelled by its message, of an accepted kind.
#[tactic(auto, using(crate::proofs::Spelled::whole_is_spelled))]
pub fn whole_is_spelled()
    ensures { WholeIsSpelled }
{}

/// Reading one piece after another is reading them as one, whatever the pieces.
#[tactic(auto, using(crate::proofs::Pieces::pieces_dont_matter))]
pub fn pieces_dont_matter()
    ensures { PiecesDontMatter }
{}

/// An input that was read is the frames of its messages, one behind the other from place 0, and a rest that begins with no whole frame; its
/// refusal is that of the rest.
#[tactic(auto, using(crate::proofs::Reading::input_is_read))]
pub fn input_is_read()
    ensures { InputIsRead }
{}

/// A frame at hand has fewer than 2^24 bytes.
#[tactic(auto, using(crate::proofs::Reading::frames_are_short))]
pub fn frames_are_short()
    ensures { FramesAreShort }
{}
