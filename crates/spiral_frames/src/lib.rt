//! Frames: in `specs/` the messages, the bytes that spell them and how an input is refused as a frame; here the laws that they obey,
//! each the contract of a function that does nothing.
#![tactic(auto)]

ghost use Rattle.spiral_frames.specs.FrameLaws.{FramesAreOfOneSet, StatesOfFrames, RepliesOfFrames, SpelledIsNotRefused, RefusedIsNotSpelled};

/// Messages of one kind whose frames are the same bytes are of one set.
#[tactic(auto, using(crate::proofs::FrameLaws::same_set_of_frames))]
pub fn frames_are_of_one_set()
    ensures { FramesAreOfOneSet }
{}

/// A frame is that of one state only.
#[tactic(auto, using(crate::proofs::SameMessages::same_state))]
pub fn states_of_frames()
    ensures { StatesOfFrames }
{}

/// A frame is that of one reply only.
#[tactic(auto, using(crate::proofs::SameMessages::same_reply))]
pub fn replies_of_frames()
    ensures { RepliesOfFrames }
{}

/// The frame of a database is not refused.
#[tactic(auto, using(crate::proofs::SpelledDatabases::spelled_not_refused))]
pub fn spelled_is_not_refused()
    ensures { SpelledIsNotRefused }
{}

/// What is refused as a database's frame is the frame of none.
#[tactic(auto, using(crate::proofs::SpelledDatabases::refused_not_spelled))]
pub fn refused_is_not_spelled()
    ensures { RefusedIsNotSpelled }
{}
