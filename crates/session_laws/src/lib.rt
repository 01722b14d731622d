//! Laws that tie what a client sends to what a server writes for it, each the contract of a function that does nothing.
#![tactic(auto)]

ghost use Rattle.session_laws.specs.Exchanges.{QueryIsAnswered, AnswerIsRead};

/// What a client sends for an index, its Setup frame where the set has keys and its Query frame, is answered by a server of a
/// database of that set with exactly one Reply frame, that of the defined answer, and nothing is refused.
pub fn query_is_answered()
    ensures { QueryIsAnswered }
{}

/// That frame is one whole frame of a kind that the client accepts, and spells the reply and nothing else.
pub fn answer_is_read()
    ensures { AnswerIsRead }
{}
