ghost use Rattle.std.specs.Prelude.{◌≡◌, length, IfOk};
ghost use Rattle.spiral_frames.specs.Frames.{frame_of, state_message};
ghost use Rattle.tool_base.specs.Steps.{scene, write};
ghost use Rattle.tool_base.specs.Texts.{query_line};
ghost use Rattle.tool_base.specs.Words.{ask_seen};
ghost use Rattle.tool_files.specs.Ask.{asks};
ghost use Rattle.tool_files.specs.AskedFrames.{outputs_from};

use crate::words_given::given_words;
use modulus_switch::ClientState;
use no_memory::NoMemory;
use pir_client::{AskError, Asked};
use pir_io::{Files, Sink};
use pir_wire::encode_state;
use std::alloc::Global;
use tool_base::{
    Ask, Output, Status, query_text, refuse_by_text, too_noisy_text, write_and_finish,
};

/// Makes a query for an index from random words, and writes the state, the setup and the query to three files, where the noise of the
/// query fits.
pub fn ask_files<F: Files, O: Sink>(
    alloc: Global,
    files: &mut F,
    sink: &mut O,
    ask: &Ask<'_>,
) -> Status
    ensures { asks (ask_seen ask.now) (scene (F.seen files.old) (F.seen files.new) (O.seen sink.old) (O.seen sink.new)) result }
{
    let given = match given_words(alloc, files, sink, ask.set, ask.index, ask.source) {
        Ok(given) => given,
        Err(status) => return status,
    };
    match pir_client::ask(alloc, &given.set, ask.index, &given.words) {
        Ok(asked) => write_asked(alloc, files, sink, ask, &asked),
        Err(AskError::TooNoisy { row, noise }) => {
            refuse_by_text(sink, too_noisy_text(alloc, row, noise), Status::TooNoisy)
        }
        // The index and the words were checked: only memory can be wanting.
        Err(_) => Status::NoMemory,
    }
}

// The State frame of a state.
fn state_frame(alloc: Global, state: &ClientState) -> Result<Vec<u8>, NoMemory>
    ensures { IfOk result (λ bytes. bytes.items ≡ frame_of (state_message state.now)) }
{
    // A look at a field tells what every state keeps.
    let _set = &state.set;
    encode_state(alloc, state)
}

// Writes what was asked to its three files, in order, and puts the line.
fn write_asked<'a, F: Files, O: Sink>(
    alloc: Global,
    files: &mut F,
    sink: &mut O,
    ask: &'a Ask<'a>,
    asked: &'a Asked,
) -> Status
    ensures { write (outputs_from (ask_seen ask.now) asked.now) (query_line ask.now.set.now (length asked.now.setup.items) (length asked.now.query.items)) (scene (F.seen files.old) (F.seen files.new) (O.seen sink.old) (O.seen sink.new)) result }
{
    let Ok(state) = state_frame(alloc, &asked.state) else {
        return Status::NoMemory;
    };
    let Ok(text) = query_text(alloc, ask.set, asked.setup.len(), asked.query.len()) else {
        return Status::NoMemory;
    };
    let outputs = [
        Output {
            name: ask.state,
            bytes: &state,
        },
        Output {
            name: ask.setup,
            bytes: &asked.setup,
        },
        Output {
            name: ask.query,
            bytes: &asked.query,
        },
    ];
    write_and_finish(files, sink, &outputs, text.as_bytes())
}
