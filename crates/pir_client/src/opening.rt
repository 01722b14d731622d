ghost use Rattle.pir_client.specs.Opens.{Opens, Retrieves};

use modulus_switch::{ClientState, Reply, open_matrix};
use no_memory::NoMemory;
use spiral_sets::ParamSet;
use std::alloc::Global;
use thiserror::Error;

/// Why no record was opened.
#[derive(Clone, Copy, Debug, PartialEq, Eq, Error)]
pub enum OpenError {
    #[error("the reply is of another parameter set")]
    WrongSet { expected: ParamSet, found: ParamSet },
    #[error("index {index} is not below the count {count}")]
    Absent { index: u32, count: u32 },
    #[error("memory was wanting")]
    NoMemory,
}

impl From<NoMemory> for OpenError {
    ghost use Rattle.std.specs.Prelude.{◌≡◌};
    ghost use Rattle.pir_client.specs.declared.opening.OpenError.TheVariants.{NoMemory as out_of_memory};

    ghost from_gives = { λ _ e. e ≡ out_of_memory };

    fn from(_: NoMemory) -> Self {
        OpenError::NoMemory
    }
}

/// The record that a reply holds for the state of its query: each value opened by the secret, the values as bytes, cut
/// to the record's length.
pub fn open(alloc: Global, state: &ClientState, reply: &Reply) -> Result<Vec<u8>, OpenError>
    ensures opens { Opens (λ bytes. bytes.items) state.now reply.now result }
    ensures retrieves { Retrieves (λ bytes. bytes.items) state.now reply.now result }
{
    open_present(alloc, state, reply)
}

/// The same, where the sets are one and the record is there.
fn open_present(alloc: Global, state: &ClientState, reply: &Reply) -> Result<Vec<u8>, OpenError>
    ensures { Opens (λ bytes. bytes.items) state.now reply.now result }
{
    let found = reply.set();
    if !state.set.is(&found) {
        return Err(OpenError::WrongSet {
            expected: state.set,
            found,
        });
    }
    let count = reply.count();
    if state.index >= count {
        return Err(OpenError::Absent {
            index: state.index,
            count,
        });
    }
    Ok(open_matrix(alloc, state, reply)?)
}
