ghost use Rattle.std.specs.Prelude.{◌≡◌, IfOk};
ghost use Rattle.spiral_sets.specs.Sets.{IsSet};
ghost use Rattle.spiral_model.specs.Queries.{first_messages as messages_of};

use gsw_code::first_message_into;
use no_memory::NoMemory;
use ring_poly::{Poly, Ring};
use spiral_sets::ParamSet;
use std::alloc::Global;

/// What rows 1 to m encrypt in the first-dimension ciphertext of place u and column r: Delta in row r, where u is the
/// asked place.
pub(crate) fn first_messages(
    alloc: Global,
    ring: &Ring,
    set: &ParamSet,
    index: u32,
    u: u32,
    r: u32,
) -> Result<Vec<Poly>, NoMemory>
    requires known { IsSet set.now }
    requires ring { ring.now ≡ set.now.degree }
    ensures { IfOk result (λ messages. messages.items ≡ messages_of set.now index u r) }
{
    let mut messages = Vec::new(alloc);
    for i in 0..set.rows() {
        let mut message = Poly::zero(alloc, ring.degree())?;
        first_message_into(set, index, u, r, i + 1, &mut message);
        messages.push(message)?;
    }
    Ok(messages)
}
