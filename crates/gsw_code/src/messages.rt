ghost use Rattle.std.specs.Prelude.{◌≡◌, ◌<◌, ◌≤◌, length, map, IfOk};
ghost use Rattle.std.specs.List.{range_with_len};
ghost use Rattle.spiral_sets.specs.Sets.{IsSet, q, rows};
ghost use Rattle.spiral_model.specs.Queries.{column_message};
ghost use Rattle.regev_code.specs.Shapes.{OfDegree, under};

use crate::intended::column_message_into;
use no_memory::NoMemory;
use regev_code::Secret;
use ring_poly::{Poly, Ring};
use spiral_sets::ParamSet;
use std::alloc::Global;

/// What a row, from 1 to m, encrypts in a column of row r.
fn message(
    alloc: Global,
    ring: &Ring,
    secret: &Secret,
    scalar: bool,
    power: u64,
    r: u32,
    row: u32,
) -> Result<Poly, NoMemory>
    requires degree { OfDegree ring.now secret.now }
    requires first { 1 ≤ row }
    requires last { row ≤ length (under ring.now secret.now scalar) }
    requires residue { power < q }
    ensures { IfOk result (λ a. a ≡ column_message ring.now (under ring.now secret.now scalar) power r row) }
{
    let mut message = Poly::zero(alloc, ring.degree())?;
    column_message_into(ring, secret, scalar, power, r, row, &mut message);
    Ok(message)
}

/// What rows 1 to m encrypt in a column of row r.
pub(crate) fn column_messages(
    alloc: Global,
    ring: &Ring,
    set: &ParamSet,
    secret: &Secret,
    power: u64,
    r: u32,
) -> Result<Vec<Poly>, NoMemory>
    requires known { IsSet set.now }
    requires degree { OfDegree ring.now secret.now }
    requires secrets { length (under ring.now secret.now set.now.pack) ≡ rows set.now }
    requires residue { power < q }
    ensures { IfOk result (λ messages. messages.items ≡ map (column_message ring.now (under ring.now secret.now set.now.pack) power r) (range_with_len 1 (rows set.now))) }
{
    let mut messages = Vec::new(alloc);
    for i in 0..set.rows() {
        messages.push(message(alloc, ring, secret, set.pack, power, r, i + 1)?)?;
    }
    Ok(messages)
}
