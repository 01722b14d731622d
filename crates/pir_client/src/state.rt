ghost use Rattle.std.specs.Prelude.{◌≡◌, ◌++◌, ◌<◌, ◌≤◌, length, All, OnOk, IfOk};
ghost use Rattle.std.specs.List.{flat_map};
ghost use Rattle.spiral_sets.specs.Sets.{IsSet, max_records};
ghost use Rattle.spiral_model.specs.Replies.{IsTernary};
ghost use Rattle.regev_code.specs.Shapes.{OfDegree, secret_row};

use modulus_switch::ClientState;
use no_memory::NoMemory;
use regev_code::Secret;
use spiral_sets::ParamSet;
use std::alloc::Global;

/// Appends the N numbers of the secret s_r.
fn push_row(out: &mut Vec<i8>, secret: &Secret, r: u32, degree: usize) -> Result<(), NoMemory>
    requires first { 1 ≤ r }
    requires last { r ≤ length secret.now.rows }
    requires degree { length (secret_row secret.now r) ≡ degree }
    requires ternary { All IsTernary out.old.items }
    ensures row { OnOk result (out.new.items ≡ out.old.items ++ secret_row secret.now r) }
    ensures ternary { OnOk result (All IsTernary out.new.items) }
{
    for place in 0..degree {
        out.push(secret.number(r, place))?;
    }
    Ok(())
}

/// The numbers of the secrets s_1 to s_n, one after the other.
fn secret_numbers(alloc: Global, set: &ParamSet, secret: &Secret) -> Result<Vec<i8>, NoMemory>
    requires degree { OfDegree set.now.degree secret.now }
    requires count { length secret.now.rows ≡ set.now.n }
    ensures value { IfOk result (λ out. out.items ≡ flat_map (λ row. row) secret.now.rows) }
    ensures ternary { IfOk result (λ out. All IsTernary out.items) }
{
    let mut out = Vec::new(alloc);
    for r in 0..set.n {
        push_row(&mut out, secret, r + 1, set.degree as usize)?;
    }
    Ok(out)
}

/// What the client keeps of a query for an index under its secrets.
pub(crate) fn state_of_secret(
    alloc: Global,
    set: &ParamSet,
    index: u32,
    secret: &Secret,
) -> Result<ClientState, NoMemory>
    requires known { IsSet set.now }
    requires index { index < max_records set.now }
    requires degree { OfDegree set.now.degree secret.now }
    requires count { length secret.now.rows ≡ set.now.n }
    ensures { IfOk result (λ state. state ≡ record { set = set.now; index = index; secret = flat_map (λ row. row) secret.now.rows }) }
{
    Ok(ClientState {
        set: *set,
        index,
        secret: secret_numbers(alloc, set, secret)?,
    })
}
