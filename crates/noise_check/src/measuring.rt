ghost use Rattle.std.specs.Prelude.{◌≡◌, ◌^◌, ◌<◌, ◌≤◌, List, ℕ, [], true, false, length, slice_index_or, IfOk};
ghost use Rattle.std.specs.Option.{option_copied};
ghost use Rattle.spiral_sets.specs.Sets.{IsSet, q2, rows};
ghost use Rattle.spiral_model.specs.KeySwitching.{DigitKey};
ghost use Rattle.spiral_model.specs.Keys.{lift_keys};
ghost use Rattle.spiral_model.specs.Noise.{noise_bound as bound_of, lift_noise as lift_noise_of, polys_of, secret_weight, report_row, report_of};
ghost use Rattle.regev_code.specs.Shapes.{OfDegree, numbers_under, scalar_of};
ghost use Rattle.regev_code.specs.KeyShapes.{AreKeys, AreKeysFor};
ghost use Rattle.gsw_code.specs.Columns.{row_secrets_of};
ghost use Rattle.gsw_code.specs.Products.{IsReady};
ghost use Rattle.noise_check.specs.Reports.{IsReport};
ghost use Rattle.noise_check.specs.Rooms.{IsRowOf, IsLiftRow};

use crate::lift_noise::lift_noise;
use crate::reported::{Report, RowNoise};
use crate::sides::reported_row;
use crate::sums::{first_noise, gsw_noise};
use crate::workspace::Workspace;
use gsw_code::Ready;
use no_memory::NoMemory;
use regev_code::{EvalKeys, Secret, SwitchKey};
use ring_poly::Ring;
use spiral_sets::ParamSet;
use std::alloc::Global;

/// T for the sums F, G and K: p / 2 F + (2^w_gsw - 1) G + (2^w_conv - 1) K + p / 2. As p / 2 is at most 2^14, and both 2^w_gsw and
/// 2^w_conv at most 2^7, it stays below 2^91.
fn noise_bound(set: &ParamSet, first: u128, gsw: u128, lift: u128) -> u128
    requires known { IsSet set.now }
    requires first { first ≤ 2 ^ 76 }
    requires gsw { gsw ≤ 2 ^ 77 }
    requires lift { lift ≤ 2 ^ 74 }
    ensures { result ≡ bound_of set.now first gsw lift }
{
    let half = u128::from(set.p() / 2);
    let digit = (1u128 << set.w_gsw) - 1;
    let lift_digit = (1u128 << set.w_conv) - 1;
    half * first + digit * gsw + lift_digit * lift + half
}

/// The noise in the row that the room is turned to, in a set that doesn't pack, where no lift key is used.
fn plain_row(
    ring: &Ring,
    set: &ParamSet,
    index: u32,
    ready: &Ready,
    room: &mut Workspace<'_>,
) -> RowNoise
    requires measured { IsRowOf set.now ring.now room.old }
    requires plain { set.now.pack ≡ false }
    requires row { room.old.row < length room.old.secrets.rows }
    requires ready { IsReady set.now ready.now }
    ensures value { (s : List ℕ) (lift : List DigitKey) → result ≡ report_row set.now s room.old.secrets.rows index lift ready.now room.old.row }
    ensures weight { result.weight < q2 set.now }
    ensures room { room.new ≡ room.old }
{
    let first = first_noise(ring, set, index, &ready.firsts, room);
    let gsw = gsw_noise(ring, set, index, &ready.gsws, room);
    RowNoise {
        noise: noise_bound(set, first, gsw, 0),
        weight: room.weight(ring),
    }
}

/// The report of a set that doesn't pack: in each of its n rows F and G are measured anew.
fn plain_report(
    alloc: Global,
    ring: &Ring,
    set: &ParamSet,
    index: u32,
    ready: &Ready,
    room: &mut Workspace<'_>,
) -> Result<Report, NoMemory>
    requires known { IsSet set.now }
    requires plain { set.now.pack ≡ false }
    requires ring { ring.now ≡ set.now.degree }
    requires degree { room.old.degree ≡ ring.now }
    requires rows { length room.old.secrets.rows ≡ set.now.n }
    requires ready { IsReady set.now ready.now }
    ensures { IfOk result (λ report. (s : List ℕ) (lift : List DigitKey) → IsReport set.now (report_of set.now s room.old.secrets.rows index lift ready.now) report) }
{
    let mut rows = Vec::with_capacity(alloc, set.n as usize)?;
    for row in 0..set.n {
        room.turn_to(ring, false, row);
        let noise = plain_row(ring, set, index, ready, room);
        rows.push(reported_row(set, row, &noise))?;
    }
    Ok(Report { rows })
}

/// The noise in the row that the room is turned to, in a set that packs, from the sums F and G of its one scalar row.
fn packed_row(
    ring: &Ring,
    set: &ParamSet,
    first: u128,
    gsw: u128,
    lift: &[SwitchKey],
    room: &mut Workspace<'_>,
) -> RowNoise
    requires measured { IsLiftRow set.now ring.now room.old }
    requires row { room.old.row < length room.old.secrets.rows }
    requires first { first ≤ 2 ^ 76 }
    requires gsw { gsw ≤ 2 ^ 77 }
    requires keys { AreKeys set.now.degree set.now.n set.now.w_conv set.now.n lift.now }
    ensures noise { result.noise ≡ bound_of set.now first gsw (lift_noise_of set.now (scalar_of set.now.degree room.old.secrets) (polys_of set.now room.old.secrets.rows) lift.now room.old.row) }
    ensures counted { result.weight ≡ secret_weight (slice_index_or room.old.secrets.rows room.old.row []) }
    ensures weight { result.weight < q2 set.now }
    ensures room { room.new ≡ room.old }
{
    let lifts = lift_noise(ring, set, lift, room);
    RowNoise {
        noise: noise_bound(set, first, gsw, lifts),
        weight: room.weight(ring),
    }
}

/// The report of a set that packs: F and G are those of the one scalar row, and each of the n rows has K of its own.
fn packed_report(
    alloc: Global,
    ring: &Ring,
    set: &ParamSet,
    index: u32,
    ready: &Ready,
    lift: &[SwitchKey],
    room: &mut Workspace<'_>,
) -> Result<Report, NoMemory>
    requires known { IsSet set.now }
    requires packs { set.now.pack ≡ true }
    requires ring { ring.now ≡ set.now.degree }
    requires degree { room.old.degree ≡ ring.now }
    requires one { length (numbers_under room.old.secrets true) ≡ 1 }
    requires rows { length room.old.secrets.rows ≡ set.now.n }
    requires ready { IsReady set.now ready.now }
    requires keys { AreKeys set.now.degree set.now.n set.now.w_conv set.now.n lift.now }
    ensures { IfOk result (λ report. IsReport set.now (report_of set.now (scalar_of set.now.degree room.old.secrets) room.old.secrets.rows index lift.now ready.now) report) }
{
    room.turn_to(ring, true, 0);
    let first = first_noise(ring, set, index, &ready.firsts, room);
    let gsw = gsw_noise(ring, set, index, &ready.gsws, room);
    let mut rows = Vec::with_capacity(alloc, set.n as usize)?;
    for row in 0..set.n {
        room.turn_to(ring, false, row);
        let noise = packed_row(ring, set, first, gsw, lift, room);
        rows.push(reported_row(set, row, &noise))?;
    }
    Ok(Report { rows })
}

/// The noise of a query made ready, measured with the secrets: for each row r from 1 to n T = p / 2 F + (2^w_gsw - 1) G + (2^w_conv - 1) K + p / 2, the
/// weight S of s_r, and the sides of the inequality. F, G and K add up the norms of c_i - s_i c_0 - m_i over the first dimension, the selections and
/// the lift keys. Where the set packs, F and G are those of the one scalar row, and K is that of row r; else they are those of row r, K is 0, and no key
/// is looked at. A query that was expanded is measured like one that was sent. Each product of a secret and a ciphertext is made once, and no memory
/// is taken but for the room and the report. An error says that memory was wanting.
pub fn measure(
    alloc: Global,
    ring: &Ring,
    set: &ParamSet,
    secret: &Secret,
    index: u32,
    ready: &Ready,
    keys: Option<&EvalKeys>,
) -> Result<Report, NoMemory>
    requires known { IsSet set.now }
    requires ring { ring.now ≡ set.now.degree }
    requires degree { OfDegree ring.now secret.now }
    requires secrets { length (row_secrets_of set.now secret.now) ≡ rows set.now }
    requires rows { length secret.now.rows ≡ set.now.n }
    requires ready { IsReady set.now ready.now }
    requires keys { AreKeysFor set.now (option_copied keys) }
    ensures { IfOk result (λ report. IsReport set.now (report_of set.now (scalar_of set.now.degree secret.now) secret.now.rows index (lift_keys (option_copied keys.entry)) ready.now) report) }
{
    let mut room = Workspace::new(alloc, ring, secret)?;
    if set.pack {
        match keys {
            Some(keys) => {
                let lift = &keys.lift;
                Ok(packed_report(alloc, ring, set, index, ready, lift, &mut room)?)
            }
            None => unreachable!(),
        }
    } else {
        Ok(plain_report(alloc, ring, set, index, ready, &mut room)?)
    }
}
