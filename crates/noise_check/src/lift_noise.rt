ghost use Rattle.std.specs.Prelude.{◌≡◌, ◌+◌, ◌*◌, ◌^◌, ◌<◌, ◌≤◌, length, All};
ghost use Rattle.spiral_sets.specs.Sets.{IsSet};
ghost use Rattle.spiral_model.specs.Noise.{polys_of, lift_key_noise as lift_key_noise_of, lift_noise as lift_noise_of};
ghost use Rattle.regev_code.specs.Shapes.{scalar_of};
ghost use Rattle.regev_code.specs.KeyShapes.{IsKey, AreKeys};
ghost use Rattle.noise_check.specs.Rooms.{IsLiftRow};

use crate::workspace::Workspace;
use gadget_digits::digit_count;
use regev_code::SwitchKey;
use ring_poly::Ring;
use spiral_sets::ParamSet;

/// The norms over all ciphertexts of the lift key of row r: at most 56 of at most 2^66 each.
fn lift_key_noise(
    ring: &Ring,
    set: &ParamSet,
    r: u32,
    key: &SwitchKey,
    room: &mut Workspace<'_>,
) -> u128
    requires measured { IsLiftRow set.now ring.now room.old }
    requires key { IsKey set.now.degree set.now.n set.now.w_conv key.now }
    ensures value { result ≡ lift_key_noise_of set.now (scalar_of set.now.degree room.old.secrets) (polys_of set.now room.old.secrets.rows) key.now room.old.row r }
    ensures size { result ≤ 2 ^ 72 }
    ensures room { room.new ≡ room.old }
{
    let mut total = 0u128;
    for k in 0..digit_count(set.w_conv) {
        total += room.lift_norm(ring, set, r, k, key.cipher(k));
    }
    total
}

/// K: the norms over all ciphertexts of the lift keys, in the row that the room is turned to: at most 4 keys of at most 2^72
/// each.
pub(crate) fn lift_noise(
    ring: &Ring,
    set: &ParamSet,
    lift: &[SwitchKey],
    room: &mut Workspace<'_>,
) -> u128
    requires measured { IsLiftRow set.now ring.now room.old }
    requires keys { AreKeys set.now.degree set.now.n set.now.w_conv set.now.n lift.now }
    ensures value { result ≡ lift_noise_of set.now (scalar_of set.now.degree room.old.secrets) (polys_of set.now room.old.secrets.rows) lift.now room.old.row }
    ensures size { result ≤ 2 ^ 74 }
    ensures room { room.new ≡ room.old }
{
    let mut total = 0u128;
    for r in 0..set.n {
        let key = &lift[r as usize];
        total += lift_key_noise(ring, set, r + 1, key, room);
    }
    total
}
