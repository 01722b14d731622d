ghost use Rattle.std.specs.Prelude.{◌≡◌, ◌+◌, ◌*◌, ◌^◌, ◌<◌, ◌≤◌, length, All, if◌then◌else◌};
ghost use Rattle.spiral_sets.specs.Sets.{IsSet, places, rows};
ghost use Rattle.spiral_sets.specs.Counts.{firsts_count};
ghost use Rattle.spiral_model.specs.Words.{cipher_at};
ghost use Rattle.spiral_model.specs.Noise.{place_noise as place_noise_of, first_noise as first_noise_of, row_noise as row_noise_of, selection_noise as selection_noise_of, gsw_noise as gsw_noise_of};
ghost use Rattle.regev_code.specs.Products.{HasShape};
ghost use Rattle.gsw_code.specs.Columns.{row_secrets_of};
ghost use Rattle.gsw_code.specs.Products.{IsGsw};
ghost use Rattle.noise_check.specs.Rooms.{IsRowOf};

use crate::workspace::Workspace;
use gadget_digits::digit_count;
use gsw_code::{Gsw, selection};
use regev_code::CipherT;
use ring_poly::Ring;
use spiral_sets::ParamSet;

/// The ciphertext of place u and column c of the first dimension.
fn first_at<'a>(set: &ParamSet, firsts: &'a [CipherT], u: u32, c: u32) -> &'a CipherT
    requires known { IsSet set.now }
    requires place { u < places set.now }
    requires column { c < rows set.now }
    requires many { length firsts.now ≡ firsts_count set.now }
    requires shapes { All (HasShape set.now.degree (rows set.now + 1)) firsts.now }
    ensures value { result.now ≡ cipher_at firsts.now (u * rows set.now + c) }
    ensures shape { HasShape set.now.degree (rows set.now + 1) result.now }
{
    &firsts[u as usize * set.rows() as usize + c as usize]
}

/// The norms over the columns of place u of the first dimension: at most 4 of at most 2^66 each.
fn place_noise(
    ring: &Ring,
    set: &ParamSet,
    index: u32,
    u: u32,
    firsts: &[CipherT],
    room: &mut Workspace<'_>,
) -> u128
    requires measured { IsRowOf set.now ring.now room.old }
    requires place { u < places set.now }
    requires many { length firsts.now ≡ firsts_count set.now }
    requires shapes { All (HasShape set.now.degree (rows set.now + 1)) firsts.now }
    ensures value { result ≡ place_noise_of set.now (row_secrets_of set.now room.old.secrets) index firsts.now room.old.row u }
    ensures size { result ≤ 2 ^ 68 }
    ensures room { room.new ≡ room.old }
{
    let mut total = 0u128;
    for c in 0..set.rows() {
        let column = first_at(set, firsts, u, c);
        total += room.first_norm(ring, set, index, u, c, column);
    }
    total
}

/// F: the norms over all places of the first dimension: at most 2^8 of at most 2^68 each.
pub(crate) fn first_noise(
    ring: &Ring,
    set: &ParamSet,
    index: u32,
    firsts: &[CipherT],
    room: &mut Workspace<'_>,
) -> u128
    requires measured { IsRowOf set.now ring.now room.old }
    requires many { length firsts.now ≡ firsts_count set.now }
    requires shapes { All (HasShape set.now.degree (rows set.now + 1)) firsts.now }
    ensures value { result ≡ first_noise_of set.now (row_secrets_of set.now room.old.secrets) index firsts.now room.old.row }
    ensures size { result ≤ 2 ^ 76 }
    ensures room { room.new ≡ room.old }
{
    let mut total = 0u128;
    for u in 0..set.places() {
        total += place_noise(ring, set, index, u, firsts, room);
    }
    total
}

/// The norms over the columns of row r of a selection's GSW ciphertext: at most 56 of at most 2^66 each.
fn row_noise(
    ring: &Ring,
    set: &ParamSet,
    bit: bool,
    r: u32,
    gsw: &Gsw,
    room: &mut Workspace<'_>,
) -> u128
    requires measured { IsRowOf set.now ring.now room.old }
    requires gsw { IsGsw set.now gsw.now }
    requires row { r ≤ rows set.now }
    ensures value { result ≡ row_noise_of set.now (row_secrets_of set.now room.old.secrets) (if bit then 1 else 0) gsw.now room.old.row r }
    ensures size { result ≤ 2 ^ 72 }
    ensures room { room.new ≡ room.old }
{
    let mut total = 0u128;
    for k in 0..digit_count(set.w_gsw) {
        total += room.column_norm(ring, set, bit, r, k, gsw);
    }
    total
}

/// The norms over all columns of a selection's GSW ciphertext: at most 5 rows of at most 2^72 each.
fn selection_noise(
    ring: &Ring,
    set: &ParamSet,
    bit: bool,
    gsw: &Gsw,
    room: &mut Workspace<'_>,
) -> u128
    requires measured { IsRowOf set.now ring.now room.old }
    requires gsw { IsGsw set.now gsw.now }
    ensures value { result ≡ selection_noise_of set.now (row_secrets_of set.now room.old.secrets) (if bit then 1 else 0) gsw.now room.old.row }
    ensures size { result ≤ 2 ^ 75 }
    ensures room { room.new ≡ room.old }
{
    let mut total = 0u128;
    for r in 0..set.rows() + 1 {
        total += row_noise(ring, set, bit, r, gsw, room);
    }
    total
}

/// G: the norms over all selections: at most 4 of at most 2^75 each.
pub(crate) fn gsw_noise(
    ring: &Ring,
    set: &ParamSet,
    index: u32,
    gsws: &[Gsw],
    room: &mut Workspace<'_>,
) -> u128
    requires measured { IsRowOf set.now ring.now room.old }
    requires many { length gsws.now ≡ set.now.nu2 }
    requires shapes { All (IsGsw set.now) gsws.now }
    ensures value { result ≡ gsw_noise_of set.now (row_secrets_of set.now room.old.secrets) index gsws.now room.old.row }
    ensures size { result ≤ 2 ^ 77 }
    ensures room { room.new ≡ room.old }
{
    let mut total = 0u128;
    for l in 0..set.nu2 {
        let bit = selection(set, index, l);
        let gsw = &gsws[l as usize];
        total += selection_noise(ring, set, bit, gsw, room);
    }
    total
}
