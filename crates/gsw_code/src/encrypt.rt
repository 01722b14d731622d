ghost use Rattle.std.specs.Prelude.{◌≡◌, ◌+◌, ◌*◌, ◌<◌, ◌≤◌, [], ◌∷◌, length, OnOk, OnErr, IfOk, if◌then◌else◌};
ghost use Rattle.spiral_sets.specs.Sets.{IsSet, digit_count as digit_count_of, rows};
ghost use Rattle.spiral_sets.specs.Counts.{gsw_count};
ghost use Rattle.spiral_model.specs.Ciphertexts.{words_taken};
ghost use Rattle.spiral_model.specs.Queries.{gsw_messages, gsw_row_columns, gsw_columns};
ghost use Rattle.regev_code.specs.Shapes.{OfDegree, taken};
ghost use Rattle.gsw_code.specs.Columns.{row_secrets_of, ColumnsDrawn};

use crate::intended::power_of;
use crate::messages::column_messages;
use gadget_digits::digit_count;
use no_memory::NoMemory;
use regev_code::{Cipher, Draw, Secret, draw_cipher};
use ring_poly::Ring;
use spiral_sets::ParamSet;
use std::alloc::Global;

/// Appends column (r, k), drawn from the next words.
fn draw_column(
    alloc: Global,
    ring: &Ring,
    set: &ParamSet,
    secret: &Secret,
    bit: bool,
    r: u32,
    k: u32,
    columns: &mut Vec<Cipher>,
    draw: &mut Draw<'_>,
) -> Result<(), NoMemory>
    requires known { IsSet set.now }
    requires ring { ring.now ≡ set.now.degree }
    requires degree { OfDegree ring.now secret.now }
    requires secrets { length (row_secrets_of set.now secret.now) ≡ rows set.now }
    requires digit { k < digit_count_of set.now.w_gsw }
    requires enough { draw.old.used + words_taken set.now.degree (rows set.now) ≤ length draw.old.words }
    ensures { OnOk result (ColumnsDrawn set.now secret.now (λ s. gsw_messages set.now s (if bit then 1 else 0) r k ∷ []) draw.old draw.new columns.old.items columns.new.items) }
{
    let power = power_of(set, bit, k);
    let messages = column_messages(alloc, ring, set, secret, power, r)?;
    columns.push(draw_cipher(alloc, ring, secret, set.pack, &messages, draw)?)?;
    Ok(())
}

/// Appends the columns of row r, by k, each drawn from the next words.
fn draw_row(
    alloc: Global,
    ring: &Ring,
    set: &ParamSet,
    secret: &Secret,
    bit: bool,
    r: u32,
    columns: &mut Vec<Cipher>,
    draw: &mut Draw<'_>,
) -> Result<(), NoMemory>
    requires known { IsSet set.now }
    requires ring { ring.now ≡ set.now.degree }
    requires degree { OfDegree ring.now secret.now }
    requires secrets { length (row_secrets_of set.now secret.now) ≡ rows set.now }
    requires enough { draw.old.used + digit_count_of set.now.w_gsw * words_taken set.now.degree (rows set.now) ≤ length draw.old.words }
    ensures { OnOk result (ColumnsDrawn set.now secret.now (λ s. gsw_row_columns set.now s (if bit then 1 else 0) r) draw.old draw.new columns.old.items columns.new.items) }
{
    for k in 0..digit_count(set.w_gsw) {
        draw_column(alloc, ring, set, secret, bit, r, k, columns, draw)?;
    }
    Ok(())
}

/// The columns of a GSW ciphertext of a bit, by r from 0 to m, within r by k below t, each drawn from the next words.
/// Column (r, k) encrypts bit 2^(w k) in row r; column (0, k) encrypts -s_i bit 2^(w k) in each row i. An error says that
/// memory was wanting, and leaves the draw as it was.
pub fn encrypt_bit(
    alloc: Global,
    ring: &Ring,
    set: &ParamSet,
    secret: &Secret,
    bit: bool,
    draw: &mut Draw<'_>,
) -> Result<Vec<Cipher>, NoMemory>
    requires known { IsSet set.now }
    requires ring { ring.now ≡ set.now.degree }
    requires degree { OfDegree ring.now secret.now }
    requires secrets { length (row_secrets_of set.now secret.now) ≡ rows set.now }
    requires enough { draw.old.used + gsw_count set.now * words_taken set.now.degree (rows set.now) ≤ length draw.old.words }
    ensures ok { IfOk result (λ columns. ColumnsDrawn set.now secret.now (λ s. gsw_columns set.now s (if bit then 1 else 0)) draw.old draw.new [] columns.items) }
    ensures taken { OnOk result (draw.new ≡ taken draw.old (gsw_count set.now * words_taken set.now.degree (rows set.now))) }
    ensures err { OnErr result (draw.new ≡ draw.old) }
{
    let mut ahead = draw.again();
    let mut columns = Vec::new(alloc);
    for r in 0..set.rows() + 1 {
        draw_row(alloc, ring, set, secret, bit, r, &mut columns, &mut ahead)?;
    }
    draw.take_over(&ahead);
    Ok(columns)
}
