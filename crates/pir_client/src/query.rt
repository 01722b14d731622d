ghost use Rattle.std.specs.Prelude.{◌≡◌, ◌+◌, ◌*◌, ◌≤◌, [], ◌∷◌, true, length, OnOk, IfOk};
ghost use Rattle.std.specs.List.{range_with_len, flat_map};
ghost use Rattle.spiral_sets.specs.Sets.{IsSet, places, rows};
ghost use Rattle.spiral_sets.specs.Counts.{firsts_count, gsw_count, query_ciphertexts, words_of};
ghost use Rattle.spiral_model.specs.Ciphertexts.{encrypted_all, words_taken};
ghost use Rattle.spiral_model.specs.Queries.{first_messages as messages_of, first_columns, selection_columns, query_messages};
ghost use Rattle.spiral_model.specs.Bodies.{IsQuery};
ghost use Rattle.regev_code.specs.Shapes.{OfDegree};
ghost use Rattle.gsw_code.specs.Columns.{row_secrets_of, ColumnsDrawn};

use crate::messages::first_messages;
use gsw_code::{encrypt_bit, selection};
use no_memory::NoMemory;
use regev_code::{Cipher, Draw, QueryBody, Secret, draw_cipher};
use ring_poly::Ring;
use spiral_sets::ParamSet;
use std::alloc::Global;

/// Appends the first-dimension ciphertext of place u and column r, drawn from the next words.
fn draw_column(
    alloc: Global,
    ring: &Ring,
    set: &ParamSet,
    secret: &Secret,
    index: u32,
    u: u32,
    r: u32,
    ciphers: &mut Vec<Cipher>,
    draw: &mut Draw<'_>,
) -> Result<(), NoMemory>
    requires known { IsSet set.now }
    requires ring { ring.now ≡ set.now.degree }
    requires degree { OfDegree ring.now secret.now }
    requires secrets { length (row_secrets_of set.now secret.now) ≡ rows set.now }
    requires enough { draw.old.used + words_taken set.now.degree (rows set.now) ≤ length draw.old.words }
    ensures { OnOk result (ColumnsDrawn set.now secret.now (λ _. messages_of set.now index u r ∷ []) draw.old draw.new ciphers.old.items ciphers.new.items) }
{
    let messages = first_messages(alloc, ring, set, index, u, r)?;
    ciphers.push(draw_cipher(alloc, ring, secret, set.pack, &messages, draw)?)?;
    Ok(())
}

/// Appends the first-dimension ciphertexts of place u, by column from 1, each drawn from the next words.
fn draw_place(
    alloc: Global,
    ring: &Ring,
    set: &ParamSet,
    secret: &Secret,
    index: u32,
    u: u32,
    ciphers: &mut Vec<Cipher>,
    draw: &mut Draw<'_>,
) -> Result<(), NoMemory>
    requires known { IsSet set.now }
    requires ring { ring.now ≡ set.now.degree }
    requires degree { OfDegree ring.now secret.now }
    requires secrets { length (row_secrets_of set.now secret.now) ≡ rows set.now }
    requires enough { draw.old.used + rows set.now * words_taken set.now.degree (rows set.now) ≤ length draw.old.words }
    ensures { OnOk result (ColumnsDrawn set.now secret.now (λ _. first_columns set.now index u) draw.old draw.new ciphers.old.items ciphers.new.items) }
{
    for r in 0..set.rows() {
        draw_column(alloc, ring, set, secret, index, u, r + 1, ciphers, draw)?;
    }
    Ok(())
}

/// Appends the ciphertexts of the first dimension, by place from 0, each drawn from the next words.
fn draw_first(
    alloc: Global,
    ring: &Ring,
    set: &ParamSet,
    secret: &Secret,
    index: u32,
    ciphers: &mut Vec<Cipher>,
    draw: &mut Draw<'_>,
) -> Result<(), NoMemory>
    requires known { IsSet set.now }
    requires ring { ring.now ≡ set.now.degree }
    requires degree { OfDegree ring.now secret.now }
    requires secrets { length (row_secrets_of set.now secret.now) ≡ rows set.now }
    requires enough { draw.old.used + firsts_count set.now * words_taken set.now.degree (rows set.now) ≤ length draw.old.words }
    ensures { OnOk result (ColumnsDrawn set.now secret.now (λ _. flat_map (first_columns set.now index) (range_with_len 0 (places set.now))) draw.old draw.new ciphers.old.items ciphers.new.items) }
{
    for u in 0..set.places() {
        draw_place(alloc, ring, set, secret, index, u, ciphers, draw)?;
    }
    Ok(())
}

/// Appends the columns of the GSW ciphertext of each selection bit, each drawn from the next words.
fn draw_selections(
    alloc: Global,
    ring: &Ring,
    set: &ParamSet,
    secret: &Secret,
    index: u32,
    ciphers: &mut Vec<Cipher>,
    draw: &mut Draw<'_>,
) -> Result<(), NoMemory>
    requires known { IsSet set.now }
    requires ring { ring.now ≡ set.now.degree }
    requires degree { OfDegree ring.now secret.now }
    requires secrets { length (row_secrets_of set.now secret.now) ≡ rows set.now }
    requires enough { draw.old.used + set.now.nu2 * (gsw_count set.now * words_taken set.now.degree (rows set.now)) ≤ length draw.old.words }
    ensures { OnOk result (ColumnsDrawn set.now secret.now (λ s. flat_map (selection_columns set.now s index) (range_with_len 0 set.now.nu2)) draw.old draw.new ciphers.old.items ciphers.new.items) }
{
    for l in 0..set.nu2 {
        let bit = selection(set, index, l);
        let mut columns = encrypt_bit(alloc, ring, set, secret, bit, draw)?;
        ciphers.append(&mut columns)?;
    }
    Ok(())
}

/// The ciphertexts of the query for an index, each drawn from the next words: those of the first dimension by place,
/// within a place by column, then the GSW columns of each selection bit.
pub(crate) fn draw_query(
    alloc: Global,
    ring: &Ring,
    set: &ParamSet,
    secret: &Secret,
    index: u32,
    draw: &mut Draw<'_>,
) -> Result<QueryBody, NoMemory>
    requires known { IsSet set.now }
    requires direct { set.now.direct ≡ true }
    requires ring { ring.now ≡ set.now.degree }
    requires degree { OfDegree ring.now secret.now }
    requires secrets { length (row_secrets_of set.now secret.now) ≡ rows set.now }
    requires enough { draw.old.used + words_of set.now (query_ciphertexts set.now) ≤ length draw.old.words }
    ensures query { IfOk result (λ query. IsQuery query) }
    ensures set { IfOk result (λ query. query.set ≡ set.now) }
    ensures ciphers { IfOk result (λ query. query.ciphers ≡ encrypted_all set.now.degree draw.old.words draw.old.used (row_secrets_of set.now secret.now) (query_messages set.now (row_secrets_of set.now secret.now) index)) }
{
    let mut ciphers = Vec::new(alloc);
    draw_first(alloc, ring, set, secret, index, &mut ciphers, draw)?;
    draw_selections(alloc, ring, set, secret, index, &mut ciphers, draw)?;
    Ok(QueryBody { set: *set, ciphers })
}
