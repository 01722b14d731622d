//! A server's work on edge-256, step by step and in one call, and the keys of tiny-pack that it brings into product form. The expected
//! numbers are worked out by hand.
ghost use Rattle.std.specs.Prelude.{◌≡◌, ◌<◌, ◌≤◌, length, All, IfOk};
ghost use Rattle.regev_code.specs.Products.{HasShape};
ghost use Rattle.gsw_code.specs.Products.{IsReady};
ghost use Rattle.spiral_tests.specs.Edge.{edge};
ghost use Rattle.spiral_tests.specs.Pack.{tiny_pack};

use crate::fixtures::{Rows, edge_set, expect_ciphers, have_shape, query_of};
use crate::keys::{expect_keys, pack_set, setup};
use first_dim::{Prepared, products};
use fold_dims::fold;
use gsw_code::Ready;
use modulus_switch::Reply;
use pir_io::OpenGate;
use pir_server::Server;
use query_expand::ready;
use record_store::{Database, prepare};
use regev_code::{Cipher, Scratch};
use ring_poly::{Q, Ring};
use std::alloc::Global;
use std::process::Abort;
use std::test::Fail;
use std::thread::Threads;

/// Bytes 0, 256, 512 and 768 of each record, the others are 0: these are the entries of its matrix, row by row. 255 and 128
/// count as -1 and -128; place 3 has no record.
const MATRICES: [[u8; 4]; 3] = [[1, 2, 3, 4], [5, 255, 128, 7], [0, 9, 10, 0]];

/// The records of 769 bytes with these matrices.
fn database(rt: &impl Abort, alloc: Global) -> Result<Database, Fail>
    ensures { IfOk result (λ db. db.set ≡ edge) }
{
    let set = edge_set(rt);
    let mut bytes = Vec::new(alloc);
    for matrix in &MATRICES {
        for k in 0..769usize {
            bytes.push(if k % 256 == 0 { matrix[k / 256] } else { 0 })?;
        }
    }
    Ok(prepare(&set, 769, bytes)?)
}

/// Room for the first dimension: 2 ciphertexts for each of 2 folded places.
fn room(rt: &impl Abort, alloc: Global) -> Result<Vec<Cipher>, Fail>
    ensures count { IfOk result (λ ciphers. length ciphers.items ≡ 4) }
    ensures shapes { IfOk result (λ ciphers. All (HasShape 256 3) ciphers.items) }
{
    let set = edge_set(rt);
    let mut ciphers = Vec::new(alloc);
    for _ in 0..4 {
        ciphers.push(Cipher::zero(alloc, &set, 2)?)?;
    }
    assert!(rt; ciphers.len() == 4 && have_shape(&ciphers));
    Ok(ciphers)
}

/// Two ciphertexts for each of two places.
const FIRSTS: [Rows; 4] = [
    [&[(0, 1)], &[], &[]],
    [&[], &[(0, 10)], &[]],
    [&[(0, 100)], &[], &[]],
    [&[], &[], &[(0, 1000)]],
];

const SUMS: [Rows; 4] = [
    // 1 * 1 + 100 * 5, 10 * 3, 1000 * -128
    [&[(0, 501)], &[(0, 30)], &[(0, Q - 128_000)]],
    // 1 * 2 + 100 * -1, 10 * 4, 1000 * 7
    [&[(0, Q - 98)], &[(0, 40)], &[(0, 7000)]],
    // 1 * 0, 10 * 10, 0
    [&[], &[(0, 100)], &[]],
    // 1 * 9, 10 * 0, 0
    [&[(0, 9)], &[], &[]],
];

/// The selection is 1, so it takes rows 1 and 2 of the upper half. Row 0 stays, since row 0 of each column is 0.
const FOLDED: [Rows; 2] = [[&[(0, 501)], &[(0, 100)], &[]], [&[(0, Q - 98)], &[], &[]]];

/// The first dimension of that query.
fn first_dimension<R: Threads + Sync + Abort>(
    rt: &R,
    alloc: Global,
    ready: &Ready,
) -> Result<Vec<Cipher>, Fail>
    requires { IsReady edge ready.now }
{
    let ring = Ring::new(alloc, 256)?;
    let prepared = Prepared::new(rt, alloc, &ring, &database(rt, alloc)?)?;
    let mut out = room(rt, alloc)?;
    let mut scratch = [Scratch::new(alloc, &edge_set(rt))?];
    let firsts = &ready.firsts;
    products(
        rt,
        &ring,
        &prepared,
        firsts,
        &mut out,
        &mut scratch,
        &OpenGate,
    );
    Ok(out)
}

/// Folds what the first dimension gave.
fn fold_by<R: Threads + Sync + Abort>(
    rt: &R,
    alloc: Global,
    ready: &Ready,
    ciphers: &mut [Cipher],
) -> Result<(), Fail>
    requires { IsReady edge ready.now }
{
    let set = edge_set(rt);
    let ring = Ring::new(alloc, 256)?;
    let mut scratch = [Scratch::new(alloc, &set)?];
    assert!(rt; ciphers.len() == 4 && have_shape(ciphers));
    fold(
        rt,
        &ring,
        &set,
        ciphers,
        &ready.gsws,
        &mut scratch,
        &OpenGate,
    );
    Ok(())
}

#[test]
fn answers_step_by_step(rt: HostRuntime) -> Result<(), Fail> {
    let alloc = rt.alloc();
    let set = edge_set(&rt);
    let ring = Ring::new(alloc, 256)?;
    let mut scratch = Scratch::new(alloc, &set)?;
    let query = query_of(&rt, alloc, &FIRSTS)?;
    let ready = ready(alloc, &ring, &set, None, &query, &mut scratch)?;
    let mut ciphers = first_dimension(&rt, alloc, &ready)?;
    expect_ciphers(&rt, alloc, &ciphers, &SUMS)?;
    fold_by(&rt, alloc, &ready, &mut ciphers)?;
    expect_ciphers(&rt, alloc, &ciphers, &FOLDED)?;
    Ok(())
}

/// The records' length: it is no whole number of polynomials, and below the capacity 1024.
const LENGTH: usize = 700;

/// Delta = floor(q / 256)
const DELTA: u64 = 261619881795328;

/// A query for record 2, which has place 0 and folded place 1: the ciphertexts of its place hold Delta.
const ASKED: [Rows; 4] = [
    [&[], &[(0, DELTA)], &[]],
    [&[], &[], &[(0, DELTA)]],
    [&[], &[], &[]],
    [&[], &[], &[]],
];

/// Byte `place` of record `index`.
fn byte_at(index: usize, place: usize) -> u8
    requires index { index < 4 }
    requires place { place < 1024 }
{
    ((place * 7 + index * 50) % 256) as u8
}

/// Four records of 700 bytes.
fn four_records(rt: &impl Abort, alloc: Global) -> Result<Database, Fail>
    ensures { IfOk result (λ db. db.set ≡ edge) }
{
    let set = edge_set(rt);
    let mut bytes = Vec::new(alloc);
    for index in 0..4usize {
        for place in 0..LENGTH {
            bytes.push(byte_at(index, place))?;
        }
    }
    Ok(prepare(&set, 700, bytes)?)
}

/// Delta v switched to q1 is 4 v, where a value v from 128 on counts as v - 256; row 0 is 0. The values are the record's bytes,
/// and 0 behind them.
fn wanted(row: u32, column: u32, k: usize) -> u64
    requires row { row ≤ 2 }
    requires first_column { 1 ≤ column }
    requires column { column ≤ 2 }
    requires place { k < 256 }
{
    if row == 0 {
        return 0;
    }
    let entry = (row - 1) * 2 + (column - 1);
    let place = entry as usize * 256 + k;
    if place < LENGTH {
        4 * u64::from(byte_at(2, place))
    } else {
        0
    }
}

/// The reply's numbers in a row and a column are those wanted.
fn expect_numbers(rt: &impl Abort, numbers: &[u64], row: u32, column: u32)
    requires row { row ≤ 2 }
    requires first_column { 1 ≤ column }
    requires column { column ≤ 2 }
{
    assert_eq!(rt; numbers.len(), 256);
    for (k, x) in numbers.iter().enumerate() {
        assert_eq!(rt;
            *x,
            wanted(row, column, k),
            "row {row}, column {column}, number {k}"
        );
    }
}

/// The reply carries record 2.
fn expect_record(rt: &impl Abort, reply: &Reply) {
    assert_eq!(rt; (reply.count(), reply.length()), (4, 700));
    assert!(rt; reply.set().n == 2);
    for row in 0..3u32 {
        expect_numbers(rt, reply.numbers(row, 1), row, 1);
        expect_numbers(rt, reply.numbers(row, 2), row, 2);
    }
}

#[test]
fn answers_in_one_call(rt: HostRuntime) -> Result<(), Fail> {
    let alloc = rt.alloc();
    let query = query_of(&rt, alloc, &ASKED)?;
    let mut server = Server::new(&rt, alloc, four_records(&rt, alloc)?, 3)?;
    assert!(rt; server.set().is(&edge_set(&rt)));
    let reply = server.answer(&rt, None, &query, &OpenGate)?;
    expect_record(&rt, &reply);
    Ok(())
}

/// A server of one record of tiny-pack.
fn pack_server<R: Threads + Sync + Abort>(rt: &R, alloc: Global) -> Result<Server, Fail>
    ensures { IfOk result (λ server. server.table.set ≡ tiny_pack) }
{
    let bytes = vec![in alloc; 3u8; 4]?;
    let db = prepare(&pack_set(rt), 4, bytes)?;
    Ok(Server::new(rt, alloc, db, 1)?)
}

#[test]
fn keys_are_brought_into_a_servers_form(rt: HostRuntime) -> Result<(), Fail> {
    let alloc = rt.alloc();
    let server = pack_server(&rt, alloc)?;
    let keys = server.keys(&setup(&rt, alloc)?)?;
    expect_keys(&rt, alloc, &keys)?;
    Ok(())
}
