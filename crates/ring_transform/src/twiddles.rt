//! The tables' entries: powers of the generator.

ghost use Rattle.std.specs.Prelude.{◌≡◌, ◌+◌, ◌*◌, ◌^◌, ◌<◌, ◌≤◌, ◌%◌, length, map, All, IfOk};
ghost use Rattle.std.specs.List.{range_with_len};
ghost use Rattle.ring_transform.specs.Points.{IsPrime, generator as generator_of, reversed as reversed_of, exponent as exponent_of, node as node_of, inverse_node as inverse_node_of};
ghost use Rattle.ring_transform.specs.Tables.{AreTwiddles, AreInverses, AreQuotients};

use crate::butterflies::quotient_of;
use no_memory::NoMemory;
use std::alloc::Global;
use word_prime::{P1, Residue};

/// A number whose 2048th power is -1 modulo P.
fn generator<const P: u32>() -> u32
    requires { IsPrime P }
    ensures value { result ≡ generator_of P }
    ensures below { result < P }
{
    if P == P1 { 228368554 } else { 30909463 }
}

/// The last bits of j, so many, in the reverse order.
fn reversed(bits: u32, j: usize) -> usize
    requires { bits ≤ 11 }
    ensures value { result ≡ reversed_of bits j }
    ensures below { result < 2 ^ bits }
{
    if bits == 0 {
        return 0;
    }
    ((j % 2) << (bits - 1)) + reversed(bits - 1, j / 2)
}

/// The power of the generator that node j at a depth is.
fn exponent(depth: u32, j: usize) -> u32
    requires { depth ≤ 11 }
    ensures value { result ≡ exponent_of depth j }
    ensures turn { result ≤ 4096 }
{
    ((2 * reversed(depth, j) + 1) << (11 - depth)) as u32
}

/// A power of the generator.
fn power<const P: u32>(exponent: u32) -> u32
    requires { IsPrime P }
    ensures value { result ≡ generator_of P ^ exponent % P }
{
    match Residue::<P>::new(generator::<P>()) {
        Some(root) => root.pow(exponent).get(),
        None => 0,
    }
}

/// Node j at a depth.
fn node<const P: u32>(depth: u32, j: usize) -> u32
    requires prime { IsPrime P }
    requires deep { depth ≤ 11 }
    ensures { result ≡ node_of P depth j }
{
    power::<P>(exponent(depth, j))
}

/// The inverse of node j at a depth.
fn inverse_node<const P: u32>(depth: u32, j: usize) -> u32
    requires prime { IsPrime P }
    requires deep { depth ≤ 11 }
    ensures { result ≡ inverse_node_of P depth j }
{
    power::<P>(4096 - exponent(depth, j))
}

/// The factors of the layers above a depth, in the order of the nodes: entry 2^d + j is that of node j at depth d.
pub(crate) fn twiddles<const P: u32>(alloc: Global, depth: u32) -> Result<Vec<u32>, NoMemory>
    requires prime { IsPrime P }
    requires deep { depth ≤ 11 }
    ensures count { IfOk result (λ v. length v.items ≡ 2 ^ depth) }
    ensures entries { IfOk result (λ v. AreTwiddles P v.items) }
    ensures below { IfOk result (λ v. All (λ w. w < P) v.items) }
{
    let mut table = vec![in alloc; 0u32; 1]?;
    for d in 0..depth {
        for j in 0..1usize << d {
            table.push(node::<P>(d + 1, 2 * j))?;
        }
    }
    Ok(table)
}

/// The inverses of these factors.
pub(crate) fn inverses<const P: u32>(alloc: Global, depth: u32) -> Result<Vec<u32>, NoMemory>
    requires prime { IsPrime P }
    requires deep { depth ≤ 11 }
    ensures count { IfOk result (λ v. length v.items ≡ 2 ^ depth) }
    ensures entries { IfOk result (λ v. AreInverses P v.items) }
    ensures below { IfOk result (λ v. All (λ w. w < P) v.items) }
{
    let mut table = vec![in alloc; 0u32; 1]?;
    for d in 0..depth {
        for j in 0..1usize << d {
            table.push(inverse_node::<P>(d + 1, 2 * j))?;
        }
    }
    Ok(table)
}

/// The quotients of factors.
pub(crate) fn quotients<const P: u32>(alloc: Global, factors: &[u32]) -> Result<Vec<u32>, NoMemory>
    requires { All (λ w. w < P) factors.now }
    ensures { IfOk result (λ v. AreQuotients P factors.now v.items) }
{
    let mut found = Vec::new(alloc);
    for i in 0..factors.len() {
        found.push(quotient_of::<P>(factors[i]))?;
    }
    Ok(found)
}

/// The first n nodes at a depth.
pub(crate) fn leaves<const P: u32>(
    alloc: Global,
    depth: u32,
    n: usize,
) -> Result<Vec<u32>, NoMemory>
    requires prime { IsPrime P }
    requires deep { depth ≤ 11 }
    ensures { IfOk result (λ v. v.items ≡ map (node_of P depth) (range_with_len 0 n)) }
{
    let mut nodes = Vec::new(alloc);
    for j in 0..n {
        nodes.push(node::<P>(depth, j))?;
    }
    Ok(nodes)
}

/// The inverse of 2^depth.
pub(crate) fn inverse_of_power<const P: u32>(depth: u32) -> u32
    requires { IsPrime P }
    ensures value { 2 ^ depth * result % P ≡ 1 }
    ensures below { result < P }
{
    match Residue::<P>::new((P + 1) / 2) {
        Some(half) => half.pow(depth).get(),
        None => 0,
    }
}
