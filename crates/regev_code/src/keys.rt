ghost use Rattle.std.specs.Prelude.{true, false, ◌≡◌, ◌+◌, ◌*◌, ◌<◌, ◌≤◌, [], if◌then◌else◌, length, All, Some, None, IfOk};
ghost use Rattle.spiral_sets.specs.Sets.{IsSet, digit_count as digit_count_of, rho, has_keys};
ghost use Rattle.spiral_model.specs.Words.{cipher_at};
ghost use Rattle.spiral_model.specs.Bodies.{IsSetup};
ghost use Rattle.spiral_model.specs.Keys.{key_cut, keys_cut, keys_in, left_start as left_start_of, right_start as right_start_of, lift_start as lift_start_of, conversion_start as conversion_start_of};

use crate::{Cipher, CipherT, KeyBody, forms_of};
use gadget_digits::digit_count;
use no_memory::NoMemory;
use ring_poly::Ring;
use spiral_model::ParamSet;
use std::alloc::Global;
use std::marker::Model;

/// A key by whose digit sums a ciphertext changes its secret: t ciphertexts in product form, for digits of w bits.
#[derive(Debug, Drop)]
pub struct SwitchKey {
    pub w: u32,
    pub ciphers: Vec<CipherT>,
}

impl Model for SwitchKey {
    ghost use Rattle.spiral_model.specs.KeySwitching.{DigitKey};

    ghost Value = { DigitKey };

    ghost view = { λ k. record { w = k.w; ciphers = k.ciphers.items } };
}

impl SwitchKey {
    /// The key of these ciphertexts, for digits of w bits.
    pub fn from_ciphers(
        alloc: Global,
        ring: &Ring,
        w: u32,
        ciphers: &[Cipher],
    ) -> Result<SwitchKey, NoMemory>
        requires some { 1 ≤ w }
        requires most { w ≤ 56 }
        requires count { length ciphers.now ≡ digit_count_of w }
        requires degrees { All (λ c. All (λ a. length a ≡ ring.now) c) ciphers.now }
        ensures { IfOk result (λ key. key ≡ record { w = w; ciphers = ciphers.now }) }
    {
        Ok(SwitchKey {
            w,
            ciphers: forms_of(alloc, ring, ciphers)?,
        })
    }

    /// Ciphertext k of the key.
    pub fn cipher(&self, k: u32) -> &CipherT
        requires { k < length self.now.ciphers }
        ensures { result.now ≡ cipher_at self.now.ciphers k }
    {
        &self.ciphers[k as usize]
    }
}

/// The keys of a set in product form, by their use.
#[derive(Debug)]
pub struct EvalKeys {
    pub set: ParamSet,
    /// the automorphism key of round 0
    pub round0: Vec<SwitchKey>,
    /// those of the left rounds 1 to nu1
    pub left: Vec<SwitchKey>,
    /// those of the right rounds 1 to rho
    pub right: Vec<SwitchKey>,
    /// the lift keys of rows 1 to n
    pub lift: Vec<SwitchKey>,
    /// the conversion key, where the set has one
    pub conv: Option<SwitchKey>,
}

impl Model for EvalKeys {
    ghost use Rattle.spiral_model.specs.Keys.{SetKeys};
    ghost use Rattle.regev_code.specs.KeyShapes.{AreSetKeys};

    ghost Value = { SetKeys };

    ghost view = { λ k. record { set = k.set; round0 = k.round0.items; left = k.left.items; right = k.right.items; lift = k.lift.items; conv = k.conv } };

    ghost invariant = { λ k. AreSetKeys (record { set = k.set; round0 = k.round0.items; left = k.left.items; right = k.right.items; lift = k.lift.items; conv = k.conv }) };
}

/// By hand: a caller's proof then takes one step for it, and not one for each of its lists.
impl Drop for EvalKeys {
    fn drop(self) {
        let Self {
            set: _,
            round0: _,
            left: _,
            right: _,
            lift: _,
            conv: _,
        } = self;
    }
}

/// Where the keys of the left rounds begin: behind that of round 0.
fn left_start(set: &ParamSet) -> usize
    requires known { IsSet set.now }
    requires expands { set.now.direct ≡ false }
    ensures value { result ≡ left_start_of set.now }
    ensures few { result ≤ 56 }
{
    digit_count(set.w_right) as usize
}

/// Where the keys of the right rounds begin: behind those of the left rounds.
fn right_start(set: &ParamSet) -> usize
    requires known { IsSet set.now }
    requires expands { set.now.direct ≡ false }
    ensures value { result ≡ right_start_of set.now }
    ensures few { result ≤ 504 }
{
    left_start(set) + set.nu1 as usize * digit_count(set.w_left) as usize
}

/// Where the lift keys begin: behind those of the rounds, of which a direct set has none.
fn lift_start(set: &ParamSet) -> usize
    requires { IsSet set.now }
    ensures value { result ≡ lift_start_of set.now }
    ensures few { result ≤ 784 }
{
    if set.direct {
        0
    } else {
        right_start(set) + set.rho() as usize * digit_count(set.w_right) as usize
    }
}

/// Where the conversion key begins: behind the lift keys.
fn conversion_start(set: &ParamSet) -> usize
    requires known { IsSet set.now }
    requires keys { has_keys set.now ≡ true }
    ensures value { result ≡ conversion_start_of set.now }
    ensures few { result ≤ 1008 }
{
    lift_start(set) + set.n as usize * digit_count(set.w_conv) as usize
}

/// So many keys for digits of w bits, one after the other from ciphertext `start` on.
fn keys_from(
    alloc: Global,
    ring: &Ring,
    w: u32,
    count: u32,
    ciphers: &[Cipher],
    start: usize,
) -> Result<Vec<SwitchKey>, NoMemory>
    requires some { 1 ≤ w }
    requires most { w ≤ 56 }
    requires room { start + count * digit_count_of w ≤ length ciphers.now }
    requires degrees { All (λ c. All (λ a. length a ≡ ring.now) c) ciphers.now }
    ensures { IfOk result (λ keys. keys.items ≡ keys_cut w count ciphers.now start) }
{
    let t = digit_count(w) as usize;
    let mut keys = Vec::new(alloc);
    for j in 0..count as usize {
        let at = start + j * t;
        keys.push(SwitchKey::from_ciphers(alloc, ring, w, &ciphers[at..at + t])?)?;
    }
    Ok(keys)
}

/// The key of expansion's round 0, which a direct set doesn't have.
fn round0_keys(alloc: Global, ring: &Ring, body: &KeyBody) -> Result<Vec<SwitchKey>, NoMemory>
    requires ring { ring.now ≡ body.now.set.degree }
    requires body { IsSetup body.now }
    ensures { IfOk result (λ keys. keys.items ≡ (if body.now.set.direct then [] else keys_cut body.now.set.w_right 1 body.now.ciphers 0)) }
{
    let set = body.set;
    if set.direct {
        Ok(Vec::new(alloc))
    } else {
        keys_from(alloc, ring, set.w_right, 1, &body.ciphers, 0)
    }
}

/// The keys of the left rounds, none in a direct set.
fn left_keys(alloc: Global, ring: &Ring, body: &KeyBody) -> Result<Vec<SwitchKey>, NoMemory>
    requires ring { ring.now ≡ body.now.set.degree }
    requires body { IsSetup body.now }
    ensures { IfOk result (λ keys. keys.items ≡ (if body.now.set.direct then [] else keys_cut body.now.set.w_left body.now.set.nu1 body.now.ciphers (left_start_of body.now.set))) }
{
    let set = body.set;
    if set.direct {
        Ok(Vec::new(alloc))
    } else {
        keys_from(
            alloc,
            ring,
            set.w_left,
            set.nu1,
            &body.ciphers,
            left_start(&set),
        )
    }
}

/// The keys of the right rounds, none in a direct set.
fn right_keys(alloc: Global, ring: &Ring, body: &KeyBody) -> Result<Vec<SwitchKey>, NoMemory>
    requires ring { ring.now ≡ body.now.set.degree }
    requires body { IsSetup body.now }
    ensures { IfOk result (λ keys. keys.items ≡ (if body.now.set.direct then [] else keys_cut body.now.set.w_right (rho body.now.set) body.now.ciphers (right_start_of body.now.set))) }
{
    let set = body.set;
    if set.direct {
        Ok(Vec::new(alloc))
    } else {
        keys_from(
            alloc,
            ring,
            set.w_right,
            set.rho(),
            &body.ciphers,
            right_start(&set),
        )
    }
}

/// The lift keys.
fn lift_keys(alloc: Global, ring: &Ring, body: &KeyBody) -> Result<Vec<SwitchKey>, NoMemory>
    requires keys { has_keys body.now.set ≡ true }
    requires ring { ring.now ≡ body.now.set.degree }
    requires body { IsSetup body.now }
    ensures { IfOk result (λ keys. keys.items ≡ keys_cut body.now.set.w_conv body.now.set.n body.now.ciphers (lift_start_of body.now.set)) }
{
    let set = body.set;
    keys_from(
        alloc,
        ring,
        set.w_conv,
        set.n,
        &body.ciphers,
        lift_start(&set),
    )
}

/// The conversion key, which a direct set doesn't have.
fn conversion(alloc: Global, ring: &Ring, body: &KeyBody) -> Result<Option<SwitchKey>, NoMemory>
    requires keys { has_keys body.now.set ≡ true }
    requires ring { ring.now ≡ body.now.set.degree }
    requires body { IsSetup body.now }
    ensures { IfOk result (λ key. key ≡ (if body.now.set.direct then None else Some (key_cut body.now.set.w_conv body.now.ciphers (conversion_start_of body.now.set)))) }
{
    let set = body.set;
    if set.direct {
        Ok(None)
    } else {
        let start = conversion_start(&set);
        let t = digit_count(set.w_conv) as usize;
        let ciphers = &body.ciphers[start..start + t];
        Ok(Some(SwitchKey::from_ciphers(alloc, ring, set.w_conv, ciphers)?))
    }
}

impl EvalKeys {
    /// The keys that a Setup body writes, by their use.
    pub fn from_body(alloc: Global, ring: &Ring, body: &KeyBody) -> Result<EvalKeys, NoMemory>
        requires keys { has_keys body.now.set ≡ true }
        requires ring { ring.now ≡ body.now.set.degree }
        requires body { IsSetup body.now }
        ensures { IfOk result (λ keys. keys ≡ keys_in body.now) }
    {
        Ok(EvalKeys {
            set: body.set,
            round0: round0_keys(alloc, ring, body)?,
            left: left_keys(alloc, ring, body)?,
            right: right_keys(alloc, ring, body)?,
            lift: lift_keys(alloc, ring, body)?,
            conv: conversion(alloc, ring, body)?,
        })
    }
}
