// The stand-ins for the mathematics library: series with a fixed order of operations, so that every build rounds alike.
ghost use Rattle.std.specs.Prelude.{◌≡◌, true, ◌≤◌, ◌<◌};
ghost use Rattle.std.specs.Float.Ieee as Ieee;
ghost use Rattle.std.specs.Float.{binary32};
ghost use Rattle.std.specs.Float.Ieee.{of_bits};
ghost use Rattle.arithmetic.specs.Constants.{tau};
ghost use Rattle.arithmetic.specs.Order as order;
ghost use Rattle.arithmetic.specs.Trigonometry as spec;

use crate::order::{is_negative, size};
use crate::root::root;
pub use std::f32::consts::{FRAC_PI_2, FRAC_PI_4, PI, TAU};

// Sine, z = a·a: a·(1 - z/6·(1 - z/20·(1 - z/42·(1 - z/72·(1 - z/110))))). The innermost quotient stands first, since all others
// wait for it and divisions are done one after the other.
#[tactic(auto, unfolding(crate::specs::Trigonometry::sine))]
pub fn sine(a: f32) -> f32
    ensures { result ≡ spec.sine a }
{
    let z = a * a;
    let s110 = 1.0 - z / 110.0;
    let s72 = 1.0 - z / 72.0 * s110;
    let s42 = 1.0 - z / 42.0 * s72;
    let s20 = 1.0 - z / 20.0 * s42;
    a * (1.0 - z / 6.0 * s20)
}

// The remainder by TAU of the number with these bits, which is at least 4 (0x4080_0000) and finite. In units of 2^-21 (1 is
// 2097152) both are whole numbers, and TAU is 13176795. The `%` of f32 would be a call of the C library's fmodf. 0x80_0000 is
// 2^23: above the 23 stored digits of a significand.
fn remainder(b: u32) -> f32
    requires { (0x4080_0000 ≤ b) × (b < 0x7f80_0000) }
    ensures { result ≡ Ieee.rem binary32 (of_bits binary32 b) tau }
{
    let mut x: u32 = (b % 0x80_0000 + 0x80_0000) % 13176795;
    for _ in 0..b / 0x80_0000 - 129 {
        x = x * 2 % 13176795;
    }
    (x as f32) / 2097152.0
}

// The size of the remainder by TAU. Below TAU it is the number's own.
fn turned(r: f32) -> f32
    requires { order.finite r ≡ true }
    ensures { result ≡ order.size (Ieee.rem binary32 r tau) }
{
    let u = size(r);
    if u < TAU {
        u
    } else {
        remainder(r.to_bits() % 0x8000_0000)
    }
}

// Above PI, t becomes TAU - t.
#[tactic(auto, unfolding(crate::specs::Trigonometry::folded))]
fn folded(t: f32) -> f32
    ensures { result ≡ spec.folded t }
{
    if t > PI { TAU - t } else { t }
}

// With z = t·t, up to FRAC_PI_4: 1 - z/2·(1 - z/12·(1 - z/30·(1 - z/56))); above: sine(FRAC_PI_2 - t).
#[tactic(auto, unfolding(crate::specs::Trigonometry::cosine_of_folded))]
fn cosine_of_folded(t: f32) -> f32
    ensures { result ≡ spec.cosine_of_folded t }
{
    let z = t * t;
    if t <= FRAC_PI_4 {
        let s56 = 1.0 - z / 56.0;
        let s30 = 1.0 - z / 30.0 * s56;
        let s12 = 1.0 - z / 12.0 * s30;
        1.0 - z / 2.0 * s12
    } else {
        sine(FRAC_PI_2 - t)
    }
}

// Cosine of r: NaN if r is not finite; t is the size of r % TAU.
#[tactic(auto, using(crate::proofs::Signs::nan_pattern), unfolding(crate::specs::Trigonometry::cosine))]
pub fn cosine(r: f32) -> f32
    ensures { result ≡ spec.cosine r }
{
    if r.is_finite() {
        cosine_of_folded(folded(turned(r)))
    } else {
        f32::NAN
    }
}

// Series(w), z = w·w: w·(1 - z·(1/3 - z·(1/5 - z·(1/7 - z·(1/9 - z·(1/11 - z·(1/13 - z·(1/15)))))))).
#[tactic(auto, unfolding(crate::specs::Trigonometry::series))]
fn series(w: f32) -> f32
    ensures { result ≡ spec.series w }
{
    let z = w * w;
    w * (1.0
        - z * (1.0 / 3.0
            - z * (1.0 / 5.0
                - z * (1.0 / 7.0
                    - z * (1.0 / 9.0 - z * (1.0 / 11.0 - z * (1.0 / 13.0 - z * (1.0 / 15.0))))))))
}

// Part(u): series(u) up to 0.41421356, else FRAC_PI_4 + series((u - 1)/(u + 1)).
#[tactic(auto, unfolding(crate::specs::Trigonometry::part))]
fn part(u: f32) -> f32
    ensures { result ≡ spec.part u }
{
    if u <= 0.41421356 {
        series(u)
    } else {
        FRAC_PI_4 + series((u - 1.0) / (u + 1.0))
    }
}

// Of a size u: above 1, FRAC_PI_2 - part(1/u), else part(u).
#[tactic(auto, unfolding(crate::specs::Trigonometry::arctangent_of_size))]
pub fn arctangent_of_size(u: f32) -> f32
    ensures { result ≡ spec.arctangent_of_size u }
{
    if u > 1.0 {
        FRAC_PI_2 - part(1.0 / u)
    } else {
        part(u)
    }
}

// Arctangent. The sign bit, 2^31, is taken off the number's bits and added to the result's, so that nothing branches on the sign nor
// on a zero (f32::copysign does, and takes twice the instructions). The arctangent of a size has no sign: `%` changes nothing, and shows
// the compiler that nothing is carried. NaN is set apart, since its bits are not defined.
pub fn arctangent(v: f32) -> f32
    ensures { result ≡ spec.arctangent v }
{
    if v.is_nan() {
        return v;
    }
    let b = v.to_bits();
    let sign = b / 0x8000_0000 * 0x8000_0000;
    let a = arctangent_of_size(f32::from_bits(b % 0x8000_0000));
    f32::from_bits(a.to_bits() % 0x8000_0000 + sign)
}

#[tactic(auto, unfolding(crate::specs::Trigonometry::arcsine))]
pub fn arcsine(v: f32) -> f32
    ensures { result ≡ spec.arcsine v }
{
    arctangent(v / root(1.0 - v * v))
}

#[tactic(auto, unfolding(crate::specs::Trigonometry::quarter_turn))]
fn quarter_turn(y: f32) -> f32
    ensures { result ≡ spec.quarter_turn y }
{
    if y == 0.0 {
        return y;
    }
    if is_negative(y) {
        -FRAC_PI_2
    } else {
        FRAC_PI_2
    }
}

#[tactic(auto, using(crate::proofs::Signs::nan_pattern, crate::proofs::Bounds::zero_tests), unfolding(crate::specs::Trigonometry::arctangent2))]
pub fn arctangent2(y: f32, x: f32) -> f32
    ensures { result ≡ spec.arctangent2 y x }
{
    if y.is_nan() | x.is_nan() {
        return f32::NAN;
    }
    if x == 0.0 {
        return quarter_turn(y);
    }
    let a = arctangent(y / x);
    if x > 0.0 {
        return a;
    }
    if is_negative(y) { a - PI } else { a + PI }
}
