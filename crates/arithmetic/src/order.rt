// Least, greatest, clamp, the size, the sign, and a choice by a Bool.
ghost use Rattle.std.specs.Prelude.{◌≡◌, false};
ghost use Rattle.std.specs.Float.Ieee as Ieee;
ghost use Rattle.arithmetic.specs.Order as spec;

// A NaN on the left is not below b, so b is given without a test of its own. Not f32::min and f32::max, here and below: of two equal
// numbers, as zeros of two signs, those may give either, and document 01 says which. Two
// functions, since a comparison that is handed over would be a closure's contract in place of a sign.
#[tactic(auto, using(crate::proofs::Bounds::least_nan), unfolding(crate::specs::Order::least))]
pub fn least(a: f32, b: f32) -> f32
    ensures { result ≡ spec.least a b }
{
    if b.is_nan() {
        return a;
    }
    if a < b { a } else { b }
}

#[tactic(auto, using(crate::proofs::Bounds::greatest_nan), unfolding(crate::specs::Order::greatest))]
pub fn greatest(a: f32, b: f32) -> f32
    ensures { result ≡ spec.greatest a b }
{
    if b.is_nan() {
        return a;
    }
    if a > b { a } else { b }
}

// Not f32::clamp, which asks for bounds that are in order: here they may be crossed or NaN.
#[tactic(auto, unfolding(crate::specs::Order::clamp))]
pub fn clamp(v: f32, low: f32, high: f32) -> f32
    ensures { result ≡ spec.clamp v low high }
{
    if v < low {
        return low;
    }
    if v > high { high } else { v }
}

// Clamp where the bounds are not crossed: the lesser of two, then the greater of two. Beside `clamp`, since it takes no branch. f32::clamp
// allows no NaN among the bounds.
pub fn clamp_ordered(v: f32, low: f32, high: f32) -> f32
    requires { Ieee.lt high low ≡ false }
    ensures { result ≡ spec.clamp v low high }
{
    let below = if v > high { high } else { v };
    if below < low { low } else { below }
}

// The absolute value, by its bits: the sign bit, 2^31, is cleared, of a zero too. f32::abs compares twice, which is twice as long.
#[tactic(auto, using(crate::proofs::Signs::nan_size))]
pub fn size(v: f32) -> f32
    ensures { result ≡ spec.size v }
{
    if v.is_nan() {
        return v;
    }
    f32::from_bits(v.to_bits() % 0x8000_0000)
}

// Whether the sign bit stands; a NaN has none.
#[tactic(auto, using(crate::proofs::Signs::negative_is, crate::proofs::Signs::nan_unsigned))]
pub fn is_negative(v: f32) -> bool
    ensures { result ≡ spec.negative v }
{
    !v.is_nan() && v.is_sign_negative()
}

// A choice in a function of its own, so that a caller's proof still knows what was chosen where its branches join.
pub fn choose(b: bool, x: f32, y: f32) -> f32
    ensures { result ≡ spec.choose b x y }
{
    if b { x } else { y }
}
