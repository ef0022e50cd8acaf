// Numeric helpers shared by the laws: saturate, lag, clamp.
ghost use Rattle.std.specs.Prelude.{◌≡◌};
ghost use Rattle.laws.specs.Math as spec;

use arithmetic::order::{clamp, clamp_ordered, least};
use arithmetic::vector::Vec2;

#[tactic(auto, unfolding(crate::specs::Math::limit_or_zero))]
pub fn limit_or_zero(limit: f32) -> f32
    ensures { result ≡ spec.limit_or_zero limit }
{
    if limit >= 0.0 { limit } else { 0.0 }
}

#[tactic(auto, using(crate::proofs::Ordered::limit_number, crate::proofs::Ordered::sides_ordered), unfolding(crate::specs::Math::clamp_symmetric))]
pub fn clamp_symmetric(value: f32, limit: f32) -> f32
    ensures { result ≡ spec.clamp_symmetric value limit }
{
    let l = limit_or_zero(limit);
    clamp_ordered(value, -l, l)
}

#[tactic(auto, unfolding(crate::specs::Math::saturate_symmetric))]
pub fn saturate_symmetric(value: f32, limit: f32) -> f32
    ensures { result ≡ spec.saturate_symmetric value limit }
{
    if value.is_nan() {
        return 0.0;
    }
    clamp_symmetric(value, limit)
}

#[tactic(auto, unfolding(crate::specs::Math::saturate_unit))]
pub fn saturate_unit(value: f32) -> f32
    ensures { result ≡ spec.saturate_unit value }
{
    saturate_symmetric(value, 1.0)
}

#[tactic(auto, unfolding(crate::specs::Math::saturate_throttle))]
pub fn saturate_throttle(value: f32) -> f32
    ensures { result ≡ spec.saturate_throttle value }
{
    if value.is_nan() {
        return 0.0;
    }
    clamp(value, 0.0, 1.0)
}

#[tactic(auto, unfolding(crate::specs::Math::lagged))]
pub fn lagged(value: f32, target: f32, dt: f32, time_constant_s: f32) -> f32
    ensures { result ≡ spec.lagged value target dt time_constant_s }
{
    value + (target - value) * least(dt / time_constant_s, 1.0)
}

#[tactic(auto, unfolding(crate::specs::Math::all_finite))]
pub fn all_finite(v: Vec2) -> bool
    ensures { result ≡ spec.all_finite v }
{
    v.x.is_finite() & v.y.is_finite()
}
