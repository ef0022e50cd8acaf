// Difference, length, dot, cross and normalise of two numbers: x is north, y is east.
ghost use Rattle.std.specs.Prelude.{◌≡◌};
ghost use Rattle.arithmetic.specs.Vector as spec;

use crate::root::root;

#[derive(Clone, Copy)]
pub struct Vec2 {
    pub x: f32,
    pub y: f32,
}

pub fn difference(a: Vec2, b: Vec2) -> Vec2
    ensures { result ≡ spec.difference a b }
{
    Vec2 {
        x: a.x - b.x,
        y: a.y - b.y,
    }
}

#[tactic(auto, unfolding(crate::specs::Vector::norm))]
pub fn norm(v: Vec2) -> f32
    ensures { result ≡ spec.norm v }
{
    root(v.x * v.x + v.y * v.y)
}

#[tactic(auto, unfolding(crate::specs::Vector::dot))]
pub fn dot(a: Vec2, b: Vec2) -> f32
    ensures { result ≡ spec.dot a b }
{
    a.x * b.x + a.y * b.y
}

#[tactic(auto, unfolding(crate::specs::Vector::cross))]
pub fn cross(a: Vec2, b: Vec2) -> f32
    ensures { result ≡ spec.cross a b }
{
    a.x * b.y - a.y * b.x
}

#[tactic(auto, unfolding(crate::specs::Vector::normalise))]
pub fn normalise(v: Vec2, floor: f32) -> Option<Vec2>
    ensures { result ≡ spec.normalise v floor }
{
    let l = norm(v);
    if l <= floor {
        return None;
    }
    Some(Vec2 {
        x: v.x / l,
        y: v.y / l,
    })
}
