// Runs the crate `arithmetic` on the rows of data/ and counts those that it answers as they say, bit for bit, every NaN alike.
// tools/vectors/arithmetic.py makes the rows and says what is in one.
#![tactic(auto)]

use arithmetic::order::{clamp, greatest, least, size};
use arithmetic::root::root;
use arithmetic::trigonometry::{arcsine, arctangent, arctangent2, cosine, sine};
use arithmetic::vector::{Vec2, cross, dot, norm, normalise};
use case_rows::{Count, Row, to_bits, try_group};
use std::io;

// The words of a row: its function's number, four arguments and three results.
const WORDS: usize = 8;

// The files of rows, in the order in which they are tried.
const GROUPS: [&str; 17] = [
    "document_01",
    "root_published",
    "least",
    "greatest",
    "clamp",
    "size",
    "finite",
    "root",
    "norm",
    "dot",
    "cross",
    "normalise",
    "sine",
    "cosine",
    "arctangent",
    "arcsine",
    "arctangent2",
];

// The results of a row, where its function answers a number.
fn number(x: f32) -> [u32; 3] {
    [to_bits(x), 0, 0]
}

fn truth(b: bool) -> [u32; 3] {
    [u32::from(b), 0, 0]
}

fn parts(v: Option<Vec2>) -> [u32; 3] {
    match v {
        None => [0, 0, 0],
        Some(v) => [1, to_bits(v.x), to_bits(v.y)],
    }
}

fn vec2(x: f32, y: f32) -> Vec2 {
    Vec2 { x, y }
}

// The functions by their numbers in a row; zeros where none has the number.
fn answer(function: u32, [a, b, c, d]: [f32; 4]) -> [u32; 3] {
    match function {
        0 => number(least(a, b)),
        1 => number(greatest(a, b)),
        2 => number(clamp(a, b, c)),
        3 => number(size(a)),
        4 => truth(a.is_finite()),
        5 => number(root(a)),
        6 => number(norm(vec2(a, b))),
        7 => number(dot(vec2(a, b), vec2(c, d))),
        8 => number(cross(vec2(a, b), vec2(c, d))),
        9 => parts(normalise(vec2(a, b), c)),
        10 => number(sine(a)),
        11 => number(cosine(a)),
        12 => number(arctangent(a)),
        13 => number(arcsine(a)),
        14 => number(arctangent2(a, b)),
        _ => [0; 3],
    }
}

// A row's own number says its function, whatever its file's name.
fn is_right(row: &Row) -> bool {
    row.words(5) == answer(row.words[0], row.numbers(1))
}

fn main(rt: HostRuntime) -> io::Result<()> {
    let mut total = Count::default();
    for name in GROUPS {
        total += try_group(&rt, name, WORDS, is_right)?;
    }
    println!(rt; "total: {total}")
}
