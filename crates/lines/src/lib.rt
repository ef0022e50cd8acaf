// Lines of text: a call's number, words and a list of numbers. Each writer writes at the front of a lent part (no heap), which has room
// for it, keeps the part's other bytes, and answers how many it wrote.
// Not by fmt::Display: tried, and put_line, which can't fail, didn't close: a formatter says what an Ok wrote, not that it is Ok.
#![tactic(auto)]

ghost use Rattle.std.specs.Prelude.{◌≡◌, ◌≤◌, ◌<◌, length};
ghost use Rattle.lines.specs.Line.{digit, digits, decimal, hex8, value, word, any_word, words, subject, refusal, values, listed, numbers, text, Puts};

// No line has more bytes.
pub const LINE_ROOM: usize = 80;

#[derive(Clone, Copy)]
pub enum Word {
    Plane,
    Rate,
    Prime,
    Track,
    Loiter,
    Idle,
    Energy,
    Hold,
    Fallback,
    Refused,
    Stopped,
}

// The numbers at a line's end.
#[derive(Clone, Copy)]
pub enum Values {
    None,
    One([u32; 1]),
    Two([u32; 2]),
    Three([u32; 3]),
    Four([u32; 4]),
}

// No `call` is the configuration.
#[derive(Clone, Copy)]
pub struct Line {
    pub call: Option<u32>,
    pub first: Option<Word>,
    pub second: Option<Word>,
    // A number and no Refusal: a configuration's failing field is printed here too, and lines know no refusals.
    pub refusal: Option<u32>,
    pub values: Values,
}

impl Word {
    // A space and the letters.
    #[tactic(auto, unfolding(crate::specs::Line::word))]
    fn letters(self) -> &'static [u8]
        ensures { result.now ≡ word self }
    {
        match self {
            Word::Plane => b" plane",
            Word::Rate => b" rate",
            Word::Prime => b" prime",
            Word::Track => b" track",
            Word::Loiter => b" loiter",
            Word::Idle => b" idle",
            Word::Energy => b" energy",
            Word::Hold => b" hold",
            Word::Fallback => b" fallback",
            Word::Refused => b" refused",
            Word::Stopped => b" stopped",
        }
    }
}

impl Values {
    pub fn as_slice(&self) -> &[u32]
        ensures { result.now ≡ listed self.now }
    {
        match self {
            Values::None => &[],
            Values::One(one) => one,
            Values::Two(two) => two,
            Values::Three(three) => three,
            Values::Four(four) => four,
        }
    }
}

fn put_bytes(part: &mut [u8], bytes: &[u8]) -> usize
    requires { length bytes.now ≤ length part.old }
    ensures { Puts bytes.now part.old part.new result }
{
    let size = bytes.len();
    part[..size].copy_from_slice(bytes);
    size
}

fn digit_of(d: u32) -> u8
    requires { d < 16 }
    ensures { result ≡ digit d }
{
    if d < 10 {
        b'0' + d as u8
    } else {
        b'a' - 10 + d as u8
    }
}

// As many of a number's lowest digits as the part has bytes. By index: of what a loop over iter_mut().rev() leaves, a proof knows
// the length alone.
#[tactic(auto, using(crate::proofs::DigitLaw::digit_steps))]
fn put_digits<const BASE: u32>(part: &mut [u8], n: u32)
    requires { (0 < BASE) × (BASE ≤ 16) }
    ensures { part.new ≡ digits BASE (length part.old) n }
{
    let mut v = n;
    for i in (0..part.len()).rev() {
        part[i] = digit_of(v % BASE);
        v /= BASE;
    }
}

fn put_hex(part: &mut [u8], bits: u32) -> usize
    requires { 8 ≤ length part.old }
    ensures { Puts (hex8 bits) part.old part.new result }
{
    put_digits::<16>(&mut part[..8], bits);
    8
}

// How many decimal digits a number has.
#[tactic(auto, using(crate::proofs::DigitLaw::logarithm_width))]
fn width(n: u32) -> usize
    ensures { result ≡ length (decimal n) }
{
    n.checked_ilog10().unwrap_or(0) as usize + 1
}

#[tactic(auto, using(crate::proofs::DigitLaw::decimal_puts))]
pub fn put_decimal(part: &mut [u8], n: u32) -> usize
    requires { length (decimal n) ≤ length part.old }
    ensures { Puts (decimal n) part.old part.new result }
{
    let k = width(n);
    put_digits::<10>(&mut part[..k], n);
    k
}

#[tactic(auto, unfolding(crate::specs::Line::subject))]
fn put_subject(part: &mut [u8], call: Option<u32>) -> usize
    requires { length (subject call) ≤ length part.old }
    ensures { Puts (subject call) part.old part.new result }
{
    match call {
        None => put_bytes(part, b"config"),
        Some(number) => put_decimal(part, number),
    }
}

#[tactic(auto, unfolding(crate::specs::Line::any_word))]
fn put_word(part: &mut [u8], w: Option<Word>) -> usize
    requires { length (any_word w) ≤ length part.old }
    ensures { Puts (any_word w) part.old part.new result }
{
    match w {
        None => 0,
        Some(w) => put_bytes(part, w.letters()),
    }
}

#[tactic(auto, using(crate::proofs::PutLaw::puts), unfolding(crate::specs::Line::words))]
fn put_words(part: &mut [u8], first: Option<Word>, second: Option<Word>) -> usize
    requires { length (words first second) ≤ length part.old }
    ensures { Puts (words first second) part.old part.new result }
{
    let at = put_word(part, first);
    at + put_word(&mut part[at..], second)
}

#[tactic(auto, using(crate::proofs::PutLaw::puts), unfolding(crate::specs::Line::refusal))]
fn put_refusal(part: &mut [u8], refused: Option<u32>) -> usize
    requires { length (refusal refused) ≤ length part.old }
    ensures { Puts (refusal refused) part.old part.new result }
{
    match refused {
        None => 0,
        Some(number) => {
            part[0] = b' ';
            1 + put_decimal(&mut part[1..], number)
        }
    }
}

#[tactic(auto, using(crate::proofs::PutLaw::puts, crate::proofs::DigitLaw::digits_long))]
fn put_value(part: &mut [u8], v: u32) -> usize
    requires { 9 ≤ length part.old }
    ensures { Puts (value v) part.old part.new result }
{
    part[0] = b' ';
    1 + put_hex(&mut part[1..], v)
}

// With a place that is carried: of what a loop over chunks_mut leaves, a proof knows the length alone.
#[tactic(auto, using(crate::proofs::PutLaw::puts, crate::proofs::TextLaw::values_room, crate::proofs::TextLaw::values_next))]
fn put_values(part: &mut [u8], printed: &[u32]) -> usize
    requires { length (values printed.now) ≤ length part.old }
    ensures { Puts (values printed.now) part.old part.new result }
{
    let mut at = 0;
    for v in printed {
        at += put_value(&mut part[at..], *v);
    }
    at
}

#[tactic(auto, using(crate::proofs::PutLaw::puts), unfolding(crate::specs::Line::numbers))]
fn put_numbers(part: &mut [u8], refused: Option<u32>, printed: Values) -> usize
    requires { length (numbers refused (listed printed)) ≤ length part.old }
    ensures { Puts (numbers refused (listed printed)) part.old part.new result }
{
    let at = put_refusal(part, refused);
    at + put_values(&mut part[at..], printed.as_slice())
}

#[tactic(auto, using(crate::proofs::PutLaw::puts), unfolding(crate::specs::Line::text))]
pub fn put_line(part: &mut [u8], l: Line) -> usize
    requires { length (text l) ≤ length part.old }
    ensures { Puts (text l) part.old part.new result }
{
    let a = put_subject(part, l.call);
    let b = a + put_words(&mut part[a..], l.first, l.second);
    let e = b + put_numbers(&mut part[b..], l.refusal, l.values);
    part[e] = b'\n';
    e + 1
}
