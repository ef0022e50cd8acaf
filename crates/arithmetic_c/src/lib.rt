// Five functions of `arithmetic` for C and Rust: what tools/bench/arithmetic times and tools/standins compares.
#![tactic(auto)]

ghost use Rattle.std.specs.Prelude.{◌≡◌};
ghost use Rattle.std.specs.Float.{binary32};
ghost use Rattle.arithmetic.specs.Root.{root_of};
ghost use Rattle.arithmetic.specs.Trigonometry as spec;

#[unsafe(no_mangle)]
pub extern "C" fn arithmetic_root(x: f32) -> f32
    ensures { result ≡ root_of binary32 x }
{
    arithmetic::root::root(x)
}

#[unsafe(no_mangle)]
pub extern "C" fn arithmetic_sine(a: f32) -> f32
    ensures { result ≡ spec.sine a }
{
    arithmetic::trigonometry::sine(a)
}

#[unsafe(no_mangle)]
pub extern "C" fn arithmetic_cosine(r: f32) -> f32
    ensures { result ≡ spec.cosine r }
{
    arithmetic::trigonometry::cosine(r)
}

#[unsafe(no_mangle)]
pub extern "C" fn arithmetic_arctangent(v: f32) -> f32
    ensures { result ≡ spec.arctangent v }
{
    arithmetic::trigonometry::arctangent(v)
}

#[unsafe(no_mangle)]
pub extern "C" fn arithmetic_arctangent2(y: f32, x: f32) -> f32
    ensures { result ≡ spec.arctangent2 y x }
{
    arithmetic::trigonometry::arctangent2(y, x)
}
