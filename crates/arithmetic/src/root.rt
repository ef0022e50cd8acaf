// The IEEE 754 square root of an f32: the language's own operation, held to document 01's definition and to the law of that root.
ghost use Rattle.arithmetic.specs.Root.{IsRoot};

pub fn root(x: f32) -> f32
    ensures { IsRoot x result }
{
    x.sqrt()
}
