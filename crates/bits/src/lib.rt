// Bits and fields of a 64-bit number, as Arm's pages name them (specs/Bits.antt), and the choice between two values.
#![tactic(auto)]

ghost use Rattle.std.specs.Prelude.{◌≡◌, cond};

// One of two values: `a` where the test holds. Written as a call, a choice does not part the code's ways.
pub fn pick<T: Copy>(test: bool, a: T, b: T) -> T
    ensures { result ≡ cond test a b }
{
    if test { a } else { b }
}
