// What `compare` prints of two recordings. Each function writes behind what waits in the output.
#![tactic(auto, using(buffer::proofs::Laws::no_part, buffer::proofs::Laws::and_part))]

ghost use Rattle.std.specs.Prelude.{◌≡◌, [], if◌then◌else◌, nat_eq};
ghost use Rattle.buffer.specs.Buffer.{Put};
ghost use Rattle.comparison.specs.Comparison.{counted, equal_line, left_line, unequal_lines, last_line, lines, numbers_of, told};

use buffer::Output;
use compare::{FIRST, Parting, Rest, SECOND};
use difference::put_differing;
use readable::{put_readable, put_spaced};
use recording::Numbers;

// What is told of two recordings: where they part, their first unequal pair, where there is one, and how many operations are
// left of the longer.
#[derive(Clone, Copy)]
pub struct Told {
    pub parting: Parting,
    pub x: Numbers,
    pub y: Numbers,
    pub left: u64,
}

// So many operations: one, or several.
fn put_counted(out: &mut Output, n: u64)
    ensures { Put out.old (counted n) out.new }
{
    out.decimal(b"", n);
    out.text(b" operation");
    if n != 1 {
        out.text(b"s");
    }
}

fn put_equal(out: &mut Output, n: u64)
    ensures { Put out.old (equal_line n) out.new }
{
    out.text(b"equal at the front: ");
    put_counted(out, n);
    out.text(b"\n");
}

// The first unequal pair.
#[tactic(auto, using(buffer::proofs::Laws::no_part, buffer::proofs::Laws::and_part), unfolding(crate::specs::Comparison::unequal_lines))]
fn put_unequal(out: &mut Output, t: Told)
    ensures { Put out.old (unequal_lines t) out.new }
{
    let parting = t.parting;
    let x = t.x;
    let y = t.y;
    out.decimal(b"operation ", parting.equal.wrapping_add(1));
    out.text(b" differs in ");
    put_differing(out, x.code, parting.differing);
    out.text(b":\n    ");
    put_readable(out, x);
    out.text(b"    ");
    put_readable(out, y);
}

// What is left of the longer one, behind what is said of it.
fn put_left(out: &mut Output, opening: &[u8], left: u64, rest: Rest)
    ensures { Put out.old (left_line opening.now left rest) out.new }
{
    out.text(opening);
    put_counted(out, left);
    out.decimal(b", ", rest.length);
    out.decimal(b" bytes, from byte ", rest.at);
    out.text(b" on\n");
}

// Which one ends first, or that neither does, or that nothing differs.
#[tactic(auto, unfolding(crate::specs::Comparison::last_line))]
fn put_last(out: &mut Output, t: Told)
    ensures { Put out.old (last_line t) out.new }
{
    let parting = t.parting;
    let rest = parting.rest;
    if parting.ending == FIRST {
        put_left(
            out,
            b"the first ends first; left of the second: ",
            t.left,
            rest,
        );
    } else if parting.ending == SECOND {
        put_left(
            out,
            b"the second ends first; left of the first: ",
            t.left,
            rest,
        );
    } else if parting.differing == 0 {
        out.text(b"no difference\n");
    } else {
        out.text(b"neither ends first\n");
    }
}

// The pair's lines, where there is an unequal one.
fn put_pair(out: &mut Output, t: Told)
    ensures { Put out.old (if nat_eq t.parting.differing 0 then [] else unequal_lines t) out.new }
{
    let parting = t.parting;
    if parting.differing != 0 {
        put_unequal(out, t);
    }
}

// All lines.
#[tactic(auto, using(buffer::proofs::Laws::no_part, buffer::proofs::Laws::and_part), unfolding(crate::specs::Comparison::lines))]
fn put_lines(out: &mut Output, t: Told)
    ensures { Put out.old (lines t) out.new }
{
    let parting = t.parting;
    put_equal(out, parting.equal);
    put_pair(out, t);
    put_last(out, t);
}

// The nine numbers.
#[tactic(auto, using(buffer::proofs::Laws::no_part, buffer::proofs::Laws::and_part), unfolding(crate::specs::Comparison::numbers_of))]
fn put_numbers(out: &mut Output, p: Parting)
    ensures { Put out.old (numbers_of p) out.new }
{
    let rest = p.rest;
    out.decimal(b"", p.number);
    put_spaced(
        out,
        &[
            p.which,
            p.at,
            p.equal,
            p.ending,
            p.differing,
            rest.of,
            rest.at,
            rest.length,
        ],
    );
    out.text(b"\n");
}

// Either of them.
#[tactic(auto, unfolding(crate::specs::Comparison::told))]
fn put_either(out: &mut Output, numbers: bool, t: Told)
    ensures { Put out.old (told numbers t) out.new }
{
    if numbers {
        put_numbers(out, t.parting);
    } else {
        put_lines(out, t);
    }
}

// What is printed, and nothing in front of it.
#[tactic(auto, using(crate::proofs::Laws::short_told))]
pub fn put_told(out: &mut Output, numbers: bool, t: Told)
    ensures { out.new ≡ told numbers t }
{
    out.clear();
    put_either(out, numbers, t);
}
