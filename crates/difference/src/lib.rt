// The names of what differs in two operations, as `compare` prints them. Each function writes behind what waits in the output.
#![tactic(auto, using(buffer::proofs::Laws::no_part, buffer::proofs::Laws::and_part))]

ghost use Rattle.buffer.specs.Buffer.{Put};
ghost use Rattle.difference.specs.Difference.{piece, names, differing_names};

use buffer::Output;
use compare::{A, B, C, CODE, CYCLES, D};

// A name where it is told, behind a comma where others stand before it.
fn put_piece(out: &mut Output, begun: bool, told: bool, name: &[u8])
    ensures { Put out.old (piece begun told name.now) out.new }
{
    if told {
        if begun {
            out.text(b", ");
        }
        out.text(name);
    }
}

// What differs in two operations whose fields have these names.
fn put_names<'x>(out: &mut Output, d: u64, a: &'x [u8], b: &'x [u8], c: &'x [u8], e: &'x [u8])
    ensures { Put out.old (names d a.now b.now c.now e.now) out.new }
{
    let fields = [
        (CODE, &b"code"[..]),
        (CYCLES, &b"cycles"[..]),
        (A, a),
        (B, b),
        (C, c),
        (D, e),
    ];
    let mut begun = false;
    for (weight, name) in fields {
        let told = d / weight % 2 == 1;
        put_piece(out, begun, told, name);
        begun |= told;
    }
}

// What differs in two operations of this code, by the names that `list` has.
#[tactic(auto, unfolding(crate::specs::Difference::differing_names))]
pub fn put_differing(out: &mut Output, code: u64, d: u64)
    ensures { Put out.old (differing_names code d) out.new }
{
    match code {
        0 => put_names(out, d, b"size", b"v1p1", b"", b""),
        1 => put_names(out, d, b"type", b"mispredicted", b"source", b"target"),
        2 => put_names(out, d, b"type", b"target_level", b"source", b"target"),
        3 => put_names(
            out,
            d,
            b"target_level",
            b"mispredicted",
            b"source",
            b"target",
        ),
        4 => put_names(out, d, b"P", b"", b"", b""),
        5 => put_names(out, d, b"register", b"", b"", b""),
        6 => put_names(out, d, b"register", b"value", b"", b""),
        8 => put_names(out, d, b"source", b"", b"", b""),
        9 => put_names(out, d, b"target", b"target_level", b"", b""),
        10 => put_names(
            out,
            d,
            b"group",
            b"physical",
            b"virtual_offset",
            b"guest_offset",
        ),
        _ => put_names(out, d, b"", b"", b"", b""),
    }
}
