// An operation as a line of text, readable or as its numbers. Each function writes behind what waits in the output. Each promises
// this where there is room, which the last one asks before it writes.
#![tactic(auto, using(buffer::proofs::Laws::and_part))]

ghost use Rattle.std.specs.Prelude.{◌≡◌, ◌++◌};
ghost use Rattle.buffer.specs.Buffer.{Put};
ghost use Rattle.notation.specs.Text.{spaced, numbers_line};
ghost use Rattle.readable.specs.Readable.{cycles_field, branch_type_field, group_field, register_field, address_fields, reset_text, branch_text, exception_text, return_text, platform_text, read_text, write_text, halt_text, resume_text, clock_fields, freeze_text, readable_text, readable_line, line_of, line_written};

use buffer::Output;
use recording::{Numbers, field_count};

// A line has at most this many bytes, its end included.
pub const LONGEST_LINE: usize = 256;

// An operation's word, and the cycles, which every operation has. (Where it is called, the word's length is known: it is stored, and
// nothing is called to copy it.)
#[inline(always)]
fn put_opening(out: &mut Output, word: &[u8], x: Numbers)
    ensures { Put out.old (word.now ++ cycles_field x) out.new }
{
    out.text(word);
    out.decimal(b" cycles=", x.cycles);
}

// The two addresses of an event.
fn put_addresses(out: &mut Output, x: Numbers)
    ensures { Put out.old (address_fields x) out.new }
{
    out.hexadecimal(b" source=0x", x.c);
    out.hexadecimal(b" target=0x", x.d);
}

fn put_branch_type(out: &mut Output, kind: u64)
    ensures { Put out.old (branch_type_field kind) out.new }
{
    match kind {
        0 => out.text(b" type=DIRECT"),
        1 => out.text(b" type=INDIRECT"),
        2 => out.text(b" type=DIRCALL"),
        3 => out.text(b" type=INDCALL"),
        5 => out.text(b" type=RTN"),
        8 => out.text(b" type=CONDDIR"),
        _ => out.hexadecimal(b" type=0x", kind),
    }
}

// A register of one of the groups, or its number where it is in none.
fn put_group_register(out: &mut Output, register: u64)
    ensures { Put out.old (group_field register) out.new }
{
    match register / 32 {
        1 => out.decimal(b" register=BRBINF", register % 32),
        2 => out.decimal(b" register=BRBSRC", register % 32),
        3 => out.decimal(b" register=BRBTGT", register % 32),
        _ => out.decimal(b" register=", register),
    }
}

// A register by its name, or its number where it has none.
fn put_register(out: &mut Output, register: u64)
    ensures { Put out.old (register_field register) out.new }
{
    match register {
        0 => out.text(b" register=BRBIDR0_EL1"),
        1 => out.text(b" register=BRBCR_EL1"),
        2 => out.text(b" register=BRBCR_EL2"),
        3 => out.text(b" register=BRBFCR_EL1"),
        4 => out.text(b" register=BRBTS_EL1"),
        _ => put_group_register(out, register),
    }
}

fn put_reset(out: &mut Output, x: Numbers)
    ensures { Put out.old (reset_text x) out.new }
{
    put_opening(out, b"reset", x);
    out.decimal(b" size=", x.a);
    out.decimal(b" v1p1=", x.b);
}

fn put_branch(out: &mut Output, x: Numbers)
    ensures { Put out.old (branch_text x) out.new }
{
    put_opening(out, b"branch", x);
    put_branch_type(out, x.a);
    out.decimal(b" mispredicted=", x.b);
    put_addresses(out, x);
}

fn put_exception(out: &mut Output, x: Numbers)
    ensures { Put out.old (exception_text x) out.new }
{
    put_opening(out, b"exception", x);
    out.hexadecimal(b" type=0x", x.a);
    out.decimal(b" target_level=", x.b);
    put_addresses(out, x);
}

fn put_return(out: &mut Output, x: Numbers)
    ensures { Put out.old (return_text x) out.new }
{
    put_opening(out, b"return", x);
    out.decimal(b" target_level=", x.a);
    out.decimal(b" mispredicted=", x.b);
    put_addresses(out, x);
}

fn put_platform(out: &mut Output, x: Numbers)
    ensures { Put out.old (platform_text x) out.new }
{
    put_opening(out, b"platform", x);
    out.hexadecimal(b" P=0x", x.a);
}

fn put_read(out: &mut Output, x: Numbers)
    ensures { Put out.old (read_text x) out.new }
{
    put_opening(out, b"read", x);
    put_register(out, x.a);
}

fn put_write(out: &mut Output, x: Numbers)
    ensures { Put out.old (write_text x) out.new }
{
    put_opening(out, b"write", x);
    put_register(out, x.a);
    out.hexadecimal(b" value=0x", x.b);
}

fn put_halt(out: &mut Output, x: Numbers)
    ensures { Put out.old (halt_text x) out.new }
{
    put_opening(out, b"halt", x);
    out.hexadecimal(b" source=0x", x.a);
}

fn put_resume(out: &mut Output, x: Numbers)
    ensures { Put out.old (resume_text x) out.new }
{
    put_opening(out, b"resume", x);
    out.hexadecimal(b" target=0x", x.a);
    out.decimal(b" target_level=", x.b);
}

// The processor's count at an overflow, and its two offsets.
fn put_clock(out: &mut Output, x: Numbers)
    ensures { Put out.old (clock_fields x) out.new }
{
    out.hexadecimal(b" physical=0x", x.b);
    out.hexadecimal(b" virtual_offset=0x", x.c);
    out.hexadecimal(b" guest_offset=0x", x.d);
}

fn put_freeze(out: &mut Output, x: Numbers)
    ensures { Put out.old (freeze_text x) out.new }
{
    put_opening(out, b"freeze", x);
    out.decimal(b" group=", x.a);
    put_clock(out, x);
}

#[tactic(auto, unfolding(crate::specs::Readable::readable_text))]
fn put_operation(out: &mut Output, x: Numbers)
    ensures { Put out.old (readable_text x) out.new }
{
    let code = x.code;
    match code {
        0 => put_reset(out, x),
        1 => put_branch(out, x),
        2 => put_exception(out, x),
        3 => put_return(out, x),
        4 => put_platform(out, x),
        5 => put_read(out, x),
        6 => put_write(out, x),
        8 => put_halt(out, x),
        9 => put_resume(out, x),
        10 => put_freeze(out, x),
        _ => put_opening(out, b"iall", x),
    }
}

// Numbers in decimal, with a space in front of each.
pub fn put_spaced(out: &mut Output, list: &[u64])
    ensures { Put out.old (spaced list.now) out.new }
{
    for n in list {
        out.decimal(b" ", *n);
    }
}

// The code, the cycles and the operation's own fields, as `list --numbers` has them, and the line's end.
#[tactic(auto, using(buffer::proofs::Laws::and_part), unfolding(notation::specs::Text::numbers_line))]
fn put_numbers(out: &mut Output, x: Numbers)
    ensures { Put out.old (numbers_line x) out.new }
{
    let fields = field_count(x.code) as usize;
    out.decimal(b"", x.code);
    put_spaced(out, &[x.cycles, x.a, x.b, x.c, x.d][..1 + fields]);
    out.text(b"\n");
}

// The readable text, and the line's end.
#[tactic(auto, using(buffer::proofs::Laws::and_part), unfolding(crate::specs::Readable::readable_line))]
pub fn put_readable(out: &mut Output, x: Numbers)
    ensures { Put out.old (readable_line x) out.new }
{
    put_operation(out, x);
    out.text(b"\n");
}

// Either line of an operation.
#[tactic(auto, unfolding(crate::specs::Readable::line_of))]
fn put_either(out: &mut Output, numbers: bool, x: Numbers)
    ensures { Put out.old (line_of numbers x) out.new }
{
    if numbers {
        put_numbers(out, x);
    } else {
        put_readable(out, x);
    }
}

// The line of an operation, its end included; where the longest line has no room, nothing is written.
#[tactic(auto, using(crate::proofs::Laws::length_line), unfolding(crate::specs::Readable::line_written))]
pub fn put_line(out: &mut Output, numbers: bool, x: Numbers)
    ensures { out.new ≡ line_written out.old numbers x }
{
    if out.has_room(LONGEST_LINE) {
        put_either(out, numbers, x);
    }
}
