// What `pack` says on standard error of a text that it cannot read.
#![tactic(auto)]

ghost use Rattle.std.specs.Prelude.{◌≡◌, ◌≤◌, false, length, take, drop};
ghost use Rattle.complaint.specs.Returns.{lone_return};

use buffer::within;
use message::say_input;
use notation::{Problem, Wrong, separates};
use operation::LAST_CODE;
use program::Program;
use recording::field_count;

// A message has at most so many bytes of a word.
const SHOWN: usize = 32;

// Where in the text something is wrong. All three count from 1.
#[derive(Clone, Copy)]
pub struct Spot {
    pub line: u64,
    pub column: u64,
    pub operation: u64,
}

// A number, and what is behind 1 or behind any other.
fn say_counted(program: Program, n: u64, one: &[u8], many: &[u8]) {
    program.say_number(n);
    program.say(if n == 1 { one } else { many });
}

// Whether a byte of a word is one that a text holds and a terminal prints.
fn is_printed(byte: u8) -> bool {
    (32 < byte) & (byte < 127)
}

// How many bytes of the word in front of a text are printed.
fn printed_length(text: &[u8]) -> usize
    ensures { result ≤ length text.now }
{
    text.iter()
        .take_while(|byte| is_printed(**byte) & !separates(**byte))
        .count()
}

// Whether a word goes on at a place of a text, and does not end before it.
fn goes_on(text: &[u8], at: usize) -> bool {
    text.get(at).is_some_and(|byte| !separates(*byte))
}

// The bytes of the word in front of a text that are printed, in quotation marks; dots stand for those past the first.
fn say_word(program: Program, text: &[u8]) {
    let n = printed_length(text).min(SHOWN);
    program.say(b"\"");
    program.say(&text[..n]);
    if goes_on(text, n) {
        program.say(b"...");
    }
    program.say(b"\"");
}

// A word that is no number: a byte-order mark, bytes that are no text, or any other.
fn say_no_number(program: Program, text: &[u8]) {
    if text.starts_with(b"\xEF\xBB\xBF") {
        program.say(b"a byte-order mark stands here: save the text without it");
        return;
    }
    match text.get(printed_length(text)) {
        Some(byte) if !separates(*byte) => {
            program.say(b"the byte 0x");
            program.say_byte(*byte);
            program.say(
                b" is no text: pack reads numbers in text, and list and replay read a recording",
            );
        }
        _ => {
            say_word(program, text);
            program.say(b" is no number in decimal or 0x hexadecimal");
        }
    }
}

// The kind of operation a code has, as the message names it.
fn kind_of(code: u64) -> &'static [u8] {
    match code {
        0 => b"a reset",
        1 => b"a branch",
        2 => b"an exception",
        3 => b"a return",
        4 => b"a platform word",
        5 => b"a read",
        6 => b"a write",
        8 => b"a halt",
        9 => b"a resume",
        10 => b"a freeze",
        _ => b"a BRB IALL",
    }
}

// So many numbers and not the code, the cycles and its fields.
fn say_count(program: Program, code: u64, count: u64) {
    if count < 2 {
        program.say(b"the cycles are missing");
        return;
    }
    program.say(kind_of(code));
    program.say(b" has ");
    say_counted(
        program,
        field_count(code),
        b" field, and ",
        b" fields, and ",
    );
    say_counted(program, count - 2, b" stands here", b" stand here");
}

// The bytes from a place on that stand before another.
fn between(bytes: &[u8], from: usize, to: usize) -> &[u8]
    ensures { result.now ≡ drop from (take to bytes.now) }
{
    let front = &bytes[..within(to, bytes)];
    front.get(from..).unwrap_or_default()
}

// Whether a carriage return that another byte than a line's end follows stands before a place, from another place on.
#[tactic(auto, using(crate::proofs::Laws::with_byte, crate::proofs::Laws::none_left))]
pub fn has_lone_return(bytes: &[u8], from: usize, to: usize) -> bool
    ensures { result ≡ lone_return false (drop from (take to bytes.now)) }
{
    let mut after = false;
    for byte in between(bytes, from, to) {
        if after & (*byte != b'\n') {
            return true;
        }
        after = *byte == b'\r';
    }
    false
}

// What the operation's end has to do with its count: it stands in front of a text. `returned`: a carriage return stands
// alone before it.
fn say_end(program: Program, text: &[u8], returned: bool, code: u64, count: u64) {
    if returned {
        program.say(b"; a carriage return alone ends no line");
    } else if text.starts_with(b"\n") & (count < field_count(code) + 2) {
        program.say(b"; an operation ends with its line");
    }
}

// What is wrong with the word in front of a text, or with the operation that ends there.
fn say_problem(program: Program, text: &[u8], returned: bool, problem: Problem) {
    match problem {
        Problem::NoNumber => say_no_number(program, text),
        Problem::TooLarge => {
            say_word(program, text);
            program.say(b" is above 2^64 - 1");
        }
        Problem::Code(code) => {
            program.say(b"a code is at most ");
            program.say_number(LAST_CODE);
            program.say(b", and ");
            program.say_number(code);
            program.say(b" stands here");
        }
        Problem::Count(code, count) => {
            say_count(program, code, count);
            say_end(program, text, returned, code, count);
        }
    }
}

// `pack: FILE: line 3, column 7, operation 12: "4x" is no number in decimal or 0x hexadecimal`.
pub fn report(
    program: Program,
    name: &[u8],
    spot: Spot,
    bytes: &[u8],
    returned: bool,
    wrong: Wrong,
) {
    say_input(program, name);
    program.say(b": line ");
    program.say_number(spot.line);
    program.say(b", column ");
    program.say_number(spot.column);
    program.say(b", operation ");
    program.say_number(spot.operation);
    program.say(b": ");
    let text = bytes.get(wrong.at..).unwrap_or_default();
    say_problem(program, text, returned, wrong.problem);
    program.say(b"\n");
}
