// What the programs say on standard error, in one wording: `PROGRAM: FILE: where: what`. Nothing is answered, and nothing
// that is lent is changed.
#![tactic(auto)]

mod named;

pub use named::{LONGEST_NAME, LentInput, Name, NamedInput};
use number::Fault;
use operation::LAST_CODE;
use program::Program;
use std::io::Error;

// A text that somebody else wrote: a question mark stands for each control character, which a terminal would obey.
pub fn say_shown(program: Program, text: &[u8]) {
    for byte in text {
        if byte.is_ascii_control() {
            program.say(b"?");
        } else {
            program.say(&[*byte]);
        }
    }
}

// Whether an input's name means standard input.
fn is_standard(name: &[u8]) -> bool {
    matches!(name, [] | [b'-'])
}

// `PROGRAM: FILE`, of the input that has this name among the arguments.
pub fn say_input(program: Program, name: &[u8]) {
    program.say(program.name());
    program.say(b": ");
    if is_standard(name) {
        program.say(b"standard input");
    } else {
        say_shown(program, name);
    }
}

// What the system has against an input, said first thing after it refused: `replay: FILE: Input/output error`.
pub fn say_unread(program: Program, name: &[u8], error: Error) {
    say_input(program, name);
    program.say_error(error);
}

// A byte that a text can begin with: a printed character, a tab or a line's end.
fn is_text(byte: u64) -> bool {
    matches!(byte, 9 | 10 | 13 | 32..=126)
}

// What is wrong with a number of a recording: one that can be read is an unknown code.
fn say_found(program: Program, byte: u64, found: Result<(u64, usize), Fault>) {
    match found {
        Ok((code, _)) => {
            program.say(b"a code is at most ");
            program.say_number(LAST_CODE);
            program.say(b", and ");
            program.say_number(code);
            program.say(b" stands here");
            if (byte == 0) & is_text(code) {
                program.say(b"; the input looks like text, and pack makes a recording of text");
            }
        }
        Err(Fault::Malformed) => program.say(b"a malformed number"),
        Err(Fault::Ended) => program.say(b"the input ends inside an operation"),
    }
}

// Where a recording is damaged, and how: `replay: FILE: byte 50 (the first is 0), operation 12: a malformed number`, where
// operations are counted from 1.
pub fn say_damage(
    program: Program,
    name: &[u8],
    byte: u64,
    operation: u64,
    found: Result<(u64, usize), Fault>,
) {
    say_input(program, name);
    program.say(b": byte ");
    program.say_number(byte);
    program.say(b" (the first is 0), operation ");
    program.say_number(operation);
    program.say(b": ");
    say_found(program, byte, found);
    program.say(b"\n");
}
