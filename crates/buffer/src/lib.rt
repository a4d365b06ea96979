// A program's two buffers: what was read waits until it is used, and what is to be written until the room fills.
#![tactic(auto)]

ghost use Rattle.std.specs.Prelude.{◌+◌, ◌^◌, ◌≤◌, ◌<◌, min, ◌≡◌, ℕ, List, [], ◌++◌, length, take, leb};
ghost use Rattle.text.specs.Text.{decimal, hexadecimal};
ghost use Rattle.buffer.specs.Buffer.{waiting, moved_down, IsPrefixLen, Put};

use program::Program;
use std::io::Error;
use std::marker::Model;
use text::{write_decimal, write_shortest_hexadecimal, write_text};

// The bytes that a program's output has room for.
pub const ROOM: usize = 65_536;

// What is to be written: the bytes in front, which wait. Clauses see these alone.
#[derive(Drop)]
pub struct Output {
    bytes: [u8; ROOM],
    used: usize,
}

impl Model for Output {
    ghost Value = { List ℕ };

    ghost view = { λ o. take o.used o.bytes };

    // Rules nothing out: a place past the room is one too, where all of the bytes wait.
    ghost invariant = { λ o. o.used < 2 ^ 64 };
}

// (No `write!`: the library's clauses do not say when it is `Ok`, and each of these promises its bytes.)
#[tactic(auto, using(crate::proofs::Laws::place_fits, crate::proofs::Laws::one_part, crate::proofs::Laws::and_part))]
impl Output {
    // Nothing waits.
    pub fn new() -> Output
        ensures { result ≡ [] }
    {
        Output {
            bytes: [0; ROOM],
            used: 0,
        }
    }

    // Nothing waits any more.
    pub fn clear(&mut self)
        ensures { self.new ≡ [] }
    {
        self.used = 0;
    }

    // Whether so many more bytes have room.
    pub fn has_room(&self, count: usize) -> bool
        ensures { result ≡ leb (length self.now + count) 65536 }
    {
        count <= ROOM.saturating_sub(self.used)
    }

    // A text.
    pub fn text(&mut self, text: &[u8])
        ensures { Put self.old text.now self.new }
    {
        let at = self.used;
        self.used = at + write_text(&mut self.bytes, at, text);
    }

    // A name and a number behind it, in decimal.
    pub fn decimal(&mut self, name: &[u8], n: u64)
        ensures { Put self.old (name.now ++ decimal n) self.new }
    {
        self.text(name);
        let at = self.used;
        self.used = at + write_decimal(&mut self.bytes, at, n);
    }

    // The same in hexadecimal.
    pub fn hexadecimal(&mut self, name: &[u8], n: u64)
        ensures { Put self.old (name.now ++ hexadecimal n) self.new }
    {
        self.text(name);
        let at = self.used;
        self.used = at + write_shortest_hexadecimal(&mut self.bytes, at, n);
    }

    // What waits goes out to standard output, and nothing waits any more. Answers whether it went; a message says so where not.
    pub fn flush(&mut self, program: Program) -> bool
        ensures { self.new ≡ [] }
    {
        let sent = flush(program, &self.bytes, self.used);
        self.clear();
        sent
    }
}

// So many of the bytes, or all.
pub fn within(n: usize, bytes: &[u8]) -> usize
    ensures value { result ≡ min n (length bytes.now) }
    ensures prefix_len { IsPrefixLen result bytes.now }
{
    n.min(bytes.len())
}

// The place n bytes on, and never past the room.
pub fn forward(at: usize, n: usize) -> usize
    ensures { result ≡ min (at + n) 65536 }
{
    at.saturating_add(n).min(ROOM)
}

// What the system has against standard output: `replay: standard output: No space left on device`.
pub fn say_unwritten(program: Program, error: Error) {
    program.say(program.name());
    program.say(b": standard output");
    program.say_error(error);
}

// The first bytes go out to standard output. Answers whether they did; a message says so where not.
pub fn flush(program: Program, bytes: &[u8], waiting: usize) -> bool {
    let n = within(waiting, bytes);
    match program.write(&bytes[..n]) {
        Ok(()) => true,
        Err(error) => {
            say_unwritten(program, error);
            false
        }
    }
}

// Moves the bytes from `at` to `end` to the front, and answers how many they are.
pub fn move_down(input: &mut [u8], at: usize, end: usize) -> usize
    ensures value { (result ≡ length (waiting input.old at end)) × (result ≤ length input.new) }
    ensures input_after { input.new ≡ moved_down input.old at end }
{
    if input.len() < end || end < at {
        return 0;
    }
    input.copy_within(at..end, 0);
    end - at
}
