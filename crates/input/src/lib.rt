// A program's input, which comes in pieces through a buffer. What is read is the system's, and no contract can say it: so
// `refill` promises what stays, and where it stands.
#![tactic(auto)]

ghost use Rattle.std.specs.Prelude.{◌≡◌, ◌-◌, ◌≤◌, min, true, false, length, take, ◌==◌};
ghost use Rattle.number.specs.Number.{number_at};
ghost use Rattle.recording.specs.Recording.{operation_at};
ghost use Rattle.recording.specs.Run.{passed_from};
ghost use Rattle.input.specs.Input.{begun, refilled_at, passed_at, damaged_at, place_of, needs_more, at_once, many_at, turned_at, after, standing, Brings};

use answer::Refusal;
use buffer::{ROOM, forward, move_down, within};
use message::LentInput;
use number::{Fault, number_at};
use program::Reader;
use recording::{Damage, LONGEST_OPERATION, Numbers, Passage, operation_at, pass};
use std::io;
use std::io::Read;

// Reads once, behind the first bytes, and answers how many came, 0 at the input's end, or why it cannot be read. Those in front
// stay as they are.
pub fn read_behind(input: &mut Reader, bytes: &mut [u8], left: usize) -> io::Result<usize>
    ensures { take (min left (length bytes.old)) bytes.new ≡ take left bytes.old }
{
    let start = within(left, bytes);
    input.read(&mut bytes[start..])
}

// The operation at a place of the bytes up to `end`.
pub fn reading_at(bytes: &[u8], end: usize, at: usize) -> Result<(Numbers, usize), Damage>
    ensures { result ≡ operation_at (take end bytes.now) at }
{
    let n = within(end, bytes);
    operation_at(&bytes[..n], at)
}

// The number there.
pub fn found_at(bytes: &[u8], end: usize, at: usize) -> Result<(u64, usize), Fault>
    ensures { result ≡ number_at (take end bytes.now) at }
{
    let n = within(end, bytes);
    number_at(&bytes[..n], at)
}

// How many operations are passed at once at most.
pub const AT_ONCE: usize = 64;

// Operations from a place on, at most so many, passed in the bytes up to `end`.
pub fn passage_at(bytes: &[u8], end: usize, at: usize, most: usize) -> Passage
    ensures { result ≡ passed_from most (take end bytes.now) at }
{
    let n = within(end, bytes);
    pass(&bytes[..n], at, most)
}

// What of an input is in its buffer, from `start` to `end`; `before` bytes went before the buffer's first. (Two places beside a fixed array:
// a vector or a buffered reader of the library would ask for heap.)
#[derive(Clone, Copy)]
pub struct Window {
    pub start: usize,
    pub end: usize,
    pub before: u64,
    // How many operations were read.
    pub operations: u64,
    // The input has no more.
    pub ended: bool,
}

// Why an input is not read on.
#[derive(Clone, Copy, Debug, PartialEq, Eq)]
pub enum Stop {
    // All of it was read.
    Ended,
    // A bad number stands where the window starts.
    Damaged(Refusal),
    // The system could not read it, which was said.
    Failed,
}

impl Window {
    // Before the first byte.
    pub fn begin() -> Window
        ensures { result ≡ begun }
    {
        Window {
            start: 0,
            end: 0,
            before: 0,
            operations: 0,
            ended: false,
        }
    }

    // Behind so many operations.
    pub fn passed(self, next: usize, count: u64) -> Window
        ensures { result ≡ passed_at next count self }
    {
        Window {
            start: next,
            operations: self.operations.wrapping_add(count),
            ..self
        }
    }

    // How many bytes are left of what was read.
    pub fn left(self) -> usize
        ensures { result ≡ self.end - self.start }
    {
        self.end.saturating_sub(self.start)
    }

    // Too little is there to be sure of a whole operation.
    pub fn needs_more(self) -> bool
        ensures { result ≡ needs_more self }
    {
        (self.left() < LONGEST_OPERATION) & !self.ended
    }

    // The byte of the input at which it stands.
    pub fn place(self) -> u64
        ensures { result ≡ place_of self }
    {
        self.before.wrapping_add(self.start as u64)
    }

    // After a read of so many bytes behind the `left` that are kept.
    fn after_read(self, left: usize, came: usize) -> Window
        ensures { result ≡ refilled_at self left came (came == 0) }
    {
        Window {
            start: 0,
            end: forward(left, came),
            before: self.place(),
            ended: came == 0,
            ..self
        }
    }

    // Makes room at the front and reads once. Where the input cannot be read it says so.
    pub fn refill(&mut self, input: &mut LentInput, bytes: &mut [u8; ROOM]) -> Result<(), Stop>
        ensures brings { self.old.end ≤ 65536 → Brings bytes.old self.old result bytes.new self.new }
        ensures end_in_bounds { self.old.end ≤ 65536 → self.new.end ≤ 65536 }
        ensures input_unchanged { (input.new.program ≡ input.old.program) × (input.new.name ≡ input.old.name) × (input.new.reader.ghost_name ≡ input.old.reader.ghost_name) }
    {
        let left = move_down(bytes, self.start, self.end);
        match input.reader.read(&mut bytes[left..]) {
            Ok(came) => {
                *self = self.after_read(left, came);
                Ok(())
            }
            Err(error) => {
                input.say_unread(error);
                Err(Stop::Failed)
            }
        }
    }

    // Passes over the operation that stands next, or stops at its bad number.
    fn read_over(&mut self, bytes: &[u8; ROOM]) -> Result<(), Stop>
        ensures { standing result self.new ≡ after (operation_at (take self.old.end bytes.now) self.old.start) self.old }
    {
        match reading_at(bytes, self.end, self.start) {
            Ok((_, next)) => {
                *self = self.passed(next, 1);
                Ok(())
            }
            Err(damage) => {
                self.start = damage.at;
                Err(Stop::Damaged(damage.refusal))
            }
        }
    }

    // Passes over operations, at most so many, as far as they are there; where not one can be read, it is the one that stands next.
    fn pass_over(&mut self, bytes: &[u8; ROOM]) -> Result<(), Stop>
        ensures { standing result self.new ≡ many_at (passed_from at_once (take self.old.end bytes.now) self.old.start) (operation_at (take self.old.end bytes.now) self.old.start) self.old }
    {
        let p = passage_at(bytes, self.end, self.start, AT_ONCE);
        if p.count == 0 {
            return self.read_over(bytes);
        }
        *self = self.passed(p.at, p.count as u64);
        Ok(())
    }

    // Passes over operations, or reads once where too little is there.
    pub fn turn(&mut self, input: &mut LentInput, bytes: &mut [u8; ROOM]) -> Result<(), Stop>
        ensures value { needs_more self.old ≡ false → standing result self.new ≡ turned_at (passed_from at_once (take self.old.end bytes.old) self.old.start) (operation_at (take self.old.end bytes.old) self.old.start) self.old }
        ensures bytes_unchanged { needs_more self.old ≡ false → bytes.new ≡ bytes.old }
        ensures input_unchanged { (input.new.program ≡ input.old.program) × (input.new.name ≡ input.old.name) × (input.new.reader.ghost_name ≡ input.old.reader.ghost_name) }
    {
        if self.needs_more() {
            return self.refill(input, bytes);
        }
        if self.left() == 0 {
            return Err(Stop::Ended);
        }
        self.pass_over(bytes)
    }
}
