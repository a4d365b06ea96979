// An input with its name: what is read, and what the messages call it.
use crate::{say_damage, say_unread};
use number::Fault;
use program::{Program, Reader};
use std::io::Error;
use std::marker::Model;
use std::os::fd::RawFd;

// A name has at most so many bytes.
pub const LONGEST_NAME: usize = 4096;

// A name's bytes.
#[derive(Drop)]
pub struct Name {
    bytes: [u8; LONGEST_NAME],
    length: usize,
}

impl Model for Name {
    ghost use Rattle.std.specs.Prelude.{ℕ, ◌≤◌, List, take};

    ghost Value = { List ℕ };

    ghost view = { λ n. take n.length n.bytes };

    ghost invariant = { λ n. n.length ≤ 4096 };
}

impl Name {
    ghost use Rattle.std.specs.Prelude.{◌≡◌, take};

    // Of a longer text the first bytes.
    pub fn new(text: &[u8]) -> Name
        ensures { result ≡ take 4096 text.now }
    {
        let length = text.len().min(LONGEST_NAME);
        let mut bytes = [0; LONGEST_NAME];
        bytes[..length].copy_from_slice(&text[..length]);
        Name { bytes, length }
    }

    pub fn text(&self) -> &[u8]
        ensures { result.now ≡ self.now }
    {
        &self.bytes[..self.length]
    }
}

// What a program reads, with the name that it has among the program's arguments: none where none was given.
#[derive(Drop)]
pub struct NamedInput {
    pub program: Program,
    pub reader: Reader,
    pub name: Name,
}

impl NamedInput {
    // The system's number of it.
    pub fn descriptor(&self) -> RawFd {
        self.reader.descriptor()
    }

    // What the system has against it.
    pub fn say_unread(&self, error: Error) {
        say_unread(self.program, self.name.text(), error);
    }
}

// An input that is lent to be read. Its name is lent to be looked at alone, and may have any length.
#[derive(Drop)]
pub struct LentInput<'a> {
    pub program: Program,
    pub reader: &'a mut Reader,
    pub name: &'a [u8],
}

impl<'a> LentInput<'a> {
    // What the system has against it.
    pub fn say_unread(&self, error: Error) {
        say_unread(self.program, self.name, error);
    }

    // Where it is damaged as a recording, and how.
    pub fn say_damage(&self, byte: u64, operation: u64, found: Result<(u64, usize), Fault>) {
        say_damage(self.program, self.name, byte, operation, found);
    }
}
