// A program that runs: its name and arguments, what it reads, standard output, which it writes, and standard error, where it says
// what is wrong. All that reaches the system goes through here.
#![tactic(auto)]

ghost use Rattle.std.specs.Io.{WritesAtMost};

mod reader;

pub use reader::Reader;
use std::env::FillError;
use std::fs::File;
use std::io;
use std::io::{Cursor, Error, Print, Write};
use std::rt::Env;
use std::str::from_utf8;

// A program's name, and the system that runs it.
#[derive(Clone, Copy)]
pub struct Program {
    name: &'static [u8],
    system: HostRuntime,
}

// The number of the system's error for bytes that are no text, EILSEQ.
const NO_TEXT: i32 = 84;

impl Program {
    pub fn new(system: HostRuntime, name: &'static [u8]) -> Program {
        Program { name, system }
    }

    // Its argument at a place, where its own name is at 0, to the bytes' front; answers how many bytes it has.
    pub fn argument(self, i: usize, bytes: &mut [u8]) -> Result<usize, FillError>
        ensures { WritesAtMost result bytes.new }
    {
        self.system.arg(i, bytes)
    }

    // The file of this name, which has to be UTF-8, as each path of std has.
    pub fn open(self, name: &[u8]) -> io::Result<Reader> {
        match from_utf8(name) {
            Ok(path) => Ok(Reader::File(File::open(&self.system, path)?)),
            Err(_) => Err(Error::from_raw_os_error(NO_TEXT)),
        }
    }

    pub fn standard_input(self) -> Reader {
        Reader::Standard(self.system.stdin())
    }

    // Writes to standard output, all or up to where it fails.
    pub fn write(self, text: &[u8]) -> io::Result<()> {
        Print::write_all(&self.system, text)
    }

    // Says a text on standard error. Where that fails, there is nobody to tell.
    pub fn say(self, text: &[u8]) {
        let _ = Print::write_all(&self.system.stderr(), text);
    }

    pub fn name(self) -> &'static [u8] {
        self.name
    }

    // A number in decimal.
    pub fn say_number(self, n: u64) {
        let _ = self.system.stderr().print(n);
    }

    // A byte in two hexadecimal digits.
    pub fn say_byte(self, byte: u8) {
        let _ = self.system.stderr().print(format_args!("{byte:02x}"));
    }

    // What the system has against something that was just named, to the line's end: `: No such file or directory`.
    pub fn say_error(self, error: Error) {
        let mut text = Cursor::new([0u8; 128]);
        let _ = write!(text, "{error}");
        let n = text.position().min(128);
        let text = text.into_inner();
        self.say(b": ");
        self.say(words_of(&text[..n as usize]));
        self.say(b"\n");
    }
}

// An error's text without ` (os error 5)`, which stands behind the system's own.
fn words_of(text: &[u8]) -> &[u8] {
    match text.iter().rposition(|byte| *byte == b'(') {
        Some(i) => &text[..i.saturating_sub(1)],
        None => text,
    }
}
