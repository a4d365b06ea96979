// Numbers as text, to a recording on standard output.
#![tactic(auto)]

ghost use Rattle.std.specs.Prelude.{◌≡◌, ◌+◌, ◌≤◌, ◌++◌, length};
ghost use Rattle.operation.specs.Operation.{last_code};
ghost use Rattle.recording.specs.declared.Numbers.{Numbers};
ghost use Rattle.recording.specs.Recording.{operation_bytes};
ghost use Rattle.notation.specs.Reading.{Known};

use answer::Answer;
use arguments::look;
use buffer::{Output, ROOM, forward, move_down, within};
use complaint::{Spot, has_lone_return, report};
use input::read_behind;
use message::NamedInput;
use notation::{Begun, Step, Wrong, ended, line_end, none_begun, read_on, whole_words};
use program::Program;
use recording::{LONGEST_OPERATION, Numbers, write_operation};
use std::io;

// Why reading stops.
#[derive(Drop)]
enum Stop {
    // The text has ended.
    Ended,
    // The system gives no more of it.
    Unread(io::Error),
    // What waits did not go out, and a message said so.
    Unwritten,
    // Something is wrong with the text.
    Refused(Wrong),
}

impl From<io::Error> for Stop {
    fn from(error: io::Error) -> Stop {
        Stop::Unread(error)
    }
}

impl From<Wrong> for Stop {
    fn from(wrong: Wrong) -> Stop {
        Stop::Refused(wrong)
    }
}

// The first bytes, up to a place or all.
fn front(bytes: &[u8], end: usize) -> &[u8] {
    &bytes[..within(end, bytes)]
}

// How many zeros the bytes start with.
fn zeros(bytes: &[u8]) -> usize
    ensures { result ≤ length bytes.now }
{
    bytes.iter().take_while(|byte| **byte == b'0').count()
}

// An operation's bytes behind what waits. None is refused: its code is known, and it has room.
fn put(out: &mut Output, x: Numbers)
    requires { (x.code ≤ last_code) × (length out.old + 60 ≤ 65536) }
    ensures { out.new ≡ out.old ++ operation_bytes x }
{
    let mut bytes = [0u8; LONGEST_OPERATION];
    if let Answer::Value(n) = write_operation(&mut bytes, 0, x) {
        out.text(&bytes[..n as usize]);
    }
}

fn read_within(bytes: &[u8], end: usize, at: usize, begun: Begun) -> Result<Step, Wrong>
    ensures { Known result }
{
    read_on(front(bytes, end), at, begun)
}

// A text that is being packed: what of it is in its buffer, from `start` to `end`, of it up to `whole` with no word cut off,
// and where it stands.
#[derive(Drop)]
struct Packing<'a> {
    program: Program,
    input: &'a mut NamedInput,
    bytes: [u8; ROOM],
    start: usize,
    whole: usize,
    end: usize,
    // The input has no more.
    over: bool,
    // A comment is being passed.
    comment: bool,
    // The operation that is being read, and how many went before it.
    begun: Begun,
    operations: u64,
    // A carriage return that ends no line stands in what was read of it.
    returned: bool,
    // The bytes before the buffer's first, those of them that were left out of the word that starts there, those before the
    // line's first, and the lines before the line.
    before: u64,
    left_out: u64,
    line_start: u64,
    lines: u64,
    // What waits to be written.
    out: Output,
}

impl<'a> Packing<'a> {
    // Before the text's first byte.
    fn new(program: Program, input: &'a mut NamedInput) -> Packing<'a> {
        let begun = none_begun();
        Packing {
            program,
            input,
            bytes: [0u8; ROOM],
            start: 0,
            whole: 0,
            end: 0,
            over: false,
            comment: false,
            begun,
            operations: 0,
            returned: false,
            before: 0,
            left_out: 0,
            line_start: 0,
            lines: 0,
            out: Output::new(),
        }
    }

    // The end of what can be read: a word may go on behind the last that separates words, and a comment may not.
    fn limit(&self) -> usize {
        if self.over | self.comment {
            self.end
        } else {
            self.whole
        }
    }

    // A word that fills the buffer. Of many zeros in front three do as well. With few it is no number below 2^64, whatever
    // follows, and is read as it stands.
    fn shorten(&mut self) {
        let hexadecimal = self.bytes.starts_with(b"0x") | self.bytes.starts_with(b"0X");
        let first = if hexadecimal { 2 } else { 0 };
        let past = first + zeros(&self.bytes[first..]);
        if past < 16 {
            self.whole = self.end;
            return;
        }
        let kept = past - 3;
        self.end = move_down(&mut self.bytes, kept, ROOM);
        self.before = self.before.wrapping_add(kept as u64);
        self.left_out = self.left_out.wrapping_add(kept as u64);
        if hexadecimal {
            self.bytes[1] = b'x';
        }
    }

    // The rest of the buffer at its front, and behind it what is read at once.
    fn refill(&mut self) -> Result<(), Stop> {
        self.before = self.before.wrapping_add(self.start as u64);
        if 0 < self.start {
            self.left_out = 0;
        }
        let left = move_down(&mut self.bytes, self.start, self.end);
        self.start = 0;
        if left == ROOM {
            self.shorten();
            return Ok(());
        }
        let came = read_behind(&mut self.input.reader, &mut self.bytes, left)?;
        self.end = forward(left, came);
        self.whole = whole_words(front(&self.bytes, self.end));
        self.over = came == 0;
        Ok(())
    }

    // Passes a comment, up to its line's end or that of the buffer.
    fn pass_comment(&mut self) {
        let next = line_end(front(&self.bytes, self.end), self.start);
        self.comment = self.end <= next;
        self.start = next;
    }

    // Behind the byte at a place, which ended an operation, or nothing. Past them all it is a line's end.
    fn pass(&mut self, at: usize) {
        let byte = self.bytes.get(at).copied().unwrap_or(b'\n');
        self.begun = none_begun();
        self.start = forward(at, 1);
        self.comment = byte == b'#';
        self.returned = false;
        if byte == b'\n' {
            self.lines = self.lines.wrapping_add(1);
            self.line_start = self.before.wrapping_add(self.start as u64);
        }
    }

    // What can be read has ended inside an operation.
    fn pause(&mut self, begun: Begun) {
        let start = self.limit();
        self.returned = self.returned | has_lone_return(&self.bytes, self.start, start);
        self.begun = begun;
        self.start = start;
    }

    // An operation to what waits, which goes out first if the operation might have no room.
    fn put_operation(&mut self, x: Numbers) -> Result<(), Stop>
        requires { x.code ≤ last_code }
    {
        self.operations = self.operations.wrapping_add(1);
        if !self.out.has_room(LONGEST_OPERATION) && !self.out.flush(self.program) {
            return Err(Stop::Unwritten);
        }
        put(&mut self.out, x);
        Ok(())
    }

    // Reads on to the end of the operation, or of what can be read.
    fn read_operation(&mut self) -> Result<(), Stop> {
        let limit = self.limit();
        match read_within(&self.bytes, limit, self.start, self.begun)? {
            Step::More(begun) => self.pause(begun),
            Step::Operation(x, at) => {
                self.pass(at);
                self.put_operation(x)?;
            }
            Step::Nothing(at) => self.pass(at),
        }
        Ok(())
    }

    // The text's end ends its last operation.
    fn finish(&mut self) -> Result<(), Stop> {
        if let Step::Operation(x, _) = ended(self.begun, self.end)? {
            self.put_operation(x)?;
        }
        Err(Stop::Ended)
    }

    // Reads on, passes a comment, or reads more of the text.
    fn turn(&mut self) -> Result<(), Stop> {
        if self.limit() <= self.start {
            if self.over {
                return self.finish();
            }
            return self.refill();
        }
        if self.comment {
            self.pass_comment();
            return Ok(());
        }
        self.read_operation()
    }

    // A proved loop has to end, and nothing says that the input does. So the turns are counted, up to a number that no run
    // uses up.
    fn pack(&mut self) -> Result<(), Stop> {
        for _ in 0..u64::MAX {
            self.turn()?;
        }
        Ok(())
    }

    // How many bytes of the text stand before a place of the buffer.
    fn place_of(&self, at: usize) -> u64 {
        let before = if at == 0 {
            self.before.wrapping_sub(self.left_out)
        } else {
            self.before
        };
        before.wrapping_add(at as u64)
    }

    // Says what is wrong.
    fn refuse(&self, wrong: Wrong) {
        let spot = Spot {
            line: self.lines.wrapping_add(1),
            column: self
                .place_of(wrong.at)
                .wrapping_sub(self.line_start)
                .wrapping_add(1),
            operation: self.operations.wrapping_add(1),
        };
        let returned = self.returned | has_lone_return(&self.bytes, self.start, wrong.at);
        report(
            self.program,
            self.input.name.text(),
            spot,
            front(&self.bytes, self.end),
            returned,
            wrong,
        );
    }
}

// Packs a text, says why not all of it, and lets go out what waits.
fn pack_all(program: Program, input: &mut NamedInput) {
    let mut packing = Packing::new(program, input);
    match packing.pack() {
        Ok(()) | Err(Stop::Ended) => {}
        Err(Stop::Unread(error)) => packing.input.say_unread(error),
        Err(Stop::Unwritten) => return,
        Err(Stop::Refused(wrong)) => packing.refuse(wrong),
    }
    packing.out.flush(program);
}

fn main(rt: HostRuntime) {
    let program = Program::new(rt, b"pack");
    let usage =
        b"usage: pack [FILE]\n\nWrites a recording to standard output from numbers in FILE, or in standard input where FILE is - or missing.\n\nNumbers are decimal, or hexadecimal after 0x, and white space is between them. A / or a line's end ends an\noperation, # starts a comment. An operation is its code, the cycles passed since the one before, and its fields:\n\n  0 reset      size v1p1\n  1 branch     type mispredicted source target\n  2 exception  type target-level source target\n  3 return     target-level mispredicted source target\n  4 platform   P\n  5 read       register\n  6 write      register value\n  7 BRB IALL\n\nWhat is wrong with the text is said on standard error with its line, column and operation, and the recording ends before that operation.\n";
    let Some(mut input) = look(program, usage, false).inputs else {
        return;
    };
    pack_all(program, &mut input);
}
