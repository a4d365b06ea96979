// A recording, as one line an operation on standard output. What is read and written is the system's, and no contract can say
// it: so `list_all` and `main` promise only what does not depend on it.
#![tactic(auto)]

ghost use Rattle.std.specs.Prelude.{◌≡◌, ◌-◌, true, false, [], take, ◌==◌};
ghost use Rattle.recording.specs.Recording.{operation_at};
ghost use Rattle.input.specs.Input.{needs_more};
ghost use Rattle.list.specs.List.{Listed, Turned, TurnedAt};

use arguments::{Called, look};
use buffer::{Output, ROOM};
use input::{Window, found_at, reading_at};
use message::{LentInput, NamedInput};
use program::Program;
use readable::{LONGEST_LINE, put_line};
use recording::Numbers;

// The lines before go out first, then the message.
fn refuse(input: &LentInput, bytes: &[u8; ROOM], out: &mut Output, p: Window, at: usize)
    ensures { out.new ≡ [] }
{
    out.flush(input.program);
    input.say_damage(
        p.before.wrapping_add(at as u64),
        p.operations.wrapping_add(1),
        found_at(bytes, p.end, at),
    );
}

// An operation's line behind those that wait, which go out before where they leave no room for the longest line.
fn listed(
    program: Program,
    out: &mut Output,
    numbers: bool,
    p: Window,
    x: Numbers,
    next: usize,
) -> Option<Window>
    ensures { Listed out.old numbers p x next result out.new }
{
    if !out.has_room(LONGEST_LINE) && !out.flush(program) {
        return None;
    }
    put_line(out, numbers, x);
    Some(p.passed(next, 1))
}

// Lists the operation that stands next.
fn operation_listed(
    input: &LentInput,
    bytes: &[u8; ROOM],
    out: &mut Output,
    numbers: bool,
    p: Window,
) -> Option<Window>
    ensures { Turned out.old numbers p (operation_at (take p.end bytes.now) p.start) result out.new }
{
    match reading_at(bytes, p.end, p.start) {
        Ok((x, next)) => listed(input.program, out, numbers, p, x, next),
        Err(damage) => {
            refuse(input, bytes, out, p, damage.at);
            None
        }
    }
}

// Lists an operation, or reads once where too little is there to be sure of a whole one; none where there is no more to do.
fn turn(
    input: &mut LentInput,
    numbers: bool,
    bytes: &mut [u8; ROOM],
    out: &mut Output,
    mut p: Window,
) -> Option<Window>
    ensures turned_at { needs_more p ≡ false → TurnedAt (p.end - p.start == 0) out.old numbers p (operation_at (take p.end bytes.old) p.start) result out.new }
    ensures out_unchanged { needs_more p ≡ true → out.new ≡ out.old }
{
    if p.needs_more() {
        p.refill(input, bytes).ok()?;
        return Some(p);
    }
    if p.left() == 0 {
        return None;
    }
    operation_listed(input, bytes, out, numbers, p)
}

// A proved loop has to end, and nothing says that the input does. So the turns are counted, up to a number that no run uses up.
fn list_all(input: &mut NamedInput, numbers: bool) {
    let mut lent = LentInput {
        program: input.program,
        reader: &mut input.reader,
        name: input.name.text(),
    };
    let mut bytes = [0u8; ROOM];
    let mut out = Output::new();
    let mut place = Window::begin();
    for _ in 0..u64::MAX {
        match turn(&mut lent, numbers, &mut bytes, &mut out, place) {
            Some(next) => place = next,
            None => break,
        }
    }
    out.flush(lent.program);
}

fn main(rt: HostRuntime) {
    let program = Program::new(rt, b"list");
    let usage =
        b"usage: list [--numbers] [FILE]\n\nWrites one line for each operation of the recording FILE, or of standard input where FILE is - or missing.\n\n  --numbers   each operation as its own numbers in decimal, which pack reads back\n  --help, -h  this text\n  --version   the version\n  --          what comes behind it is no option\n\nA recording that cannot be read on is said on standard error, with the byte where its bad number starts, counted\nfrom 0, after the lines of the operations before it.\n";
    let Called {
        inputs,
        numbers,
        ..
    } = look(program, usage, true);
    let Some(mut input) = inputs else {
        return;
    };
    list_all(&mut input, numbers);
}
