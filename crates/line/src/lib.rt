// What the replay program prints (document 01, "Recordings").
#![tactic(auto)]

ghost use Rattle.std.specs.Prelude.{◌≡◌, ◌+◌, ◌≤◌, length};
ghost use Rattle.number.specs.Number.{written};
ghost use Rattle.recording.specs.RecordedStep.{recorded_step};
ghost use Rattle.line.specs.Turn.{turn_of};
ghost use Rattle.line.specs.Line.{line_of, line_written, line_count};

use answer::Answer;
use number::has_room;
use recording::{recorded_step, stops_reading};
use state::State;
use text::{write_decimal, write_hexadecimal, write_text};

// A line has at most this many bytes, its end included.
pub const LONGEST_LINE: usize = 32;

// The line of a read.
fn value_line(out: &mut [u8], at: usize, v: u64) -> usize
    requires { at + 32 ≤ length out.old }
    ensures value { result ≡ length (line_of (Answer.Value v)) }
    ensures out_after { out.new ≡ written out.old at (line_of (Answer.Value v)) }
{
    let digits = write_hexadecimal(out, at, 16, v);
    digits + write_text(out, at + digits, b"\n")
}

// The line of a refusal.
fn refused_line(out: &mut [u8], at: usize, n: u64) -> usize
    requires { at + 32 ≤ length out.old }
    ensures value { result ≡ length (line_of (Answer.Refused n)) }
    ensures out_after { out.new ≡ written out.old at (line_of (Answer.Refused n)) }
{
    let word = write_text(out, at, b"refused ");
    let used = word + write_decimal(out, at + word, n);
    used + write_text(out, at + used, b"\n")
}

// The line of an answer, where there is room for the longest.
fn line_at(out: &mut [u8], at: usize, answer: Answer) -> usize
    requires { at + 32 ≤ length out.old }
    ensures value { result ≡ length (line_of answer) }
    ensures out_after { out.new ≡ written out.old at (line_of answer) }
{
    match answer {
        Answer::Done => 0,
        Answer::Value(v) => value_line(out, at, v),
        Answer::Undefined => write_text(out, at, b"undefined\n"),
        Answer::Trap2 => write_text(out, at, b"trap2\n"),
        Answer::Trap3 => write_text(out, at, b"trap3\n"),
        Answer::Refused(n) => refused_line(out, at, n),
    }
}

// The line of an answer at a place of lent bytes, and its length; nothing where the longest line has no room there.
#[tactic(auto, unfolding(crate::specs::Line::line_written, crate::specs::Line::line_count))]
pub fn write_line(out: &mut [u8], at: usize, answer: Answer) -> usize
    ensures value { result ≡ line_count out.old at answer }
    ensures out_after { out.new ≡ line_written out.old at answer }
{
    if !has_room(out.len(), at, LONGEST_LINE) {
        return 0;
    }
    line_at(out, at, answer)
}

// Where a replay stands after an operation.
#[derive(Clone, Copy)]
pub struct Turn {
    pub state: State,
    // The place of the next operation, or of the bad number.
    pub next: usize,
    // How many of the lent bytes hold lines.
    pub used: usize,
    // Reading stops here. (A flag, since state, place and lines are told in both cases.)
    pub stops: bool,
}

// One operation of a replay: the recorded step, and its line behind the `used` bytes that hold lines already.
pub fn replay_one(
    s: State,
    room: &mut [u64],
    bytes: &[u8],
    at: usize,
    out: &mut [u8],
    used: usize,
) -> Turn
    ensures value { result ≡ turn_of s room.old bytes.now at out.old used }
    ensures room_after { room.new ≡ (recorded_step s room.old bytes.now at).result.room }
    ensures out_after { out.new ≡ line_written out.old used (recorded_step s room.old bytes.now at).result.answer }
{
    let done = recorded_step(s, room, bytes, at);
    let answer = done.answer;
    let state = done.state;
    let stops = stops_reading(answer);
    let count = write_line(out, used, answer);
    Turn {
        state,
        next: done.next,
        used: used + count,
        stops,
    }
}
