// Recordings, read and written (document 01, "Recordings"; docs/MANUAL.md, the same).
#![tactic(auto)]

ghost use Rattle.std.specs.Prelude.{◌≡◌, cond, suc, ◌+◌, ◌*◌, ◌≤◌, length, IfSome};
ghost use Rattle.answer.specs.Answer.{refusal_number};
ghost use Rattle.number.specs.Number.{number_at, end_of_number, written};
ghost use Rattle.recording.specs.Operations.{stored_numbers};
ghost use Rattle.recording.specs.Recording.{number_from, as_reading, field_count, numbers_at, with_fields, operation_at, bytes_of_all, written_operation, writing_of, numbers};
ghost use Rattle.recording.specs.Run.{end_of, end_of_several, passed_from};
ghost use Rattle.recording.specs.RecordedStep.{recorded_step, stops_reading};
ghost use Rattle.recorder.specs.Result.{together};

use answer::{Answer, Refusal};
use number::{has_room, number_at, number_length, write_number};
use operation::{LAST_CODE, operation_of};
use recorder::step;
use state::State;

// An operation as its six numbers. Those beyond its own fields are 0 where they were read.
#[derive(Clone, Copy)]
pub struct Numbers {
    pub code: u64,
    pub cycles: u64,
    pub a: u64,
    pub b: u64,
    pub c: u64,
    pub d: u64,
}

impl Numbers {
    pub fn new(code: u64, cycles: u64, a: u64, b: u64, c: u64, d: u64) -> Numbers
        ensures { result ≡ numbers code cycles a b c d }
    {
        Numbers {
            code,
            cycles,
            a,
            b,
            c,
            d,
        }
    }
}

// Why no operation can be read at a place: the refusal, and where the bad or missing number starts.
#[derive(Clone, Copy, Debug, PartialEq, Eq)]
pub struct Damage {
    pub refusal: Refusal,
    pub at: usize,
}

// How many operations were passed, and the place after them.
#[derive(Clone, Copy)]
pub struct Passage {
    pub count: usize,
    pub at: usize,
}

// An operation has at most so many bytes: six numbers of ten.
pub const LONGEST_OPERATION: usize = 60;

// How many fields each code has (document 01, "Operations"; document 02, Five and Six): 0 for a code past the last, which has none. A chain
// and no table, since a table is laid out on the stack at every call; and one of bounds, since the compiler makes a table of single
// codes, and then no longer sees that there are at most four fields: it would not unroll the loop that reads them. A branch stands
// first, since most operations are branches; and a freeze behind it, since four fields at both ends of the chain cost reading any
// operation 22 instructions.
pub fn field_count(code: u64) -> u64
    ensures { (result ≡ field_count code) × (result ≤ 4) }
{
    if code == 1 {
        return 4;
    }
    if code == 10 {
        return 4;
    }
    if code == 0 {
        return 2;
    }
    if code <= 3 {
        return 4;
    }
    if code <= 5 {
        return 1;
    }
    if code <= 6 {
        return 2;
    }
    if code <= 7 {
        return 0;
    }
    if code <= 8 {
        return 1;
    }
    if code <= 9 {
        return 2;
    }
    0
}

// The number at a place, and the place after it. One that is missing is refused as a malformed one is.
fn number_from(bytes: &[u8], at: usize) -> Result<(u64, usize), Damage>
    ensures { result ≡ number_from bytes.now at }
{
    number_at(bytes, at).map_err(|_| Damage {
        refusal: Refusal::MalformedNumber,
        at,
    })
}

// Cycles and fields after a code, and the place after the last of them, or where the bad or missing number starts. A loop, since
// `number_at` is compiled into the one place that reads a number in it: a number of one byte takes no call (document 02, Three;
// docs/landings/03-short-path.md). A `Result` of both would be laid out on the stack, and reading numbers of one byte takes a
// tenth longer so: the two ways out fill as many words here.
fn fields_at(bytes: &[u8], at: usize, code: u64) -> (Numbers, Result<usize, usize>)
    ensures { as_reading result.0 result.1 ≡ with_fields code (numbers_at (suc (field_count code)) bytes.now at) }
{
    let count = field_count(code) as usize + 1;
    let mut list = [0u64; 5];
    let mut next = at;
    for i in 0..count {
        let Ok((n, after)) = number_at(bytes, next) else {
            return (Numbers::new(code, 0, 0, 0, 0, 0), Err(next));
        };
        list[i] = n;
        next = after;
    }
    let numbers = Numbers::new(code, list[0], list[1], list[2], list[3], list[4]);
    (numbers, Ok(next))
}

// The operation at a place: the code is read and judged before its cycles and fields are read. (A recording and a place in it are what a
// C host hands over, and are handed on so.)
pub fn operation_at(bytes: &[u8], at: usize) -> Result<(Numbers, usize), Damage>
    ensures { result ≡ operation_at bytes.now at }
{
    let (code, next) = number_from(bytes, at)?;
    if LAST_CODE < code {
        return Err(Damage {
            refusal: Refusal::UnknownCode,
            at,
        });
    }
    let (numbers, end) = fields_at(bytes, next, code);
    match end {
        Ok(after) => Ok((numbers, after)),
        Err(bad) => Err(Damage {
            refusal: Refusal::MalformedNumber,
            at: bad,
        }),
    }
}

// The place after the number at a place, where there is one: what the number is is not asked. With ten bytes there, which no
// number passes, no place is tested; and the loop's number of turns is known, so that the compiler makes a test of its own of each
// byte (docs/landings/08-compare.md).
fn number_end(bytes: &[u8], at: usize) -> Option<usize>
    requires { at + 10 ≤ length bytes.now }
    ensures end { result ≡ end_of_number (number_at bytes.now at) }
    ensures near { IfSome result (λ next. next ≤ at + 10) }
{
    if bytes[at] < 128 {
        return Some(at + 1);
    }
    for k in 1..9 {
        let digit = bytes[at + k];
        if digit < 128 {
            if digit == 0 {
                return None;
            }
            return Some(at + k + 1);
        }
    }
    if bytes[at + 9] == 1 {
        return Some(at + 10);
    }
    None
}

// The place after so many numbers, where none of them is bad, with ten bytes there for each.
fn numbers_end(bytes: &[u8], at: usize, count: usize) -> Option<usize>
    requires { at + 10 * count ≤ length bytes.now }
    ensures { result ≡ end_of_several (numbers_at count bytes.now at) }
{
    let mut next = at;
    for _ in 0..count {
        next = number_end(bytes, next)?;
    }
    Some(next)
}

// The place after an operation that has sixty bytes there, as many as the longest has, where it can be read.
fn whole_end(bytes: &[u8], at: usize) -> Option<usize>
    requires { at + 60 ≤ length bytes.now }
    ensures { result ≡ end_of (operation_at bytes.now at) }
{
    let Ok((code, next)) = number_at(bytes, at) else {
        return None;
    };
    if code > LAST_CODE {
        return None;
    }
    numbers_end(bytes, next, field_count(code) as usize + 1)
}

// The place after the operation at a place, where it can be read.
fn end_at(bytes: &[u8], at: usize) -> Option<usize>
    ensures { result ≡ end_of (operation_at bytes.now at) }
{
    if bytes.len() <= at {
        return None;
    }
    if LONGEST_OPERATION <= bytes.len() - at {
        return whole_end(bytes, at);
    }
    operation_at(bytes, at).ok().map(|(_, next)| next)
}

// Passes operations, one after another from a place on, at most so many; it ends before what cannot be read, and so at the end of
// the bytes. All that passes operations calls this, and only this calls `end_at`, which is then compiled into the loop.
pub fn pass(bytes: &[u8], at: usize, most: usize) -> Passage
    ensures { result ≡ passed_from most bytes.now at }
{
    let mut place = at;
    for count in 0..most {
        let Some(next) = end_at(bytes, place) else {
            return Passage { count, at: place };
        };
        place = next;
    }
    Passage {
        count: most,
        at: place,
    }
}

// How many bytes at most six numbers have: never more than ten each.
fn numbers_length(list: &[u64]) -> usize
    requires { length list.now ≤ 6 }
    ensures { (result ≡ length (bytes_of_all list.now)) × (result ≤ 60) }
{
    let mut size = 0;
    for n in list {
        size = size + number_length(*n);
    }
    size
}

// Numbers, one after another, at a place of lent bytes that have room for them there.
fn write_numbers(out: &mut [u8], at: usize, list: &[u64])
    requires { at + length (bytes_of_all list.now) ≤ length out.old }
    ensures { out.new ≡ written out.old at (bytes_of_all list.now) }
{
    let mut place = at;
    for n in list {
        place = place + write_number(out, place, *n);
    }
}

// An operation at a place of lent bytes, and how many bytes it has there. The whole length is known before the first byte is
// written, so that a refusal writes nothing.
pub fn write_operation(out: &mut [u8], at: usize, x: Numbers) -> Answer
    ensures value { result ≡ writing_of x at out.old }
    ensures out_after { out.new ≡ written_operation x at out.old }
{
    if LAST_CODE < x.code {
        return Refusal::UnknownCode.into();
    }
    let list = [x.code, x.cycles, x.a, x.b, x.c, x.d];
    let own = &list[..field_count(x.code) as usize + 2];
    let size = numbers_length(own);
    if !has_room(out.len(), at, size) {
        return Refusal::RoomTooShort.into();
    }
    write_numbers(out, at, own);
    Answer::Value(size as u64)
}

// A recorded step's answer, the state as it leaves it, and the place where reading goes on; the room it leaves is the
// lent one.
#[derive(Clone, Copy)]
pub struct Replayed {
    pub answer: Answer,
    pub state: State,
    pub next: usize,
}

// One operation of a recording: the state is judged, the operation is read, and then it is stepped. After 7 nothing was read,
// so that the place is the one handed in.
pub fn recorded_step(s: State, room: &mut [u64], bytes: &[u8], at: usize) -> Replayed
    ensures { record { result = together result.answer result.state room.new; next = result.next } ≡ recorded_step s room.old bytes.now at }
{
    if !s.sound() {
        return refused(Refusal::NotSound, s, at);
    }
    match operation_at(bytes, at) {
        Ok((x, next)) => {
            let o = operation_of(x.code, x.a, x.b, x.c, x.d);
            let done = step(s, room, o, x.cycles);
            Replayed {
                answer: done.answer,
                state: done.state,
                next,
            }
        }
        Err(damage) => refused(damage.refusal, s, damage.at),
    }
}

// A refusal in a recording, and the place where reading goes on or the bad number starts.
fn refused(refusal: Refusal, state: State, next: usize) -> Replayed
    ensures { result ≡ record { answer = Answer.Refused (refusal_number refusal); state = state; next = next } }
{
    Replayed {
        answer: refusal.into(),
        state,
        next,
    }
}

// An operation's six numbers into lent numbers; none is written where they are too few.
pub fn store_numbers(lent: &mut [u64], x: Numbers)
    ensures { lent.new ≡ stored_numbers x lent.old }
{
    if lent.len() < 6 {
        return;
    }
    lent[0] = x.code;
    lent[1] = x.cycles;
    lent[2] = x.a;
    lent[3] = x.b;
    lent[4] = x.c;
    lent[5] = x.d;
}

// No operation is read behind this answer.
pub fn stops_reading(answer: Answer) -> bool
    ensures { result ≡ stops_reading answer }
{
    let number = answer.number();
    (number == Refusal::UnknownCode.number())
        | (number == Refusal::MalformedNumber.number())
        | (number == Refusal::NotSound.number())
}
