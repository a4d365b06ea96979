// Where two recordings part, on standard output. What is read and written is the system's, and no contract can say it: so what
// reads, writes or loops here promises nothing but that it ends.
#![tactic(auto)]

ghost use Rattle.std.specs.Prelude.{◌≡◌, true, take, ◌≢◌};
ghost use Rattle.recording.specs.Recording.{operation_at};
ghost use Rattle.recording.specs.Run.{passed_from};
ghost use Rattle.compare_main.specs.Pair.{met_at, ended_at, pair_at, moved_pair, Moved, more_of, told_of};
ghost use Rattle.compare.specs.Walk.{SameBytes};

use answer::Refusal;
use arguments::{Called, look_two};
use bits::pick;
use buffer::{Output, ROOM, within};
use compare::{FIRST, SECOND, Walk, bad_number, differing_of, parted, same_bytes};
use comparison::{Told, put_told};
use input::{AT_ONCE, Stop, Window, found_at, passage_at, reading_at};
use message::{LentInput, NamedInput};
use program::Program;
use recording::{Damage, Numbers, Passage};

// Two inputs that are read together: what of each is in its buffer, how far the walk along both is, and the pair that is kept.
#[derive(Clone, Copy)]
struct Pair {
    first: Window,
    second: Window,
    walk: Walk,
    x: Numbers,
    y: Numbers,
}

impl Pair {
    // Before the first.
    fn begin() -> Pair {
        let none = Numbers::new(0, 0, 0, 0, 0, 0);
        Pair {
            first: Window::begin(),
            second: Window::begin(),
            walk: Walk::start(),
            x: none,
            y: none,
        }
    }

    // After a pair that was read.
    fn met(self, x: Numbers, next: usize, y: Numbers, after: usize) -> Pair
        ensures { result ≡ met_at x next y after self }
    {
        let first = self.first.passed(next, 1);
        let second = self.second.passed(after, 1);
        let equal = self.walk.differing == 0;
        Pair {
            first,
            second,
            walk: self.walk.after(
                differing_of(x, y),
                first.place() as usize,
                second.place() as usize,
            ),
            x: pick(equal, x, self.x),
            y: pick(equal, y, self.y),
        }
    }

    // The walk ends.
    fn ended(self) -> Pair
        ensures { result ≡ ended_at self }
    {
        Pair {
            walk: self.walk.stopped(),
            ..self
        }
    }

    // Behind so many operations of both, of which so many are equal pairs.
    fn moved(self, next: usize, after: usize, count: u64, equal: u64) -> Pair
        ensures { result ≡ moved_pair next after count equal self }
    {
        let first = self.first.passed(next, count);
        let second = self.second.passed(after, count);
        Pair {
            first,
            second,
            walk: self
                .walk
                .over(first.place() as usize, second.place() as usize, equal),
            ..self
        }
    }

    // What is told of two recordings that were read to their ends.
    fn told(self, first: Window, second: Window) -> Told
        ensures { result ≡ told_of first second self }
    {
        let parting = parted(first.place() as usize, second.place() as usize, self.walk);
        let longer = pick(parting.ending == FIRST, second.operations, first.operations);
        Told {
            parting,
            x: self.x,
            y: self.y,
            left: more(longer, self.first.operations),
        }
    }
}

// How many more of two counts the one has, modulo 2^64, as both are counted.
fn more(count: u64, than: u64) -> u64
    ensures { result ≡ more_of count than }
{
    count.wrapping_sub(than)
}

// One of the two inputs, the first or the second, through its buffer: there may be more to read of it, or why there is not.
#[derive(Drop)]
struct Side<'a> {
    which: u64,
    input: LentInput<'a>,
    bytes: [u8; ROOM],
    standing: Result<(), Stop>,
}

impl<'a> Side<'a> {
    fn new(which: u64, input: &'a mut NamedInput) -> Side<'a> {
        Side {
            which,
            input: LentInput {
                program: input.program,
                reader: &mut input.reader,
                name: input.name.text(),
            },
            bytes: [0; ROOM],
            standing: Ok(()),
        }
    }

    // The bytes that are there.
    fn there(&self, w: Window) -> &[u8]
        ensures { result.now ≡ take w.end self.now.bytes }
    {
        let n = within(w.end, &self.bytes);
        &self.bytes[..n]
    }

    // The operation that stands next.
    fn reading(&self, w: Window) -> Result<(Numbers, usize), Damage>
        ensures { result ≡ operation_at (take w.end self.now.bytes) w.start }
    {
        reading_at(&self.bytes, w.end, w.start)
    }

    // Operations from there on, at most so many, passed.
    fn passage(&self, w: Window, most: usize) -> Passage
        ensures { result ≡ passed_from most (take w.end self.now.bytes) w.start }
    {
        passage_at(&self.bytes, w.end, w.start, most)
    }

    // Reads once.
    fn refill(&mut self, w: &mut Window) -> Result<(), Stop> {
        self.standing = w.refill(&mut self.input, &mut self.bytes);
        self.standing
    }

    // Reads on to its end, or to its first bad number. A proved loop has to end, and nothing says that an input does: no run uses
    // up so many turns.
    fn read_on(&mut self, w: &mut Window) -> Stop {
        for _ in 0..u64::MAX {
            if let Err(stop) = self.standing {
                return stop;
            }
            self.standing = w.turn(&mut self.input, &mut self.bytes);
        }
        Stop::Ended
    }

    // The same, with the window there; none where it cannot be read so far, which is told. What the system could not read was said
    // before.
    fn read_to_end(&mut self, numbers: bool, mut w: Window) -> Option<Window> {
        match self.read_on(&mut w) {
            Stop::Ended => Some(w),
            Stop::Damaged(refusal) => {
                self.tell_bad(numbers, refusal, w);
                None
            }
            Stop::Failed => None,
        }
    }

    // A recording cannot be read on: what is wrong is said, and with `--numbers` the numbers too.
    fn tell_bad(&self, numbers: bool, refusal: Refusal, w: Window) {
        if numbers {
            let none = Numbers::new(0, 0, 0, 0, 0, 0);
            tell(
                self.input.program,
                true,
                Told {
                    parting: bad_number(self.which, refusal.number(), w.place() as usize),
                    x: none,
                    y: none,
                    left: 0,
                },
            );
        }
        self.input.say_damage(
            w.place(),
            w.operations.wrapping_add(1),
            found_at(&self.bytes, w.end, w.start),
        );
    }
}

// What is told goes out.
fn tell(program: Program, numbers: bool, t: Told) {
    let mut out = Output::new();
    put_told(&mut out, numbers, t);
    out.flush(program);
}

// The comparison of two inputs, and whether it is told in numbers.
#[derive(Drop)]
struct Comparison<'a> {
    numbers: bool,
    first: Side<'a>,
    second: Side<'a>,
    pair: Pair,
}

impl<'a> Comparison<'a> {
    // After the pair that stands next in both.
    fn next_pair(&self) -> Pair
        ensures { result ≡ pair_at (operation_at (take self.now.pair.first.end self.now.first.bytes) self.now.pair.first.start) (operation_at (take self.now.pair.second.end self.now.second.bytes) self.now.pair.second.start) self.now.pair }
    {
        let p = self.pair;
        let Ok((x, next)) = self.first.reading(p.first) else {
            return p.ended();
        };
        let Ok((y, after)) = self.second.reading(p.second) else {
            return p.ended();
        };
        p.met(x, next, y, after)
    }

    // Whether the bytes of the first up to `next` stand in the second too, where both are there.
    fn same_to(&self, next: usize) -> bool
        ensures { result ≡ true → SameBytes (take self.now.pair.first.end self.now.first.bytes) self.now.pair.first.start next (take self.now.pair.second.end self.now.second.bytes) self.now.pair.second.start }
    {
        let first = self.pair.first;
        let second = self.pair.second;
        let bytes = self.first.there(first);
        let others = self.second.there(second);
        same_bytes(bytes, first.start, next, others, second.start)
    }

    // Many pairs at once where no pair was unequal yet: operations whose bytes stand in both. Else the pair that stands next.
    fn leap(&self) -> Pair
        requires { self.now.pair.walk.differing ≡ 0 }
        ensures { Moved (take self.now.pair.first.end self.now.first.bytes) (take self.now.pair.second.end self.now.second.bytes) self.now.pair result }
    {
        let p = self.pair;
        let q = self.first.passage(p.first, AT_ONCE);
        if self.same_to(q.at) {
            let after = p.second.start + (q.at - p.first.start);
            return p.moved(q.at, after, q.count as u64, q.count as u64);
        }
        self.next_pair()
    }

    // Many behind an unequal pair: as many operations of the first as of the second. Else the pair that stands next.
    fn pass(&self) -> Pair
        requires { self.now.pair.walk.differing ≢ 0 }
        ensures { Moved (take self.now.pair.first.end self.now.first.bytes) (take self.now.pair.second.end self.now.second.bytes) self.now.pair result }
    {
        let p = self.pair;
        let q = self.first.passage(p.first, AT_ONCE);
        let s = self.second.passage(p.second, q.count);
        if s.count == 0 {
            return self.next_pair();
        }
        if s.count < q.count {
            let fewer = self.first.passage(p.first, s.count);
            return p.moved(fewer.at, s.at, s.count as u64, 0);
        }
        p.moved(q.at, s.at, s.count as u64, 0)
    }

    // After pairs, as many as can be had at once.
    fn next_pairs(&self) -> Pair
        ensures { Moved (take self.now.pair.first.end self.now.first.bytes) (take self.now.pair.second.end self.now.second.bytes) self.now.pair result }
    {
        if self.pair.walk.differing == 0 {
            return self.leap();
        }
        self.pass()
    }

    // Compares pairs, or reads once where too little is there to be sure of a whole operation.
    fn turn(&mut self) -> Result<(), Stop> {
        if self.pair.first.needs_more() {
            return self.first.refill(&mut self.pair.first);
        }
        if self.pair.second.needs_more() {
            return self.second.refill(&mut self.pair.second);
        }
        self.pair = self.next_pairs();
        if self.pair.walk.going {
            Ok(())
        } else {
            Err(Stop::Ended)
        }
    }

    // Along both, as far as pairs can be read. The loop is bounded as an input's is.
    fn walk(&mut self) {
        for _ in 0..u64::MAX {
            if self.turn().is_err() {
                return;
            }
        }
    }

    // Both are read to their ends before anything is told, since a bad number anywhere in either is all that is then told, the
    // first's before the second's.
    fn run(&mut self) -> Option<Told> {
        self.walk();
        let p = self.pair;
        let first = self.first.read_to_end(self.numbers, p.first)?;
        let second = self.second.read_to_end(self.numbers, p.second)?;
        Some(p.told(first, second))
    }
}

// Compares the two inputs, and tells where they part.
fn compare_inputs(program: Program, one: &mut NamedInput, two: &mut NamedInput, numbers: bool) {
    let mut comparison = Comparison {
        numbers,
        first: Side::new(FIRST, one),
        second: Side::new(SECOND, two),
        pair: Pair::begin(),
    };
    if let Some(told) = comparison.run() {
        tell(program, numbers, told);
    }
}

fn main(rt: HostRuntime) {
    let program = Program::new(rt, b"compare");
    let usage =
        b"usage: compare [--numbers] A B\n\nTells where the recordings A and B part. One of them may be -, standard input.\n\n  --numbers   one line for a script: the nine numbers of struct brb_parting\n  --help, -h  this text\n  --version   the version\n  --          what comes behind it is no option\n\nHow many operations are equal at the front; the first pair that is not, as list shows it, A's and then B's, with\nthe names of what differs; and which recording ends first, with what is left of the other. A recording that\ncannot be read on is said on standard error, with the byte where its bad number starts, counted from 0.\n\nRun as brb compare, the status is 0 where they are equal, 1 where they differ, and 2 where something was wrong.\n";
    let Called {
        inputs,
        numbers,
        ..
    } = look_two(program, usage);
    let (first, second) = inputs;
    let Some(mut one) = first else {
        return;
    };
    let Some(mut two) = second else {
        return;
    };
    compare_inputs(program, &mut one, &mut two, numbers);
}
