// Where two recordings part (document 02, "Eight"; docs/MANUAL.md, "Comparing recordings").
#![tactic(auto)]

ghost use Rattle.std.specs.Prelude.{◌≡◌, ◌-◌, ◌≤◌, true, false, length, drop};
ghost use Rattle.recording.specs.Recording.{operation_at};
ghost use Rattle.compare.specs.Compare.{unlike, differing, rest, good, bad_of, unless_bad, parting_of, rest_part};
ghost use Rattle.compare.specs.Walk.{begun, stopped_at, met, turned, moved_to, over_equal, at_once, passed_both, SameBytes, Turned, bad_of_reading, bad_from, ended};

use bits::pick;
use number::has_room;
use recording::{Damage, Numbers, operation_at, pass};

// Which recording: the first or the second; 0 is neither. (Numbers, since C's `struct brb_parting` has them.)
pub const FIRST: u64 = 1;

pub const SECOND: u64 = 2;

// The weights of what differs in two operations, as C's `struct brb_parting` has them.
pub const CODE: u64 = 1;

pub const CYCLES: u64 = 2;

pub const A: u64 = 4;

pub const B: u64 = 8;

pub const C: u64 = 16;

pub const D: u64 = 32;

// What a recording holds from a place on: which recording, the place, and how many bytes.
#[repr(C)]
#[derive(Clone, Copy)]
pub struct Rest {
    pub of: u64,
    pub at: u64,
    pub length: u64,
}

// Where two recordings part, in the numbers of `struct brb_parting`, in its order.
#[repr(C)]
#[derive(Clone, Copy)]
pub struct Parting {
    // 0; or the number of the refusal, whose it is and where: all else is then 0.
    pub number: u64,
    pub which: u64,
    pub at: u64,
    // How many operations are equal at the front.
    pub equal: u64,
    // Which one ends first.
    pub ending: u64,
    // What differs in the first unequal pair.
    pub differing: u64,
    // What the longer one holds after as many operations as the other has.
    pub rest: Rest,
}

// How far two recordings were read together.
#[derive(Clone, Copy)]
pub struct Walk {
    // The places in the first and in the second.
    pub at: usize,
    pub other: usize,
    // How many pairs were equal at the front, and what differs in the first that was not, or 0.
    pub equal: u64,
    pub differing: u64,
    // No end and no bad number was met. A field, since what `stopped`, `after` and `over` promise is a walk with it.
    pub going: bool,
}

// The walk, and how many operations of the first are next passed at once to be compared by their bytes.
#[derive(Clone, Copy)]
struct Leap {
    walk: Walk,
    most: usize,
}

// How many are passed at once at most.
const AT_ONCE: usize = 1024;

// A weight, where two numbers are unlike.
fn unlike_by(weight: u64, m: u64, n: u64) -> u64
    ensures { (result ≡ unlike weight m n) × (result ≤ weight) }
{
    if m == n { 0 } else { weight }
}

// What differs in two operations, as bits.
pub fn differing_of(x: Numbers, y: Numbers) -> u64
    ensures { result ≡ differing x y }
{
    if x.code == y.code {
        return unlike_by(CYCLES, x.cycles, y.cycles)
            + unlike_by(A, x.a, y.a)
            + unlike_by(B, x.b, y.b)
            + unlike_by(C, x.c, y.c)
            + unlike_by(D, x.d, y.d);
    }
    CODE
}

impl Walk {
    // Before the first pair.
    pub fn start() -> Walk
        ensures { result ≡ begun }
    {
        Walk {
            at: 0,
            other: 0,
            equal: 0,
            differing: 0,
            going: true,
        }
    }

    // With a pair that cannot be read.
    pub fn stopped(mut self) -> Walk
        ensures { result ≡ stopped_at self }
    {
        self.going = false;
        self
    }

    // After a pair in which this differs, and the places behind it.
    #[tactic(auto, unfolding(crate::specs::Walk::met))]
    pub fn after(self, difference: u64, next: usize, after: usize) -> Walk
        ensures { result ≡ met difference next after self }
    {
        let first = self.differing == 0;
        let more = self.equal.wrapping_add(1);
        Walk {
            at: next,
            other: after,
            equal: pick(first & (difference == 0), more, self.equal),
            differing: pick(first, difference, self.differing),
            going: true,
        }
    }

    // At other places, behind an unequal pair.
    fn moved(self, at: usize, other: usize, going: bool) -> Walk
        ensures { result ≡ moved_to at other going self }
    {
        Walk {
            at,
            other,
            going,
            ..self
        }
    }

    // Behind so many equal pairs.
    pub fn over(self, at: usize, other: usize, count: u64) -> Walk
        ensures { result ≡ over_equal at other count self }
    {
        Walk {
            at,
            other,
            equal: self.equal.wrapping_add(count),
            going: true,
            ..self
        }
    }
}

// Whether there are bytes from `at` to `next` in the one that stand from `other` on in the other too. It looks at all of them, whichever
// differ, so that the compiler takes many at once.
pub fn same_bytes(a: &[u8], at: usize, next: usize, b: &[u8], other: usize) -> bool
    ensures { (result ≡ true → SameBytes a.now at next b.now other) × (result ≡ false → SameBytes a.now at next b.now other → ⊥) }
{
    if next <= at || a.len() < next {
        return false;
    }
    let size = next - at;
    if !has_room(b.len(), other, size) {
        return false;
    }
    let mut same = true;
    for i in 0..size {
        same = same & (a[at + i] == b[other + i]);
    }
    same
}

// The pair at the walk's two places, read and compared.
fn read_pair(a: &[u8], b: &[u8], w: Walk) -> Walk
    ensures { result ≡ turned (operation_at a.now w.at) (operation_at b.now w.other) w }
{
    let Ok((x, next)) = operation_at(a, w.at) else {
        return w.stopped();
    };
    let Ok((y, after)) = operation_at(b, w.other) else {
        return w.stopped();
    };
    w.after(differing_of(x, y), next, after)
}

// Behind an unequal pair, where only the places are asked for: both are passed, as many operations of the one as of the other.
fn pass_both(a: &[u8], b: &[u8], w: Walk) -> Walk
    ensures { result ≡ passed_both at_once a.now b.now w }
{
    let first = pass(a, w.at, AT_ONCE);
    let second = pass(b, w.other, first.count);
    if second.count < first.count {
        let fewer = pass(a, w.at, second.count);
        return w.moved(fewer.at, second.at, false);
    }
    w.moved(first.at, second.at, AT_ONCE <= first.count)
}

// A turn. Numbers have one form only, so that the same bytes are the same operations: many operations of the first are passed at
// once, and their bytes compared with the second's. Where they are not the same, fewer are tried; and where there are none to try,
// the pair is read. Behind an unequal pair nothing is compared.
fn turn(a: &[u8], b: &[u8], l: Leap) -> Leap
    ensures { Turned a.now b.now l result }
{
    let w = l.walk;
    if w.differing != 0 {
        return Leap {
            walk: pass_both(a, b, w),
            ..l
        };
    }
    if l.most == 0 {
        return Leap {
            walk: read_pair(a, b, w),
            most: AT_ONCE,
        };
    }
    let p = pass(a, w.at, l.most);
    if same_bytes(a, w.at, p.at, b, w.other) {
        let other = w.other + (p.at - w.at);
        return Leap {
            walk: w.over(p.at, other, p.count as u64),
            ..l
        };
    }
    Leap {
        most: l.most / 2,
        ..l
    }
}

// What is wrong with the operation at a place that cannot be read.
fn bad_at(bytes: &[u8], at: usize) -> Option<Damage>
    ensures { result ≡ bad_of_reading (operation_at bytes.now at) }
{
    operation_at(bytes, at).err()
}

// A recording's first bad number from a place on.
fn bad_from(bytes: &[u8], place: usize) -> Option<Damage>
    ensures { result ≡ bad_from bytes.now place }
{
    let p = pass(bytes, place, bytes.len());
    if p.at < bytes.len() {
        return bad_at(bytes, p.at);
    }
    None
}

// How many bytes stand from a place on, of so many.
fn left_from(at: usize, size: usize) -> usize
    ensures { result ≡ size - at }
{
    size.saturating_sub(at)
}

fn rest_from(of: u64, at: usize, size: usize) -> Rest
    ensures { result ≡ rest of at size }
{
    Rest {
        of,
        at: at as u64,
        length: left_from(at, size) as u64,
    }
}

// A bad number of one of the two: only that is told.
pub fn bad_number(which: u64, number: u64, at: usize) -> Parting
    ensures { result ≡ bad_of which number at }
{
    Parting {
        number,
        which,
        at: at as u64,
        equal: 0,
        ending: 0,
        differing: 0,
        rest: Rest {
            of: 0,
            at: 0,
            length: 0,
        },
    }
}

fn good_parting(equal: u64, ending: u64, differing: u64, rest: Rest) -> Parting
    ensures { result ≡ good equal ending differing rest }
{
    Parting {
        number: 0,
        which: 0,
        at: 0,
        equal,
        ending,
        differing,
        rest,
    }
}

// What is answered where the walk ended and neither has a bad number, by how many bytes the two have.
pub fn parted(first: usize, second: usize, w: Walk) -> Parting
    ensures { result ≡ ended first second w }
{
    if w.other < second {
        return good_parting(
            w.equal,
            FIRST,
            w.differing,
            rest_from(SECOND, w.other, second),
        );
    }
    if w.at < first {
        return good_parting(w.equal, SECOND, w.differing, rest_from(FIRST, w.at, first));
    }
    good_parting(w.equal, 0, w.differing, rest_from(FIRST, w.at, first))
}

// What is answered where the walk ended: both are read on to their ends, for bad numbers.
fn parted_unless_bad(a: &[u8], b: &[u8], w: Walk) -> Parting
    ensures { result ≡ unless_bad (bad_from a.now w.at) (bad_from b.now w.other) (ended (length a.now) (length b.now) w) }
{
    if let Some(bad) = bad_from(a, w.at) {
        return bad_number(FIRST, bad.refusal.number(), bad.at);
    }
    if let Some(bad) = bad_from(b, w.other) {
        return bad_number(SECOND, bad.refusal.number(), bad.at);
    }
    parted(a.len(), b.len(), w)
}

// Where two recordings part.
pub fn parting_of(a: &[u8], b: &[u8]) -> Parting
    ensures { result ≡ parting_of a.now b.now }
{
    let mut l = Leap {
        walk: Walk::start(),
        most: AT_ONCE,
    };
    // The loop ends with the walk, at no count.
    while l.walk.going {
        l = turn(a, b, l);
    }
    parted_unless_bad(a, b, l.walk)
}

// A recording from a place on.
fn part_from<'a>(bytes: &'a [u8], at: usize) -> &'a [u8]
    ensures { result.now ≡ drop at bytes.now }
{
    &bytes[at.min(bytes.len())..]
}

// The rest as a part of the recording that it belongs to.
pub fn rest_part<'a>(a: &'a [u8], b: &'a [u8], rest: Rest) -> &'a [u8]
    ensures { result.now ≡ rest_part rest a.now b.now }
{
    if rest.of == SECOND {
        return part_from(b, rest.at as usize);
    }
    if rest.of == FIRST {
        return part_from(a, rest.at as usize);
    }
    part_from(a, a.len())
}

// Where two recordings part, with the rest of the longer one as a part of it.
#[derive(Clone, Copy)]
pub struct Compared<'a> {
    pub parting: Parting,
    pub rest: &'a [u8],
}

// Compares two recordings (document 01, "Forms for each place": the rest is handed back as a part of the lent recording).
pub fn compare<'a>(a: &'a [u8], b: &'a [u8]) -> Compared<'a>
    ensures { (result.parting ≡ parting_of a.now b.now) × (result.rest.now ≡ rest_part (parting_of a.now b.now).rest a.now b.now) }
{
    let parting = parting_of(a, b);
    let rest = rest_part(a, b, parting.rest);
    Compared { parting, rest }
}

// The numbers of that alone, for the C face: C has no slices, so that the numbers say which part the rest is.
pub fn compare_in_numbers<'a>(a: &'a [u8], b: &'a [u8]) -> Parting
    ensures { result ≡ parting_of a.now b.now }
{
    let compared = compare(a, b);
    compared.parting
}
