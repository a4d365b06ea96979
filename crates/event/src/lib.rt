// What becomes of an event (document 01, "Which events become records"; document 02, Five; docs/MANUAL.md, "Exceptions and returns" and "Records";
// Arm D19.1.1 to D19.1.6).
#![tactic(auto)]

ghost use Rattle.std.specs.Prelude.{◌≡◌, cond, eqb};
ghost use Rattle.state.specs.Named.{el3_recording_enabled};
ghost use Rattle.event.specs.Event.{controlled, count_unknown, packed};
ghost use Rattle.event.specs.Hidden.{valid_by, MPREDBy, BRBINFBy, record_by, becomes_by};

use bits::pick;
use count::encode;
use room::Record;
use state::{Running, State};

// Bits of BRBCR_EL1 and of BRBCR_EL2, each as the power of two that it weighs.
const EXCEPTION: u64 = 0x80_0000;

const ERTN: u64 = 0x40_0000;

// Where BRBINF's fields begin, each as the power of two that its lowest bit weighs.
const CCU: u64 = 0x4000_0000_0000;

const CC: u64 = 0x1_0000_0000;

const TYPE: u64 = 0x100;

const LEVEL: u64 = 0x40;

const MISPREDICTED: u64 = 0x20;

const VALIDITY: u64 = 0x1;

// A taken branch, an exception, an exception return, a halt or a resume.
#[derive(Clone, Copy)]
pub struct Event {
    // The type; that word is the language's own.
    pub kind: u64,
    pub mispredicted: u64,
    // The side at which the event starts, and the side to which it goes: a level, or Debug state.
    pub left: u64,
    pub entered: u64,
    pub source: u64,
    pub target: u64,
}

// The control at a level, where `in1` and `in2` are its bits in BRBCR_EL1 and BRBCR_EL2.
fn by_level(s: State, level: u64, in1: bool, in2: bool) -> bool
    ensures { result ≡ cond (eqb level 3) (el3_recording_enabled s) (cond (eqb level 2) in2 in1) }
{
    let el3 = s.el3_recording_enabled();
    let below3 = pick(level == 2, in2, in1);
    pick(level == 3, el3, below3)
}

// An exception to this level is recorded: the level that it enters controls it. (One call each, here and below, of two rules of Arm's.)
#[tactic(auto, unfolding(crate::specs::Event::controlled))]
pub fn exception_controlled(s: State, level: u64) -> bool
    ensures { result ≡ controlled s 23 level }
{
    by_level(
        s,
        level,
        s.brbcr1 / EXCEPTION % 2 == 1,
        s.brbcr2 / EXCEPTION % 2 == 1,
    )
}

// An exception return is recorded: the level that it leaves controls it.
#[tactic(auto, unfolding(crate::specs::Event::controlled))]
pub fn return_controlled(s: State) -> bool
    ensures { result ≡ controlled s 22 s.level }
{
    by_level(
        s,
        s.level,
        s.brbcr1 / ERTN % 2 == 1,
        s.brbcr2 / ERTN % 2 == 1,
    )
}

// VALID: half-target 1, half-source 2, full 3, and 0 where both sides are prohibited.
fn valid(source: bool, target: bool) -> u64
    ensures { result ≡ valid_by source target }
{
    let hidden = pick(target, 0, 1);
    let shown = pick(target, 2, 3);
    pick(source, hidden, shown)
}

#[tactic(auto, unfolding(crate::specs::Event::count_unknown))]
fn count_unknown(s: State, r: Running) -> bool
    ensures { result ≡ count_unknown s r }
{
    let counting = s.counting();
    (r.unknown == 1) | !counting
}

fn mpred(s: State, e: Event, source: bool) -> u64
    ensures { result ≡ MPREDBy source s e }
{
    let shown = s.prediction_shown();
    let flag = pick(shown, e.mispredicted, 0);
    pick(source, 0, flag)
}

// BRBINF's fields in their places.
fn packed(ccu: u64, cc: u64, kind: u64, level: u64, mpred: u64, valid: u64) -> u64
    ensures { result ≡ packed ccu cc kind level mpred valid }
{
    ccu % 2 * CCU
        + cc % 16384 * CC
        + kind % 64 * TYPE
        + level % 4 * LEVEL
        + mpred % 2 * MISPREDICTED
        + valid % 4 * VALIDITY
}

// BRBINF of an event that takes the running count as it is with the event's cycles in it.
fn brbinf(s: State, r: Running, e: Event, source: bool, target: bool) -> u64
    ensures { result ≡ BRBINFBy source target s r e }
{
    let unknown = count_unknown(s, r);
    let ccu = pick(unknown, 1, 0);
    let cc = pick(unknown, 0, encode(r.count));
    let level = pick(target, 0, e.entered);
    let mispredicted = mpred(s, e, source);
    let valid = valid(source, target);
    packed(ccu, cc, e.kind, level, mispredicted, valid)
}

// The record of an event: 0 stands for the address of a prohibited side. `source` and `target` say which sides are.
#[tactic(auto, unfolding(crate::specs::Hidden::record_by))]
pub fn record_of(s: State, r: Running, e: Event, source: bool, target: bool) -> Record
    ensures { result ≡ record_by source target s r e }
{
    Record {
        inf: brbinf(s, r, e, source, target),
        source: pick(source, 0, e.source),
        target: pick(target, 0, e.target),
    }
}

// An event with these prohibited sides becomes a record, where `wanted` is what its filter or control says.
#[tactic(auto, unfolding(crate::specs::Hidden::becomes_by))]
pub fn becomes_record(s: State, wanted: bool, source: bool, target: bool) -> bool
    ensures { result ≡ becomes_by source target s wanted }
{
    let paused = s.paused();
    let valid = valid(source, target);
    wanted & !paused & !(valid == 0)
}
