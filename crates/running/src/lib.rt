// The step of the running count, which every operation's step borrows and changes (document 01, "Cycles"; docs/MANUAL.md, the
// same).
#![tactic(auto)]

ghost use Rattle.std.specs.Prelude.{◌≡◌, ◌+◌, min};
ghost use Rattle.state.specs.Sound.{cap};
ghost use Rattle.running.specs.Ran.{ran};

use bits::pick;
use state::{CAP, Running};

// The count with an operation's cycles: it stops at the cap. No sum can wrap.
fn capped(count: u64, cycles: u64) -> u64
    ensures { result ≡ min (count + cycles) cap }
{
    if CAP <= count {
        return CAP;
    }
    if CAP - count <= cycles {
        return CAP;
    }
    count + cycles
}

// What one operation makes of the running count. The functions below take a running count whole and name no part of it.
fn stepped(r: Running, occasion: bool, cycles: u64) -> Running
    ensures { result ≡ ran r occasion cycles }
{
    Running {
        count: capped(r.count, cycles),
        unknown: pick(occasion, 1, r.unknown),
    }
}

// The step of the running count, in place.
pub fn pass(r: &mut Running, occasion: bool, cycles: u64)
    ensures { r.new ≡ ran r.old occasion cycles }
{
    *r = stepped(*r, occasion, cycles);
}

// The same for whoever holds the running count by value: it is lent to the step.
pub fn passed(mut r: Running, occasion: bool, cycles: u64) -> Running
    ensures { result ≡ ran r occasion cycles }
{
    pass(&mut r, occasion, cycles);
    r
}
