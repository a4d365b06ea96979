// Freezes on a counter's overflow, and their time (document 02, Six; docs/MANUAL.md, "Freezes").
#![tactic(auto)]

ghost use Rattle.std.specs.Prelude.{◌≡◌};
ghost use Rattle.freeze.specs.Freeze.{freezes, difference, time, overflowed};
ghost use Rattle.freeze.specs.Freeze as freeze;

use bits::pick;
use region::prohibited;
use state::State;

// Bits of BRBCR_EL1 and BRBCR_EL2, each as the power of two that its lowest weighs.
const FZP: u64 = 0x100;

const TS: u64 = 0x20;

// What TS can choose: the field's own numbers, as the register holds them.
const VIRTUAL: u64 = 1;

const GUEST: u64 = 2;

const PHYSICAL: u64 = 3;

// The control of a counter's group.
fn controlled(s: State, group: u64) -> bool
    ensures { result ≡ freeze.FZP s group }
{
    pick(group == 0, s.brbcr1 / FZP % 2 == 1, s.brbcr2 / FZP % 2 == 1)
}

// An overflow of a counter of the group freezes.
#[tactic(auto, unfolding(crate::specs::Freeze::freezes))]
fn freezes(s: State, group: u64) -> bool
    ensures { result ≡ freezes s group }
{
    let wanted = controlled(s, group);
    let hidden = prohibited(s, s.side());
    let paused = s.paused();
    wanted & !hidden & !paused
}

// Which time is kept: BRBCR_EL2 chooses, or BRBCR_EL1 where it does not.
fn ts(s: State) -> u64
    ensures { result ≡ freeze.TS s }
{
    let el2 = s.brbcr2 / TS % 4;
    pick(el2 == 0, s.brbcr1 / TS % 4, el2)
}

// A count less an offset, modulo 2^64.
fn difference(count: u64, offset: u64) -> u64
    ensures { result ≡ difference count offset }
{
    count.wrapping_sub(offset)
}

// The time of a freeze. `offset` is the virtual offset, whose word is the language's own, and `guest` the guest offset.
#[tactic(auto, unfolding(crate::specs::Freeze::time))]
fn time(s: State, physical: u64, offset: u64, guest: u64) -> u64
    ensures { result ≡ time s physical offset guest }
{
    let chosen = ts(s);
    let at3 = pick(chosen == PHYSICAL, physical, 0);
    let at2 = pick(chosen == GUEST, difference(physical, guest), at3);
    pick(chosen == VIRTUAL, difference(physical, offset), at2)
}

// The state after an overflow of a counter of the group, frozen or not.
#[tactic(auto, unfolding(crate::specs::Freeze::overflowed))]
pub fn overflowed(s: State, group: u64, physical: u64, offset: u64, guest: u64) -> State
    ensures { result ≡ overflowed s group physical offset guest }
{
    if freezes(s, group) {
        s.frozen_at(time(s, physical, offset, guest))
    } else {
        s
    }
}
