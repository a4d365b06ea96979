// Where recording is prohibited (document 01; document 02, Five; docs/MANUAL.md, the same; Arm's BRBE Prohibited regions, D19.1.4).
#![tactic(auto)]

ghost use Rattle.std.specs.Prelude.{◌≡◌};
ghost use Rattle.region.specs.Region.{prohibited_by_sbrbe, prohibited};

use bits::pick;
use state::{DEBUG_STATE, State};

// Bits of P, of BRBCR_EL1 and of BRBCR_EL2, each as the power of two that it weighs.
const NS: u64 = 0x1;

const TGE: u64 = 0x4;

const SBRBE: u64 = 0x10;

const E0BRE: u64 = 0x1;

const E1BRE: u64 = 0x2;

// SBRBE prohibits every level below EL3.
fn prohibited_by_sbrbe(s: State) -> bool
    ensures { result ≡ prohibited_by_sbrbe s }
{
    (s.p / SBRBE % 4 == 0) | (s.p / SBRBE % 4 == 1) & !(s.p / NS % 2 == 1)
}

// Recording is prohibited at a side of an event: a level, or Debug state. The levels at which it is not are bits 0 to 3 of one word,
// so that what is asked of two sides is worked out once; side 4 finds none there. (What is no side counts as EL0.)
pub fn prohibited(s: State, side: u64) -> bool
    ensures { result ≡ prohibited s side }
{
    let hosted = (s.p / TGE % 2 == 1) & s.el2_enabled();
    let el0 = pick(hosted, s.brbcr2 / E0BRE % 2, s.brbcr1 / E0BRE % 2);
    let levels = el0 + s.brbcr1 / E1BRE % 2 * 2 + s.brbcr2 / E1BRE % 2 * 4;
    let below3 = pick(prohibited_by_sbrbe(s), 0, levels);
    let el3 = pick(s.el3_recording_enabled(), 8, 0);
    let place = pick(side <= DEBUG_STATE, side, 0);
    ((below3 + el3) >> place) % 2 == 0
}
