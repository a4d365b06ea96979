// Accesses to registers and BRB IALL (document 01, "Access outcomes"; document 02, Six; docs/MANUAL.md, "Access outcomes").
#![tactic(auto)]

ghost use Rattle.std.specs.Prelude.{◌≡◌, true, false};
ghost use Rattle.room.specs.Room.{records};
ghost use Rattle.access.specs.Access.{is_record_register, is_register, n_bit, trapped2, trapped3, outcome, read_outcome, read_only, write_outcome, iall_outcome, meant, shown_number, BRBIDR0, register_value, register_written};

use answer::Answer;
use bits::pick;
use room::record_at;
use state::{CONTROL_MASK, FILTER_MASK, State};

// Bits of P, each as the power of two that it weighs.
const NS: u64 = 0x1;

const E2H: u64 = 0x8;

const SBRBE: u64 = 0x10;

const FGTEN: u64 = 0x100;

const NBRBDATA: u64 = 0x200;

const NBRBCTL_READ: u64 = 0x400;

const NBRBCTL_WRITE: u64 = 0x800;

const NBRBIDR: u64 = 0x1000;

const NBRBIALL: u64 = 0x2000;

// BRBIDR0_EL1: CC says that the cycle counter has 20 bits, FORMAT is 0, and NUMREC stands lowest.
const COUNTER: u64 = 0x5000;

const NUMREC: u64 = 0x1;

// A register of a record: BRBINF, BRBSRC or BRBTGT.
fn is_record_register(r: u64) -> bool
    ensures { result ≡ is_record_register r }
{
    (32 <= r) & (r <= 127)
}

pub fn is_register(r: u64) -> bool
    ensures { result ≡ is_register r }
{
    let record = is_record_register(r);
    (r <= 4) | record
}

// The n-bit of P that an access to the register looks at.
#[tactic(auto, unfolding(crate::specs::Access::n_bit))]
fn n_bit(s: State, writing: bool, r: u64) -> bool
    ensures { result ≡ n_bit s writing r }
{
    let control = pick(
        writing,
        s.p / NBRBCTL_WRITE % 2 == 1,
        s.p / NBRBCTL_READ % 2 == 1,
    );
    let setting = pick(r == 0, s.p / NBRBIDR % 2 == 1, control);
    let record = is_record_register(r);
    pick(record | (r == 4), s.p / NBRBDATA % 2 == 1, setting)
}

#[tactic(auto, unfolding(crate::specs::Access::trapped2))]
fn trapped2(s: State, nbit: bool) -> bool
    ensures { result ≡ trapped2 s nbit }
{
    let enabled = s.el2_enabled();
    (s.level == 1) & enabled & (s.p / FGTEN % 2 == 1) & !nbit
}

fn trapped3(s: State) -> bool
    ensures { result ≡ trapped3 s }
{
    let sbrbe = s.p / SBRBE % 4;
    let ns = s.p / NS % 2 == 1;
    ((s.level == 1) | (s.level == 2)) & (!ns & !(sbrbe == 3) | ns & ((sbrbe == 0) | (sbrbe == 2)))
}

// How an access ends, done where it is performed: `undefined` says what is undefined of the access itself, and
// `nbit` is its n-bit of P.
#[tactic(auto, unfolding(crate::specs::Access::outcome))]
pub fn access_outcome(s: State, undefined: bool, nbit: bool) -> Answer
    ensures { result ≡ outcome s undefined nbit }
{
    if (s.level == 0) | undefined {
        return Answer::Undefined;
    }
    if trapped2(s, nbit) {
        return Answer::Trap2;
    }
    if trapped3(s) {
        return Answer::Trap3;
    }
    Answer::Done
}

#[tactic(auto, unfolding(crate::specs::Access::read_outcome))]
pub fn read_outcome(s: State, r: u64) -> Answer
    ensures { result ≡ read_outcome s r }
{
    let nbit = n_bit(s, false, r);
    access_outcome(s, (s.level == 1) & (r == 2), nbit)
}

// A register that cannot be written.
fn read_only(r: u64) -> bool
    ensures { result ≡ read_only r }
{
    let record = is_record_register(r);
    (r == 0) | (r == 4) | record
}

#[tactic(auto, unfolding(crate::specs::Access::write_outcome))]
pub fn write_outcome(s: State, r: u64) -> Answer
    ensures { result ≡ write_outcome s r }
{
    let nbit = n_bit(s, true, r);
    let undefined = read_only(r) | (s.level == 1) & (r == 2);
    access_outcome(s, undefined, nbit)
}

// How BRB IALL ends.
#[tactic(auto, unfolding(crate::specs::Access::iall_outcome))]
pub fn iall_outcome(s: State) -> Answer
    ensures { result ≡ iall_outcome s }
{
    access_outcome(s, false, s.p / NBRBIALL % 2 == 1)
}

// The register that an access means.
pub fn meant(s: State, r: u64) -> u64
    ensures { result ≡ meant s r }
{
    pick((s.level == 2) & (s.p / E2H % 2 == 1) & (r == 1), 2, r)
}

// The number that a register of a record shows: BRBINF, BRBSRC or BRBTGT.
#[tactic(auto, unfolding(crate::specs::Access::shown_record, crate::specs::Access::shown_number))]
fn shown_number(s: State, room: &[u64], r: u64) -> u64
    ensures { result ≡ shown_number s (records s.size s.start room.now) r }
{
    let shown = record_at(room, s.size, s.start, r % 32 + 32 * s.bank());
    let after1 = pick(r / 32 == 2, shown.source, shown.target);
    pick(r / 32 == 1, shown.inf, after1)
}

fn brbidr0(s: State) -> u64
    ensures { result ≡ BRBIDR0 s }
{
    COUNTER + s.size % 256 * NUMREC
}

// What a performed read of a register shows.
#[tactic(auto, unfolding(crate::specs::Access::register_value))]
pub fn register_value(s: State, room: &[u64], r: u64) -> u64
    ensures { result ≡ register_value s (records s.size s.start room.now) r }
{
    let shown = shown_number(s, room, r);
    let after3 = pick(r == 4, s.brbts, shown);
    let after2 = pick(r == 3, s.brbfcr, after3);
    let after1 = pick(r == 2, s.brbcr2, after2);
    let after0 = pick(r == 1, s.brbcr1, after1);
    pick(r == 0, brbidr0(s), after0)
}

// A performed write keeps only the register's bits.
#[tactic(auto, unfolding(crate::specs::Access::register_written))]
pub fn register_written(s: State, r: u64, value: u64) -> State
    ensures { result ≡ register_written s r value }
{
    let control = value & CONTROL_MASK;
    let brbcr1 = pick(r == 1, control, s.brbcr1);
    let brbcr2 = pick(r == 2, control, s.brbcr2);
    let brbfcr = pick(r == 3, value & FILTER_MASK, s.brbfcr);
    s.with_registers(brbcr1, brbcr2, brbfcr)
}
