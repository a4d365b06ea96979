// The operations (document 01, "Operations"; document 02, Five and Six) and their refusals ("Refusal numbers, in order of checking";
// docs/MANUAL.md, "Operations" and "Refusals").
#![tactic(auto)]

ghost use Rattle.std.specs.Prelude.{◌≡◌, false, ◌||◌, not, [], ◌∷◌, eqb, ltb};
ghost use Rattle.answer.specs.Answer.{number_or_0};
ghost use Rattle.bits.specs.Bits.{one_of};
ghost use Rattle.state.specs.Named.{is_halted};
ghost use Rattle.state.specs.Sound.{unavailable};
ghost use Rattle.filter.specs.Filter.{branch_types, exception_types};
ghost use Rattle.operation.specs.Operation.{operation_of, code_of};
ghost use Rattle.operation.specs.Clause.{changed};
ghost use Rattle.operation.specs.Refusal.{unknown_code, not_reset, outside_list, wrong_halted, wrong_level, room_too_short, first_that, refusal_of};

use access::is_register;
use answer::Refusal;
use bits::pick;
use filter::{BranchType, is_exception_type};
use state::{PLATFORM_MASK, State, is_size};

// The largest code that an operation has: refusal 2, the reader and the writer of recordings go by it.
pub const LAST_CODE: u64 = 10;

// One operation and its fields, which are numbers as handed in: refusal 4 judges them. (`kind` is a type; that word is the
// language's own.)
#[derive(Clone, Copy)]
pub enum Operation {
    Reset {
        size: u64,
        v1p1: u64,
    },
    Branch {
        kind: u64,
        mispredicted: u64,
        source: u64,
        target: u64,
    },
    Exception {
        kind: u64,
        target_level: u64,
        source: u64,
        target: u64,
    },
    Return {
        target_level: u64,
        mispredicted: u64,
        source: u64,
        target: u64,
    },
    Platform {
        p: u64,
    },
    Read {
        register: u64,
    },
    Write {
        register: u64,
        value: u64,
    },
    Iall,
    Halt {
        source: u64,
    },
    Resume {
        target: u64,
        target_level: u64,
    },
    Freeze {
        group: u64,
        physical: u64,
        virtual_offset: u64,
        guest_offset: u64,
    },
    // A code above the last.
    Unknown,
}

// An operation from its code and four numbers, of which it takes its own fields.
#[tactic(auto, unfolding(crate::specs::Operation::operation_of))]
pub fn operation_of(code: u64, a: u64, b: u64, c: u64, d: u64) -> Operation
    ensures { result ≡ operation_of code a b c d }
{
    match code {
        0 => Operation::Reset { size: a, v1p1: b },
        1 => Operation::Branch {
            kind: a,
            mispredicted: b,
            source: c,
            target: d,
        },
        2 => Operation::Exception {
            kind: a,
            target_level: b,
            source: c,
            target: d,
        },
        3 => Operation::Return {
            target_level: a,
            mispredicted: b,
            source: c,
            target: d,
        },
        4 => Operation::Platform { p: a },
        5 => Operation::Read { register: a },
        6 => Operation::Write {
            register: a,
            value: b,
        },
        7 => Operation::Iall,
        8 => Operation::Halt { source: a },
        9 => Operation::Resume {
            target: a,
            target_level: b,
        },
        10 => Operation::Freeze {
            group: a,
            physical: b,
            virtual_offset: c,
            guest_offset: d,
        },
        _ => Operation::Unknown,
    }
}

// The code of an operation; of an unknown one, the first past the last.
fn code_of(o: Operation) -> u64
    ensures { result ≡ code_of o }
{
    match o {
        Operation::Reset { .. } => 0,
        Operation::Branch { .. } => 1,
        Operation::Exception { .. } => 2,
        Operation::Return { .. } => 3,
        Operation::Platform { .. } => 4,
        Operation::Read { .. } => 5,
        Operation::Write { .. } => 6,
        Operation::Iall => 7,
        Operation::Halt { .. } => 8,
        Operation::Resume { .. } => 9,
        Operation::Freeze { .. } => 10,
        Operation::Unknown => LAST_CODE + 1,
    }
}

// The first of refusals 4, 8 and 5 whose condition is met, or none: a number of the operation is outside its list; nothing runs while the
// processor is halted, and only a halted one resumes; the level does not let the operation happen.
fn first_of(outside: bool, halted: bool, level: bool) -> Option<Refusal>
    ensures { number_or_0 result ≡ first_that ((4, outside) ∷ (8, halted) ∷ (5, level) ∷ []) }
{
    let by_level = pick(level, Some(Refusal::WrongLevel), None);
    let by_halted = pick(halted, Some(Refusal::WrongHalted), by_level);
    pick(outside, Some(Refusal::OutsideList), by_halted)
}

// A branch: its type and its flag are looked at, and it needs a processor that runs.
fn judge_branch(s: State, kind: u64, mispredicted: u64) -> Option<Refusal>
    ensures { number_or_0 result ≡ first_that ((4, not (one_of branch_types kind) || ltb 1 mispredicted) ∷ (8, is_halted s) ∷ (5, false) ∷ []) }
{
    let t = BranchType { code: kind };
    first_of(!t.listed() | (1 < mispredicted), s.halted == 1, false)
}

// An exception goes neither down nor to EL0.
fn judge_exception(s: State, kind: u64, level: u64) -> Option<Refusal>
    ensures { number_or_0 result ≡ first_that ((4, not (one_of exception_types kind) || ltb 3 level) ∷ (8, is_halted s) ∷ (5, ltb level s.level || eqb level 0 || unavailable s level) ∷ []) }
{
    let listed = is_exception_type(kind);
    let unavailable = s.unavailable(level);
    first_of(
        !listed | (3 < level),
        s.halted == 1,
        (level < s.level) | (level == 0) | unavailable,
    )
}

// A return does not come from EL0 and does not go up.
fn judge_return(s: State, level: u64, mispredicted: u64) -> Option<Refusal>
    ensures { number_or_0 result ≡ first_that ((4, ltb 3 level || ltb 1 mispredicted) ∷ (8, is_halted s) ∷ (5, eqb s.level 0 || ltb s.level level || unavailable s level) ∷ []) }
{
    let unavailable = s.unavailable(level);
    first_of(
        (3 < level) | (1 < mispredicted),
        s.halted == 1,
        (s.level == 0) | (s.level < level) | unavailable,
    )
}

// The first of an operation's three, one line each.
fn judge(s: State, o: Operation) -> Option<Refusal>
    ensures { number_or_0 result ≡ first_that ((4, outside_list o) ∷ (8, wrong_halted s o) ∷ (5, wrong_level s o) ∷ []) }
{
    match o {
        Operation::Reset { size, v1p1 } => first_of(!is_size(size) | (1 < v1p1), false, false),
        Operation::Branch {
            kind,
            mispredicted,
            ..
        } => judge_branch(s, kind, mispredicted),
        Operation::Exception {
            kind,
            target_level,
            ..
        } => judge_exception(s, kind, target_level),
        Operation::Return {
            target_level,
            mispredicted,
            ..
        } => judge_return(s, target_level, mispredicted),
        Operation::Platform { p } => first_of(!(p & PLATFORM_MASK == p), false, !(s.level == 3)),
        Operation::Read { register } => first_of(!is_register(register), false, false),
        Operation::Write { register, .. } => first_of(!is_register(register), false, false),
        Operation::Iall => first_of(false, false, false),
        Operation::Halt { .. } => first_of(false, s.halted == 1, false),
        Operation::Resume { target_level, .. } => first_of(
            3 < target_level,
            !(s.halted == 1),
            s.unavailable(target_level),
        ),
        Operation::Freeze { group, .. } => first_of(1 < group, false, false),
        Operation::Unknown => first_of(false, false, false),
    }
}

// The size after the operation: a reset gives it, and nothing else changes it.
fn size_after(s: State, o: Operation) -> u64
    ensures { result ≡ (changed s o).size }
{
    match o {
        Operation::Reset { size, .. } => size,
        _ => s.size,
    }
}

// 2: no operation has the code.
#[tactic(auto, unfolding(crate::specs::Refusal::unknown_code))]
fn unknown_code(o: Operation) -> bool
    ensures { result ≡ unknown_code o }
{
    let code = code_of(o);
    LAST_CODE < code
}

// 3: there was no reset yet, and this is none.
#[tactic(auto, unfolding(crate::specs::Refusal::not_reset))]
fn not_reset(s: State, o: Operation) -> bool
    ensures { result ≡ not_reset s o }
{
    let code = code_of(o);
    (s.size == 0) & !(code == 0)
}

// 6: the lent room has too few numbers for the size after the operation. A third of it is compared, since three times a size
// could wrap.
#[tactic(auto, unfolding(crate::specs::Refusal::room_too_short))]
fn room_too_short(s: State, o: Operation, room: usize) -> bool
    ensures { result ≡ room_too_short s o room }
{
    let size = size_after(s, o);
    (room as u64) / 3 < size
}

// The table's last four lines, in its order.
fn content_refusal(s: State, o: Operation, room: usize) -> Option<Refusal>
    ensures { number_or_0 result ≡ first_that ((4, outside_list o) ∷ (8, wrong_halted s o) ∷ (5, wrong_level s o) ∷ (6, room_too_short s o room) ∷ []) }
{
    let short = pick(
        room_too_short(s, o, room),
        Some(Refusal::RoomTooShort),
        None,
    );
    judge(s, o).or(short)
}

// The first refusal whose condition holds, in the table's order, or none: the operation is accepted.
#[tactic(auto, unfolding(crate::specs::Refusal::refusal_of))]
pub fn refusal(s: State, o: Operation, room: usize) -> Option<Refusal>
    ensures { number_or_0 result ≡ refusal_of s o room }
{
    if !s.sound() {
        return Some(Refusal::NotSound);
    }
    if unknown_code(o) {
        return Some(Refusal::UnknownCode);
    }
    if not_reset(s, o) {
        return Some(Refusal::NotReset);
    }
    content_refusal(s, o, room)
}
