// What an accepted operation does: its clause, the running count, and what the two come to (document 01, "Operations", "Which
// events become records", "Access outcomes" and "Cycles"; document 02, One, Five and Six).
#![tactic(auto)]

ghost use Rattle.std.specs.Prelude.{◌≡◌, true, false, cond, ◌||◌};
ghost use Rattle.answer.specs.Answer.{is_done};
ghost use Rattle.state.specs.Named.{debug_state, side, at_level, in_debug_state, resumed_at};
ghost use Rattle.access.specs.Access.{write_outcome, iall_outcome, register_written, meant};
ghost use Rattle.event.specs.Event.{controlled, event_from, record_of, becomes_record};
ghost use Rattle.event.specs.Hidden.{record_by, becomes_by};
ghost use Rattle.region.specs.Region.{prohibited};
ghost use Rattle.filter.specs.Filter.{exception_return, debug_halt, debug_exit, passes_filter};
ghost use Rattle.freeze.specs.Freeze.{overflowed};
ghost use Rattle.operation.specs.Clause.{changed};
ghost use Rattle.change.specs.Change.{turned_counting_on, cleared_paused, performed_iall, passed, effect_of, answer_of, running_after, decided};

use access::{iall_outcome, meant, read_outcome, register_value, register_written, write_outcome};
use answer::Answer;
use event::{Event, becomes_record, exception_controlled, record_of, return_controlled};
use filter::BranchType;
use freeze::overflowed;
use operation::Operation;
use region::prohibited;
use room::Effect;
use state::{DEBUG_STATE, Running, State};

// The types of an exception return, of a halt and of a resume: numbers, as BRBINF's TYPE has them and as a host hands others in.
const RETURN: u64 = 7;

const DEBUG_HALT: u64 = 0x21;

const DEBUG_EXIT: u64 = 0x39;

// What the clause of an operation says: what the operation has set, and whether it is an occasion by what it did, wherever it
// began; an event, whether it is wanted and whether the side that it enters is prohibited, and what happens to the records where it
// becomes none; and the answer. An operation that is no event asks for one that is not wanted.
#[derive(Clone, Copy)]
struct Clause {
    sets: State,
    occasion: bool,
    wanted: bool,
    hides: bool,
    event: Event,
    otherwise: Effect,
    answer: Answer,
}

// All that an accepted operation comes to, before the room is written.
#[derive(Clone, Copy)]
pub struct Decided {
    pub answer: Answer,
    pub state: State,
    pub effect: Effect,
}

fn event_from(
    s: State,
    kind: u64,
    mispredicted: u64,
    entered: u64,
    source: u64,
    target: u64,
) -> Event
    ensures { result ≡ event_from s kind mispredicted entered source target }
{
    Event {
        kind,
        mispredicted,
        left: s.side(),
        entered,
        source,
        target,
    }
}

// An event is no occasion by itself, and is done.
fn event_clause(sets: State, wanted: bool, hides: bool, event: Event) -> Clause
    ensures { result ≡ record { sets = sets; occasion = false; wanted = wanted; hides = hides; event = event; otherwise = Effect.Keep; answer = Answer.Done } }
{
    Clause {
        sets,
        occasion: false,
        wanted,
        hides,
        event,
        otherwise: Effect::Keep,
        answer: Answer::Done,
    }
}

// An operation that is no event: the one that it asks for stays where the processor is, which is hidden or not.
fn plain_clause(
    s: State,
    hidden: bool,
    sets: State,
    occasion: bool,
    effect: Effect,
    answer: Answer,
) -> Clause
    ensures { result ≡ record { sets = sets; occasion = occasion; wanted = false; hides = hidden; event = event_from s 0 0 (side s) 0 0; otherwise = effect; answer = answer } }
{
    Clause {
        sets,
        occasion,
        wanted: false,
        hides: hidden,
        event: event_from(s, 0, 0, s.side(), 0, 0),
        otherwise: effect,
        answer,
    }
}

// A branch stays where it is, and the filter says whether it is wanted.
fn branch_clause(
    s: State,
    hidden: bool,
    kind: u64,
    mispredicted: u64,
    source: u64,
    target: u64,
) -> Clause
    ensures { result ≡ record { sets = s; occasion = false; wanted = passes_filter s.brbfcr (record { code = kind }); hides = hidden; event = event_from s kind mispredicted (side s) source target; otherwise = Effect.Keep; answer = Answer.Done } }
{
    let t = BranchType { code: kind };
    let wanted = t.passes_filter(s.brbfcr);
    let event = event_from(s, kind, mispredicted, s.side(), source, target);
    event_clause(s, wanted, hidden, event)
}

// An exception is controlled by the level that it enters.
fn exception_clause(s: State, kind: u64, level: u64, source: u64, target: u64) -> Clause
    ensures { result ≡ record { sets = at_level level s; occasion = false; wanted = controlled s 23 level; hides = prohibited s level; event = event_from s kind 0 level source target; otherwise = Effect.Keep; answer = Answer.Done } }
{
    let wanted = exception_controlled(s, level);
    let event = event_from(s, kind, 0, level, source, target);
    event_clause(s.at_level(level), wanted, prohibited(s, level), event)
}

// A return is controlled by the level that it leaves.
fn return_clause(s: State, level: u64, mispredicted: u64, source: u64, target: u64) -> Clause
    ensures { result ≡ record { sets = at_level level s; occasion = false; wanted = controlled s 22 s.level; hides = prohibited s level; event = event_from s exception_return mispredicted level source target; otherwise = Effect.Keep; answer = Answer.Done } }
{
    let wanted = return_controlled(s);
    let event = event_from(s, RETURN, mispredicted, level, source, target);
    event_clause(s.at_level(level), wanted, prohibited(s, level), event)
}

// A halt goes to Debug state, whatever filter and controls say.
fn halt_clause(s: State, source: u64) -> Clause
    ensures { result ≡ record { sets = in_debug_state s; occasion = false; wanted = true; hides = true; event = event_from s debug_halt 0 debug_state source 0; otherwise = Effect.Keep; answer = Answer.Done } }
{
    let event = event_from(s, DEBUG_HALT, 0, DEBUG_STATE, source, 0);
    event_clause(s.in_debug_state(), true, true, event)
}

// A resume goes from Debug state to its level, whatever filter and controls say.
fn resume_clause(s: State, target: u64, level: u64) -> Clause
    ensures { result ≡ record { sets = resumed_at level s; occasion = false; wanted = true; hides = prohibited s level; event = event_from s debug_exit 0 level 0 target; otherwise = Effect.Keep; answer = Answer.Done } }
{
    let event = event_from(s, DEBUG_EXIT, 0, level, 0, target);
    event_clause(s.resumed_at(level), true, prohibited(s, level), event)
}

// A freeze is no event and no occasion, whether or not it freezes.
fn freeze_clause(
    s: State,
    hidden: bool,
    group: u64,
    physical: u64,
    offset: u64,
    guest: u64,
) -> Clause
    ensures { result ≡ record { sets = overflowed s group physical offset guest; occasion = false; wanted = false; hides = hidden; event = event_from s 0 0 (side s) 0 0; otherwise = Effect.Keep; answer = Answer.Done } }
{
    let after = overflowed(s, group, physical, offset, guest);
    plain_clause(s, hidden, after, false, Effect::Keep, Answer::Done)
}

// What a read answers.
fn read_answer(s: State, room: &[u64], register: u64) -> Answer
    ensures { result ≡ answer_of s (Operation.Read register) room.now }
{
    let ended = read_outcome(s, register);
    if ended.is_done() {
        Answer::Value(register_value(s, room, meant(s, register)))
    } else {
        ended
    }
}

// The state after a write, performed or not.
fn written(s: State, performed: bool, r: u64, value: u64) -> State
    ensures { result ≡ cond performed (register_written s (meant s r) value) s }
{
    if performed {
        register_written(s, meant(s, r), value)
    } else {
        s
    }
}

// A write, performed or not: it may turn counting on, or clear PAUSED.
#[tactic(auto, unfolding(operation::specs::Clause::changed))]
fn write_clause(s: State, hidden: bool, r: u64, value: u64) -> Clause
    ensures { result ≡ record { sets = changed s (Operation.Write r value); occasion = turned_counting_on s (Operation.Write r value) || cleared_paused s (Operation.Write r value); wanted = false; hides = hidden; event = event_from s 0 0 (side s) 0 0; otherwise = Effect.Keep; answer = write_outcome s r } }
{
    let ended = write_outcome(s, r);
    let performed = ended.is_done();
    let after = written(s, performed, r, value);
    let counting = s.counting();
    let counts = after.counting();
    let paused = s.paused();
    let pauses = after.paused();
    plain_clause(
        s,
        hidden,
        after,
        !counting & counts | paused & !pauses,
        Effect::Keep,
        ended,
    )
}

// BRB IALL clears the records where it is performed.
fn iall_effect(performed: bool) -> Effect
    ensures { result ≡ cond performed Effect.Clear Effect.Keep }
{
    if performed {
        Effect::Clear
    } else {
        Effect::Keep
    }
}

// BRB IALL is an occasion where it is performed.
fn iall_clause(s: State, hidden: bool) -> Clause
    ensures { result ≡ record { sets = s; occasion = is_done (iall_outcome s); wanted = false; hides = hidden; event = event_from s 0 0 (side s) 0 0; otherwise = cond (is_done (iall_outcome s)) Effect.Clear Effect.Keep; answer = iall_outcome s } }
{
    let ended = iall_outcome(s);
    let performed = ended.is_done();
    plain_clause(s, hidden, s, performed, iall_effect(performed), ended)
}

// The clause of an operation, one line each, where it is known whether the side at which it begins is prohibited. (A reset is no
// occasion that anybody could see: it makes the next count unknown by itself.)
fn does(s: State, hidden: bool, room: &[u64], o: Operation) -> Clause
    requires { hidden ≡ prohibited s (side s) }
    ensures { (result.sets ≡ changed s o) × (result.occasion ≡ (turned_counting_on s o || cleared_paused s o || performed_iall s o)) × ((r : Running) → cond (becomes_record s result.wanted result.event) (Effect.Push (record_of s r result.event)) result.otherwise ≡ effect_of s o r) × (result.answer ≡ answer_of s o room.now) × (result.hides ≡ prohibited s result.event.entered) × (result.event.left ≡ side s) }
{
    match o {
        Operation::Reset { size, v1p1 } => plain_clause(
            s,
            hidden,
            State::after_reset(size, v1p1),
            s.paused(),
            Effect::ResetTo(size),
            Answer::Done,
        ),
        Operation::Branch {
            kind,
            mispredicted,
            source,
            target,
        } => branch_clause(s, hidden, kind, mispredicted, source, target),
        Operation::Exception {
            kind,
            target_level,
            source,
            target,
        } => exception_clause(s, kind, target_level, source, target),
        Operation::Return {
            target_level,
            mispredicted,
            source,
            target,
        } => return_clause(s, target_level, mispredicted, source, target),
        Operation::Platform { p } => plain_clause(
            s,
            hidden,
            s.with_platform(p),
            false,
            Effect::Keep,
            Answer::Done,
        ),
        Operation::Read { register } => plain_clause(
            s,
            hidden,
            s,
            false,
            Effect::Keep,
            read_answer(s, room, register),
        ),
        Operation::Write { register, value } => write_clause(s, hidden, register, value),
        Operation::Iall => iall_clause(s, hidden),
        Operation::Halt { source } => halt_clause(s, source),
        Operation::Resume {
            target,
            target_level,
        } => resume_clause(s, target, target_level),
        Operation::Freeze {
            group,
            physical,
            virtual_offset,
            guest_offset,
        } => freeze_clause(s, hidden, group, physical, virtual_offset, guest_offset),
        Operation::Unknown => plain_clause(s, hidden, s, false, Effect::Keep, Answer::Done),
    }
}

// What becomes of the event that a clause asks for. All events come to one call of `record_of`, so that the compiler keeps what
// it decides in registers.
fn effect_by(
    s: State,
    wanted: bool,
    source: bool,
    target: bool,
    event: Event,
    otherwise: Effect,
    r: Running,
) -> Effect
    ensures { result ≡ cond (becomes_by source target s wanted) (Effect.Push (record_by source target s r event)) otherwise }
{
    if becomes_record(s, wanted, source, target) {
        Effect::Push(record_of(s, r, event, source, target))
    } else {
        otherwise
    }
}

fn running_after(effect: Effect, r: Running) -> Running
    ensures { result ≡ running_after effect r }
{
    match effect {
        Effect::Keep => r,
        Effect::Push(_) => Running {
            count: 0,
            unknown: 0,
        },
        Effect::Clear => r,
        Effect::ResetTo(_) => Running {
            count: 0,
            unknown: 1,
        },
    }
}

// An accepted operation: whether it begins at a prohibited side, its clause, then the running count with its cycles in it, then what that makes of the records.
pub fn decide(s: State, room: &[u64], o: Operation, cycles: u64) -> Decided
    ensures { result ≡ decided s o cycles room.now }
{
    let hidden = prohibited(s, s.side());
    let clause = does(s, hidden, room, o);
    let before = s.running;
    let running = running::passed(before, hidden | clause.occasion, cycles);
    let event = clause.event;
    let otherwise = clause.otherwise;
    let effect = effect_by(
        s,
        clause.wanted,
        hidden,
        clause.hides,
        event,
        otherwise,
        running,
    );
    let after = clause.sets;
    let state = after.with_running(running_after(effect, running));
    let answer = clause.answer;
    Decided {
        answer,
        state,
        effect,
    }
}
