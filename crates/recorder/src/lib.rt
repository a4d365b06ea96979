// The step: one operation on a state and a lent room (document 01, whole; docs/MANUAL.md, "Operations").
#![tactic(auto)]

ghost use Rattle.std.specs.Prelude.{◌≡◌};
ghost use Rattle.operation.specs.Operation.{operation_of};
ghost use Rattle.recorder.specs.Step.{accepted, step_of};
ghost use Rattle.recorder.specs.Result.{together};
ghost use Rattle.recorder.specs.Lent.{lent_step};

use answer::{Answer, Refusal};
use change::decide;
use operation::{Operation, operation_of, refusal};
use room::apply;
use state::{State, load, store};

// A step's answer, and the state as it leaves it; the room it leaves is the lent one.
#[derive(Clone, Copy)]
pub struct Stepped {
    pub answer: Answer,
    pub state: State,
}

// An accepted operation: all is decided first, and then the room is written.
fn accept(s: State, room: &mut [u64], o: Operation, cycles: u64) -> Stepped
    ensures { together result.answer result.state room.new ≡ accepted s o cycles room.old }
{
    let all = decide(s, &room[..], o, cycles);
    let answer = all.answer;
    let decided = all.state;
    let effect = all.effect;
    let start = apply(room, s.size, s.start, effect);
    let state = decided.with_start(start);
    Stepped { answer, state }
}

// One operation, in any state, with any lent room: refused, and then nothing is changed, or accepted.
#[tactic(auto, using(answer::proofs::Laws::not_0), unfolding(crate::specs::Step::step_of))]
pub fn step(s: State, room: &mut [u64], o: Operation, cycles: u64) -> Stepped
    ensures { together result.answer result.state room.new ≡ step_of s o cycles room.old }
{
    match refusal(s, o, room.len()) {
        None => accept(s, room, o, cycles),
        Some(refusal) => Stepped {
            answer: refusal.into(),
            state: s,
        },
    }
}

// The same on a state that is lent as numbers, of an operation in numbers: the state is loaded and judged first, and stored where the
// step left it. The operation is made here, so that its numbers come in registers or one by one.
#[tactic(auto, unfolding(crate::specs::Lent::lent_step))]
pub fn lent_step(
    words: &mut [u64],
    room: &mut [u64],
    code: u64,
    cycles: u64,
    d: u64,
    c: u64,
    b: u64,
    a: u64,
) -> Answer
    ensures { together result words.new room.new ≡ lent_step words.old (operation_of code a b c d) cycles room.old }
{
    let o = operation_of(code, a, b, c, d);
    let Some(s) = load(words) else {
        return Refusal::NotSound.into();
    };
    let stepped = step(s, room, o, cycles);
    store(words, stepped.state);
    stepped.answer
}
