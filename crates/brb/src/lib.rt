// The functions that a C host calls, on numbers and lent memory (document 01, "Forms for each place"; docs/MANUAL.md, "From C").
// include/brb.h says what each number means. Everything is decided below: this crate says what a host hands over and is answered, and
// the crate brb_c exports each of its functions to C under the same name.
#![tactic(auto)]

ghost use Rattle.std.specs.Prelude.{◌≡◌};
ghost use Rattle.answer.specs.declared.Answer.TheVariants.{Refused};
ghost use Rattle.answer.specs.Answer.{refusal_number, returned};
ghost use Rattle.count.specs.Count.{encoded, decoded, spread_of};
ghost use Rattle.sum.specs.Sum.{summed};
ghost use Rattle.bank.specs.Bank.{bank_shows};
ghost use Rattle.recording.specs.Recording.{numbers, writing_of, written_operation};
ghost use Rattle.recorder.specs.Result.{together};
ghost use Rattle.brb.specs.Face.{step_result};
ghost use Rattle.batch.specs.Batch.{batched};
ghost use Rattle.compare.specs.Compare.{parting_of};
ghost use Rattle.brb.specs.Recordings.{read_into, read_result, returned_at, recorded_result, batch_result};

use answer::{Answer, Refusal, Returned};
use bank::{Part, bank_number};
use batch::batch;
use compare::{Parting, compare_in_numbers};
use count::Spread;
use recorder::lent_step;
use recording::{Numbers, operation_at, store_numbers, write_operation};
use state::load;

// One operation.
#[tactic(auto, unfolding(crate::specs::Face::step_result))]
pub fn brb_step(
    state: &mut [u64],
    room: &mut [u64],
    code: u64,
    cycles: u64,
    a: u64,
    b: u64,
    c: u64,
    d: u64,
) -> Returned
    ensures { together result state.new room.new ≡ step_result state.old code cycles a b c d room.old }
{
    lent_step(state, room, code, cycles, d, c, b, a).into()
}

// A read: code 5.
pub fn brb_read(state: &mut [u64], room: &mut [u64], cycles: u64, register: u64) -> Returned
    ensures { together result state.new room.new ≡ step_result state.old 5 cycles register 0 0 0 room.old }
{
    brb_step(state, room, 5, cycles, register, 0, 0, 0)
}

// A count as BRBINF's CC field.
pub fn brb_count_encode(n: u64) -> u64
    ensures { result ≡ encoded n }
{
    count::encode(n)
}

// What a CC field says: both ends of the counts that have it.
pub fn brb_count_decode(cc: u64) -> Spread
    ensures { result ≡ spread_of (decoded cc) }
{
    let decoded = count::decode(cc);
    decoded.spread()
}

// The sum of a run of CC fields, both ends.
pub fn brb_count_sum(run: &[u64]) -> Spread
    ensures { result ≡ summed run.now }
{
    sum::sum(run)
}

// BRBINF of register m, as one bank of a room shows it. (Three functions, since C calls three.)
pub fn brb_bank_inf(room: &[u64], size: u64, start: u64, bank: u64, m: u64) -> Returned
    ensures { result ≡ returned (bank_shows (λ x. x.inf) size start bank m room.now) }
{
    bank_number(Part::Inf, room, size, start, bank, m).into()
}

// BRBSRC of register m, as one bank of a room shows it.
pub fn brb_bank_source(room: &[u64], size: u64, start: u64, bank: u64, m: u64) -> Returned
    ensures { result ≡ returned (bank_shows (λ x. x.source) size start bank m room.now) }
{
    bank_number(Part::Source, room, size, start, bank, m).into()
}

// BRBTGT of register m, as one bank of a room shows it.
pub fn brb_bank_target(room: &[u64], size: u64, start: u64, bank: u64, m: u64) -> Returned
    ensures { result ≡ returned (bank_shows (λ x. x.target) size start bank m room.now) }
{
    bank_number(Part::Target, room, size, start, bank, m).into()
}

// What a recorded step answers, and where reading goes on.
#[repr(C)]
#[derive(Clone, Copy)]
pub struct BrbRecorded {
    pub number: u64,
    pub value: u64,
    pub next: u64,
}

fn returned_at(answer: Answer, next: usize) -> BrbRecorded
    ensures { result ≡ returned_at answer next }
{
    BrbRecorded {
        number: answer.number(),
        value: answer.value(),
        next: next as u64,
    }
}

// A refusal, as a host is answered.
fn answered(refusal: Refusal) -> Returned
    ensures { result ≡ returned (Refused (refusal_number refusal)) }
{
    Answer::from(refusal).into()
}

// The operation at a place of a recording, as six lent numbers.
pub fn brb_recording_read(bytes: &[u8], at: usize, lent: &mut [u64]) -> Returned
    ensures { read_into result lent.new ≡ read_result bytes.now at lent.old }
{
    if lent.len() < 6 {
        return answered(Refusal::RoomTooShort);
    }
    match operation_at(bytes, at) {
        Ok((x, next)) => {
            store_numbers(lent, x);
            Answer::Value(next as u64).into()
        }
        Err(damage) => answered(damage.refusal),
    }
}

// An operation at a place of lent bytes.
pub fn brb_recording_write(
    bytes: &mut [u8],
    at: usize,
    code: u64,
    cycles: u64,
    a: u64,
    b: u64,
    c: u64,
    d: u64,
) -> Returned
    ensures value { result ≡ returned (writing_of (numbers code cycles a b c d) at bytes.old) }
    ensures bytes_after { bytes.new ≡ written_operation (numbers code cycles a b c d) at bytes.old }
{
    write_operation(bytes, at, Numbers::new(code, cycles, a, b, c, d)).into()
}

// One operation of a recording. The state is loaded and judged first, so that after 7 nothing was read.
pub fn brb_step_recorded(
    state: &mut [u64],
    room: &mut [u64],
    bytes: &[u8],
    at: usize,
) -> BrbRecorded
    ensures { together result state.new room.new ≡ recorded_result state.old room.old bytes.now at }
{
    let Some(_) = load(state) else {
        return returned_at(Refusal::NotSound.into(), at);
    };
    match operation_at(bytes, at) {
        Ok((x, next)) => {
            let answer = lent_step(state, room, x.code, x.cycles, x.d, x.c, x.b, x.a);
            returned_at(answer, next)
        }
        Err(damage) => returned_at(damage.refusal.into(), damage.at),
    }
}

// A run of recorded operations.
#[tactic(auto, unfolding(crate::specs::Recordings::batch_result))]
pub fn brb_batch(state: &mut [u64], room: &mut [u64], bytes: &[u8], answers: &mut [u64]) -> Returned
    ensures { batched result state.new room.new answers.new ≡ batch_result state.old room.old bytes.now answers.old }
{
    batch(state, room, bytes, answers).into()
}

// Where two recordings part.
pub fn brb_compare<'a>(first: &'a [u8], second: &'a [u8]) -> Parting
    ensures { result ≡ parting_of first.now second.now }
{
    compare_in_numbers(first, second)
}
