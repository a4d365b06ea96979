// The static library for C: each function of the crate brb, under its own name, with the same clauses. include/brb.h declares them.
#![tactic(auto)]

ghost use Rattle.std.specs.Prelude.{◌≡◌};
ghost use Rattle.answer.specs.Answer.{returned};
ghost use Rattle.count.specs.Count.{encoded, decoded, spread_of};
ghost use Rattle.sum.specs.Sum.{summed};
ghost use Rattle.bank.specs.Bank.{bank_shows};
ghost use Rattle.recording.specs.Recording.{numbers, writing_of, written_operation};
ghost use Rattle.recorder.specs.Result.{together};
ghost use Rattle.brb.specs.Face.{step_result};
ghost use Rattle.batch.specs.Batch.{batched};
ghost use Rattle.compare.specs.Compare.{parting_of};
ghost use Rattle.brb.specs.Recordings.{read_into, read_result, recorded_result, batch_result};

use answer::Returned;
use brb::BrbRecorded;
use compare::Parting;
use count::Spread;

// One operation.
#[unsafe(no_mangle)]
pub extern "C" fn brb_step(
    state: &mut [u64],
    room: &mut [u64],
    code: u64,
    cycles: u64,
    a: u64,
    b: u64,
    c: u64,
    d: u64,
) -> Returned
    ensures { together result state.new room.new ≡ step_result state.old code cycles a b c d room.old }
{
    brb::brb_step(state, room, code, cycles, a, b, c, d)
}

// A read: code 5.
#[unsafe(no_mangle)]
pub extern "C" fn brb_read(
    state: &mut [u64],
    room: &mut [u64],
    cycles: u64,
    register: u64,
) -> Returned
    ensures { together result state.new room.new ≡ step_result state.old 5 cycles register 0 0 0 room.old }
{
    brb::brb_read(state, room, cycles, register)
}

// A count as BRBINF's CC field.
#[unsafe(no_mangle)]
pub extern "C" fn brb_count_encode(n: u64) -> u64
    ensures { result ≡ encoded n }
{
    brb::brb_count_encode(n)
}

// What a CC field says: both ends of the counts that have it.
#[unsafe(no_mangle)]
pub extern "C" fn brb_count_decode(cc: u64) -> Spread
    ensures { result ≡ spread_of (decoded cc) }
{
    brb::brb_count_decode(cc)
}

// The sum of a run of CC fields, both ends.
#[unsafe(no_mangle)]
pub extern "C" fn brb_count_sum(run: &[u64]) -> Spread
    ensures { result ≡ summed run.now }
{
    brb::brb_count_sum(run)
}

// BRBINF of register m, as one bank of a room shows it.
#[unsafe(no_mangle)]
pub extern "C" fn brb_bank_inf(room: &[u64], size: u64, start: u64, bank: u64, m: u64) -> Returned
    ensures { result ≡ returned (bank_shows (λ x. x.inf) size start bank m room.now) }
{
    brb::brb_bank_inf(room, size, start, bank, m)
}

// BRBSRC of register m, as one bank of a room shows it.
#[unsafe(no_mangle)]
pub extern "C" fn brb_bank_source(
    room: &[u64],
    size: u64,
    start: u64,
    bank: u64,
    m: u64,
) -> Returned
    ensures { result ≡ returned (bank_shows (λ x. x.source) size start bank m room.now) }
{
    brb::brb_bank_source(room, size, start, bank, m)
}

// BRBTGT of register m, as one bank of a room shows it.
#[unsafe(no_mangle)]
pub extern "C" fn brb_bank_target(
    room: &[u64],
    size: u64,
    start: u64,
    bank: u64,
    m: u64,
) -> Returned
    ensures { result ≡ returned (bank_shows (λ x. x.target) size start bank m room.now) }
{
    brb::brb_bank_target(room, size, start, bank, m)
}

// The operation at a place of a recording, as six lent numbers.
#[unsafe(no_mangle)]
pub extern "C" fn brb_recording_read(bytes: &[u8], at: usize, lent: &mut [u64]) -> Returned
    ensures { read_into result lent.new ≡ read_result bytes.now at lent.old }
{
    brb::brb_recording_read(bytes, at, lent)
}

// An operation at a place of lent bytes.
#[unsafe(no_mangle)]
pub extern "C" fn brb_recording_write(
    bytes: &mut [u8],
    at: usize,
    code: u64,
    cycles: u64,
    a: u64,
    b: u64,
    c: u64,
    d: u64,
) -> Returned
    ensures value { result ≡ returned (writing_of (numbers code cycles a b c d) at bytes.old) }
    ensures bytes_after { bytes.new ≡ written_operation (numbers code cycles a b c d) at bytes.old }
{
    brb::brb_recording_write(bytes, at, code, cycles, a, b, c, d)
}

// One operation of a recording. The state is loaded and judged first, so that after 7 nothing was read.
#[unsafe(no_mangle)]
pub extern "C" fn brb_step_recorded(
    state: &mut [u64],
    room: &mut [u64],
    bytes: &[u8],
    at: usize,
) -> BrbRecorded
    ensures { together result state.new room.new ≡ recorded_result state.old room.old bytes.now at }
{
    brb::brb_step_recorded(state, room, bytes, at)
}

// A run of recorded operations.
#[unsafe(no_mangle)]
pub extern "C" fn brb_batch(
    state: &mut [u64],
    room: &mut [u64],
    bytes: &[u8],
    answers: &mut [u64],
) -> Returned
    ensures { batched result state.new room.new answers.new ≡ batch_result state.old room.old bytes.now answers.old }
{
    brb::brb_batch(state, room, bytes, answers)
}

// Where two recordings part.
#[unsafe(no_mangle)]
pub extern "C" fn brb_compare<'a>(first: &'a [u8], second: &'a [u8]) -> Parting
    ensures { result ≡ parting_of first.now second.now }
{
    brb::brb_compare(first, second)
}
