// A batch: the operations of a lent run in one call (document 02, "Two"; docs/MANUAL.md, "Batches").
#![tactic(auto)]

ghost use Rattle.std.specs.Prelude.{◌≡◌, [], ◌∷◌, ◌+◌, ◌*◌, ◌≤◌, leb, length};
ghost use Rattle.number.specs.Number.{written};
ghost use Rattle.recording.specs.Recording.{operation_at};
ghost use Rattle.recording.specs.Run.{readings, place_after};
ghost use Rattle.batch.specs.Batch.{step_of_read, steps, in_numbers, batched, batch_of};

use answer::{Answer, Refusal};
use recorder::lent_step;
use recording::{operation_at, pass};
use state::load;

// Whether at most so many operations of a run are answered. Each has two bytes at least, but for a last one that cannot be
// read, so that a short run is not read for it; of another they are counted, and one that cannot be read behind them is the last.
fn at_most(bytes: &[u8], most: usize) -> bool
    ensures { result ≡ leb (length (readings bytes.now)) most }
{
    if bytes.len() - bytes.len() / 2 <= most {
        return true;
    }
    let p = pass(bytes, 0, most);
    p.count < most || bytes.len() <= p.at
}

// An answer at a place of the lent ones.
fn put(answers: &mut [u64], place: usize, answer: Answer)
    requires { place + 2 ≤ length answers.old }
    ensures { answers.new ≡ written answers.old place (in_numbers (answer ∷ [])) }
{
    answers[place] = answer.number();
    answers[place + 1] = answer.value();
}

// The operation at a place of the run, with its answer, and where the run goes on.
fn turn(
    words: &mut [u64],
    room: &mut [u64],
    bytes: &[u8],
    at: usize,
    answers: &mut [u64],
    place: usize,
) -> usize
    requires { place + 2 ≤ length answers.old }
    ensures value { result ≡ place_after bytes.now (operation_at bytes.now at) }
    ensures words_after { words.new ≡ (step_of_read (operation_at bytes.now at) words.old room.old).state }
    ensures room_after { room.new ≡ (step_of_read (operation_at bytes.now at) words.old room.old).room }
    ensures answers_after { answers.new ≡ written answers.old place (in_numbers ((step_of_read (operation_at bytes.now at) words.old room.old).answer ∷ [])) }
{
    match operation_at(bytes, at) {
        Ok((x, next)) => {
            let answer = lent_step(words, room, x.code, x.cycles, x.d, x.c, x.b, x.a);
            put(answers, place, answer);
            next
        }
        Err(damage) => {
            put(answers, place, damage.refusal.into());
            bytes.len()
        }
    }
}

// All operations of a run that the lent answers have room for, and how many they are. The state stays in the lent numbers, so
// that a batch and a single call come to the same step. The loop ends with the run, at no count; and pairs of answers handed out by
// `chunks_mut` are no form: behind such a loop a proof knows how many numbers they are, and not which.
fn step_all(words: &mut [u64], room: &mut [u64], bytes: &[u8], answers: &mut [u64]) -> usize
    requires { 2 * length (readings bytes.now) ≤ length answers.old }
    ensures value { result ≡ length (readings bytes.now) }
    ensures words_after { words.new ≡ (steps (readings bytes.now) words.old room.old).state }
    ensures room_after { room.new ≡ (steps (readings bytes.now) words.old room.old).room }
    ensures answers_after { answers.new ≡ written answers.old 0 (in_numbers (steps (readings bytes.now) words.old room.old).answer) }
{
    let mut at = 0;
    let mut place = 0;
    while at < bytes.len() {
        at = turn(words, room, bytes, at, answers, place);
        place = place + 2;
    }
    place / 2
}

// A batch: the state is judged, then whether its answers have room, and then every operation is stepped.
pub fn batch(words: &mut [u64], room: &mut [u64], bytes: &[u8], answers: &mut [u64]) -> Answer
    ensures { batched result words.new room.new answers.new ≡ batch_of words.old room.old bytes.now answers.old }
{
    let Some(_) = load(words) else {
        return Refusal::NotSound.into();
    };
    if !at_most(bytes, answers.len() / 2) {
        return Refusal::RoomTooShort.into();
    }
    let count = step_all(words, room, bytes, answers);
    Answer::Value(count as u64)
}
