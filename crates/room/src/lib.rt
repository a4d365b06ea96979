// The records, in the room that the caller lends (document 01, "Which events become records", last paragraph; document 02, Seven;
// docs/MANUAL.md, "Records" and "State and room").
#![tactic(auto)]

ghost use Rattle.std.specs.Prelude.{◌≡◌, cond, ◌+◌, ◌*◌, ◌-◌, ◌≤◌, ltb, length, get_or};
ghost use Rattle.room.specs.Room.{zero_record, records, numbered, below, written, pushed, cleared, room_after, start_after};

use bits::pick;

// One branch record: BRBINF, BRBSRC and BRBTGT.
#[derive(Clone, Copy)]
pub struct Record {
    pub inf: u64,
    pub source: u64,
    pub target: u64,
}

// (Zero is a promise under its name, which the rules on BRB IALL have.)
impl Record {
    pub fn zero() -> Record
        ensures { result ≡ zero_record }
    {
        Record {
            inf: 0,
            source: 0,
            target: 0,
        }
    }
}

// What an accepted operation does to the records.
#[derive(Clone, Copy)]
pub enum Effect {
    // Nothing.
    Keep,
    // The new record becomes number 0, and each other number grows by one.
    Push(Record),
    // Every record becomes zero: BRB IALL.
    Clear,
    // Every record of a buffer of this size becomes zero: a reset.
    ResetTo(u64),
}

// The place below the start, going round: where the next record goes.
pub fn below(size: u64, start: u64) -> u64
    ensures { result ≡ below size start }
{
    let from = pick(start == 0, size, start);
    from.saturating_sub(1)
}

// A record, at a place of the room: three numbers are written.
fn write_at(room: &mut [u64], place: usize, r: Record)
    requires { 3 * place + 3 ≤ length room.old }
    ensures { room.new ≡ written place r room.old }
{
    room[3 * place] = r.inf;
    room[3 * place + 1] = r.source;
    room[3 * place + 2] = r.target;
}

// One more record, at the place below the start. The room is tested by a division, so that no size overflows. (Size and start come one by
// one, here and below, as the state holds them: a pair would be taken out of it at each call.)
#[tactic(auto, unfolding(crate::specs::Room::pushed))]
pub fn push(room: &mut [u64], size: u64, start: u64, r: Record)
    ensures { room.new ≡ pushed size start r room.old }
{
    if size <= start {
        return;
    }
    if room.len() / 3 < size as usize {
        return;
    }
    let place = below(size, start);
    write_at(room, place as usize, r);
}

// Every record becomes zero. Numbers past the needed ones are not written.
pub fn clear(room: &mut [u64], size: u64)
    ensures { room.new ≡ cleared size room.old }
{
    let count = size as usize;
    if room.len() / 3 < count {
        return;
    }
    // A loop: with the library's `fill` a step took 42.5 ns in place of 41.4.
    for number in &mut room[..3 * count] {
        *number = 0;
    }
}

// The way by which an accepted operation writes the room: all else only decides on an effect. Its answer is the start after it.
#[tactic(auto, unfolding(crate::specs::Room::room_after, crate::specs::Room::start_after))]
pub fn apply(room: &mut [u64], size: u64, start: u64, effect: Effect) -> u64
    ensures { (room.new ≡ room_after size start effect room.old) × (result ≡ start_after size start effect) }
{
    match effect {
        Effect::Keep => start,
        Effect::Push(r) => {
            push(room, size, start, r);
            below(size, start)
        }
        Effect::Clear => {
            clear(room, size);
            0
        }
        Effect::ResetTo(n) => {
            clear(room, n);
            0
        }
    }
}

// The number at a place of the room, 0 past its end.
fn number_at(room: &[u64], place: usize) -> u64
    ensures { result ≡ get_or room.now place 0 }
{
    room.get(place).copied().unwrap_or(0)
}

// The place of record r, where the start is a place. So many records stand from the start on, and the others, going round, from
// the first place on.
fn place(size: u64, start: u64, r: u64) -> u64
    ensures { result ≡ cond (ltb r (size - start)) (start + r) (r - (size - start)) }
{
    let from_start = size.saturating_sub(start);
    if r < from_start {
        start + r
    } else {
        r - from_start
    }
}

// Record number r, or a zero record where that is not below the size. A place above the room's length is none, and three times it
// could overflow.
pub fn record_at(room: &[u64], size: u64, start: u64, r: u64) -> Record
    ensures { result ≡ numbered r (records size start room.now) }
{
    if size <= r {
        return Record::zero();
    }
    let number = place(size, start, r) as usize;
    if room.len() < number {
        return Record::zero();
    }
    let at = 3 * number;
    Record {
        inf: number_at(room, at),
        source: number_at(room, at + 1),
        target: number_at(room, at + 2),
    }
}
