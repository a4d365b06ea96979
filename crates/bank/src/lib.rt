// The bank view (document 01, "Access outcomes", last paragraph; document 02, Seven; docs/MANUAL.md, "The bank
// view"). It borrows the room beside three numbers. What it shows is decided by `record_from`, on a plain slice; the functions that take,
// make or hold a view are thin.
#![tactic(auto)]

ghost use Rattle.std.specs.Prelude.{◌≡◌, ◌*◌, ◌%◌};
ghost use Rattle.answer.specs.Answer.{number_or_0};
ghost use Rattle.bank.specs.Bank.{bank_refusal, view_shows, part_of, bank_shows};

use answer::{Answer, Refusal};
use room::{Record, record_at};
use state::is_size;

// How many records a bank shows.
const BANKED: u64 = 32;

// The records of a room, as one bank shows them: `start` is the place of record 0, `first` the number of the bank's first record.
#[derive(Clone, Copy)]
pub struct BankView<'a> {
    pub records: &'a [u64],
    pub size: u64,
    pub start: u64,
    pub first: u64,
}

// Which of a record's three numbers a register shows.
#[derive(Clone, Copy, Debug, PartialEq, Eq)]
pub enum Part {
    // BRBINF.
    Inf,
    // BRBSRC.
    Source,
    // BRBTGT.
    Target,
}

// Record m of the bank whose first record has this number. No sum can wrap.
fn record_from(records: &[u64], size: u64, start: u64, first: u64, m: u64) -> Record
    ensures { result ≡ view_shows size start first m records.now }
{
    if BANKED <= m {
        return Record::zero();
    }
    if size <= first {
        return Record::zero();
    }
    if size - first <= m {
        return Record::zero();
    }
    record_at(records, size, start, m + first)
}

impl<'a> BankView<'a> {
    pub fn new(records: &'a [u64], size: u64, start: u64, first: u64) -> BankView<'a>
        ensures { (result.records ≡ records.entry) × (result.size ≡ size) × (result.start ≡ start) × (result.first ≡ first) }
    {
        BankView {
            records,
            size,
            start,
            first,
        }
    }

    // The record at register m, or a zero record.
    fn record(self, m: u64) -> Record
        ensures { result ≡ view_shows self.entry.size self.entry.start self.entry.first m self.entry.records.now }
    {
        record_from(self.records, self.size, self.start, self.first, m)
    }

    // BRBINF of register m, or 0. (Three thin functions, the form that document 01 names.)
    pub fn inf(self, m: u64) -> u64
        ensures { result ≡ (view_shows self.entry.size self.entry.start self.entry.first m self.entry.records.now).inf }
    {
        self.record(m).inf
    }

    // BRBSRC of register m, or 0.
    pub fn source(self, m: u64) -> u64
        ensures { result ≡ (view_shows self.entry.size self.entry.start self.entry.first m self.entry.records.now).source }
    {
        self.record(m).source
    }

    // BRBTGT of register m, or 0.
    pub fn target(self, m: u64) -> u64
        ensures { result ≡ (view_shows self.entry.size self.entry.start self.entry.first m self.entry.records.now).target }
    {
        self.record(m).target
    }

    // One of the three.
    fn number(self, part: Part, m: u64) -> u64
        ensures { result ≡ part_of part (view_shows self.entry.size self.entry.start self.entry.first m self.entry.records.now) }
    {
        match part {
            Part::Inf => self.inf(m),
            Part::Source => self.source(m),
            Part::Target => self.target(m),
        }
    }
}

// The first refusal whose condition holds, or none. The room is tested by a division, so that no size overflows.
fn refusal(room: &[u64], size: u64, start: u64, bank: u64, m: u64) -> Option<Refusal>
    ensures { number_or_0 result ≡ bank_refusal size start bank m room.now }
{
    let listed = is_size(size);
    if !listed | (3 < bank) | (31 < m) {
        return Some(Refusal::OutsideList);
    }
    if size <= start {
        return Some(Refusal::NotSound);
    }
    if room.len() / 3 < size as usize {
        return Some(Refusal::RoomTooShort);
    }
    None
}

// The number of the bank's first record. BANK has two bits: a larger number is refused, and here must only not overflow.
fn bank_first(bank: u64) -> u64
    ensures { result ≡ 32 * (bank % 4) }
{
    BANKED * (bank % 4)
}

// BRBINF, BRBSRC or BRBTGT of register m in a bank of a room, or a refusal.
pub fn bank_number(part: Part, room: &[u64], size: u64, start: u64, bank: u64, m: u64) -> Answer
    ensures { result ≡ bank_shows (part_of part) size start bank m room.now }
{
    let view = BankView::new(room, size, start, bank_first(bank));
    match refusal(room, size, start, bank, m) {
        None => Answer::Value(view.number(part, m)),
        Some(refusal) => refusal.into(),
    }
}
