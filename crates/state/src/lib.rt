// The state of the model (document 01, "Operations" and refusal 7; document 02, Five to Seven; docs/MANUAL.md, "State and room").
#![tactic(auto)]

ghost use Rattle.std.specs.Prelude.{◌≡◌};
ghost use Rattle.bits.specs.Bits.{one_of};
ghost use Rattle.state.specs.Named.{EL2Enabled, el3_recording_enabled, counting, prediction_shown, side, sizes, fresh, after_reset, at_level, in_debug_state, resumed_at, frozen_at, with_platform, with_registers, with_running, with_start};
ghost use Rattle.state.specs.Named as named;
ghost use Rattle.state.specs.Sound.{unavailable, sound};
ghost use Rattle.state.specs.Words.{stored, loaded};

use bits::pick;

// P's bits by name (house layout), each as the power of two that it weighs: bit k of x is x / 2^k % 2.
const NS: u64 = 0x1;

const EEL2: u64 = 0x2;

const TGE: u64 = 0x4;

const EL3_RECORDING: u64 = 0x40;

// Bits of BRBCR_EL1 and BRBCR_EL2, and of BRBFCR_EL1.
const CC: u64 = 0x8;

const MPRED: u64 = 0x10;

const PAUSED: u64 = 0x80;

const BANK: u64 = 0x1000_0000;

// The bits that writes keep, and those that P may have.
pub const PLATFORM_MASK: u64 = 0x3F7F;

pub const CONTROL_MASK: u64 = 0xC0017B;

pub const FILTER_MASK: u64 = 0x307F0080;

// Where the running count stops.
pub const CAP: u64 = 1_048_576;

// Debug state as a side of an event; the other sides are the levels, 0 to 3. (A number: `region::prohibited` says of any number whether it is
// prohibited there.)
pub const DEBUG_STATE: u64 = 4;

// How many lent numbers hold a state.
pub const STATE_NUMBERS: usize = 12;

// The running count, and whether the next record's count is unknown.
#[derive(Clone, Copy)]
pub struct Running {
    pub count: u64,
    pub unknown: u64,
}

// All that one processor's recorder holds but its records. In lent memory these twelve numbers stand in this order.
#[derive(Clone, Copy)]
pub struct State {
    pub level: u64,
    // 0 before the first reset.
    pub size: u64,
    pub v1p1: u64,
    pub p: u64,
    // BRBCR_EL1, BRBCR_EL2 and BRBFCR_EL1.
    pub brbcr1: u64,
    pub brbcr2: u64,
    pub brbfcr: u64,
    pub running: Running,
    // 1 while the processor is in Debug state.
    pub halted: u64,
    // BRBTS_EL1: the time of the last freeze.
    pub brbts: u64,
    // The place of record 0 in the room.
    pub start: u64,
}

// The sizes that a reset can give.
pub fn is_size(size: u64) -> bool
    ensures { result ≡ one_of sizes size }
{
    (size == 64) | (size == 32) | (size == 16) | (size == 8)
}

impl State {
    pub fn el2_enabled(self) -> bool
        ensures { result ≡ EL2Enabled self }
    {
        (self.p / NS % 2 == 1) | (self.p / EEL2 % 2 == 1)
    }

    // Self-hosted EL3 branch recording is enabled.
    pub fn el3_recording_enabled(self) -> bool
        ensures { result ≡ el3_recording_enabled self }
    {
        (self.v1p1 == 1) & (self.p / EL3_RECORDING % 2 == 1)
    }

    pub fn counting(self) -> bool
        ensures { result ≡ counting self }
    {
        (self.brbcr1 / CC % 2 == 1) & (self.brbcr2 / CC % 2 == 1)
    }

    pub fn prediction_shown(self) -> bool
        ensures { result ≡ prediction_shown self }
    {
        (self.brbcr1 / MPRED % 2 == 1) & (self.brbcr2 / MPRED % 2 == 1)
    }

    pub fn paused(self) -> bool
        ensures { result ≡ named.PAUSED self }
    {
        self.brbfcr / PAUSED % 2 == 1
    }

    pub fn bank(self) -> u64
        ensures { result ≡ named.BANK self }
    {
        self.brbfcr / BANK % 4
    }

    // The side at which an operation begins: Debug state while halted, else the level.
    pub fn side(self) -> u64
        ensures { result ≡ side self }
    {
        pick(self.halted == 1, DEBUG_STATE, self.level)
    }

    // The level is not there: no sound state is at it, and no event enters it.
    #[tactic(auto, unfolding(crate::specs::Sound::unavailable))]
    pub fn unavailable(self, level: u64) -> bool
        ensures { result ≡ unavailable self level }
    {
        let enabled = self.el2_enabled();
        (level == 2) & !enabled | (level == 1) & (self.p / TGE % 2 == 1) & enabled
    }

    // Every number is in its list, the level is there, and the start is a place of the room.
    #[tactic(auto, unfolding(crate::specs::Sound::sound))]
    pub fn sound(self) -> bool
        ensures { result ≡ sound self }
    {
        let size = self.size;
        let running = self.running;
        let sized = is_size(size);
        let listed = (self.level <= 3)
            & (sized | (size == 0))
            & (self.v1p1 <= 1)
            & (self.p & PLATFORM_MASK == self.p)
            & (self.brbcr1 & CONTROL_MASK == self.brbcr1)
            & (self.brbcr2 & CONTROL_MASK == self.brbcr2)
            & (self.brbfcr & FILTER_MASK == self.brbfcr);
        let unavailable = self.unavailable(self.level);
        listed
            & !unavailable
            & (running.count <= CAP)
            & (running.unknown <= 1)
            & (self.halted <= 1)
            & ((self.start < size) | (self.start == 0))
    }
}

impl State {
    // The state before any reset: a promise under its name.
    pub fn fresh() -> State
        ensures { result ≡ fresh }
    {
        let running = Running {
            count: 0,
            unknown: 0,
        };
        State {
            level: 0,
            size: 0,
            v1p1: 0,
            p: 0,
            brbcr1: 0,
            brbcr2: 0,
            brbfcr: 0,
            running,
            halted: 0,
            brbts: 0,
            start: 0,
        }
    }

    pub fn after_reset(size: u64, v1p1: u64) -> State
        ensures { result ≡ after_reset size v1p1 }
    {
        let running = Running {
            count: 0,
            unknown: 1,
        };
        let mut s = State::fresh();
        s.level = 3;
        s.size = size;
        s.v1p1 = v1p1;
        s.running = running;
        s
    }

    pub fn at_level(mut self, level: u64) -> State
        ensures { result ≡ at_level level self }
    {
        self.level = level;
        self
    }

    // Debug state is entered; the level stays.
    pub fn in_debug_state(mut self) -> State
        ensures { result ≡ in_debug_state self }
    {
        self.halted = 1;
        self
    }

    // Debug state is left, to a level.
    pub fn resumed_at(mut self, level: u64) -> State
        ensures { result ≡ resumed_at level self }
    {
        self.level = level;
        self.halted = 0;
        self
    }

    // The records are frozen: PAUSED is set, and BRBTS_EL1 has the time.
    pub fn frozen_at(mut self, time: u64) -> State
        ensures { result ≡ frozen_at time self }
    {
        self.brbfcr = self.brbfcr | PAUSED;
        self.brbts = time;
        self
    }

    pub fn with_platform(mut self, p: u64) -> State
        ensures { result ≡ with_platform p self }
    {
        self.p = p;
        self
    }

    pub fn with_registers(mut self, brbcr1: u64, brbcr2: u64, brbfcr: u64) -> State
        ensures { result ≡ with_registers brbcr1 brbcr2 brbfcr self }
    {
        self.brbcr1 = brbcr1;
        self.brbcr2 = brbcr2;
        self.brbfcr = brbfcr;
        self
    }

    pub fn with_running(mut self, running: Running) -> State
        ensures { result ≡ with_running running self }
    {
        self.running = running;
        self
    }

    pub fn with_start(mut self, start: u64) -> State
        ensures { result ≡ with_start start self }
    {
        self.start = start;
        self
    }
}

// The sound state in lent numbers; none where there is none: whoever asks refuses with 7.
#[tactic(auto, unfolding(crate::specs::Words::loaded, crate::specs::Words::judged))]
pub fn load(words: &[u64]) -> Option<State>
    ensures { result ≡ loaded words.now }
{
    if words.len() < STATE_NUMBERS {
        return None;
    }
    let running = Running {
        count: words[7],
        unknown: words[8],
    };
    let s = State {
        level: words[0],
        size: words[1],
        v1p1: words[2],
        p: words[3],
        brbcr1: words[4],
        brbcr2: words[5],
        brbfcr: words[6],
        running,
        halted: words[9],
        brbts: words[10],
        start: words[11],
    };
    if s.sound() { Some(s) } else { None }
}

// The state into lent numbers; none is written where they are too few.
pub fn store(words: &mut [u64], s: State)
    ensures { words.new ≡ stored s words.old }
{
    if words.len() < STATE_NUMBERS {
        return;
    }
    let running = s.running;
    words[0] = s.level;
    words[1] = s.size;
    words[2] = s.v1p1;
    words[3] = s.p;
    words[4] = s.brbcr1;
    words[5] = s.brbcr2;
    words[6] = s.brbfcr;
    words[7] = running.count;
    words[8] = running.unknown;
    words[9] = s.halted;
    words[10] = s.brbts;
    words[11] = s.start;
}
