// A replay whose input comes in pieces, through two lent buffers: where it stands, and one operation of it. What is read and
// written is the program's; what comes of it is decided here.
#![tactic(auto)]

ghost use Rattle.std.specs.Prelude.{◌≡◌};
ghost use Rattle.stream.specs.Stream.{start, standing, operated, next};

use input::Window;
use line::replay_one;
use state::State;

// Where the replay stands: the window over the bytes of the input that were read and are not yet replayed, whose operations are
// those that were replayed; and the first `used` bytes of the output's buffer hold lines that are not yet written.
#[derive(Clone, Copy)]
pub struct Progress {
    pub state: State,
    pub window: Window,
    // A place beside a lent buffer: the theorem `line_behind` speaks of both.
    pub used: usize,
}

// Why a replay does not go on.
#[derive(Clone, Copy, Debug, PartialEq, Eq)]
pub enum End {
    // Nothing is left to do.
    Done,
    // Reading stopped at a number that is malformed or missing, or at an unknown code, which stands where the window starts.
    Damaged,
}

impl Progress {
    // Before the first byte.
    pub fn start() -> Progress
        ensures { result ≡ start }
    {
        Progress {
            state: State::fresh(),
            window: Window::begin(),
            used: 0,
        }
    }

    // The operation at the front of these bytes, with its line behind those that wait.
    #[tactic(auto, unfolding(crate::specs::Stream::operated))]
    fn operate(&mut self, room: &mut [u64], bytes: &[u8], output: &mut [u8]) -> Result<(), End>
        ensures { standing result self.new room.new output.new ≡ operated room.old bytes.now output.old self.old }
    {
        let t = replay_one(
            self.state,
            room,
            bytes,
            self.window.start,
            output,
            self.used,
        );
        self.state = t.state;
        self.used = t.used;
        self.window = self.window.passed(t.next, 1);
        if t.stops { Err(End::Damaged) } else { Ok(()) }
    }

    // The operation at the front of the unread bytes. Where there is none the replay stops, and nothing is changed.
    #[tactic(auto, unfolding(crate::specs::Stream::next))]
    pub fn replay_next(
        &mut self,
        room: &mut [u64],
        input: &[u8],
        output: &mut [u8],
    ) -> Result<(), End>
        ensures { standing result self.new room.new output.new ≡ next room.old input.now output.old self.old }
    {
        let end = self.window.end;
        if end <= self.window.start || input.len() < end {
            return Err(End::Done);
        }
        self.operate(room, &input[..end], output)
    }
}
