// Replays a recording (document 01, "Recordings"; docs/MANUAL.md, "Programs"): from a fresh state with room for 64 records, with
// a line for each answer that has something to show. What comes of the bytes is decided by `stream::Progress::replay_next`; here
// bytes are only brought to it and its lines taken from it, through two fixed buffers.
#![tactic(auto)]

ghost use Rattle.std.specs.Prelude.{◌≡◌, ◌≤◌};
ghost use Rattle.replay.specs.Replay.{Writes, Brings, Turned};

use arguments::look;
use buffer::{ROOM, say_unwritten};
use input::found_at;
use line::LONGEST_LINE;
use message::{LentInput, NamedInput};
use program::Program;
use stream::{End, Progress};

// A replay of an input: its room for records, the bytes that were read, the lines that wait, and where it stands.
#[derive(Drop)]
struct Replay<'a> {
    source: LentInput<'a>,
    room: [u64; 192],
    input: [u8; ROOM],
    output: [u8; 4096],
    progress: Progress,
    // What was read and what waits stands within the buffers.
    ghost within: { (progress.window.end ≤ 65536) × (progress.used ≤ 4096) },
}

impl<'a> Replay<'a> {
    fn new(source: &'a mut NamedInput) -> Replay<'a> {
        Replay {
            source: LentInput {
                program: source.program,
                reader: &mut source.reader,
                name: source.name.text(),
            },
            room: [0; 192],
            input: [0; ROOM],
            output: [0; 4096],
            progress: Progress::start(),
        }
    }

    // Brings more of the input behind the bytes that are left. What keeps it from being read is said.
    fn refill(&mut self) -> Result<(), End>
        ensures brings { Brings self.old.input self.old.progress result self.new.input self.new.progress }
        ensures rest_unchanged { (self.new.room ≡ self.old.room) × (self.new.output ≡ self.old.output) }
    {
        self.progress
            .window
            .refill(&mut self.source, &mut self.input)
            .map_err(|_| End::Done)
    }

    // Writes the lines that wait in the output.
    fn flush(&mut self) -> Result<(), End>
        ensures writes { Writes self.old.progress result self.new.progress }
        ensures rest_unchanged { (self.new.room ≡ self.old.room) × (self.new.input ≡ self.old.input) }
    {
        let used = self.progress.used;
        self.progress.used = 0;
        match self.source.program.write(&self.output[..used]) {
            Ok(()) => Ok(()),
            Err(error) => {
                say_unwritten(self.source.program, error);
                Err(End::Done)
            }
        }
    }

    // One turn: room for a line is made, then bytes for an operation are brought, then one operation is replayed. Lines go out
    // before more is read, since a read can wait for long.
    fn turn(&mut self) -> Result<(), End>
        ensures { Turned self.old.room self.old.input self.old.output self.old.progress result self.new.room self.new.input self.new.output self.new.progress }
    {
        if self.output.len() - LONGEST_LINE < self.progress.used {
            return self.flush();
        }
        if self.progress.window.needs_more() {
            if 0 < self.progress.used {
                return self.flush();
            }
            return self.refill();
        }
        self.progress
            .replay_next(&mut self.room, &self.input, &mut self.output)
    }

    // A proved loop has to end, and nothing says that an input does: no run uses up so many turns.
    fn run(&mut self) -> End {
        for _ in 0..u64::MAX {
            if let Err(end) = self.turn() {
                return end;
            }
        }
        End::Done
    }

    // Where the recording is damaged, and how.
    fn report(&self) {
        let w = self.progress.window;
        self.source.say_damage(
            w.place(),
            w.operations,
            found_at(&self.input, w.end, w.start),
        );
    }
}

// Replays what is read, and says where it is damaged.
fn replay_input(source: &mut NamedInput) {
    let mut replay = Replay::new(source);
    let end = replay.run();
    let _ = replay.flush();
    if end == End::Damaged {
        replay.report();
    }
}

fn main(rt: HostRuntime) {
    let program = Program::new(rt, b"replay");
    let Some(mut input) = look(
        program,
        b"usage: replay [FILE]\n\nReplays a recording from FILE, or from standard input where FILE is - or missing, from a fresh state with room\nfor 64 records. Prints a line for each read (16 hexadecimal digits), each access that was not performed\n(undefined, trap2, trap3) and each refusal (refused N), and nothing else. After refused 1 or refused 2, where\nthe recording is damaged, it stops, and says on standard error where.\n",
        false,
    )
    .inputs
    else {
        return;
    };
    replay_input(&mut input);
}
