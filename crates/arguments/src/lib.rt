// A program's arguments: what it is to read, and whether as numbers. Every problem is said on standard error. What the bytes
// of an argument decide is promised. What only the system tells is not, since no contract can name it: which arguments there
// are, whether a file opens, and what is written.
#![tactic(auto)]

ghost use Rattle.std.specs.Prelude.{◌≡◌, ◌≤◌, length};
ghost use Rattle.arguments.specs.Arguments.{source_of, lacks_second};

mod told;
mod words;

use message::{LONGEST_NAME, Name, NamedInput, say_unread};
use program::{Program, Reader};
use std::io;
use std::io::Read;
use told::{Next, Seen, all_arguments};
use words::complain;

// What a program is called with that takes N inputs.
#[derive(Drop)]
pub struct Called<I, const N: usize> {
    // What is open for reading: an option, or a pair of them. An input is missing where help was asked for and printed, or a
    // message says what is wrong.
    pub inputs: I,
    // `--numbers` was given.
    pub numbers: bool,
    // The places of the inputs' names among the arguments, as far as they were given.
    pub places: [Option<usize>; N],
}

// What an input's name says.
#[derive(Clone, Copy)]
enum Source {
    Standard,
    // The name is empty.
    Unnamed,
    File,
}

// What the name at a place of the arguments says; without a place there is none.
fn source_of(place: Option<usize>, name: &[u8]) -> Source
    ensures { result ≡ source_of place name.now }
{
    if place.is_none() {
        return Source::Standard;
    }
    if name == b"-".as_slice() {
        return Source::Standard;
    }
    if name.is_empty() {
        return Source::Unnamed;
    }
    Source::File
}

// The file of this name. A folder is opened as well, and tells only when it is read, if no byte is asked for too.
fn open(program: Program, name: &[u8]) -> io::Result<Reader> {
    let mut file = program.open(name)?;
    file.read(&mut [])?;
    Ok(file)
}

// The same, where what the system has against it is said.
fn open_file(program: Program, name: &[u8]) -> Option<Reader> {
    open(program, name)
        .map_err(|error| say_unread(program, name, error))
        .ok()
}

// Puts the name at a place of the arguments to the bytes' front, and answers how many bytes it has: none past them all.
pub fn name_at(program: Program, i: usize, name: &mut [u8]) -> usize
    ensures { result ≤ length name.new }
{
    program.argument(i, name).unwrap_or(0)
}

// The name at a place of the arguments, or none.
fn name_of(program: Program, place: Option<usize>) -> Name {
    let mut bytes = [0u8; LONGEST_NAME];
    let Some(i) = place else {
        return Name::new(b"");
    };
    let n = name_at(program, i, &mut bytes);
    Name::new(&bytes[..n])
}

// The input whose name stands at a place of the arguments. Where it cannot be opened, a message says why.
fn open_argument(program: Program, place: Option<usize>) -> Option<NamedInput> {
    let name = name_of(program, place);
    let reader = match source_of(place, name.text()) {
        Source::Standard => program.standard_input(),
        Source::Unnamed => {
            complain(program, b"the input's name is empty", b"");
            return None;
        }
        Source::File => open_file(program, name.text())?,
    };
    Some(NamedInput {
        program,
        reader,
        name,
    })
}

// Does what is to be done, and answers the places of what is to be read.
fn places_for<const N: usize>(
    program: Program,
    usage: &[u8],
    next: Next<N>,
) -> Option<[Option<usize>; N]> {
    match next {
        Next::Stop => None,
        Next::Usage => {
            let _ = program.write(usage);
            None
        }
        Next::Version => {
            let _ = program.write(program.name());
            let _ = program.write(b" 4.0.0\n");
            None
        }
        Next::Open(places) => Some(places),
    }
}

// The one input of a program.
fn only_input(program: Program, usage: &[u8], seen: &Seen<1>) -> Option<NamedInput> {
    let [place] = places_for(program, usage, seen.next())?;
    open_argument(program, place)
}

// Looks at the arguments and opens what the program is to read: the file that they name, or standard input where they
// name none or `-`. Where help is asked for, `usage` is printed, and where the version is, that. `numbers`: the program has the option `--numbers`.
pub fn look(program: Program, usage: &[u8], numbers: bool) -> Called<Option<NamedInput>, 1> {
    let seen = all_arguments(program, numbers);
    let inputs = only_input(program, usage, &seen);
    let places = seen.places;
    Called {
        inputs,
        numbers: seen.numbers,
        places,
    }
}

// Whether a program that would open its inputs has no second.
fn lacks_second(seen: &Seen<2>) -> bool
    ensures { result ≡ lacks_second seen.now }
{
    !seen.wrong & !seen.help & !seen.version & seen.places[1].is_none()
}

// The first of two inputs, where both are named.
fn first_input(program: Program, usage: &[u8], seen: &Seen<2>) -> Option<NamedInput> {
    if lacks_second(seen) {
        complain(program, b"two recordings have to be named", b"");
        return None;
    }
    let [place, _] = places_for(program, usage, seen.next())?;
    open_argument(program, place)
}

// The second, once the first is open. Standard input is read once, so that it is not both.
fn second_input(program: Program, first: &NamedInput, place: Option<usize>) -> Option<NamedInput> {
    let second = open_argument(program, place)?;
    if first.descriptor() == second.descriptor() {
        complain(program, b"standard input cannot be both recordings", b"");
        return None;
    }
    Some(second)
}

// The same as `look` for a program that takes two inputs, and has the option `--numbers`. The two differ only in what they open:
// one function for both would need a trait for it, or an array of N inputs, which asks its callers that it fits in memory.
pub fn look_two(
    program: Program,
    usage: &[u8],
) -> Called<(Option<NamedInput>, Option<NamedInput>), 2> {
    let seen = all_arguments(program, true);
    let first = first_input(program, usage, &seen);
    let places = seen.places;
    let second = first
        .as_ref()
        .and_then(|first| second_input(program, first, places[1]));
    Called {
        inputs: (first, second),
        numbers: seen.numbers,
        places,
    }
}
