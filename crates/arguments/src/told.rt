// What the arguments tell a program, one after another.
ghost use Rattle.std.specs.Prelude.{◌≡◌, is_none, position};
ghost use Rattle.arguments.specs.Arguments.{word_of, with_wrong, with_input, with_word, with_text, next_of};

use crate::words::{Word, complain, word_of};
use message::LONGEST_NAME;
use program::Program;
use std::env::FillError;

// One argument: its place among the program's, and its bytes.
#[derive(Clone, Copy)]
pub(crate) struct Argument<'a> {
    pub program: Program,
    pub place: usize,
    pub text: &'a [u8],
}

// What the arguments so far tell a program that takes N inputs.
#[derive(Drop)]
pub(crate) struct Seen<const N: usize> {
    pub help: bool,
    pub version: bool,
    pub numbers: bool,
    // `--` was given.
    pub rest: bool,
    // The places of the inputs' names among the arguments: the names that are there stand in front.
    pub places: [Option<usize>; N],
    // A message was written: nothing is to be read.
    pub wrong: bool,
}

// What a program does once it has seen its arguments.
#[derive(Drop)]
pub(crate) enum Next<const N: usize> {
    Stop,
    // It prints how it is used.
    Usage,
    // It prints its version.
    Version,
    // It opens the inputs whose names stand at these places.
    Open([Option<usize>; N]),
}

// The first of the inputs whose name is missing.
fn first_free(places: &[Option<usize>]) -> Option<usize>
    ensures { result ≡ position is_none places.now }
{
    places.iter().position(|place| place.is_none())
}

impl<const N: usize> Seen<N> {
    // Before the first argument.
    fn nothing() -> Seen<N> {
        Seen {
            help: false,
            version: false,
            numbers: false,
            rest: false,
            places: [None; N],
            wrong: false,
        }
    }

    // An argument is said to be wrong, and nothing is to be read from here on.
    fn refuse(&mut self, what: &[u8], argument: &Argument)
        ensures { self.new ≡ with_wrong self.old }
    {
        complain(argument.program, what, argument.text);
        self.wrong = true;
    }

    // With an argument that names an input: there are N at most, one or two.
    fn add_input(&mut self, argument: &Argument)
        ensures { self.new ≡ with_input argument.now.place self.old }
    {
        match first_free(&self.places) {
            Some(k) => self.places[k] = Some(argument.place),
            None if N == 1 => self.refuse(b"a second input, ", argument),
            None => self.refuse(b"a third input, ", argument),
        }
    }

    // With an argument where options may stand. `numbers`: the program has the option `--numbers`.
    fn add_word(&mut self, numbers: bool, argument: &Argument)
        ensures { self.new ≡ with_word numbers argument.now.place (word_of argument.now.text.now) self.old }
    {
        match word_of(argument.text) {
            Word::Help => self.help = true,
            Word::Version => self.version = true,
            Word::Numbers if numbers => self.numbers = true,
            Word::Rest => self.rest = true,
            Word::Dash | Word::Name => self.add_input(argument),
            Word::Numbers | Word::Option => self.refuse(b"unknown option ", argument),
        }
    }

    // The same anywhere: behind `--` every argument is a name.
    fn add_text(&mut self, numbers: bool, argument: &Argument)
        ensures { self.new ≡ with_text numbers argument.now.place argument.now.text.now self.old }
    {
        if self.rest {
            self.add_input(argument);
        } else {
            self.add_word(numbers, argument);
        }
    }

    // The same with the argument at a place, which has to be read first. Past them all there is none.
    fn add_argument(&mut self, program: Program, numbers: bool, place: usize) -> Option<()> {
        let mut bytes = [0u8; LONGEST_NAME];
        match program.argument(place, &mut bytes) {
            Ok(n) => {
                let text = &bytes[..n];
                self.add_text(
                    numbers,
                    &Argument {
                        program,
                        place,
                        text,
                    },
                );
            }
            Err(FillError::TooLong) => {
                let text = b"";
                self.refuse(
                    b"an argument is too long",
                    &Argument {
                        program,
                        place,
                        text,
                    },
                );
            }
            Err(FillError::NotPresent) => return None,
        }
        Some(())
    }

    // What is to be done where all arguments are seen.
    pub(crate) fn next(&self) -> Next<N>
        ensures { result ≡ next_of self.now }
    {
        if self.wrong {
            return Next::Stop;
        }
        if self.help {
            return Next::Usage;
        }
        if self.version {
            return Next::Version;
        }
        Next::Open(self.places)
    }
}

// What all arguments say, from the first after the program's own name up to the first that is wrong.
pub(crate) fn all_arguments<const N: usize>(program: Program, numbers: bool) -> Seen<N> {
    let mut seen = Seen::nothing();
    for place in 1..usize::MAX {
        if seen.wrong || seen.add_argument(program, numbers, place).is_none() {
            break;
        }
    }
    seen
}
