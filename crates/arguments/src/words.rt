// What one argument is, by its bytes.
ghost use Rattle.std.specs.Prelude.{◌≡◌};
ghost use Rattle.arguments.specs.Arguments.{option_of, word_of};

use message::say_shown;
use program::Program;

// What one argument is.
#[derive(Clone, Copy)]
pub(crate) enum Word {
    Help,
    Version,
    Numbers,
    // `--`: what comes behind it are no options.
    Rest,
    // `-`: standard input.
    Dash,
    Option,
    Name,
}

// What an argument is that starts with `-`. A `match` on the texts asks byte by byte, and its proof has a case for each byte.
#[tactic(auto, unfolding(crate::specs::Arguments::option_of))]
fn option_of(text: &[u8]) -> Word
    ensures { result ≡ option_of text.now }
{
    if text == b"--help".as_slice() {
        return Word::Help;
    }
    if text == b"-h".as_slice() {
        return Word::Help;
    }
    if text == b"--version".as_slice() {
        return Word::Version;
    }
    if text == b"--numbers".as_slice() {
        return Word::Numbers;
    }
    if text == b"--".as_slice() {
        return Word::Rest;
    }
    if text == b"-".as_slice() {
        return Word::Dash;
    }
    Word::Option
}

pub(crate) fn word_of(text: &[u8]) -> Word
    ensures { result ≡ word_of text.now }
{
    match text {
        [b'-', ..] => option_of(text),
        _ => Word::Name,
    }
}

// `PROGRAM: what text; try --help`.
pub(crate) fn complain(program: Program, what: &[u8], text: &[u8]) {
    program.say(program.name());
    program.say(b": ");
    program.say(what);
    say_shown(program, text);
    program.say(b"; try --help\n");
}
