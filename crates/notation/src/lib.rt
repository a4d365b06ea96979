// Recordings as text, which `pack` reads: words of digits, cut by white space, and the ends of operations.
#![tactic(auto)]

ghost use Rattle.std.specs.Prelude.{◌≡◌, cond, [], ◌+◌, ◌≤◌, length, drop, set, ◌<◌, ◌==◌, Ok, Err};
ghost use Rattle.std.specs.List.{position_or_len};
ghost use Rattle.notation.specs.declared.Problem.TheVariants.{NoNumber};
ghost use Rattle.notation.specs.Text.{digit_of, appended};
ghost use Rattle.notation.specs.Words.{is_blank, ends_operation, separating, word_in, digits_of, prefixed, is_prefixed, meaning_of, whole_words};
ghost use Rattle.notation.specs.Reading.{none_begun, six_of, of_six, added, ended_at, read_from};
ghost use Rattle.notation.specs.Places.{located, line_length};

use operation::LAST_CODE;
use recording::{Numbers, field_count};

// What is wrong with the text.
#[derive(Clone, Copy, Debug, PartialEq, Eq)]
pub enum Problem {
    // A word that is no number.
    NoNumber,
    // A number above 2^64 - 1.
    TooLarge,
    // No operation has this code.
    Code(u64),
    // An operation of this code has so many numbers, its code among them.
    Count(u64, u64),
}

// What is wrong, and where: the place of the word, or of the byte that ends the operation.
#[derive(Clone, Copy, Debug, PartialEq, Eq)]
pub struct Wrong {
    pub problem: Problem,
    pub at: usize,
}

// An operation that is being read: its numbers so far, and how many they are.
#[derive(Clone, Copy)]
pub struct Begun {
    pub numbers: Numbers,
    pub count: u64,
}

// What reading on from a place comes to.
#[derive(Clone, Copy)]
pub enum Step {
    // The bytes end before the operation does.
    More(Begun),
    // An operation, and the place of the byte that ends it.
    Operation(Numbers, usize),
    // The place of a byte that ends an operation, with no number before it.
    Nothing(usize),
}

// White space inside a line.
fn is_blank(byte: u8) -> bool
    ensures { result ≡ is_blank byte }
{
    matches!(byte, b' ' | b'\t' | b'\r')
}

// What ends an operation: a line's end, a / and the # of a comment.
fn ends_operation(byte: u8) -> bool
    ensures { result ≡ ends_operation byte }
{
    matches!(byte, b'\n' | b'/' | b'#')
}

// What no word holds: white space, or what ends an operation. (They stand below the digits, so that one test is enough for nearly
// all bytes of a word or a comment; two `matches!` would be tested one after the other.)
#[tactic(auto, using(crate::proofs::Words::above_plain))]
pub fn separates(byte: u8) -> bool
    ensures { result ≡ separating byte }
{
    byte < b'0' && matches!(byte, b' ' | b'\t' | b'\r' | b'\n' | b'/' | b'#')
}

// The value of a digit of a base, hexadecimal ones among them.
fn digit_of<const BASE: u32>(byte: u8) -> Option<u64>
    requires { (2 ≤ BASE) × (BASE ≤ 16) }
    ensures { result ≡ digit_of BASE byte }
{
    char::from(byte).to_digit(BASE).map(u64::from)
}

// A number with a digit more, while it is below 2^64.
fn appended<const BASE: u32>(value: u64, digit: u64) -> Option<u64>
    requires { BASE ≤ 16 }
    ensures { result ≡ appended BASE value digit }
{
    value.checked_mul(u64::from(BASE))?.checked_add(digit)
}

// A number whose digits end at a byte that is none: it has to end the word.
fn number_before(byte: u8, value: u64, at: usize) -> Result<(u64, usize), Problem>
    ensures { result ≡ cond (separating byte) (Ok (value, at)) (Err NoNumber) }
{
    if separates(byte) {
        return Ok((value, at));
    }
    Err(Problem::NoNumber)
}

// The number that digits of a base come to, from a place on, and the place after them. Each byte is looked at once: digits end where
// one that is none stands. The base is a constant, so that each instance multiplies by a constant.
fn digits_at<const BASE: u32>(bytes: &[u8], at: usize) -> Result<(u64, usize), Problem>
    requires { (2 ≤ BASE) × (BASE ≤ 16) × (at ≤ length bytes.now) }
    ensures { result ≡ located (drop at bytes.now) at (digits_of BASE 0 (word_in (drop at bytes.now))) }
{
    let mut value = 0;
    for i in at..bytes.len() {
        let Some(digit) = digit_of::<BASE>(bytes[i]) else {
            return number_before(bytes[i], value, i);
        };
        let Some(more) = appended::<BASE>(value, digit) else {
            return Err(Problem::TooLarge);
        };
        value = more;
    }
    Ok((value, bytes.len()))
}

// What follows 0x: at least a digit.
fn prefixed_at(bytes: &[u8], at: usize) -> Result<(u64, usize), Problem>
    ensures { result ≡ located (drop at bytes.now) at (prefixed (word_in (drop at bytes.now))) }
{
    if bytes.len() <= at {
        return Err(Problem::NoNumber);
    }
    if separates(bytes[at]) {
        return Err(Problem::NoNumber);
    }
    digits_at::<16>(bytes, at)
}

// Whether 0x or 0X stands at a place.
fn is_prefix(bytes: &[u8], at: usize) -> bool
    requires { at < length bytes.now }
    ensures { result ≡ is_prefixed (word_in (drop at bytes.now)) }
{
    if bytes.len() - at < 2 {
        return false;
    }
    (bytes[at] == b'0') & ((bytes[at + 1] == b'X') | (bytes[at + 1] == b'x'))
}

// What the word at a place is, and the place after it: a number in hexadecimal, behind 0x, or in decimal.
fn word_at(bytes: &[u8], at: usize) -> Result<(u64, usize), Problem>
    requires { at < length bytes.now }
    ensures { result ≡ located (drop at bytes.now) at (meaning_of (word_in (drop at bytes.now))) }
{
    if is_prefix(bytes, at) {
        return prefixed_at(bytes, at + 2);
    }
    digits_at::<10>(bytes, at)
}

// Before the first number of an operation.
pub fn none_begun() -> Begun
    ensures { result ≡ none_begun }
{
    let numbers = Numbers::new(0, 0, 0, 0, 0, 0);
    Begun { numbers, count: 0 }
}

// The numbers with another at place i. Those past the sixth are only counted.
fn with_number(x: Numbers, i: u64, n: u64) -> Numbers
    ensures { result ≡ of_six (set (six_of x) i n) }
{
    match i {
        0 => Numbers { code: n, ..x },
        1 => Numbers { cycles: n, ..x },
        2 => Numbers { a: n, ..x },
        3 => Numbers { b: n, ..x },
        4 => Numbers { c: n, ..x },
        5 => Numbers { d: n, ..x },
        _ => x,
    }
}

// With a number more. No text is so long that the count stands still.
#[tactic(auto, unfolding(crate::specs::Reading::added))]
fn added(begun: Begun, n: u64) -> Begun
    ensures { result ≡ added begun n }
{
    let numbers = with_number(begun.numbers, begun.count, n);
    Begun {
        numbers,
        count: begun.count.saturating_add(1),
    }
}

// An operation that ends at a place: the text's end is one, too.
#[tactic(auto, unfolding(crate::specs::Reading::ended_at))]
pub fn ended(begun: Begun, at: usize) -> Result<Step, Wrong>
    ensures { result ≡ ended_at begun at }
{
    let numbers = begun.numbers;
    if begun.count == 0 {
        return Ok(Step::Nothing(at));
    }
    if LAST_CODE < numbers.code {
        let problem = Problem::Code(numbers.code);
        return Err(Wrong { problem, at });
    }
    if begun.count != field_count(numbers.code) + 2 {
        let problem = Problem::Count(numbers.code, begun.count);
        return Err(Wrong { problem, at });
    }
    Ok(Step::Operation(numbers, at))
}

// The bytes from a place on.
fn from_place(bytes: &[u8], at: usize) -> &[u8]
    ensures { result.now ≡ drop at bytes.now }
{
    bytes.get(at..).unwrap_or_default()
}

// Reads on from a place, which is no word's middle, to the operation's end. The bytes' end is the end of a word. (One pass: with the
// words cut by `split`, `pack` took 1.4 times as long on a text in columns.)
pub fn read_on(bytes: &[u8], at: usize, begun: Begun) -> Result<Step, Wrong>
    ensures { result ≡ read_from begun [] (drop at bytes.now) at }
{
    let mut so_far = begun;
    let mut place = at;
    while place < bytes.len() {
        let byte = bytes[place];
        if is_blank(byte) {
            place += 1;
        } else if ends_operation(byte) {
            return ended(so_far, place);
        } else {
            match word_at(bytes, place) {
                Ok((n, next)) => {
                    so_far = added(so_far, n);
                    place = next;
                }
                Err(problem) => return Err(Wrong { problem, at: place }),
            }
        }
    }
    Ok(Step::More(so_far))
}

// How many bytes stand before the first line's end.
fn line_length(text: &[u8]) -> usize
    ensures value { result ≡ position_or_len (λ b. b == 10) text.now }
    ensures within { result ≤ length text.now }
{
    text.iter().take_while(|byte| **byte != b'\n').count()
}

// The place of the line's end, from a place on, or the bytes' end: a comment ends there.
pub fn line_end(bytes: &[u8], at: usize) -> usize
    ensures { result ≡ at + line_length (drop at bytes.now) }
{
    at + line_length(from_place(bytes, at))
}

// How many bytes there are up to the last that separates words: what is behind them may be a word's beginning.
pub fn whole_words(bytes: &[u8]) -> usize
    ensures { result ≡ whole_words bytes.now (length bytes.now) }
{
    match bytes.iter().rposition(|byte| separates(*byte)) {
        Some(last) => last + 1,
        None => 0,
    }
}
