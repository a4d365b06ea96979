// Texts and numbers written into lent bytes. Each function writes all or nothing, and answers the bytes written: 0, and no option, where it
// writes nothing, since whoever writes several adds the counts up.
#![tactic(auto)]

ghost use Rattle.std.specs.Prelude.{◌≡◌, ◌+◌, ◌≤◌, ◌<◌, length, leb};
ghost use Rattle.number.specs.Number.{written, written_if, count_if};
ghost use Rattle.text.specs.Text.{digit, digits, digit_count, decimal_count, decimal, hexadecimal};

use number::has_room;

// A text at a place, where it has room there.
#[tactic(auto, unfolding(number::specs::Number::count_if, number::specs::Number::written_if))]
pub fn write_text(out: &mut [u8], at: usize, text: &[u8]) -> usize
    ensures value { result ≡ count_if out.old at text.now }
    ensures out_after { out.new ≡ written_if out.old at text.now }
{
    if !has_room(out.len(), at, text.len()) {
        return 0;
    }
    out[at..at + text.len()].copy_from_slice(text);
    text.len()
}

fn digit_of(n: u64) -> u8
    requires { n < 16 }
    ensures { result ≡ digit n }
{
    if n < 10 {
        (48 + n) as u8
    } else {
        (87 + n) as u8
    }
}

// The lowest `count` digits of n, from the last to the first, at a place that has room for them.
fn put_digits<const BASE: u64>(out: &mut [u8], at: usize, count: usize, n: u64)
    requires { (1 ≤ BASE) × (BASE ≤ 16) × (at + count ≤ length out.old) }
    ensures { out.new ≡ written out.old at (digits BASE count n) }
{
    let mut rest = n;
    for i in (0..count).rev() {
        out[at + i] = digit_of(rest % BASE);
        rest /= BASE;
    }
}

// The powers of ten from 10 on.
const POWERS: [u64; 19] = [
    10,
    100,
    1_000,
    10_000,
    100_000,
    1_000_000,
    10_000_000,
    100_000_000,
    1_000_000_000,
    10_000_000_000,
    100_000_000_000,
    1_000_000_000_000,
    10_000_000_000_000,
    100_000_000_000_000,
    1_000_000_000_000_000,
    10_000_000_000_000_000,
    100_000_000_000_000_000,
    1_000_000_000_000_000_000,
    10_000_000_000_000_000_000,
];

// How many decimal digits n has: one, and one more for each of these powers that it reaches. (Most numbers have one or two: the
// first tests make them faster.)
fn decimal_digits(n: u64) -> usize
    ensures { result ≡ decimal_count 20 n }
{
    if n < 10 {
        return 1;
    }
    if n < 100 {
        return 2;
    }
    POWERS.partition_point(|power| *power <= n) + 1
}

// How many hexadecimal digits n has: four bits make one.
fn hexadecimal_digits(n: u64) -> usize
    ensures { result ≡ digit_count 16 16 n }
{
    (n.max(1).ilog2() / 4 + 1) as usize
}

// Digits of n at a place, where they have room there.
#[tactic(auto, using(crate::proofs::Laws::length_digits), unfolding(number::specs::Number::count_if, number::specs::Number::written_if))]
fn write_digits<const BASE: u64>(out: &mut [u8], at: usize, count: usize, n: u64) -> usize
    requires { (1 ≤ BASE) × (BASE ≤ 16) }
    ensures value { result ≡ count_if out.old at (digits BASE count n) }
    ensures out_after { out.new ≡ written_if out.old at (digits BASE count n) }
{
    if !has_room(out.len(), at, count) {
        return 0;
    }
    put_digits::<BASE>(out, at, count, n);
    count
}

// n in decimal. (Three functions, here and below: which digits, and how many, is what crate `line` and the programs ask by name.)
#[tactic(auto, unfolding(crate::specs::Text::decimal))]
pub fn write_decimal(out: &mut [u8], at: usize, n: u64) -> usize
    ensures value { result ≡ count_if out.old at (decimal n) }
    ensures out_after { out.new ≡ written_if out.old at (decimal n) }
{
    write_digits::<10>(out, at, decimal_digits(n), n)
}

// The lowest `count` hexadecimal digits of n.
pub fn write_hexadecimal(out: &mut [u8], at: usize, count: usize, n: u64) -> usize
    ensures value { result ≡ count_if out.old at (digits 16 count n) }
    ensures out_after { out.new ≡ written_if out.old at (digits 16 count n) }
{
    write_digits::<16>(out, at, count, n)
}

// n in hexadecimal, with as many digits as it has.
#[tactic(auto, unfolding(crate::specs::Text::hexadecimal))]
pub fn write_shortest_hexadecimal(out: &mut [u8], at: usize, n: u64) -> usize
    ensures value { result ≡ count_if out.old at (hexadecimal n) }
    ensures out_after { out.new ≡ written_if out.old at (hexadecimal n) }
{
    write_digits::<16>(out, at, hexadecimal_digits(n), n)
}
