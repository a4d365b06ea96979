// One number of a recording (document 01, "Recordings"; docs/MANUAL.md, the same).
#![tactic(auto)]

ghost use Rattle.std.specs.Prelude.{◌≡◌, ◌+◌, ◌≤◌, ◌<◌, leb, length, drop};
ghost use Rattle.number.specs.Number.{continued, number_in, number_at, bytes_of, written, written_if, count_if};

// Why no number can be read at a place.
#[derive(Clone, Copy, Debug, PartialEq, Eq)]
pub enum Fault {
    // What stands there is no number in the shortest form below 2^64.
    Malformed,
    // The bytes end before the number does.
    Ended,
}

// What the tenth digit counts by: 2^63.
const TENTH: u64 = 0x8000_0000_0000_0000;

// The number at a place. Its first byte stands apart: only there can the last digit be 0, and a number below 128, as most are, is
// that byte, without the general path (document 02, Three).
pub fn number_at(bytes: &[u8], at: usize) -> Result<(u64, usize), Fault>
    ensures { result ≡ number_at bytes.now at }
{
    if bytes.len() <= at {
        return Err(Fault::Ended);
    }
    let first = bytes[at] as u64;
    if first < 128 {
        return Ok((first, at + 1));
    }
    more_at(bytes, at + 1, first)
}

// Where a number's tenth byte stands whose second is at this place, or the end of so many bytes, whichever comes first.
fn tenth_at(size: usize, at: usize) -> usize
    requires { at ≤ size }
    ensures { (at ≤ result) × (result ≤ size) × (result ≤ at + 8) × (result < size → at + 8 ≤ result) }
{
    if size - at < 8 { size } else { at + 8 }
}

// The number whose first byte, just before the place, says that more follow. The low digits come first: `value` is what those
// so far come to, and the next counts by `place`. A last digit of 0 would be one too many. The tenth byte stands after the
// loop, since of its digit only one bit is left below 2^64. Where the loop ends is found first: the compiler then leaves it a loop,
// and `number_at` small enough to be compiled into its callers (docs/landings/03-short-path.md).
fn more_at(bytes: &[u8], at: usize, first: u64) -> Result<(u64, usize), Fault>
    requires { (128 ≤ first) × (first < 256) × (at ≤ length bytes.now) }
    ensures { result ≡ continued first (number_in 9 (drop at bytes.now) at) }
{
    let tenth = tenth_at(bytes.len(), at);
    let mut value = first - 128;
    let mut place: u64 = 128;
    for i in at..tenth {
        let byte = bytes[i] as u64;
        if byte < 128 {
            if byte == 0 {
                return Err(Fault::Malformed);
            }
            return Ok((value + place * byte, i + 1));
        }
        value = value + place * (byte - 128);
        place = place * 128;
    }
    if bytes.len() <= tenth {
        return Err(Fault::Ended);
    }
    if bytes[tenth] == 1 {
        return Ok((value + TENTH, tenth + 1));
    }
    Err(Fault::Malformed)
}

// How many bytes the shortest form of n has: never more than ten, so that a caller's sums of a few do not wrap. Seven binary digits
// are one in base 128.
pub fn number_length(n: u64) -> usize
    ensures { (result ≡ length (bytes_of n)) × (1 ≤ result) × (result ≤ 10) }
{
    if n < 128 {
        return 1;
    }
    n.ilog2() as usize / 7 + 1
}

// Whether so many bytes have room at a place of lent ones. It subtracts, since a sum with a large place would wrap.
pub fn has_room(lent: usize, at: usize, size: usize) -> bool
    ensures { result ≡ leb (at + size) lent }
{
    size <= lent && at <= lent - size
}

// The shortest form of n, so many bytes, at a place of lent bytes that have room for it there: all but the last say that another
// follows.
fn put(out: &mut [u8], at: usize, size: usize, n: u64)
    requires { (size ≡ length (bytes_of n)) × (at + size ≤ length out.old) }
    ensures { out.new ≡ written out.old at (bytes_of n) }
{
    let last = at + (size - 1);
    let mut left = n;
    for i in at..last {
        out[i] = (left % 128 + 128) as u8;
        left = left / 128;
    }
    out[last] = left as u8;
}

// The shortest form of n at a place, where it fits: how many bytes were written, or 0, and then nothing is changed. (0 and
// no option: whoever writes several adds these up.)
#[tactic(auto, unfolding(crate::specs::Number::count_if, crate::specs::Number::written_if))]
pub fn write_number(out: &mut [u8], at: usize, n: u64) -> usize
    ensures value { result ≡ count_if out.old at (bytes_of n) }
    ensures out_after { out.new ≡ written_if out.old at (bytes_of n) }
{
    let size = number_length(n);
    if !has_room(out.len(), at, size) {
        return 0;
    }
    put(out, at, size, n);
    size
}
