// The encoding of a cycle count in BRBINF's field CC (document 01, "Cycles"; document 02, "Four"; docs/MANUAL.md, "Cycles" and "The
// spread of a count"; BRBINF<n>_EL1.CC).
#![tactic(auto)]

ghost use Rattle.std.specs.Prelude.{◌≡◌};
ghost use Rattle.count.specs.Count.{encoded, decoded, from_to, at_least, refused_with, spread_of};

use answer::Refusal;
use bits::pick;

// What a CC value says of the count. (One type of three ways, since the field has three: an option around two would part what its table
// lists side by side.)
#[derive(Clone, Copy)]
pub enum Decoded {
    // The smallest and the largest count that have this encoding.
    Known(u64, u64),
    // The count exceeded the cycle counter.
    Exceeded,
    // No such encoding: refusal 4.
    Refused,
}

// The counts that an encoding, or a run of them, may stand for, as a host is answered. (Numbers, since C's `struct brb_spread` has them.)
#[repr(C)]
#[derive(Clone, Copy)]
pub struct Spread {
    // 0, or the number of a refusal, which has 0 in all else.
    pub number: u64,
    // The smallest count.
    pub low: u64,
    // The largest count, and 0 where there is none.
    pub high: u64,
    // 1 where there is a largest count, else 0.
    pub bounded: u64,
}

// The cycle counter has 20 bits: BRBIDR0_EL1.CC is 0b0101.
const LARGEST: u64 = 1_048_575;

// BRBINF<n>_EL1.CC with all its 14 bits set: the count exceeded the counter.
const EXCEEDED: u64 = 0x3FFF;

// A count as CC, 256E + M. Of a count of 256 and more the nine leading binary digits are kept, and M leaves the first of them
// out, since it is always 1. The digits below are dropped: a count is rounded down. All of it is worked out whatever the count is,
// since no processor guesses how long the next one is.
pub fn encode(n: u64) -> u64
    ensures { result ≡ encoded n }
{
    let small = n < 256;
    let large = n > LARGEST;
    // a count with both, where this one has none
    let rounded = pick(small | large, 256, n);
    // the bit length less 8: the bit length is 64 less the leading zeros
    let e = 56 - u64::leading_zeros(rounded) as u64;
    let m = (rounded >> (e - 1)) - 256;
    let within = pick(small, n, 256 * e + m);
    pick(large, EXCEEDED, within)
}

// What CC says: which counts have it, that the counter was exceeded, or nothing that BRBINF<n>_EL1.CC defines. A count of 20 bits has
// no E above 12. The E-1 digits that the encoding dropped may be all zeros, all ones, or anything between.
pub fn decode(cc: u64) -> Decoded
    ensures { result ≡ decoded cc }
{
    if cc == EXCEEDED {
        return Decoded::Exceeded;
    }
    let e = cc / 256;
    let m = cc % 256;
    if e > 12 {
        return Decoded::Refused;
    }
    if e == 0 {
        return Decoded::Known(m, m);
    }
    let low = (256 + m) << (e - 1);
    let dropped = (1 << (e - 1)) - 1;
    Decoded::Known(low, low + dropped)
}

// `bounded` where there is a largest count, and where there is none.
const BOUNDED: u64 = 1;

const UNBOUNDED: u64 = 0;

impl Spread {
    // Both ends.
    pub fn from_to(low: u64, high: u64) -> Spread
        ensures { result ≡ from_to low high }
    {
        Spread {
            number: 0,
            low: low,
            high: high,
            bounded: BOUNDED,
        }
    }

    // A lower end alone.
    pub fn at_least(low: u64) -> Spread
        ensures { result ≡ at_least low }
    {
        Spread {
            number: 0,
            low: low,
            high: 0,
            bounded: UNBOUNDED,
        }
    }

    // A refusal: its number, and nothing else.
    pub fn refused(number: u64) -> Spread
        ensures { result ≡ refused_with number }
    {
        Spread {
            number: number,
            low: 0,
            high: 0,
            bounded: UNBOUNDED,
        }
    }
}

impl Decoded {
    // As four numbers. A count that exceeded the counter is at least 1,048,576, and has no upper end.
    pub fn spread(self) -> Spread
        ensures { result ≡ spread_of self }
    {
        match self {
            Decoded::Known(low, high) => Spread::from_to(low, high),
            Decoded::Exceeded => Spread::at_least(1_048_576),
            Decoded::Refused => Spread::refused(Refusal::OutsideList.number()),
        }
    }
}
