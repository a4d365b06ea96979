// The branch types and the filter (document 01, "Which events become records"; docs/MANUAL.md, "Branch types and the filter";
// Arm D19.2).
#![tactic(auto)]

ghost use Rattle.std.specs.Prelude.{◌≡◌, ◌≤◌};
ghost use Rattle.bits.specs.Bits.{one_of};
ghost use Rattle.filter.specs.Filter.{branch_types, exception_types, filter_bit, passes_filter};

// EnI of BRBFCR_EL1, as the power of two that it weighs.
const ENI: u64 = 0x1_0000;

// A branch type, by its code in BRBINF's TYPE field: constants of the type are the form that document 01 names, and any code is asked for.
#[derive(Clone, Copy)]
pub struct BranchType {
    pub code: u64,
}

impl BranchType {
    pub const DIRECT: u64 = 0;

    pub const INDIRECT: u64 = 1;

    pub const DIRCALL: u64 = 2;

    pub const INDCALL: u64 = 3;

    pub const RTN: u64 = 5;

    pub const CONDDIR: u64 = 8;

    // The code is one of the six.
    pub fn listed(self) -> bool
        ensures { result ≡ one_of branch_types self.code }
    {
        (self.code == Self::CONDDIR)
            | (self.code == Self::RTN)
            | (self.code == Self::INDCALL)
            | (self.code == Self::DIRCALL)
            | (self.code == Self::INDIRECT)
            | (self.code == Self::DIRECT)
    }

    // The bit of BRBFCR_EL1 that the type answers to.
    #[tactic(auto, unfolding(crate::specs::Filter::filter_bit))]
    pub fn filter_bit(self) -> u64
        ensures value { result ≡ filter_bit self }
        ensures upper_bound { result ≤ 22 }
    {
        let code = self.code;
        match code {
            Self::DIRECT => 17,
            Self::INDIRECT => 18,
            Self::RTN => 19,
            Self::INDCALL => 20,
            Self::DIRCALL => 21,
            _ => 22,
        }
    }

    // The filter lets a branch of this type through.
    #[tactic(auto, unfolding(crate::specs::Filter::passes_filter))]
    pub fn passes_filter(self, brbfcr: u64) -> bool
        ensures { result ≡ passes_filter brbfcr self }
    {
        let own = (brbfcr >> self.filter_bit()) % 2;
        own != brbfcr / ENI % 2
    }
}

// The type is one of the exceptions'.
pub fn is_exception_type(kind: u64) -> bool
    ensures { result ≡ one_of exception_types kind }
{
    (kind == 0x2F)
        | (kind == 0x2E)
        | (kind == 0x2C)
        | (kind == 0x2B)
        | (kind == 0x2A)
        | (kind == 0x27)
        | (kind == 0x26)
        | (kind == 0x24)
        | (kind == 0x23)
        | (kind == 0x22)
}
