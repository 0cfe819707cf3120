// For hosts in C and Rust: the version of the library that is linked or loaded. It is not the number of a refusal, and no call is refused.
#![tactic(auto)]

ghost use Rattle.std.specs.Prelude.{◌≡◌};

// The version as one number, as the header's FORKHEMIT_VERSION has it: 1.0.0 is 10000. Change it with the header's, here and below.
const VERSION: u64 = 10000;

// The version of this library.
pub fn forkhemit_version() -> u64
    ensures { result ≡ 10000 }
{
    VERSION
}
