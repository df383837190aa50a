//! Names of a letter and a number behind it.
ghost use Rattle.std.specs.Prelude.{◌≡◌, ◌<◌, ◌≤◌, [], ◌∷◌};
ghost use Rattle.uhura_gen.specs.Names.{named, whole_name};

use itoa::Buffer;
use uhura_plan::Name;

/// The numbers in names are below this limit.
pub(crate) const NUMBERS: u32 = 1000;

/// The bytes of a letter and of a number below the limit, at most.
const BYTES: usize = 4;

/// The name of a small letter and a number.
#[tactic(auto, using(crate::proofs::Spelling::three_digits))]
pub(crate) fn name_of(letter: u8, number: u32) -> Name
    requires least { 97 ≤ letter }
    requires most { letter ≤ 122 }
    requires small { number < NUMBERS }
    ensures { result ≡ named (letter ∷ []) number }
{
    let mut buffer = Buffer::new();
    let digits = buffer.format(number).as_bytes();
    let len = 1 + digits.len();
    let mut word = [letter; BYTES];
    word[1..len].copy_from_slice(digits);
    Name::read(&word[..len]).unwrap()
}

/// The name of the requirement on the whole plan.
pub(crate) fn whole_name() -> Name
    ensures { result ≡ whole_name }
{
    Name::read(b"all".as_slice()).unwrap()
}
