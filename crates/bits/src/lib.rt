// Bits of numbers.
#![tactic(auto)]

ghost use Rattle.std.specs.Prelude.{◌≡◌, ◌<◌};
ghost use Rattle.meaning.specs.Limits.{word_bits};
ghost use Rattle.meaning.specs.Sets.{mem};

// Whether bit i is set in x.
pub fn bit(x: u64, i: usize) -> bool
    requires { i < word_bits }
    ensures { result ≡ mem i x }
{
    (x >> i) % 2 == 1
}
