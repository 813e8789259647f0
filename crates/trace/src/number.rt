//! Numbers as they are written in a script.
ghost use Rattle.std.specs.Prelude.{◌≡◌, ℕ, ◌+◌, ◌*◌, ◌^◌, ◌<◌, ◌≤◌, Result, Ok, Err, MatchResult};
ghost use Rattle.std.specs.Option.{SomeIff};
ghost use Rattle.trace.specs.Numbers.{read_number};
ghost use Rattle.std.proofs.Common.{rules};

use crate::reason::Reason;
use std::num::TryFromIntError;

/// An unsigned number that a script can write.
pub trait Unsigned: TryFrom<u64, Error = TryFromIntError> {
    // How many bits it has.
    ghost bits: { ℕ };

    // The number that a value is.
    ghost value: { Self → ℕ };

    // It is made from the numbers of so many bits, at most 64, and from no others.
    ghost holds: { (bits ≤ 64) × ((n : ℕ) (r : _) → Self.try_from_gives n r → MatchResult r (λ x. (n < 2 ^ bits) × (value x ≡ n)) (λ _. 2 ^ bits ≤ n)) };
}

// One impl for each type: the library has no public trait of integers that states their range.
impl Unsigned for u8 {
    ghost bits = { 8 };

    ghost value = { λ n. n };

    ghost holds = { Prim.search rules };
}

impl Unsigned for u32 {
    ghost bits = { 32 };

    ghost value = { λ n. n };

    ghost holds = { Prim.search rules };
}

impl Unsigned for u64 {
    ghost bits = { 64 };

    ghost value = { λ n. n };

    ghost holds = { Prim.search rules };
}

impl Unsigned for usize {
    ghost bits = { 64 };

    ghost value = { λ n. n };

    ghost holds = { Prim.search rules };
}

/// `n` with one more digit, if it still has at most 64 bits.
fn with_digit(n: u64, digit: u8) -> Option<u64>
    ensures { SomeIff result (n * 10 + digit < 2 ^ 64) (n * 10 + digit) }
{
    let digit = u64::from(digit);
    let most = (u64::MAX - digit) / 10;
    (n <= most).then(|| n * 10 + digit)
}

/// The number that the digits of `word` write, which has to have at most 64 bits.
fn digits(word: &[u8]) -> Result<u64, Reason>
    ensures { result ≡ read_number (2 ^ 64) word.now }
{
    if word.is_empty() {
        return Err(Reason::NotANumber);
    }
    let mut value = Some(0);
    for b in word {
        if !b.is_ascii_digit() {
            return Err(Reason::NotANumber);
        }
        let digit = *b - b'0';
        value = value.and_then(|n| with_digit(n, digit));
    }
    value.ok_or(Reason::TooWide)
}

/// The number that the digits of `word` write, which `N` has to hold.
pub(crate) fn number<N: Unsigned>(word: &[u8]) -> Result<N, Reason>
    ensures { MatchResult result (λ n. read_number (2 ^ N.bits) word.now ≡ Ok (N.value n)) (λ e. read_number (2 ^ N.bits) word.now ≡ Err e) }
{
    N::try_from(digits(word)?).map_err(|_| Reason::TooWide)
}
