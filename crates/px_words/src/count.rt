// Numbers of events, and seeds.
ghost use Rattle.std.specs.Prelude.{◌≡◌};
ghost use Rattle.std.specs.List.{list_all};
ghost use Rattle.px_value.specs.Name.{is_digit, is_digits};
ghost use Rattle.px_words.specs.Limited.{is_limit, count_of};
ghost use Rattle.px_words.specs.Seed.{seed_of};

use px_value::is_digit;

/// The greatest limit of a history's events, which also stands where the option `--events` does not.
pub const EVENT_LIMIT: u32 = 100_000;

/// The most digits that a number of events is written with.
const COUNT_DIGITS: usize = 6;

/// The most digits that a seed is written with.
const SEED_DIGITS: usize = 10;

/// The number from 1 to 100,000 that a word of 1 to 6 digits spells.
pub(crate) fn count_of(word: &str) -> Option<u32>
    ensures { result ≡ count_of word.now }
{
    if !is_digits(COUNT_DIGITS, word.as_bytes()) {
        return None;
    }
    let count = word.parse::<u32>().ok()?;
    if is_limit(count) { Some(count) } else { None }
}

/// The number of at most 32 bits that a word of 1 to 10 digits spells.
pub(crate) fn seed_of(word: &str) -> Option<u32>
    ensures { result ≡ seed_of word.now }
{
    if !is_digits(SEED_DIGITS, word.as_bytes()) {
        return None;
    }
    word.parse::<u32>().ok()
}

fn is_digits(most: usize, word: &[u8]) -> bool
    ensures { result ≡ is_digits most word.now }
{
    !word.is_empty() && word.len() <= most && are_all_digits(word)
}

fn are_all_digits(word: &[u8]) -> bool
    ensures { result ≡ list_all is_digit word.now }
{
    word.iter().all(|c| is_digit(*c))
}

fn is_limit(count: u32) -> bool
    ensures { result ≡ is_limit count }
{
    (1..=EVENT_LIMIT).contains(&count)
}
