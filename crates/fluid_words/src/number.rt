//! Numbers among words.
ghost use Rattle.std.specs.Prelude.{◌≡◌};
ghost use Rattle.std.specs.List.{list_all};
ghost use Rattle.fluid_words.specs.Numbers.{is_digit, is_decimal, number_in, number_within};

/// The number from `least` to `most` that a word spells: decimal digits without a sign and without a leading zero.
pub fn read_number(word: &str, least: u64, most: u64) -> Option<u64>
    ensures { result ≡ number_within least most word.now }
{
    let number = read_decimal(word)?;
    if least <= number && number <= most {
        Some(number)
    } else {
        None
    }
}

// The number of 64 bits that a word spells.
fn read_decimal(word: &str) -> Option<u64>
    ensures { result ≡ number_in word.now }
{
    if !is_decimal(word.as_bytes()) {
        return None;
    }
    word.parse::<u64>().ok()
}

#[tactic(auto, unfolding(crate::specs::Numbers::is_decimal))]
fn is_decimal(word: &[u8]) -> bool
    ensures { result ≡ is_decimal word.now }
{
    are_digits(word) && (word.len() == 1 || (1 < word.len() && word[0] != b'0'))
}

fn are_digits(word: &[u8]) -> bool
    ensures { result ≡ list_all is_digit word.now }
{
    word.iter().all(|byte| is_digit(*byte))
}

fn is_digit(byte: u8) -> bool
    ensures { result ≡ is_digit byte }
{
    byte.is_ascii_digit()
}
