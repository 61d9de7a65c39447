ghost use Rattle.std.specs.Prelude.{◌≡◌, true};
ghost use Rattle.std.specs.List.{list_all};
ghost use Rattle.std.specs.Char.{is_ascii_digit};
ghost use Rattle.tool_words.specs.Numbers.{is_trimmed, is_number, number_of};

/// Whether a word has characters, and no zero before others.
fn is_trimmed(word: &str) -> bool
    ensures { result ≡ is_trimmed word.now }
{
    match word.as_bytes() {
        [] => false,
        [_] => true,
        [first, _, ..] => *first != b'0',
    }
}

/// Whether a word has no other characters than decimal digits.
fn has_digits(word: &str) -> bool
    ensures { result ≡ list_all (λ c. is_ascii_digit c) word.now }
{
    word.as_bytes().iter().all(|c| c.is_ascii_digit())
}

/// The number that a word of digits spells, if it is no greater than the greatest one.
fn value_of(word: &str, greatest: u32) -> Option<u32>
    requires { is_number word.now ≡ true }
    ensures { result ≡ number_of greatest word.now }
{
    match word.parse::<u32>() {
        Ok(value) => { if value <= greatest { Some(value) } else { None } }
        Err(_) => None,
    }
}

/// The number that a word is, if it is one and no greater than the greatest one: decimal digits without a sign, and
/// without a zero in front of others (this project's own choice).
#[tactic(auto, unfolding(crate::specs::Numbers::number_of))]
pub(crate) fn number_of(word: &str, greatest: u32) -> Option<u32>
    ensures { result ≡ number_of greatest word.now }
{
    if is_trimmed(word) && has_digits(word) {
        value_of(word, greatest)
    } else {
        None
    }
}
