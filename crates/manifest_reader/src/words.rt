ghost use Rattle.std.specs.Prelude.{◌≡◌, ◌==◌, ◌≤◌, IsTrue, length, not};
ghost use Rattle.std.specs.List.{list_all};
ghost use Rattle.manifest_reader.specs.Words.{is_name_byte, is_bank_byte, is_bank, is_name, is_file};

fn is_name_byte(byte: u8) -> bool
    ensures { result ≡ is_name_byte byte }
{
    byte.is_ascii_alphanumeric() || (byte == b'_' || byte == b'-')
}

fn is_bank_byte(byte: u8) -> bool
    ensures { result ≡ is_bank_byte byte }
{
    is_name_byte(byte) || byte == b'.'
}

/// Whether this may be the name of a bank.
#[tactic(auto, unfolding(crate::specs::Words::is_bank))]
pub(crate) fn is_bank(word: &str) -> bool
    ensures { result ≡ is_bank word.now }
{
    let bytes = word.as_bytes();
    match bytes {
        [] => false,
        [first, ..] => {
            first.is_ascii_alphanumeric() && (bytes.len() <= 64 && are_bank_bytes(bytes))
        }
    }
}

/// Whether this may be the name of a sample.
#[tactic(auto, unfolding(crate::specs::Words::is_name))]
pub(crate) fn is_name(word: &str) -> bool
    ensures value { result ≡ is_name word.now }
    ensures some { IsTrue result → 1 ≤ length word.now }
    ensures few { IsTrue result → length word.now ≤ 16 }
{
    let bytes = word.as_bytes();
    1 <= bytes.len() && (bytes.len() <= 16 && are_name_bytes(bytes))
}

/// Whether this may be the name of a source file.
#[tactic(auto, unfolding(crate::specs::Words::is_file))]
pub(crate) fn is_file(word: &str) -> bool
    ensures { result ≡ is_file word.now }
{
    let bytes = word.as_bytes();
    1 <= bytes.len() && (bytes.len() <= 255 && has_no_zero(bytes))
}

fn are_bank_bytes(bytes: &[u8]) -> bool
    ensures { result ≡ list_all is_bank_byte bytes.now }
{
    bytes.iter().all(|b| is_bank_byte(*b))
}

fn are_name_bytes(bytes: &[u8]) -> bool
    ensures { result ≡ list_all is_name_byte bytes.now }
{
    bytes.iter().all(|b| is_name_byte(*b))
}

fn has_no_zero(bytes: &[u8]) -> bool
    ensures { result ≡ list_all (λ b. not (b == 0)) bytes.now }
{
    bytes.iter().all(|b| *b != 0)
}
