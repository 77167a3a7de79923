ghost use Rattle.std.specs.Prelude.{◌≡◌, ◌≤◌, length, false, nat_le, nat_lt, ◌&&◌, IfSome};
ghost use Rattle.c_lex.specs.Pieces.{goes_on, is_exponent, is_nondigit, is_word};
ghost use Rattle.c_lex.specs.Runs.{closed_run, continue_run, line_run, named_run, number_run, quoted_run, word_run};

pub(crate) fn is_nondigit(byte: u8) -> bool
    ensures { result ≡ is_nondigit byte }
{
    byte == b'_' || byte.is_ascii_alphabetic()
}

fn is_word(byte: u8) -> bool
    ensures { result ≡ is_word byte }
{
    is_nondigit(byte) || byte.is_ascii_digit()
}

/// How many bytes at the front go on with an identifier.
pub(crate) fn word_length(bytes: &[u8]) -> usize
    ensures run { result ≡ word_run bytes.now }
    ensures within { result ≤ length bytes.now }
{
    for (count, byte) in bytes.iter().enumerate() {
        if !is_word(*byte) {
            return count;
        }
    }
    bytes.len()
}

fn is_exponent(byte: u8) -> bool
    ensures { result ≡ is_exponent byte }
{
    byte == b'e' || byte == b'E' || byte == b'p' || byte == b'P'
}

/// Whether a preprocessing number goes on with `byte` after the byte `before`.
fn number_goes_on(before: u8, byte: u8) -> bool
    ensures { result ≡ goes_on before byte }
{
    is_word(byte) || byte == b'.' || (byte == b'+' || byte == b'-') && is_exponent(before)
}

/// How many bytes at the front go on with a preprocessing number whose last byte is `first`.
pub(crate) fn number_length(first: u8, bytes: &[u8]) -> usize
    ensures run { result ≡ number_run first bytes.now }
    ensures within { result ≤ length bytes.now }
{
    let mut before = first;
    for (count, byte) in bytes.iter().enumerate() {
        if !number_goes_on(before, *byte) {
            return count;
        }
        before = *byte;
    }
    bytes.len()
}

/// How many bytes at the front stand in the line.
pub(crate) fn line_length(bytes: &[u8]) -> usize
    ensures run { result ≡ line_run bytes.now }
    ensures within { result ≤ length bytes.now }
{
    for (count, byte) in bytes.iter().enumerate() {
        if *byte == b'\n' {
            return count;
        }
    }
    bytes.len()
}

/// How many bytes at the front go on with a character.
pub(crate) fn continue_length(bytes: &[u8]) -> usize
    ensures run { result ≡ continue_run bytes.now }
    ensures within { result ≤ length bytes.now }
{
    for (count, byte) in bytes.iter().enumerate() {
        if *byte < 128 || *byte >= 192 {
            return count;
        }
    }
    bytes.len()
}

/// How many bytes there are up to and with the quote that closes, if the line has it.
pub(crate) fn quoted_length(quote: u8, bytes: &[u8]) -> Option<usize>
    ensures run { result ≡ quoted_run quote false bytes.now }
    ensures within { IfSome result (λ n. n ≤ length bytes.now) }
{
    let mut escaped = false;
    for (count, byte) in bytes.iter().enumerate() {
        if *byte == b'\n' {
            return None;
        }
        if !escaped && *byte == quote {
            return Some(count + 1);
        }
        escaped = !escaped && *byte == b'\\';
    }
    None
}

/// How many bytes there are up to and with `*/`, where `first` stands before them.
pub(crate) fn closed_length(first: u8, bytes: &[u8]) -> Option<usize>
    ensures run { result ≡ closed_run first bytes.now }
    ensures within { IfSome result (λ n. n ≤ length bytes.now) }
{
    let mut before = first;
    for (count, byte) in bytes.iter().enumerate() {
        if before == b'*' && *byte == b'/' {
            return Some(count + 1);
        }
        before = *byte;
    }
    None
}

/// How many bytes there are up to and with `end`, if the line has it.
pub(crate) fn named_length(end: u8, bytes: &[u8]) -> Option<usize>
    ensures run { result ≡ named_run end bytes.now }
    ensures within { IfSome result (λ n. n ≤ length bytes.now) }
{
    for (count, byte) in bytes.iter().enumerate() {
        if *byte == b'\n' {
            return None;
        }
        if *byte == end {
            return Some(count + 1);
        }
    }
    None
}
