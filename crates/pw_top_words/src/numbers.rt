//! Numbers of a command line.

ghost use Rattle.std.specs.Prelude.{◌≡◌, ◌≤◌, IfSome};
ghost use Rattle.pw_top_words.specs.CommandLine.{are_digits, is_numeral, number_in};

/// How many digits a number of a command line has at most. With as many it is less than 2^64.
pub const DIGITS_LIMIT: usize = 19;

/// Whether all bytes are decimal digits.
fn are_digits(text: &[u8]) -> bool
    ensures { result ≡ are_digits text.now }
{
    text.iter().all(|byte| byte.is_ascii_digit())
}

/// Whether a text is one to nineteen decimal digits.
fn is_numeral(text: &[u8]) -> bool
    ensures { result ≡ is_numeral text.now }
{
    1 <= text.len() && text.len() <= DIGITS_LIMIT && are_digits(text)
}

/// The number that a text writes, within limits: one to nineteen decimal digits.
pub fn number_in(least: u64, most: u64, text: &str) -> Option<u64>
    ensures read { result ≡ number_in least most text.now }
    ensures within { IfSome result (λ n. n ≤ most) }
{
    if !is_numeral(text.as_bytes()) {
        return None;
    }
    match text.parse::<u64>() {
        Ok(number) if least <= number && number <= most => Some(number),
        _ => None,
    }
}
