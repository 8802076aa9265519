//! Quotes of lines that are passed over.

ghost use Rattle.std.specs.Prelude.{◌≡◌, ◌≢◌, ◌<◌, ◌≤◌, ◌+◌, false, if◌then◌else◌, length, slice_index, MatchResult};
ghost use Rattle.pw_cpp_lines.specs.Passing as spec;
ghost use Rattle.pw_cpp_lines.specs.Passing.{quoted_at};
ghost use Rattle.pw_cpp_lines.specs.Walking.{AreUnclosed, NoneCloses};

use pw_token::byte_at;

/// The places before which no `'` and no `"` closes that is still to come. So what stands behind such a quote is looked through
/// once, and not once for each quote of the line.
#[derive(Clone, Copy)]
pub struct Unclosed {
    single: usize,
    double: usize,
}

impl Unclosed {
    /// No quote is known not to close.
    pub fn new() -> Self
        ensures single { result.single ≡ 0 }
        ensures double { result.double ≡ 0 }
    {
        Unclosed {
            single: 0,
            double: 0,
        }
    }

    /// How long what stands at a place is: a quote with what it opens, if it closes in its line, or a byte.
    pub fn len_at(&mut self, text: &[u8], at: usize) -> usize
        requires within { at < length text.now }
        requires unclosed { AreUnclosed text.now at self.old }
        ensures value { result ≡ (if spec.is_quote (slice_index text.now at) then quoted_at text.now (slice_index text.now at) at else 1) }
        ensures some { 0 < result }
        ensures inside { at + result ≤ length text.now }
        ensures unclosed { AreUnclosed text.now at self.new }
    {
        match byte_at(text, at) {
            b'\'' => quoted_len(&mut self.single, b'\'', text, at),
            b'"' => quoted_len(&mut self.double, b'"', text, at),
            _ => 1,
        }
    }
}

/// How long what an opening quote opens is, with both quotes; or how many bytes stand before the end of the line, if it does not close
/// there.
fn quoted(quote: u8, text: &[u8]) -> Result<usize, usize>
    requires { length text.now < usize.MAX }
    ensures value { result ≡ spec.quoted quote false 0 1 text.now }
    ensures within { MatchResult result (λ len. (0 < len) × (len ≤ length text.now + 1)) (λ before. before ≤ length text.now + 1) }
{
    let mut len = 1;
    let mut escaped = false;
    let mut last = 0;
    let mut rest = text;
    while let [first, after @ ..] = rest {
        if !escaped && *first == quote {
            return Ok(len + 1);
        }
        if !escaped && *first == b'\n' && last != b'\\' {
            return Err(len);
        }
        len += 1;
        escaped = !escaped && *first == b'\\';
        last = *first;
        rest = after;
    }
    Err(len)
}

/// How long a quote is with what it opens, or 1 where it does not close in its line. No such quote closes before `unclosed`.
fn quoted_len(unclosed: &mut usize, quote: u8, text: &[u8], at: usize) -> usize
    requires within { at < length text.now }
    requires there { slice_index text.now at ≡ quote }
    requires other { quote ≢ 92 }
    requires unclosed { NoneCloses text.now quote at unclosed.old }
    ensures value { result ≡ quoted_at text.now quote at }
    ensures some { 0 < result }
    ensures inside { at + result ≤ length text.now }
    ensures unclosed { NoneCloses text.now quote at unclosed.new }
{
    if at < *unclosed {
        return 1;
    }
    match quoted(quote, &text[at + 1..]) {
        Ok(len) => len,
        Err(before) => {
            *unclosed = at + before;
            1
        }
    }
}
