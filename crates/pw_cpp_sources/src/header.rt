//! Names of headers.

ghost use Rattle.std.specs.Prelude.{◌≡◌, codes};
ghost use Rattle.pw_cpp_sources.specs.Sources as spec;
ghost use Rattle.pw_cpp_sources.specs.Sources.{ends_in};

/// How deep includes nest at most; the file that is preprocessed itself has depth 0.
pub const DEPTH_LIMIT: usize = 16;

/// The greatest length of a header's name, in bytes.
pub const HEADER_NAME_LIMIT: usize = 400;

/// Whether a name ends in `.h`.
fn is_ended(name: &[u8]) -> bool
    ensures { result ≡ ends_in name.now (codes ".h") }
{
    if name.len() < 2 {
        return false;
    }
    let ending = &name[name.len() - 2..];
    ending == b".h".as_slice()
}

/// Whether a space or a newline stands in a name.
fn has_gap(name: &[u8]) -> bool
    ensures { result ≡ spec.has_gap name.now }
{
    let mut rest = name;
    while let [first, after @ ..] = rest {
        if *first == b' ' || *first == b'\n' {
            return true;
        }
        rest = after;
    }
    false
}

/// Whether a file of this name is a header: it ends in `.h`, and holds neither a space nor a newline.
pub fn is_header(name: &[u8]) -> bool
    ensures { result ≡ spec.is_header name.now }
{
    if HEADER_NAME_LIMIT < name.len() || has_gap(name) {
        return false;
    }
    is_ended(name)
}
