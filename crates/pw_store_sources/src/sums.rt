//! The bytes of texts together.

ghost use Rattle.std.specs.Prelude.{◌≡◌, ◌+◌, IfOk, map};
ghost use Rattle.pw_cpp_sources.specs.Sources.{texts_of};
ghost use Rattle.pw_store_sources.specs.Bytes.{bytes_of};
ghost use Rattle.pw_store_sources.specs.Views.{named_text};

use crate::source::Source;
use pw_value::Name;
use std::alloc::AllocError;

/// The sum of two counts of bytes. Want of memory is the answer for one that 64 bits cannot count.
pub fn sum_of(bytes: u64, more: u64) -> Result<u64, AllocError>
    ensures { IfOk result (λ sum. sum ≡ bytes + more) }
{
    bytes.checked_add(more).ok_or(AllocError)
}

/// The bytes of C sources together.
fn source_bytes(sources: &[Source]) -> Result<u64, AllocError>
    ensures { IfOk result (λ bytes. bytes ≡ bytes_of (map named_text sources.now)) }
{
    let mut bytes: u64 = 0;
    for source in sources {
        let more = source.text.len() as u64;
        bytes = sum_of(bytes, more)?;
    }
    Ok(bytes)
}

/// The bytes of headers together.
fn header_bytes(headers: &[(Name, Vec<u8>)]) -> Result<u64, AllocError>
    ensures { IfOk result (λ bytes. bytes ≡ bytes_of (texts_of headers.now)) }
{
    let mut bytes: u64 = 0;
    for header in headers {
        let more = header.1.len() as u64;
        bytes = sum_of(bytes, more)?;
    }
    Ok(bytes)
}

/// The bytes of C sources and headers together.
pub(crate) fn bytes_of(sources: &[Source], headers: &[(Name, Vec<u8>)]) -> Result<u64, AllocError>
    ensures { IfOk result (λ bytes. bytes ≡ bytes_of (map named_text sources.now) + bytes_of (texts_of headers.now)) }
{
    let first = source_bytes(sources)?;
    let second = header_bytes(headers)?;
    sum_of(first, second)
}
