// The start of a program: its words decoded, and its data in the memory.

ghost use Rattle.std.specs.Prelude.{◌≡◌, ◌+◌, ◌≤◌, length, vec_len, IfOk};
ghost use Rattle.pw_value.specs.Limits.{memory_size};
ghost use Rattle.pw_value.specs.Rounding.{stack_start};
ghost use Rattle.pw_image.specs.Image.{AreItems};
ghost use Rattle.pw_machine.specs.Start.{with_items};
ghost use Rattle.pw_machine.specs.Decoded.{AreDecoded};

use pw_image::DataItem;
use pw_inst::{Inst, decode};
use pw_io::NoMemory;
use pw_pages::Pages;
use std::alloc::Global;

/// The words of a text, each decoded.
pub(crate) fn decoded(alloc: Global, words: &[u32]) -> Result<Vec<Option<Inst>>, NoMemory>
    ensures entries { IfOk result (λ code. AreDecoded words.now code.items) }
    ensures count { IfOk result (λ code. vec_len code ≡ length words.now) }
{
    let mut code = Vec::with_capacity(alloc, words.len())?;
    for word in words {
        code.push(decode(*word))?;
    }
    Ok(code)
}

/// Puts the items of `size` bytes of data at their offsets from a place.
pub(crate) fn put_items(memory: &mut Pages, at: usize, size: u32, items: &[DataItem])
    requires room { at + size ≤ length memory.old }
    requires reached { at + size ≤ memory_size }
    requires items { AreItems size 0 items.now }
    ensures { memory.new ≡ with_items memory.old at items.now }
{
    for item in items {
        memory.put_bytes(at + item.offset as usize, item.bytes.as_slice());
    }
}

/// Where the stack begins above data that end at an address of the memory.
pub(crate) fn stack_start(data_end: u32) -> u32
    requires { data_end ≤ memory_size }
    ensures { result ≡ stack_start data_end }
{
    pw_value::stack_start(u64::from(data_end)) as u32
}
