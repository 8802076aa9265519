//! In which function's words an address lies.

ghost use Rattle.std.specs.Prelude.{◌≡◌, IfSome, None};
ghost use Rattle.std.specs.List.{AllByRecursion};
ghost use Rattle.std.specs.Option.{option_copied};
ghost use Rattle.pw_debug.specs.Knowing.{IsFrame};
ghost use Rattle.pw_debug.specs.Holding.{is_before_some, nearer, nearest, beginning, function_at, frame_of, frame_at};

use crate::info::FrameInfo;
use pw_image::Function;
use pw_value::Name;

/// Whether some function begins behind the address.
fn is_before_some(functions: &[Function], address: u32) -> bool
    ensures { result ≡ is_before_some functions.now address }
{
    functions.iter().any(|function| address < function.address)
}

/// The greater of two addresses, if the second is not behind the address.
fn nearer(address: u32, greatest: Option<u32>, begins: u32) -> Option<u32>
    ensures { result ≡ nearer address greatest begins }
{
    if address < begins {
        return greatest;
    }
    match greatest {
        Some(other) if begins < other => Some(other),
        _ => Some(begins),
    }
}

/// The greatest address at which a function begins that is not behind the address.
fn nearest(functions: &[Function], address: u32) -> Option<u32>
    ensures { result ≡ nearest address None functions.now }
{
    let mut greatest = None;
    let mut rest = functions;
    while let [function, after @ ..] = rest {
        greatest = nearer(address, greatest, function.address);
        rest = after;
    }
    greatest
}

/// The first function that begins at an address.
fn beginning(functions: &[Function], begins: u32) -> Option<&Function>
    ensures { option_copied result ≡ beginning functions.now begins }
{
    functions.iter().find(|function| function.address == begins)
}

/// The function in whose words an address lies.
fn function_at(functions: &[Function], address: u32) -> Option<&Function>
    ensures { option_copied result ≡ function_at functions.now address }
{
    if !is_before_some(functions, address) {
        return None;
    }
    let begins = nearest(functions, address)?;
    beginning(functions, begins)
}

/// What is known of a function of that name.
#[tactic(auto, using(crate::proofs::Finding::lawful_found))]
fn frame_of<'a>(frames: &'a [FrameInfo], name: &Name) -> Option<&'a FrameInfo>
    requires { AllByRecursion IsFrame frames.now }
    ensures value { option_copied result ≡ frame_of frames.now name.now }
    ensures lawful { IfSome (option_copied result) IsFrame }
{
    frames.iter().find(|frame| frame.function == *name)
}

/// What is known of the function in whose words an address lies.
pub fn frame_at<'a>(
    functions: &[Function],
    frames: &'a [FrameInfo],
    address: u32,
) -> Option<&'a FrameInfo>
    requires { AllByRecursion IsFrame frames.now }
    ensures value { option_copied result ≡ frame_at functions.now frames.now address }
    ensures lawful { IfSome (option_copied result) IsFrame }
{
    let function = function_at(functions, address)?;
    frame_of(frames, &function.name)
}
