//! What does not change in a run.

ghost use Rattle.std.specs.Prelude.{◌≡◌, map, option_map, slice_get, IfOk};
ghost use Rattle.pw_cmean.specs.Worlds as worlds;
ghost use Rattle.pw_interp_world.specs.Views.{view_program};
ghost use Rattle.pw_interp_calls.specs.Frames.{frame_in, frame_among};
ghost use Rattle.pw_interp_calls.specs.Functions.{callable_of, defined_in};
ghost use Rattle.pw_interp_calls.specs.WorldViews.{view_world};

use pw_check_names::NameList;
use pw_interp_world::{Body, LibraryFunction, Part, World as Names};
use pw_typed::TFunction;
use pw_value::{Name, Pointer};
use std::alloc::{AllocError, Global};

/// What does not change in a run: the program with its names, the frame that each function takes on the stack by its
/// full name (in bytes; of a name that does not come 0), and the room of the stack.
#[derive(Drop)]
pub struct World<'a> {
    pub names: &'a Names<'a>,
    pub framed: NameList<'a>,
    pub frames: Vec<u32>,
    pub stack: u32,
}

/// The names of frames as a list with a table.
fn framed_names<'a>(alloc: Global, frames: &'a [(Name, u32)]) -> Result<NameList<'a>, AllocError>
    ensures { IfOk result (λ list. list ≡ map (λ f. f.0) frames.now) }
{
    let mut list = NameList::new(alloc);
    for frame in frames {
        list.push(frame.0.as_bytes())?;
    }
    Ok(list)
}

/// The sizes of frames.
fn frame_sizes(alloc: Global, frames: &[(Name, u32)]) -> Result<Vec<u32>, AllocError>
    ensures { IfOk result (λ sizes. sizes.items ≡ map (λ f. f.1) frames.now) }
{
    let mut sizes = Vec::new(alloc);
    for frame in frames {
        sizes.push(frame.1)?;
    }
    Ok(sizes)
}

/// The frame of a name among these, of several the first; 0 where it is not among them.
fn frame_by(framed: &NameList, frames: &[u32], name: &[u8]) -> u32
    ensures { result ≡ frame_in framed.now frames.now name.now }
{
    match framed.position(name) {
        Some(place) => frames.get(place as usize).copied().unwrap_or(0),
        None => 0,
    }
}

/// The function of a place among those that the modules define.
fn defined_at<'a>(parts: &'a [Part<'a>], place: usize) -> Option<(Part<'a>, &'a TFunction)>
    ensures { option_map (λ d. callable_of (Body.Defined d.0 d.1)) result ≡ slice_get (defined_in parts.now) place }
{
    let mut left = place;
    for part in parts {
        let functions = part.tree.functions.as_slice();
        if left < functions.len() {
            return Some((*part, &functions[left]));
        }
        left -= functions.len();
    }
    None
}

/// The function of a place among all functions of a program, those of the library first.
fn function_in<'a>(parts: &'a [Part<'a>], place: usize) -> Option<Body<'a>>
    ensures { option_map callable_of result ≡ slice_get (worlds.functions_of (view_program parts.now)) place }
{
    match place {
        0 => Some(Body::Library(LibraryFunction::ExitRun)),
        1 => Some(Body::Library(LibraryFunction::GetChar)),
        2 => Some(Body::Library(LibraryFunction::PutChar)),
        _ => {
            let (part, function) = defined_at(parts, place - 3)?;
            Some(Body::Defined(part, function))
        }
    }
}

impl<'a> World<'a> {
    /// The world of a program, with the frames by their functions' full names and the room of the stack.
    pub fn new(
        alloc: Global,
        names: &'a Names<'a>,
        frames: &'a [(Name, u32)],
        stack: u32,
    ) -> Result<World<'a>, AllocError>
        ensures { IfOk result (λ world. view_world world ≡ record { program = view_program names.now.parts.now; frame_of = frame_among frames.now; stack = stack }) }
    {
        let framed = framed_names(alloc, frames)?;
        let frames = frame_sizes(alloc, frames)?;
        Ok(World {
            names,
            framed,
            frames,
            stack,
        })
    }

    /// The pointer to what a full name denotes: an object, or else a function.
    pub fn pointer_to(&self, name: &[u8]) -> Option<Pointer>
        ensures { result ≡ worlds.pointer_to (view_world self.now).program name.now 0 }
    {
        self.names.pointer_to(name, 0)
    }

    /// The function of a full name.
    pub fn function_named(&self, name: &[u8]) -> Option<Body<'a>>
        ensures { option_map callable_of result ≡ worlds.function_named (view_world self.now).program name.now }
    {
        let place = self.names.place_named(name)?;
        function_in(self.names.parts, place as usize)
    }

    /// The function of a number, by which pointers tell functions apart.
    pub fn function_at(&self, number: u32) -> Option<Body<'a>>
        ensures { option_map callable_of result ≡ worlds.function_at (view_world self.now).program number }
    {
        let place = self.names.place_numbered(number)?;
        function_in(self.names.parts, place)
    }

    /// The frame that a function takes on the stack, by its full name.
    pub fn frame(&self, name: &[u8]) -> u32
        ensures { result ≡ (view_world self.now).frame_of name.now }
    {
        frame_by(&self.framed, &self.frames, name)
    }
}
