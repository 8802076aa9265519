//! A look at a call of a program's run.

ghost use Rattle.std.specs.Prelude.{◌≡◌, ◌<◌, IfOk, IfSome, None, OnErr};
ghost use Rattle.std.specs.List.{AllByRecursion};
ghost use Rattle.pw_image.specs.declared.image.Image.{Image as AnyImage};
ghost use Rattle.pw_image.specs.Image.{Contents, IsImageFile};
ghost use Rattle.pw_machine.specs.Stops.{loaded};
ghost use Rattle.pw_debug.specs.Knowing.{IsFrame};
ghost use Rattle.pw_where.specs.Calls.{text_end};
ghost use Rattle.pw_where.specs.Looks.{HoldsImage, IsPlan, LeavesUnlooked, LookCount, LooksAs, LooksUnwritten, Shows, look_of, told_lines};

use crate::entries::{of_modules, table_of};
use crate::lines::{Told, call_line, name_at, with_values};
use crate::running::{Reached, run_to_call};
use crate::shown::{Shown, ordered};
use pw_debug::FrameInfo;
use pw_image::{Image, LoadError, read_image};
use pw_io::Source;
use pw_machine::{Machine, Stop};
use pw_object::Object;
use pw_value::FileError;
use std::alloc::{AllocError, Global};

/// What a look at a call comes to.
#[derive(Drop)]
pub enum Look {
    /// The lines: of the call, with its number and the function's name; and of each global that is a number, in byte order
    /// of the names, with its value.
    Lines(Vec<u8>),
    /// The address to which a call returns, at which a walk is lost.
    LostAt(u32),
    /// How the run stopped before the call.
    StoppedAs(Stop),
}

/// What a look needs of a program: the map, the globals that are shown, and where functions begin.
#[derive(Drop)]
pub struct Plan {
    pub image: Image,
    pub shown: Vec<Shown>,
    pub table: Vec<bool>,
}

/// What was told, as what a look comes to.
fn look_of(told: Told) -> Look
    ensures { result ≡ look_of told }
{
    match told {
        Told::Lines(text) => Look::Lines(text),
        Told::Lost(address) => Look::LostAt(address),
    }
}

/// The machine at the start of a program.
fn machine_of(alloc: Global, bytes: &[u8]) -> Result<Machine, AllocError>
    requires { HoldsImage bytes.now }
    ensures { IfOk result (λ machine. (c : Contents AnyImage) → IsImageFile bytes.now c → machine ≡ loaded c.value) }
{
    match Machine::load(alloc, bytes) {
        Ok(machine) => Ok(machine),
        Err(LoadError::NoMemory) => Err(AllocError),
        Err(LoadError::LoadFault { .. }) => unreachable!(),
    }
}

/// The image of a program, whose functions begin in its text.
fn image_of(alloc: Global, bytes: &[u8]) -> Result<Image, AllocError>
    requires { HoldsImage bytes.now }
    ensures image { IfOk result (λ image. (c : Contents AnyImage) → IsImageFile bytes.now c → image ≡ c.value) }
    ensures within { IfOk result (λ image. AllByRecursion (λ f. f.address < text_end) image.functions) }
{
    match read_image(alloc, bytes) {
        Ok(image) => Ok(image),
        Err(FileError::NoMemory) => Err(AllocError),
        Err(FileError::FileFault { .. }) => unreachable!(),
    }
}

/// What a look needs of a program that these objects were linked to.
fn plan_of(alloc: Global, bytes: &[u8], objects: &[Object]) -> Result<Plan, AllocError>
    requires { HoldsImage bytes.now }
    ensures { IfOk result (λ plan. (c : Contents AnyImage) → IsImageFile bytes.now c → IsPlan c.value objects.now plan) }
{
    let image = image_of(alloc, bytes)?;
    let shown = ordered(alloc, objects, image.globals.as_slice())?;
    let table = table_of(alloc, of_modules(objects, image.functions.as_slice()))?;
    Ok(Plan {
        image,
        shown,
        table,
    })
}

/// What is shown at a call, before which a machine stands.
fn told_at(
    alloc: Global,
    machine: &Machine,
    plan: &Plan,
    objects: &[Object],
    frames: &[FrameInfo],
    call: u64,
) -> Result<Told, AllocError>
    requires { AllByRecursion IsFrame frames.now }
    ensures { IfOk result (λ told. (image : AnyImage) → IsPlan image objects.now plan.now → Shows image objects.now frames.now call machine.now.core (told_lines told)) }
{
    let functions = plan.image.functions.as_slice();
    let name = name_at(of_modules(objects, functions), machine.front());
    let text = call_line(alloc, call, name)?;
    with_values(text, machine, functions, frames, &plan.shown)
}

/// A look at a call, from the start of a program.
fn look_from<I: Source>(
    alloc: Global,
    machine: &mut Machine,
    plan: &Plan,
    objects: &[Object],
    frames: &[FrameInfo],
    call: u64,
    budget: u64,
    input: &mut I,
) -> Result<Look, AllocError>
    requires frames { AllByRecursion IsFrame frames.now }
    requires first { 0 < call }
    requires going { machine.old.core.stopped ≡ None }
    ensures look { (image : AnyImage) → IsPlan image objects.now plan.now → machine.old ≡ loaded image → IfSome (I.rest input.old) (λ rest. IfOk result (λ look. LooksAs image objects.now frames.now call budget rest look (I.rest input.new))) }
    ensures memory { (image : AnyImage) → IsPlan image objects.now plan.now → machine.old ≡ loaded image → IfSome (I.rest input.old) (λ rest. OnErr result (LeavesUnlooked image objects.now call budget rest (I.rest input.new))) }
    ensures read { LookCount (I.faults input.old) (I.faults input.new) result }
    ensures unwritten { LooksUnwritten result }
{
    match run_to_call(machine, input, &plan.table, call, budget) {
        Reached::AtCall => {
            let told = told_at(alloc, machine, plan, objects, frames, call)?;
            Ok(look_of(told))
        }
        Reached::StoppedBefore(stop) => Ok(Look::StoppedAs(stop)),
    }
}

/// A look at the call of a number, counted from 1, in the run of a program from its start, for at most so many steps: what is
/// shown directly before it; or how the run stopped before. The bytes are those of the file of the image that the objects,
/// in byte order of the modules, were linked to. The run reads `input`, and nothing of its output is kept.
///
/// A call is a step before which the machine stands, not nullified, at the start of a function that a module defines, but for
/// `$start`.
pub fn look_at_call<I: Source>(
    alloc: Global,
    bytes: &[u8],
    objects: &[Object],
    frames: &[FrameInfo],
    call: u64,
    budget: u64,
    input: &mut I,
) -> Result<Look, AllocError>
    requires image { HoldsImage bytes.now }
    requires frames { AllByRecursion IsFrame frames.now }
    requires first { 0 < call }
    ensures look { IfSome (I.rest input.old) (λ rest. (c : Contents AnyImage) → IsImageFile bytes.now c → IfOk result (λ look. LooksAs c.value objects.now frames.now call budget rest look (I.rest input.new))) }
    ensures memory { IfSome (I.rest input.old) (λ rest. (c : Contents AnyImage) → IsImageFile bytes.now c → OnErr result (LeavesUnlooked c.value objects.now call budget rest (I.rest input.new))) }
    ensures read { LookCount (I.faults input.old) (I.faults input.new) result }
    ensures unwritten { LooksUnwritten result }
{
    let plan = plan_of(alloc, bytes, objects)?;
    let mut machine = machine_of(alloc, bytes)?;
    look_from(
        alloc,
        &mut machine,
        &plan,
        objects,
        frames,
        call,
        budget,
        input,
    )
}
