//! What is known of the functions of objects.

ghost use Rattle.std.specs.Prelude.{◌≡◌, ◌++◌, List, IfOk, OnOk};
ghost use Rattle.std.specs.List.{AllByRecursion};
ghost use Rattle.pw_flow.specs.ValidFlow.{IsFunction};
ghost use Rattle.pw_db.specs.Database.{IsDirectives};
ghost use Rattle.pw_webflow.specs.Direction.{directed};
ghost use Rattle.pw_alloc_temps.specs.Temporaries.{allocated};
ghost use Rattle.pw_debug.specs.declared.info.FrameInfo.{FrameInfo as AnyInfo};
ghost use Rattle.pw_debug.specs.Knowing.{IsFrame};
ghost use Rattle.pw_debug_frames.specs.Frames.{AreFrames, AreFramesOf, IsMade, frame_info, frames_in};

use crate::reading::{flow_of, stored_of};
use crate::saving::info_of;
use pw_db::Directives;
use pw_debug::FrameInfo;
use pw_flow::FlowFn;
use pw_items::Items;
use pw_object::Object;
use pw_phase_two::{directives_for, locate};
use pw_value::Name;
use std::alloc::{AllocError, Global};

/// What is known of a function under its directives.
fn known(alloc: Global, f: &FlowFn, d: &Directives) -> Result<FrameInfo, AllocError>
    requires function { IsFunction f.now }
    requires directives { IsDirectives d.now }
    ensures value { IfOk result (λ info. info ≡ frame_info (allocated (directed f.now d.now))) }
    ensures lawful { IfOk result (λ info. IsFrame info) }
{
    let located = locate(alloc, f, d)?;
    info_of(alloc, located)
}

/// Adds what is known of functions, each under the directives that stand at its place.
fn add_known(
    alloc: Global,
    frames: &mut Items<FrameInfo>,
    functions: &[FlowFn],
    directives: &[(Name, Directives)],
) -> Result<(), AllocError>
    requires functions { AllByRecursion IsFunction functions.now }
    requires directives { AllByRecursion (λ d. IsDirectives d.1) directives.now }
    requires before { AllByRecursion IsFrame frames.old }
    ensures value { OnOk result (frames.new ≡ frames.old ++ frames_in functions.now directives.now) }
    ensures lawful { OnOk result (AllByRecursion IsFrame frames.new) }
{
    let mut rest = functions;
    let mut directives = directives;
    while let [f, after @ ..] = rest {
        let [(_, d), behind @ ..] = directives else {
            return Ok(());
        };
        frames.push(known(alloc, f, d)?)?;
        rest = after;
        directives = behind;
    }
    Ok(())
}

/// Adds what is known of the functions of an object.
fn add_frames(
    alloc: Global,
    frames: &mut Items<FrameInfo>,
    object: &Object,
) -> Result<(), AllocError>
    requires made { IsMade object.now }
    requires before { AllByRecursion IsFrame frames.old }
    ensures value { OnOk result ((own : List AnyInfo) × AreFramesOf object.now own × (frames.new ≡ frames.old ++ own)) }
    ensures lawful { OnOk result (AllByRecursion IsFrame frames.new) }
{
    let flow = flow_of(alloc, object)?;
    let stored = stored_of(alloc, object)?;
    let directives = directives_for(alloc, &flow, &stored)?;
    add_known(alloc, frames, flow.functions.as_slice(), &directives)
}

/// What is known of the functions of objects, object by object: of each function of an object's flow graph its frame, the
/// registers that it saves and where, and its webs, by the allocation of the function under its directives. Fails only
/// where memory runs out.
pub fn frames(alloc: Global, objects: &[Object]) -> Result<Items<FrameInfo>, AllocError>
    requires { AllByRecursion IsMade objects.now }
    ensures value { IfOk result (λ frames. AreFrames objects.now frames) }
    ensures lawful { IfOk result (λ frames. AllByRecursion IsFrame frames) }
{
    let mut frames = Items::new(alloc);
    let mut rest = objects;
    while let [object, after @ ..] = rest {
        add_frames(alloc, &mut frames, object)?;
        rest = after;
    }
    Ok(frames)
}
