//! The main law from C to words, without code: the laws of all layers give the agreement of source and machine.
#![tactic(auto)]

ghost use Rattle.pw_law_layers.specs.Guarding.{CallersHoldNothingThere, SoundDirectivesGuard};
ghost use Rattle.pw_law_layers.specs.Rooms.{PlacesFit, MapHasFrames};
ghost use Rattle.pw_law_layers.specs.Whole.{AllFramesFit, LayersCompose, LayersHold, LoweredHaveRooms, LoweredImplements, RefinementGoesThrough};

use pw_db_sound::callers_leave_free_registers_alone;
use pw_law_link::laws::modules_stand_in_order;
use pw_law_lower::frames_fit;
use pw_law_slots::placement_keeps_runs;

/// Where each run from the source to the machine refines the one before it, the machine's refines the source's.
pub fn refinement_goes_through()
    ensures { RefinementGoesThrough }
{}

/// The frame of a function whose places serve it is at most the room of its flow graph.
#[tactic(auto, using(crate::proofs::Fitting::places_fit))]
pub fn places_fit_their_rooms()
    ensures { PlacesFit }
{}

/// The map of a linked image has the frames that its functions take, and none for the library's.
pub fn maps_have_frames()
    ensures { MapHasFrames }
{
    modules_stand_in_order();
}

/// No function of an accepted program takes more room in the lowered flow graphs than in its source.
pub fn lowered_have_rooms()
    ensures { LoweredHaveRooms }
{
    frames_fit();
}

/// From the law of lowering follows: the lowered flow graphs of an accepted program of checked texts implement it: they do
/// what it means, and no function takes more room than its source.
pub fn lowering_implements()
    ensures { LoweredImplements }
{
    lowered_have_rooms();
}

/// Under sound directives a register that a function may leave with something else in it, each of its callers may leave so
/// too, or saves.
pub fn sound_directives_guard()
    ensures { SoundDirectivesGuard }
{
    callers_leave_free_registers_alone();
}

/// Under sound directives whoever calls a function that is free to use a register holds nothing in it over the call: none of its
/// webs has the register, and no temporary that it needs behind the call.
pub fn callers_hold_nothing_there()
    ensures { CallersHoldNothingThere }
{
    callers_leave_free_registers_alone();
}

/// From what the layers keep of one program, with its directives and its places, follows: the source agrees with the
/// machine; each global has its value in its place at each call and return; and where the source is defined, each return
/// keeps the registers, and the traffic law holds.
pub fn layers_hold()
    ensures { LayersHold }
{}

/// What `layers_hold` says follows of each built program from the laws of selection and linking, and from those of
/// direction and of places for the program's own directives and places. The flow graphs that it was built of are any
/// that implement the program.
pub fn layers_compose()
    ensures { LayersCompose }
{
    maps_have_frames();
    placement_keeps_runs();
    sound_directives_guard();
    layers_hold();
}

/// Of flow graphs that have rooms, laid out with places that serve, the frame of each function in the image's map is at most the
/// function's room.
pub fn frames_are_within_rooms()
    ensures { AllFramesFit }
{
    places_fit_their_rooms();
    maps_have_frames();
}
