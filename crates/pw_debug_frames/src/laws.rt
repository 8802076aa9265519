//! Laws of frames. A function here does nothing: its clauses are facts about all values.

ghost use Rattle.std.specs.Prelude.{◌≡◌, ℕ, List, map};
ghost use Rattle.pw_flow.specs.declared.flow.FlowModule.{FlowModule};
ghost use Rattle.pw_db.specs.declared.database.Directives.{Directives};
ghost use Rattle.pw_object.specs.declared.object.Object.{Object};
ghost use Rattle.pw_phase_two.specs.Phases.{AreDirectivesOf, IsObjectOf};
ghost use Rattle.pw_debug.specs.declared.info.FrameInfo.{FrameInfo};
ghost use Rattle.pw_debug_frames.specs.Frames.{AreFrames, AreFramesOf, frames_in, known_as, made_as};

use pw_db::laws::directives_are_one;
use pw_db_file::laws::databases_and_payloads_are_one_to_one;
use pw_flowfile::laws::flow_graphs_and_files_are_one_to_one;

/// What is known of the functions of an object that the second phase made of a flow graph and directives is that of these,
/// and for each function that stands in the object, in its order, it has the name and the frame.
pub fn made_objects_have_their_frames()
    ensures frames { (flow : FlowModule) (directives : List (List ℕ × Directives)) (o : Object) (frames : List FrameInfo) → AreDirectivesOf flow directives → IsObjectOf flow directives o → AreFramesOf o frames → frames ≡ frames_in flow.functions directives }
    ensures named { (flow : FlowModule) (directives : List (List ℕ × Directives)) (o : Object) (frames : List FrameInfo) → AreDirectivesOf flow directives → IsObjectOf flow directives o → AreFramesOf o frames → map known_as frames ≡ map made_as o.functions }
{
    flow_graphs_and_files_are_one_to_one();
    databases_and_payloads_are_one_to_one();
    directives_are_one();
}

/// What is known of the functions of objects is one.
pub fn objects_have_one_list_of_frames()
    ensures { (objects : List Object) (a b : List FrameInfo) → AreFrames objects a → AreFrames objects b → a ≡ b }
{
    flow_graphs_and_files_are_one_to_one();
    databases_and_payloads_are_one_to_one();
    directives_are_one();
}
