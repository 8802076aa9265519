//! The law. The function here does nothing: its clause is a fact about all values.

ghost use Rattle.std.specs.Prelude.{◌≡◌, Bool, List, [], map};
ghost use Rattle.std.specs.List.{flat_map};
ghost use Rattle.pw_db.specs.Database.{IsDatabase};
ghost use Rattle.pw_flow.specs.declared.flow.FlowModule.{FlowModule};
ghost use Rattle.pw_object.specs.declared.object.Object.{Object};
ghost use Rattle.pw_alloc_temps.specs.Temporaries.{allocated};
ghost use Rattle.pw_build_objects.specs.Programs.{AreObjectsFrom, DirectivesList};
ghost use Rattle.pw_run_languages.specs.Direction.{directed_by};
ghost use Rattle.pw_debug.specs.declared.info.FrameInfo.{FrameInfo};
ghost use Rattle.pw_debug_frames.specs.Frames.{AreFrames, frame_info};

use pw_db::laws::directives_are_one;
use pw_debug_frames::laws::made_objects_have_their_frames;

/// Of objects that were made of flow graphs and of a database, nothing being kept, the debugger knows the frames of their
/// functions in their order, each as its allocation under its directives in the database has it.
pub fn built_objects_have_their_frames()
    ensures { (db : DirectivesList) (flows : List FlowModule) (os : List Object) (fresh : List Bool) (frames : List FrameInfo) → IsDatabase db → AreObjectsFrom db flows [] os fresh → AreFrames os frames →
        frames ≡ map frame_info (map allocated (map (directed_by db) (flat_map (λ m. m.functions) flows))) }
{
    directives_are_one();
    made_objects_have_their_frames();
}
