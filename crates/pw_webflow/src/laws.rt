//! The law of outlines.

ghost use Rattle.std.specs.Prelude.{◌≡◌};
ghost use Rattle.pw_db.specs.declared.database.Directives.{Directives};
ghost use Rattle.pw_flow.specs.Outline.{outline_of};
ghost use Rattle.pw_flow.specs.declared.flow.FlowFn.{FlowFn};
ghost use Rattle.pw_webflow.specs.Direction.{directed};
ghost use Rattle.pw_webflow.specs.WebOutline.{web_outline};

/// Direction leaves the outline of a function as it is: an access of a global and the copy from or to
/// its register read and write the same temporaries, and neither calls.
pub fn outlines_stay()
    ensures { (f : FlowFn) → (d : Directives) → web_outline (directed f d) ≡ outline_of f }
{}
