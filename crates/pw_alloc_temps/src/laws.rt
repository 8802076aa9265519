//! The laws of registers and places.

ghost use Rattle.std.specs.Prelude.{◌≡◌, ℕ, false, List, length, Some, slice_get, Contains};
ghost use Rattle.pw_flow.specs.Outline.{Outline};
ghost use Rattle.pw_live.specs.Interference.{interfere};
ghost use Rattle.pw_webflow.specs.declared.web.WebFn.{WebFn};
ghost use Rattle.pw_webflow.specs.ValidWebs.{IsWebFn};
ghost use Rattle.pw_alloc.specs.ValidPlaces.{IsLocated};
ghost use Rattle.pw_alloc_temps.specs.Registers.{allowed, registers};
ghost use Rattle.pw_alloc_temps.specs.Temporaries.{allocated};

/// What temporaries are given: of each one it is told whether it has a register; two that have one register do not
/// interfere; and each register is one that the temporary may have.
pub fn registers_keep_apart()
    ensures count { (f : Outline) → (webs cluster : List ℕ) → length (registers f webs cluster) ≡ f.temps }
    ensures apart { (f : Outline) → (webs cluster : List ℕ) → (a b r : ℕ) → slice_get (registers f webs cluster) a ≡ Some (Some r) → slice_get (registers f webs cluster) b ≡ Some (Some r) → interfere f a b ≡ false }
    ensures allowed { (f : Outline) → (webs cluster : List ℕ) → (t r : ℕ) → slice_get (registers f webs cluster) t ≡ Some (Some r) → Contains (allowed f webs cluster t) r }
{}

/// What allocation gives a lawful function is lawful: a place for each temporary, each a word of the frame or a register that no
/// web of the function has; the registers that a callee keeps and the function changes are saved, in rising order; and the frame
/// is as large as all that needs.
pub fn allocation_is_lawful()
    ensures { (f : WebFn) → IsWebFn f → IsLocated (allocated f) }
{}
