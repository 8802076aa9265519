//! Where a function keeps the registers that it saves.

ghost use Rattle.std.specs.Prelude.{◌≡◌, IfOk};
ghost use Rattle.pw_alloc.specs.ValidPlaces.{IsLocated};
ghost use Rattle.pw_debug.specs.Knowing.{IsFrame};
ghost use Rattle.pw_debug_frames.specs.Frames.{frame_info, save_places};

use pw_alloc::{Located, below, head_size};
use pw_debug::FrameInfo;
use pw_items::Items;
use pw_webflow::WebFn;
use std::alloc::{AllocError, Global};

/// Each register that a function saves, with its offset from the stack pointer, in bytes.
#[tactic(auto, using(pw_alloc::proofs::FrameLaws::few_arguments, pw_alloc::proofs::SavedLaws::few_kept))]
pub fn save_places(alloc: Global, f: &Located) -> Result<Items<(u8, i32)>, AllocError>
    requires { IsLocated f.now }
    ensures { IfOk result (λ places. places ≡ save_places f.now) }
{
    let head = head_size(&f.body);
    let mut places = Items::new(alloc);
    let mut i: u32 = 0;
    let mut rest = f.saved.as_slice();
    while let [r, after @ ..] = rest {
        places.push((*r, below(head + 4 * (i + 1))))?;
        i += 1;
        rest = after;
    }
    Ok(places)
}

/// What is known of a function with places.
#[tactic(auto, using(crate::proofs::FrameLemmas::info_lawful))]
pub(crate) fn info_of(alloc: Global, f: Located) -> Result<FrameInfo, AllocError>
    requires { IsLocated f }
    ensures value { IfOk result (λ info. info ≡ frame_info f) }
    ensures lawful { IfOk result (λ info. IsFrame info) }
{
    let saved = save_places(alloc, &f)?;
    let Located { body, frame, .. } = f;
    let WebFn {
        name,
        directives,
        ..
    } = body;
    Ok(FrameInfo {
        function: name,
        frame,
        saved,
        webs: directives.webs,
    })
}
