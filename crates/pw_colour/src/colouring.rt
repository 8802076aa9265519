//! The registers of webs.

ghost use Rattle.std.specs.Prelude.{◌≡◌, ◌≤◌, ◌<◌, ◌↔◌, ◌⊎◌, ℕ, [], length, All, IfOk, IfSome, IfNone, vec_len};
ghost use Rattle.pw_db.specs.Database.{EachTwo};
ghost use Rattle.pw_webs.specs.Webs.{IsSameWeb};
ghost use Rattle.pw_colour.specs.Colours.{AreColoured};
ghost use Rattle.pw_colour.specs.Giving.{AreAllBusy, IsLeastFree, IsColourOf, IsGiven, paired};
ghost use Rattle.pw_db.specs.Limits.{colour_limit};

use pw_db::FIRST_REGISTER;
use pw_fix::{BitRow, BitRows};
use pw_graph_refs::join;
use pw_webs::RawWeb;
use std::alloc::{AllocError, Global};

/// The least colour that no function of a web has yet.
fn least_free(busy: &BitRows, members: &BitRow) -> Option<usize>
    requires { members.now.len ≡ busy.now.len }
    ensures found { IfSome result (IsLeastFree busy.now members.now) }
    ensures none { IfNone result (AreAllBusy busy.now members.now) }
{
    for colour in 0..busy.rows.len() {
        if !busy.row(colour).intersects(members) {
            return Some(colour);
        }
    }
    None
}

/// The colour of a web behind those that made colours busy.
fn colour_of(busy: &BitRows, web: &RawWeb) -> Option<usize>
    requires { web.now.members.len ≡ busy.now.len }
    ensures { IsColourOf busy.now web.now result }
{
    if web.priority <= 0 {
        return None;
    }
    least_free(busy, &web.members)
}

/// The register of a web, which is busy in its functions from now on.
fn give(busy: &mut BitRows, web: &RawWeb) -> Option<u8>
    requires members { web.now.members.len ≡ busy.old.len }
    requires few { vec_len busy.old.rows ≤ colour_limit }
    ensures count { vec_len busy.new.rows ≡ vec_len busy.old.rows }
    ensures length { busy.new.len ≡ busy.old.len }
    ensures given { IsGiven busy.old busy.new web.now result }
{
    let colour = colour_of(busy, web)?;
    join(busy, colour, &web.members);
    Some(FIRST_REGISTER + colour as u8)
}

/// The register of each web, in their order.
pub(crate) fn registers(
    alloc: Global,
    functions: usize,
    colours: u8,
    webs: &[RawWeb],
) -> Result<Vec<Option<u8>>, AllocError>
    requires few { colours ≤ colour_limit }
    requires places { All (λ (w : RawWeb). w.members.len ≡ functions) webs.now }
    requires differ { EachTwo (λ u w. ¬ IsSameWeb u w) webs.now }
    ensures count { IfOk result (λ v. length v.items ≡ length webs.now) }
    ensures coloured { IfOk result (λ v. AreColoured colours [] (paired webs.now v.items)) }
{
    let mut busy = BitRows::new(alloc, colours as usize, functions)?;
    let mut found = Vec::with_capacity(alloc, webs.len())?;
    for web in webs {
        found.push(give(&mut busy, web))?;
    }
    Ok(found)
}
