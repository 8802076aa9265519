//! Webs that a function enters: they are loaded where it begins, and stored back where it returns.

ghost use Rattle.std.specs.Prelude.{◌≡◌, ◌++◌, None, Some, IfSome, IfNone, OnOk};
ghost use Rattle.pw_select.specs.Selection.{entered_web, lines_of_web, loaded_web, stored_back, webs_loaded, webs_stored};

use pw_alloc::is_entry;
use pw_db::{FIRST_REGISTER, LAST_REGISTER, Role, Web};
use pw_inst::Line;
use pw_items::Items;
use pw_select_lines::{put_read, put_write};
use std::alloc::{AllocError, Global};

/// The web of a register among those that are entered.
fn entered_web<'a>(webs: &'a [(Web, Role)], r: u8) -> Option<&'a Web>
    ensures found { IfSome result (λ w. entered_web webs.now r ≡ Some w.now) }
    ensures none { IfNone result (entered_web webs.now r ≡ None) }
{
    let mut rest = webs;
    while let [web, after @ ..] = rest {
        if web.0.reg == r && is_entry(web.1) {
            return Some(&web.0);
        }
        rest = after;
    }
    None
}

/// The global of the web that is entered in a register comes to it.
fn put_web_loaded(
    alloc: Global,
    out: &mut Items<Line>,
    webs: &[(Web, Role)],
    r: u8,
) -> Result<(), AllocError>
    ensures { OnOk result (out.new ≡ out.old ++ lines_of_web loaded_web (entered_web webs.now r)) }
{
    match entered_web(webs, r) {
        Some(web) => put_read(alloc, out, &web.global, web.kind, web.reg),
        None => Ok(()),
    }
}

/// The register of the web that is entered in it goes back to its global, where the web writes.
fn put_web_stored(
    alloc: Global,
    out: &mut Items<Line>,
    webs: &[(Web, Role)],
    r: u8,
) -> Result<(), AllocError>
    ensures { OnOk result (out.new ≡ out.old ++ lines_of_web stored_back (entered_web webs.now r)) }
{
    match entered_web(webs, r) {
        Some(web) => {
            if web.writes {
                put_write(alloc, out, &web.global, web.kind, web.reg)
            } else {
                Ok(())
            }
        }
        None => Ok(()),
    }
}

/// The globals of entered webs come to their registers, in the registers' order.
pub fn put_webs_loaded(
    alloc: Global,
    out: &mut Items<Line>,
    webs: &[(Web, Role)],
) -> Result<(), AllocError>
    ensures { OnOk result (out.new ≡ out.old ++ webs_loaded webs.now) }
{
    for r in FIRST_REGISTER..LAST_REGISTER + 1 {
        put_web_loaded(alloc, out, webs, r)?;
    }
    Ok(())
}

/// The registers of entered webs that write go back to their globals, in the registers' order.
pub fn put_webs_stored(
    alloc: Global,
    out: &mut Items<Line>,
    webs: &[(Web, Role)],
) -> Result<(), AllocError>
    ensures { OnOk result (out.new ≡ out.old ++ webs_stored webs.now) }
{
    for r in FIRST_REGISTER..LAST_REGISTER + 1 {
        put_web_stored(alloc, out, webs, r)?;
    }
    Ok(())
}
