//! The webs that a function enters.

ghost use Rattle.std.specs.Prelude.{◌≡◌};
ghost use Rattle.pw_alloc.specs.Allocation.{is_entry, is_entered};

use pw_db::{Role, Web};

/// Whether the function enters the web.
pub fn is_entry(role: Role) -> bool
    ensures { result ≡ is_entry role }
{
    match role {
        Role::Entry => true,
        Role::Member => false,
    }
}

/// Whether the function enters a web of this register.
pub fn is_entered(webs: &[(Web, Role)], r: u8) -> bool
    ensures { result ≡ is_entered webs.now r }
{
    let mut rest = webs;
    while let [web, after @ ..] = rest {
        if web.0.reg == r && is_entry(web.1) {
            return true;
        }
        rest = after;
    }
    false
}
