//! Rows as one block sees them.

ghost use Rattle.std.specs.Prelude.{◌≡◌, slice_set};
ghost use Rattle.pw_opt_rules.specs.Rows.{known};
ghost use Rattle.pw_opt_rules.specs.Copies.{without_copies};
ghost use Rattle.pw_opt_places.specs.Places.{IsAtHome};
ghost use Rattle.pw_opt_rows.specs.Seeing.{IsRowOf, rested, seen_by};

use crate::row::Row;
use pw_opt_places::Places;
use pw_opt_rules::Flat;

/// Rows as one block sees them: what is known of each temporary of the function. Of what another block has for itself nothing is
/// known.
#[derive(Clone, Copy)]
pub struct View<'a> {
    pub places: &'a Places,
    pub block: usize,
}

impl<'a> View<'a> {
    /// What is known of a temporary.
    pub fn get(&self, row: &Row, t: u32) -> Flat
        ensures { result ≡ known (seen_by self.now row.now) t }
    {
        row.get(self.block, self.places.at(t))
    }

    /// Sets what is known of a temporary that is at home in the block. Past the end it does nothing.
    pub fn set(&self, row: &mut Row, t: u32, to: Flat)
        requires home { IsAtHome self.now.places.now.places.items self.now.block t }
        requires row { IsRowOf self.now.places.now row.old }
        ensures seen { seen_by self.now row.new ≡ slice_set (seen_by self.now row.old) t to }
        ensures row { IsRowOf self.now.places.now row.new }
    {
        row.set(self.places.at(t), to);
    }

    /// Forgets what is known of what the block has for itself.
    pub fn renew(&self, row: &mut Row)
        requires { IsRowOf self.now.places.now row.old }
        ensures seen { seen_by self.now row.new ≡ rested self.now.places.now.places.items row.old.0 }
        ensures row { IsRowOf self.now.places.now row.new }
    {
        row.renew(self.places.count(self.block));
    }

    /// Forgets of each temporary that it is a copy of this one.
    pub fn forget(&self, row: &mut Row, of: u32)
        requires { IsRowOf self.now.places.now row.old }
        ensures seen { seen_by self.now row.new ≡ without_copies (seen_by self.now row.old) of }
        ensures row { IsRowOf self.now.places.now row.new }
    {
        row.forget(self.places.count(self.block), of);
    }
}
