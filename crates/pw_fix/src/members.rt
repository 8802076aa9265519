//! The numbers of a set, rising.

ghost use Rattle.std.specs.Iterator.{YieldsFirst, item_count};
ghost use Rattle.std.specs.Prelude.{◌≡◌};

use crate::bit_row::BitRow;

/// An iterator over the numbers of a `BitRow`, rising.
#[derive(Drop)]
pub struct Members<'a> {
    row: &'a BitRow,
    at: usize,
}

impl BitRow {
    ghost use Rattle.pw_fix.specs.Iteration.{rest_of};
    ghost use Rattle.pw_fix.specs.Row.{members};

    /// The numbers of the set, rising.
    pub fn iter(&self) -> Members<'_>
        ensures { rest_of result ≡ members self.now }
    {
        Members { row: self, at: 0 }
    }
}

impl<'a> Iterator for Members<'a> {
    ghost use Rattle.pw_fix.specs.Iteration.{rest_of};

    type Item = usize;

    ghost next_gives = { YieldsFirst rest_of };

    ghost remaining = { item_count rest_of };

    fn next(&mut self) -> Option<usize> {
        if self.at >= self.row.len {
            return None;
        }
        let i = self.row.next_from(self.at)?;
        self.at = i + 1;
        Some(i)
    }
}
