//! The webs that were read before.

ghost use Rattle.std.specs.Prelude.{◌≡◌, ℕ, [], ◌∷◌, ◌++◌, map, option_map, IfOk};
ghost use Rattle.std.specs.Ordering.{nat_cmp};
ghost use Rattle.std.specs.BTreeMap.{get};
ghost use Rattle.pw_db_file.specs.Reading.{first_with};
ghost use Rattle.pw_db_file.specs.Seen.{known_web, place_with};

use pw_db::Web;
use pw_value::{Kind, Name};
use std::alloc::{AllocError, Global};
use std::collections::BTreeMap;

/// A web that was read, its global's name in the table of names.
#[derive(Clone, Copy)]
pub(crate) struct Known<'b> {
    pub id: u32,
    pub global: &'b Name,
    pub kind: Kind,
    pub reg: u8,
    pub writes: bool,
}

/// Webs in the order of reading, and the place at which each number stands first.
#[derive(Drop)]
pub(crate) struct Seen<'b> {
    webs: Vec<Known<'b>>,
    places: BTreeMap<u32, usize>,
    ghost indexed: { (id : ℕ) → get nat_cmp places id ≡ place_with id (map known_web webs.items) },
}

impl<'b> Known<'b> {
    /// The web, with a name of its own.
    pub fn web(self, alloc: Global) -> Result<Web, AllocError>
        ensures { IfOk result (λ w. w ≡ known_web self.entry) }
    {
        Ok(Web {
            id: self.id,
            global: self.global.copy(alloc)?,
            kind: self.kind,
            reg: self.reg,
            writes: self.writes,
        })
    }
}

impl<'b> Seen<'b> {
    /// No webs.
    pub fn new(alloc: Global) -> Seen<'b>
        ensures { map known_web result.webs.items ≡ [] }
    {
        Seen {
            webs: Vec::new(alloc),
            places: BTreeMap::new(alloc),
        }
    }

    /// The first web of a number.
    pub fn first(&self, id: u32) -> Option<Known<'b>>
        ensures { option_map known_web result ≡ first_with id (map known_web self.now.webs.items) }
    {
        match self.places.get(&id) {
            None => None,
            Some(place) => self.webs.get(*place).copied(),
        }
    }

    /// The same webs with one behind them.
    pub fn with(self, web: Known<'b>) -> Result<Seen<'b>, AllocError>
        ensures { IfOk result (λ seen. map known_web seen.webs.items ≡ map known_web self.entry.webs.items ++ known_web web.entry ∷ []) }
    {
        let Seen {
            mut webs,
            mut places,
        } = self;
        if places.get(&web.id).is_none() {
            places.insert(web.id, webs.len())?;
        }
        webs.push(web)?;
        Ok(Seen { webs, places })
    }
}
