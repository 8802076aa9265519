//! The structure and union types of a module.

ghost use Rattle.std.specs.Prelude.{◌≡◌, [], ◌∷◌, ◌++◌, length, slice_get, slice_set, option_map, OnErr, IfOk};
ghost use Rattle.std.specs.Option.{option_copied};
ghost use Rattle.pw_types.specs.Records.{Follows, IsLaid, declared, defined, kind_at};
ghost use Rattle.pw_types.specs.Views.{view_content, view_record, view_records};

use crate::record::{Content, RecordKind, RecordType};
use pw_value::words::word_of;
use std::alloc::{AllocError, Global};
use std::marker::Model;

/// The structure and union types of a module, by number from 0 on in the order of declaration. A
/// contract sees it as that list.
#[derive(Drop)]
pub struct Types {
    records: Vec<RecordType>,
}

impl Model for Types {
    ghost use Rattle.std.specs.Prelude.{List};
    ghost use Rattle.pw_types.specs.Codes.{records_code};
    ghost use Rattle.pw_types.specs.Records.{IsLaid};
    ghost use Rattle.pw_types.specs.TypeTrees.{RecordValue};
    ghost use Rattle.pw_types.specs.Views.{view_records};

    ghost Value = { List RecordValue };

    ghost coded = { records_code };

    ghost view = { λ inside. view_records inside.records.items };

    ghost invariant = { λ inside. IsLaid (view_records inside.records.items) };
}

impl Types {
    /// A module without structures and unions yet.
    pub fn new(alloc: Global) -> Types
        ensures { result ≡ [] }
    {
        Types {
            records: Vec::new(alloc),
        }
    }

    /// The types in order. What stands in each that is defined follows from its members.
    pub fn records(&self) -> &[RecordType]
        ensures records { view_records result.now ≡ self.now }
        ensures laid { IsLaid self.now }
    {
        self.records.as_slice()
    }

    /// The type of a number, or None where no type has it.
    pub fn record(&self, number: u32) -> Option<&RecordType>
        ensures { option_map view_record (option_copied result) ≡ slice_get self.now number }
    {
        self.records.get(number as usize)
    }

    /// Puts a type that is not defined yet behind the others, and answers its number.
    pub fn declare(&mut self, kind: RecordKind) -> Result<u32, AllocError>
        ensures number { IfOk result (λ number. number ≡ length self.old) }
        ensures ok { IfOk result (λ number. self.new ≡ self.old ++ declared kind ∷ []) }
        ensures err { OnErr result (self.new ≡ self.old) }
    {
        let number = word_of(self.records.len())?;
        self.records.push(RecordType {
            kind,
            content: None,
        })?;
        Ok(number)
    }

    /// Defines a type by a content that follows from its members.
    pub fn define(&mut self, number: u32, content: Content)
        requires undefined { slice_get self.old number ≡ Some (declared (kind_at self.old number)) }
        requires follows { Follows self.old (kind_at self.old number) (view_content content) }
        ensures { self.new ≡ slice_set self.old number (defined (kind_at self.old number) (view_content content)) }
    {
        let kind = self.records[number as usize].kind;
        self.records[number as usize] = RecordType {
            kind,
            content: Some(content),
        };
    }
}
