//! Names in the order of declaration.

use crate::names::Declaration;
use cal_terms::NoMemory;
use csl_tree::name::{Name, Text};
use std::alloc::Global;
use std::collections::BTreeMap;
use std::marker::Model;

/// A visible name, and what it stands for.
#[derive(Drop)]
struct Entry {
    name: Text,
    declaration: Declaration,
}

impl Model for Entry {
    ghost use Rattle.std.specs.Prelude.{List, ℕ};
    ghost use Rattle.type_check.specs.declared.names.Declaration.{Declaration};

    ghost Value = { List ℕ × Declaration };

    ghost view = { λ e. (e.name, e.declaration) };
}

/// What each visible name stands for, in the order of declaration.
///
/// Each visible name has its place among the entries in `places`. A name that is no longer visible may have a place there too:
/// none, or one where another name stands now.
#[derive(Drop)]
pub struct Table {
    alloc: Global,
    entries: Vec<Entry>,
    places: BTreeMap<Vec<u8>, usize>,
}

impl Model for Table {
    ghost use Rattle.type_check.specs.Names.{Names};
    ghost use Rattle.type_check.specs.Places.{HavePlaces};

    ghost Value = { Names };

    ghost view = { λ t. t.entries.items };

    ghost invariant = { λ t. HavePlaces t.places t.entries.items };
}

impl Table {
    ghost use Rattle.std.specs.Prelude.{◌≡◌, [], ◌∷◌, ◌++◌, length, take, OnOk, OnErr};
    ghost use Rattle.std.specs.Option.{option_copied};
    ghost use Rattle.type_check.specs.Names.{meant, declare};

    pub fn new(alloc: Global) -> Table
        ensures { result ≡ [] }
    {
        Table {
            alloc,
            entries: Vec::new(alloc),
            places: BTreeMap::new(alloc),
        }
    }

    /// How many names there are.
    pub fn len(&self) -> usize
        ensures { result ≡ length self.now }
    {
        self.entries.len()
    }

    /// What a name stands for, if it is here.
    pub fn get(&self, name: &Name) -> Option<&Declaration>
        ensures { option_copied result ≡ meant self.now name.now }
    {
        let place = self.places.get(name.text.as_slice())?;
        let entry = self.entries.get(*place)?;
        if entry.name.as_slice() == name.text.as_slice() {
            Some(&entry.declaration)
        } else {
            None
        }
    }

    /// A name that is not here yet.
    pub(crate) fn add(&mut self, name: &Name, declaration: Declaration) -> Result<(), NoMemory>
        requires { meant self.old name.now ≡ None }
        ensures ok { OnOk result (self.new ≡ self.old ++ (name.now.text, declaration) ∷ []) }
        ensures err { OnErr result (self.new ≡ self.old) }
    {
        let key = Vec::from_slice(self.alloc, name.text.as_slice())?;
        let text = Text::from_slice(self.alloc, name.text.as_slice())?;
        self.places.insert(key, self.entries.len())?;
        self.entries.push(Entry {
            name: text,
            declaration,
        })?;
        Ok(())
    }

    /// One more name. One that is here already keeps its declaration.
    pub fn declare(&mut self, name: &Name, declaration: Declaration) -> Result<(), NoMemory>
        ensures ok { OnOk result (self.new ≡ declare self.old name.now declaration) }
        ensures err { OnErr result (self.new ≡ self.old) }
    {
        if self.get(name).is_none() {
            self.add(name, declaration)?;
        }
        Ok(())
    }

    /// Keeps the first names, as at the end of a block.
    pub fn truncate(&mut self, len: usize)
        ensures { self.new ≡ take len self.old }
    {
        self.entries.truncate(len);
    }
}
