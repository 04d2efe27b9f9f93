//! Tables of names.

ghost use Rattle.std.specs.Prelude.{◌≡◌, [], IfOk, OnOk, take, length, option_copied};
ghost use Rattle.cb_forms.specs.Find.{found, spelled_again, inside, beside, put, with_common, name_in};

use cb_lex::Memory;
use indexmap::IndexMap;
use std::alloc::Global;
use std::marker::Model;

/// Names with what they stand for, in the order in which they came. Contracts see a list of pairs.
#[derive(Drop)]
pub struct Table<M: Copy + Drop> {
    names: IndexMap<Vec<u8>, M>,
}

impl<M: Copy + Drop> Model for Table<M> {
    ghost use Rattle.std.specs.Prelude.{List, ℕ};

    ghost Value = { List (List ℕ × M) };

    ghost use Rattle.cb_forms.specs.View.{entries_of};

    ghost view = { λ t. entries_of t.names.entries };
}

// The second spelling of a name, as no name is spelled.
fn second_spelling(alloc: Global, name: &[u8]) -> Result<Vec<u8>, Memory>
    ensures { IfOk result (λ w. w.items ≡ spelled_again name.now) }
{
    let mut spelling = Vec::from_slice(alloc, name)?;
    spelling.push(b' ')?;
    Ok(spelling)
}

impl<M: Copy + Drop> Table<M> {
    /// The table without names.
    pub fn new(alloc: Global) -> Table<M>
        ensures { result ≡ [] }
    {
        Table {
            names: IndexMap::new(alloc),
        }
    }

    /// The number of names.
    pub fn len(&self) -> usize
        ensures { result ≡ length self.now }
    {
        self.names.len()
    }

    /// What the name stands for.
    pub fn find(&self, name: &[u8]) -> Option<M>
        ensures { result ≡ found name.now self.now }
    {
        self.names.get(name).copied()
    }

    /// Adds the name, but keeps a name that is there.
    pub fn enter(&mut self, alloc: Global, name: &[u8], meaning: M) -> Result<(), Memory>
        ensures { OnOk result (self.new ≡ inside name.now meaning self.old) }
    {
        if self.find(name).is_some() {
            return Ok(());
        }
        let key = Vec::from_slice(alloc, name)?;
        self.names.insert(key, meaning)?;
        Ok(())
    }

    /// What the name stands for in its second spelling.
    pub fn find_again(&self, alloc: Global, name: &[u8]) -> Result<Option<M>, Memory>
        ensures { IfOk result (λ m. m ≡ found (spelled_again name.now) self.now) }
    {
        let spelling = second_spelling(alloc, name)?;
        Ok(self.find(spelling.as_slice()))
    }

    /// Adds the name, in its second spelling where it is there already.
    #[tactic(auto, unfolding(crate::specs::Find::free_spelling))]
    pub fn enter_beside(&mut self, alloc: Global, name: &[u8], meaning: M) -> Result<(), Memory>
        ensures { OnOk result (self.new ≡ beside name.now meaning self.old) }
    {
        if self.find(name).is_none() {
            return Ok(self.enter(alloc, name, meaning)?);
        }
        let spelling = second_spelling(alloc, name)?;
        Ok(self.enter(alloc, spelling.as_slice(), meaning)?)
    }

    /// Adds the name, which stands for this even where it is there already.
    pub fn put(&mut self, alloc: Global, name: &[u8], meaning: M) -> Result<(), Memory>
        ensures { OnOk result (self.new ≡ put name.now meaning self.old) }
    {
        let key = Vec::from_slice(alloc, name)?;
        self.names.insert(key, meaning)?;
        Ok(())
    }

    // The name at the index.
    fn name_at(&self, index: usize) -> Option<&[u8]>
        ensures { option_copied result ≡ name_in self.now index }
    {
        match self.names.get_index(index) {
            Some((name, _)) => Some(name.as_slice()),
            None => None,
        }
    }

    /// Adds the names that both of the others have. They stand for this where they are not there already.
    pub fn add_common(
        &mut self,
        alloc: Global,
        first: &Table<M>,
        second: &Table<M>,
        meaning: M,
    ) -> Result<(), Memory>
        ensures { OnOk result (self.new ≡ with_common meaning self.old first.now second.now) }
    {
        for i in 0..first.len() {
            if let Some(name) = first.name_at(i) {
                if second.find(name).is_some() {
                    self.enter(alloc, name, meaning)?;
                }
            }
        }
        Ok(())
    }

    /// Leaves out the names after the first ones.
    pub fn leave(&mut self, len: usize)
        ensures { self.new ≡ take len self.old }
    {
        self.names.truncate(len);
    }
}
