//! Names.

ghost use Rattle.std.specs.Prelude.{◌≡◌, IfOk, bytes_eq};
ghost use Rattle.cb_term.specs.Names.{same_name};

use crate::Memory;
use sqlite_items::Items;
use std::alloc::Global;
use std::marker::Model;

/// The letters of a name. Contracts see its bytes.
#[derive(Debug, Drop)]
pub struct NameText {
    bytes: Vec<u8>,
}

impl Model for NameText {
    ghost use Rattle.std.specs.Prelude.{List, ℕ};

    ghost Value = { List ℕ };

    ghost view = { λ t. t.bytes.items };
}

impl NameText {
    /// The text with these bytes.
    pub fn from_vec(bytes: Vec<u8>) -> NameText
        ensures { result ≡ bytes.items }
    {
        NameText { bytes }
    }

    /// The text with these bytes.
    pub fn from_slice(alloc: Global, bytes: &[u8]) -> Result<NameText, Memory>
        ensures { IfOk result (λ t. t ≡ bytes.now) }
    {
        let bytes = Vec::from_slice(alloc, bytes)?;
        Ok(NameText { bytes })
    }

    /// The bytes of the text.
    pub fn as_slice(&self) -> &[u8]
        ensures { result.now ≡ self.now }
    {
        self.bytes.as_slice()
    }

    /// Whether the texts are the same.
    pub fn is_same(&self, other: &NameText) -> bool
        ensures { result ≡ bytes_eq self.now other.now }
    {
        self.as_slice() == other.as_slice()
    }

    /// The same text again.
    pub fn copy(&self, alloc: Global) -> Result<NameText, Memory>
        ensures { IfOk result (λ t. t ≡ self.now) }
    {
        NameText::from_slice(alloc, self.as_slice())
    }
}

/// A name: its text, and a number, which is 0 for the name as it is written and k for the opened name `text#k`.
#[derive(Debug, Drop)]
pub struct Name {
    pub text: NameText,
    pub number: u32,
}

/// Names in order.
pub type Names = Items<Name>;

impl Name {
    /// Whether the names are the same.
    pub fn is_same(&self, other: &Name) -> bool
        ensures { result ≡ same_name self.now other.now }
    {
        self.number == other.number && self.text.is_same(&other.text)
    }

    /// The same name again.
    pub fn copy(&self, alloc: Global) -> Result<Name, Memory>
        ensures { IfOk result (λ n. n ≡ self.now) }
    {
        Ok(Name {
            text: self.text.copy(alloc)?,
            number: self.number,
        })
    }
}
