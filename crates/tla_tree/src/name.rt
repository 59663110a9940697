//! Names, texts, and lists of names.

ghost use Rattle.std.specs.Prelude.{◌≡◌, ◌==◌, ◌++◌, ◌∷◌, [], IfOk, OnOk, OnErr, IsTrue, ◌↔◌, length};
ghost use Rattle.std.proofs.Common.{rules};
ghost use Rattle.std.specs.Cmp.Rules.{comparing, hashing};
ghost use Rattle.std.specs.Cmp.Lexicographic.{pointwise};
ghost use Rattle.std.specs.Hash as fed;
ghost use Rattle.tla_token.specs.Signs.{is_among};

use std::alloc::{AllocError, AllocFailed, Global};
use std::hash::{Hash, Hasher};
use std::marker::Model;
use tla_token::Place;

/// A name, as its bytes. Contracts see the list of its bytes.
#[derive(Drop)]
pub struct Name {
    bytes: Vec<u8>,
}

impl Model for Name {
    ghost use Rattle.std.specs.Prelude.{ℕ, List};

    ghost Value = { List ℕ };

    ghost view = { λ n. n.bytes.items };
}

impl Name {
    /// The name of these bytes.
    pub fn new(bytes: Vec<u8>) -> Self
        ensures { result ≡ bytes.items }
    {
        Name { bytes }
    }

    /// Its bytes.
    pub fn bytes(&self) -> &[u8]
        ensures { result.now ≡ self.now }
    {
        self.bytes.as_slice()
    }

    /// The same name once more.
    ///
    /// # Errors
    ///
    /// Only for want of memory.
    pub fn copied(&self) -> Result<Name, AllocError>
        ensures { IfOk result (λ n. n ≡ self.now) }
    {
        let bytes = self.bytes.clone()?;
        Ok(Name { bytes })
    }

    /// Whether the two are the same name.
    pub fn is(&self, other: &Name) -> bool
        ensures { IsTrue result ↔ (self.now ≡ other.now) }
    {
        self.bytes.as_slice() == other.bytes.as_slice()
    }
}

impl PartialEq for Name {
    ghost eq = { pointwise ◌==◌ };

    ghost laws = { Prim.search (comparing, rules) };

    fn eq(&self, other: &Name) -> bool {
        self.bytes == other.bytes
    }
}

impl Eq for Name {
    ghost laws = { Prim.search (comparing, rules) };
}

impl Hash for Name {
    ghost hash_input = { λ a. fed.slice fed.u8 a };

    ghost respects_eq = { Prim.search (hashing, rules) };

    fn hash<H: Hasher>(&self, state: &mut H) {
        self.bytes.hash(state);
    }
}

/// A name where it is: one that is bound. Contracts see the pure name, a word with its place.
#[derive(Drop)]
pub struct PlacedName {
    pub name: Name,
    pub place: Place,
}

impl Model for PlacedName {
    ghost use Rattle.tla_tree.specs.Tree as pure;
    ghost use Rattle.tla_tree.specs.Code.{name_code};

    ghost Value = { pure.Name };

    ghost coded = { name_code };

    ghost view = { λ n. record { word = n.name; place = n.place } };
}

impl PlacedName {
    /// The same name once more, at the same place.
    ///
    /// # Errors
    ///
    /// Only for want of memory.
    pub fn copied(&self) -> Result<PlacedName, AllocError>
        ensures { IfOk result (λ n. n ≡ self.now) }
    {
        Ok(PlacedName {
            name: self.name.copied()?,
            place: self.place,
        })
    }

    /// Whether the two are the same name at the same place.
    pub fn is(&self, other: &PlacedName) -> bool
        ensures { IsTrue result ↔ (self.now ≡ other.now) }
    {
        self.name.is(&other.name) && self.place == other.place
    }
}

/// A text, as its bytes: a string, or what is written. Contracts see the list of its bytes.
#[derive(Drop)]
pub struct Text {
    bytes: Vec<u8>,
}

impl Model for Text {
    ghost use Rattle.std.specs.Prelude.{ℕ, List};

    ghost Value = { List ℕ };

    ghost view = { λ t. t.bytes.items };
}

impl Text {
    /// The text of these bytes.
    pub fn new(bytes: Vec<u8>) -> Self
        ensures { result ≡ bytes.items }
    {
        Text { bytes }
    }

    /// Its bytes.
    pub fn bytes(&self) -> &[u8]
        ensures { result.now ≡ self.now }
    {
        self.bytes.as_slice()
    }

    /// The bytes alone.
    pub fn into_bytes(self) -> Vec<u8>
        ensures { result.items ≡ self }
    {
        self.bytes
    }

    /// The same text once more.
    ///
    /// # Errors
    ///
    /// Only for want of memory.
    pub fn copied(&self) -> Result<Text, AllocError>
        ensures { IfOk result (λ t. t ≡ self.now) }
    {
        let bytes = self.bytes.clone()?;
        Ok(Text { bytes })
    }

    /// One more byte at the end; without memory for it the text is as before.
    ///
    /// # Errors
    ///
    /// Only for want of memory.
    pub fn push(&mut self, b: u8) -> Result<(), AllocError>
        ensures ok { OnOk result (self.new ≡ self.old ++ (b ∷ [])) }
        ensures err { OnErr result (self.new ≡ self.old) }
    {
        self.bytes.push(b)?;
        Ok(())
    }

    /// More bytes at the end; without memory for them the text is as before.
    ///
    /// # Errors
    ///
    /// Only for want of memory.
    pub fn extend(&mut self, bytes: &[u8]) -> Result<(), AllocError>
        ensures ok { OnOk result (self.new ≡ self.old ++ bytes.now) }
        ensures err { OnErr result (self.new ≡ self.old) }
    {
        self.bytes.extend_from_slice(bytes)
    }

    /// Whether the two are the same text.
    pub fn is(&self, other: &Text) -> bool
        ensures { IsTrue result ↔ (self.now ≡ other.now) }
    {
        self.bytes() == other.bytes()
    }
}

/// Names in a row. Contracts see the list of the names.
#[derive(Drop)]
pub struct NameList {
    names: Vec<Name>,
}

impl Model for NameList {
    ghost use Rattle.std.specs.Prelude.{ℕ, List};

    ghost Value = { List (List ℕ) };

    ghost view = { λ l. l.names.items };
}

impl NameList {
    /// No name.
    pub fn new(alloc: Global) -> Self
        ensures { result ≡ [] }
    {
        NameList {
            names: Vec::new(alloc),
        }
    }

    /// One more name at the end; without memory for it the list is as before.
    ///
    /// # Errors
    ///
    /// Only for want of memory.
    pub fn push(&mut self, name: Name) -> Result<(), AllocError>
        ensures ok { OnOk result (self.new ≡ self.old ++ (name ∷ [])) }
        ensures err { OnErr result (self.new ≡ self.old) }
    {
        self.names.push(name)?;
        Ok(())
    }

    /// The names, from the first on.
    pub fn as_slice(&self) -> &[Name]
        ensures { result.now ≡ self.now }
    {
        self.names.as_slice()
    }

    /// How many they are.
    pub fn len(&self) -> usize
        ensures { result ≡ length self.now }
    {
        self.names.len()
    }

    /// Whether one of them is this name.
    pub fn contains(&self, name: &Name) -> bool
        ensures { result ≡ is_among self.now name.now }
    {
        self.names.contains(name)
    }

    /// The same names once more.
    ///
    /// # Errors
    ///
    /// Only for want of memory.
    pub fn copied(&self, alloc: Global) -> Result<NameList, AllocError>
        ensures { IfOk result (λ l. l ≡ self.now) }
    {
        let mut names = Vec::new(alloc);
        for name in &self.names {
            names.push(name.copied()?)?;
        }
        Ok(NameList { names })
    }

    /// Whether the two are the same names in the same order.
    pub fn is(&self, other: &NameList) -> bool
        ensures { IsTrue result ↔ (self.now ≡ other.now) }
    {
        self.names == other.names
    }
}
