// Names and actions.
ghost use Rattle.std.specs.Prelude.{◌≡◌, IfOk, OnOk, IsErrOf, codes};
ghost use Rattle.std.specs.List.{list_all};
ghost use Rattle.ml_base.specs.Name as name;

use crate::bytes::Bytes;
use crate::no_memory::NoMemory;
use std::alloc::{AllocError, Global};
use std::marker::Model;
use thiserror::Error;

/// Why bytes became no name or action.
#[derive(Clone, Copy, Debug, PartialEq, Eq, Error)]
pub enum NameRefusal {
    /// The bytes aren't one.
    #[error("not a name")]
    NotAName,
    #[error("out of memory")]
    NoMemory,
}

impl From<NoMemory> for NameRefusal {
    ghost use Rattle.ml_base.specs.declared.name.NameRefusal.TheVariants as refusal;

    ghost from_gives = { λ _ e. e ≡ refusal.NoMemory };

    fn from(_: NoMemory) -> NameRefusal {
        NameRefusal::NoMemory
    }
}

impl From<AllocError> for NameRefusal {
    ghost use Rattle.ml_base.specs.declared.name.NameRefusal.TheVariants as refusal;

    ghost from_gives = { λ _ e. e ≡ refusal.NoMemory };

    fn from(_: AllocError) -> NameRefusal {
        NameRefusal::NoMemory
    }
}

/// How many bytes a name has at most.
pub const LONGEST_NAME: usize = 64;

/// A name: an ASCII letter and then letters, digits and `_`, 1 to 64 bytes in all. Contracts see the bytes.
#[derive(Debug, Drop)]
pub struct Name {
    bytes: Bytes,
}

impl Model for Name {
    ghost use Rattle.std.specs.Prelude.{List, ℕ};
    ghost use Rattle.ml_base.specs.Name.{IsName};

    ghost Value = { List ℕ };

    ghost view = { λ n. n.bytes };

    ghost invariant = { λ n. IsName n.bytes };
}

impl Name {
    /// The name with these bytes.
    ///
    /// # Errors
    /// `NotAName` exactly where the bytes aren't a name; `NoMemory`.
    ///
    /// Cost: linear in the bytes.
    pub fn new(alloc: Global, text: &[u8]) -> Result<Name, NameRefusal>
        ensures bytes { IfOk result (λ n. n ≡ text.now) }
        ensures is_name { OnOk result (name.IsName text.now) }
        ensures refused { IsErrOf result NameRefusal.NotAName → ¬ (name.IsName text.now) }
    {
        if !is_name(text) {
            return Err(NameRefusal::NotAName);
        }
        Ok(Name {
            bytes: Bytes::from_slice(alloc, text)?,
        })
    }

    /// The name with these bytes, which are known to be one.
    ///
    /// # Errors
    /// `NoMemory` alone.
    ///
    /// Cost: linear in the bytes.
    pub fn from_bytes(alloc: Global, bytes: &[u8]) -> Result<Name, NoMemory>
        requires { name.IsName bytes.now }
        ensures { IfOk result (λ n. n ≡ bytes.now) }
    {
        Ok(Name {
            bytes: Bytes::from_slice(alloc, bytes)?,
        })
    }

    /// The bytes of the name.
    pub fn bytes(&self) -> &[u8]
        ensures value { result.now ≡ self.now }
        ensures is_name { name.IsName result.now }
    {
        self.bytes.as_slice()
    }

    /// An equal name.
    ///
    /// # Errors
    /// `NoMemory` alone.
    pub fn copy(&self) -> Result<Name, NoMemory>
        ensures { IfOk result (λ n. n ≡ self.now) }
    {
        Ok(self.clone()?)
    }
}

impl Clone for Name {
    ghost is_clone = { λ a b. b ≡ a };

    fn clone(&self) -> Result<Name, AllocError> {
        Ok(Name {
            bytes: self.bytes.clone()?,
        })
    }
}

/// An action: a name, or the one byte `_`. Contracts see the bytes.
#[derive(Debug, Drop)]
pub struct Action {
    bytes: Bytes,
}

impl Model for Action {
    ghost use Rattle.std.specs.Prelude.{List, ℕ};
    ghost use Rattle.ml_base.specs.Name.{IsAction};

    ghost Value = { List ℕ };

    ghost view = { λ a. a.bytes };

    ghost invariant = { λ a. IsAction a.bytes };
}

impl Action {
    /// The action with these bytes.
    ///
    /// # Errors
    /// `NotAName` exactly where the bytes aren't a name or the one byte `_`; `NoMemory`.
    ///
    /// Cost: linear in the bytes.
    pub fn new(alloc: Global, text: &[u8]) -> Result<Action, NameRefusal>
        ensures bytes { IfOk result (λ a. a ≡ text.now) }
        ensures is_action { OnOk result (name.IsAction text.now) }
        ensures refused { IsErrOf result NameRefusal.NotAName → ¬ (name.IsAction text.now) }
    {
        if !is_name(text) && !is_blank_action(text) {
            return Err(NameRefusal::NotAName);
        }
        Ok(Action {
            bytes: Bytes::from_slice(alloc, text)?,
        })
    }

    /// The action with the bytes of a name.
    pub fn from_name(name: Name) -> Action
        ensures { result ≡ name }
    {
        let Name { bytes } = name;
        Action { bytes }
    }

    /// The action `_`.
    ///
    /// # Errors
    /// `NoMemory` alone.
    pub fn blank(alloc: Global) -> Result<Action, NoMemory>
        ensures { IfOk result (λ a. a ≡ codes "_") }
    {
        Ok(Action {
            bytes: Bytes::from_slice(alloc, b"_")?,
        })
    }

    /// The bytes of the action.
    pub fn bytes(&self) -> &[u8]
        ensures value { result.now ≡ self.now }
        ensures is_action { name.IsAction result.now }
    {
        self.bytes.as_slice()
    }

    /// An equal action.
    ///
    /// # Errors
    /// `NoMemory` alone.
    pub fn copy(&self) -> Result<Action, NoMemory>
        ensures { IfOk result (λ a. a ≡ self.now) }
    {
        Ok(self.clone()?)
    }
}

impl Clone for Action {
    ghost is_clone = { λ a b. b ≡ a };

    fn clone(&self) -> Result<Action, AllocError> {
        Ok(Action {
            bytes: self.bytes.clone()?,
        })
    }
}

#[tactic(auto, using(crate::proofs::Names::is_name_parts))]
fn is_name(text: &[u8]) -> bool
    ensures { result ≡ name.is_name text.now }
{
    match text {
        [] => false,
        [first, rest @ ..] => {
            first.is_ascii_alphabetic() && are_name_bytes(rest) && text.len() <= LONGEST_NAME
        }
    }
}

fn are_name_bytes(text: &[u8]) -> bool
    ensures { result ≡ list_all name.is_name_byte text.now }
{
    text.iter().all(|byte| is_name_byte(*byte))
}

fn is_name_byte(byte: u8) -> bool
    ensures { result ≡ name.is_name_byte byte }
{
    byte.is_ascii_alphanumeric() || byte == b'_'
}

fn is_blank_action(text: &[u8]) -> bool
    ensures { result ≡ name.is_blank_action text.now }
{
    match text {
        [byte] => *byte == b'_',
        _ => false,
    }
}
