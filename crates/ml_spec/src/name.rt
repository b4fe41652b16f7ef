// Names of items.
ghost use Rattle.std.specs.Prelude.{◌≡◌, nat_eq, IfOk};
ghost use Rattle.std.specs.Cmp.{partial_equiv_from_equiv};
ghost use Rattle.std.specs.Cmp.Lexicographic.{pointwise, nat_list_eq_equiv, bytes_decides};
ghost use Rattle.std.specs.Hash as fed;
ghost use Rattle.std.specs.Hash.{same_Alike};
ghost use Rattle.ml_spec.specs.Items.{is_name};

use ml_base::NoMemory;
use std::alloc::Global;
use std::hash::{Hash, Hasher};
use std::marker::Model;

/// The name of an item: a letter and then letters, digits, `_`, `-` and `.`, 1 to 64 bytes in all. Contracts see the bytes.
#[derive(Debug, Drop)]
pub struct ItemName {
    bytes: Vec<u8>,
}

impl Model for ItemName {
    ghost use Rattle.std.specs.Prelude.{List, ℕ, ◌≡◌, true};
    ghost use Rattle.ml_spec.specs.Items.{is_name};

    ghost Value = { List ℕ };

    ghost view = { λ n. n.bytes.items };

    ghost invariant = { λ n. is_name n.bytes.items ≡ true };
}

impl ItemName {
    ghost use Rattle.std.specs.Prelude.{true};

    /// The name with these bytes, which are one (`is_name`).
    ///
    /// # Errors
    /// `NoMemory` alone.
    pub fn new(alloc: Global, bytes: &[u8]) -> Result<ItemName, NoMemory>
        requires { is_name bytes.now ≡ true }
        ensures { IfOk result (λ n. n ≡ bytes.now) }
    {
        Ok(ItemName {
            bytes: Vec::from_slice(alloc, bytes)?,
        })
    }

    /// An equal name.
    ///
    /// # Errors
    /// `NoMemory` alone.
    pub fn copy(&self) -> Result<ItemName, NoMemory>
        ensures { IfOk result (λ n. n ≡ self.now) }
    {
        Ok(ItemName {
            bytes: self.bytes.clone()?,
        })
    }

    /// The bytes of the name.
    pub fn bytes(&self) -> &[u8]
        ensures value { result.now ≡ self.now }
        ensures is_name { is_name self.now ≡ true }
    {
        self.bytes.as_slice()
    }
}

impl PartialEq for ItemName {
    ghost eq = { pointwise nat_eq };

    ghost laws = { partial_equiv_from_equiv nat_list_eq_equiv };

    fn eq(&self, other: &ItemName) -> bool {
        self.bytes() == other.bytes()
    }
}

impl Eq for ItemName {
    ghost laws = { nat_list_eq_equiv };
}

impl Hash for ItemName {
    ghost hash_input = { fed.slice fed.u8 };

    ghost respects_eq = { (same_Alike (fed.slice fed.u8) bytes_decides).fed };

    fn hash<H: Hasher>(&self, state: &mut H) {
        self.bytes().hash(state);
    }
}
