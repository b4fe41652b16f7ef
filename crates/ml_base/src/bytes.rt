// The bytes of a name or an action: few stand in the value itself, more in an allocation of their own. Nearly every name
// is short, and a structure has one for each of its edges.
ghost use Rattle.std.specs.Prelude.{◌≡◌, IfOk};

use std::alloc::{AllocError, Global};
use std::fmt::{self, Write};
use std::marker::Model;

// How many bytes stand in the value: with their number they fill one word of the machine.
const MOST_INLINE: usize = 7;

/// A list of bytes that doesn't change. Contracts see the bytes.
//
// An enum would say it as well, but whoever drops one has to look at its variants.
#[derive(Drop)]
pub(crate) struct Bytes {
    inline: [u8; MOST_INLINE],
    len: u8,
    allocated: Vec<u8>,
}

impl Model for Bytes {
    ghost use Rattle.std.specs.Prelude.{List, ℕ, [], ◌≡◌, ◌≤◌, ◌⊎◌, ◌++◌, take};
    ghost use Rattle.ml_base.specs.declared.bytes.TheConstants.{MOST_INLINE};

    ghost Value = { List ℕ };

    ghost view = { λ b. take b.len b.inline ++ b.allocated.items };

    ghost invariant = { λ b. (b.len ≤ MOST_INLINE) × ((b.len ≡ 0) ⊎ (b.allocated.items ≡ [])) };
}

impl Bytes {
    /// These bytes. Where there are few, nothing is allocated.
    pub fn from_slice(alloc: Global, slice: &[u8]) -> Result<Bytes, AllocError>
        ensures { IfOk result (λ b. b ≡ slice.now) }
    {
        let mut inline = [0; MOST_INLINE];
        if slice.len() > MOST_INLINE {
            return Ok(Bytes {
                inline,
                len: 0,
                allocated: Vec::from_slice(alloc, slice)?,
            });
        }
        inline[..slice.len()].copy_from_slice(slice);
        Ok(Bytes {
            inline,
            len: slice.len() as u8,
            allocated: Vec::new(alloc),
        })
    }

    /// The bytes.
    #[inline(always)]
    pub fn as_slice(&self) -> &[u8]
        ensures { result.now ≡ self.now }
    {
        if self.allocated.is_empty() {
            &self.inline[..usize::from(self.len)]
        } else {
            self.allocated.as_slice()
        }
    }
}

impl Clone for Bytes {
    ghost is_clone = { λ a b. b ≡ a };

    fn clone(&self) -> Result<Bytes, AllocError> {
        Bytes::from_slice(*self.allocated.allocator(), self.as_slice())
    }
}

impl fmt::Debug for Bytes {
    fn fmt<W: Write>(&self, f: &mut fmt::Formatter<W>) -> fmt::Result {
        self.as_slice().fmt(f)
    }
}
