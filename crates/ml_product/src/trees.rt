// Where sides began to be chosen.
ghost use Rattle.std.specs.Prelude.{◌≡◌, [], IfOk, length};
ghost use Rattle.ml_product.specs.private.Numbers.{IsNamed};

use crate::numbers::number_of;
use crate::stored::Site;
use indexmap::IndexSet;
use ml_base::NoMemory;
use std::alloc::Global;

/// The sequents with histories with which sides were chosen, each with the number of the position at which this began.
#[derive(Drop)]
pub(crate) struct Trees {
    sites: IndexSet<Site>,
    tops: Vec<u32>,
}

impl Trees {
    // no side was chosen yet
    pub(crate) fn new(alloc: Global) -> Trees
        ensures sites { result.sites.keys ≡ [] }
        ensures tops { result.tops.items ≡ [] }
    {
        Trees {
            sites: IndexSet::new(alloc),
            tops: Vec::new(alloc),
        }
    }

    // the position at which sides began to be chosen with a sequent and a history; this one, if none were
    pub(crate) fn top(&mut self, site: Site, v: u32) -> Result<u32, NoMemory>
        requires { length self.old.sites.keys ≡ length self.old.tops.items }
        ensures { IfOk result
            (IsNamed self.old.sites.keys self.old.tops.items site v self.new.sites.keys self.new.tops.items) }
    {
        number_of(&mut self.sites, &mut self.tops, site, v)
    }
}
