// The binders around a place in a formula.
ghost use Rattle.std.specs.Prelude.{◌≡◌, unwrap_or, IfOk, OnOk};
ghost use Rattle.ml_mu_graph.specs.private.NodeList as listed;
ghost use Rattle.ml_mu_graph.specs.private.Views.{none_around, around};

use ml_base::{Name, NoMemory};
use std::alloc::Global;
use std::collections::HashMap;

// of each variable with a binder around, the occurrence of the innermost one
#[derive(Drop)]
pub(crate) struct Binders<'a> {
    innermost: HashMap<&'a Name, u32>,
}

impl<'a> Binders<'a> {
    // no binders
    pub(crate) fn new(alloc: Global) -> Binders<'a>
        ensures { around result ≡ none_around }
    {
        Binders {
            innermost: HashMap::new(alloc),
        }
    }

    // the occurrence of the innermost binder of the variable, or 0
    pub(crate) fn of(&self, variable: &'a Name) -> u32
        ensures { result ≡ around self.now variable.now }
    {
        self.innermost.get(&variable).copied().unwrap_or(0)
    }

    // a binder of the variable is entered; what comes back is the one around it
    pub(crate) fn enter(&mut self, variable: &'a Name, at: u32) -> Result<Option<u32>, NoMemory>
        ensures inside { OnOk result (around self.new ≡ listed.bound variable.now at (around self.old)) }
        ensures outer { IfOk result (λ outer. unwrap_or outer 0 ≡ around self.old variable.now) }
    {
        Ok(self.innermost.insert(variable, at)?)
    }

    // a binder of the variable is left for the one around it
    pub(crate) fn leave(&mut self, variable: &'a Name, outer: Option<u32>) -> Result<(), NoMemory>
        ensures { OnOk result (around self.new ≡ listed.bound variable.now (unwrap_or outer 0) (around self.old)) }
    {
        match outer {
            Some(at) => {
                self.innermost.insert(variable, at)?;
            }
            None => {
                self.innermost.remove(&variable);
            }
        }
        Ok(())
    }
}
