// What items mean: their formulas with bounded operators and definitions written out.
//
// Once an item has meant too large a formula, none is made any more: no text with such an item is a specification.
ghost use Rattle.std.specs.Prelude.{ℕ, ◌≡◌, ◌<◌, ◌++◌, ◌∷◌, [], List, true, IfOk, IsSome, MatchOption, OnOk};
ghost use Rattle.ml_text.specs.Limits.{most_occurrences};
ghost use Rattle.ml_ctl.specs.Enumerations.{ArePropositions};
ghost use Rattle.ml_front.specs.Connectives as connectives;
ghost use Rattle.ml_front.specs.Definitions.{definitions_in, logic_defined};
ghost use Rattle.ml_front.specs.Enumerations as enumerations;
ghost use Rattle.ml_front.specs.Replaced as replacing;
ghost use Rattle.ml_spec.specs.Known.{known};
ghost use Rattle.ml_spec.specs.Statements.{value_names, Statement};
ghost use Rattle.ml_spec.specs.Statements as says;
ghost use Rattle.ml_spec.specs.private.Stages.{AreMeant};
ghost use Rattle.ml_written.specs.Propositions.{has_enumerations};
ghost use Rattle.ml_written.specs.Written as spec;

use crate::context::Meanings;
use crate::kind::Kind;
use crate::name::ItemName;
use crate::specification::Item;
use ml_base::{Name, NoMemory};
use ml_front::{AnyFormula, Definitions, Logic, enumeration, keeps, replaced};
use ml_written::{Written, meaning};
use std::alloc::Global;

// what a formula of a text means by definitions; `None` exactly where that has more than 1,000 occurrences
fn meant(
    alloc: Global,
    written: Written,
    definitions: &Definitions,
) -> Result<Option<AnyFormula>, NoMemory>
    requires { spec.written_logic written ≡ logic_defined definitions.now }
    ensures { IfOk result (λ made. MatchOption made
        (most_occurrences < connectives.occurrences (replacing.replaced (definitions_in definitions.now) (spec.meaning written)))
        (λ f. f ≡ replacing.replaced (definitions_in definitions.now) (spec.meaning written))) }
{
    match meaning(alloc, written)? {
        Some(formula) => replaced(alloc, &formula, definitions),
        None => Ok(None),
    }
}

// adds the item that states a formula
pub(crate) fn add_stated(
    alloc: Global,
    kind: Kind,
    name: ItemName,
    written: Written,
    at: usize,
    meanings: &mut Meanings,
) -> Result<(), NoMemory>
    requires { spec.written_logic written ≡ logic_defined meanings.old.definitions }
    ensures logic { OnOk result (logic_defined meanings.new.definitions ≡ logic_defined meanings.old.definitions) }
    ensures meant { (ss : List Statement)
        → AreMeant (logic_defined meanings.old.definitions) ss meanings.old.items.items meanings.old.definitions meanings.old.large
        → OnOk result (AreMeant (logic_defined meanings.old.definitions)
        (ss ++ record { at = at; says = says.Stated kind name written } ∷ [])
        meanings.new.items.items meanings.new.definitions meanings.new.large) }
{
    if meanings.large.is_some() {
        return Ok(());
    }
    match meant(alloc, written, &meanings.definitions)? {
        Some(formula) => {
            keeps(&formula);
            meanings.items.push(Item {
                kind,
                name,
                formula,
            })?;
        }
        None => meanings.large = Some(at),
    }
    Ok(())
}

// adds the requirement that an enumeration is, with the propositions of its values
pub(crate) fn add_enumeration(
    alloc: Global,
    logic: Logic,
    name: ItemName,
    values: &[Name],
    at: usize,
    meanings: &mut Meanings,
) -> Result<(), NoMemory>
    requires logic { has_enumerations logic ≡ true }
    requires same_logic { logic_defined meanings.old.definitions ≡ logic }
    requires propositions { ArePropositions values.now }
    ensures logic { OnOk result (logic_defined meanings.new.definitions ≡ logic) }
    ensures meant { (ss : List Statement) (vs : List (List ℕ))
        → values.now ≡ value_names name vs
        → AreMeant logic ss meanings.old.items.items meanings.old.definitions meanings.old.large
        → OnOk result (AreMeant logic (ss ++ record { at = at; says = says.Enumeration name vs } ∷ [])
        meanings.new.items.items meanings.new.definitions meanings.new.large) }
{
    if meanings.large.is_some() {
        return Ok(());
    }
    match enumeration(alloc, logic, values)? {
        Some(formula) => {
            keeps(&formula);
            meanings.items.push(Item {
                kind: Kind::Require,
                name,
                formula,
            })?;
        }
        None => meanings.large = Some(at),
    }
    Ok(())
}

// adds a definition
pub(crate) fn add_definition(
    alloc: Global,
    logic: Logic,
    name: Name,
    written: Written,
    at: usize,
    meanings: &mut Meanings,
) -> Result<(), NoMemory>
    requires logic { logic_defined meanings.old.definitions ≡ logic }
    requires written { spec.written_logic written ≡ logic }
    ensures logic { OnOk result (logic_defined meanings.new.definitions ≡ logic) }
    ensures meant { (ss : List Statement)
        → AreMeant logic ss meanings.old.items.items meanings.old.definitions meanings.old.large
        → OnOk result (AreMeant logic (ss ++ record { at = at; says = says.Definition name written } ∷ [])
        meanings.new.items.items meanings.new.definitions meanings.new.large) }
{
    if meanings.large.is_some() {
        return Ok(());
    }
    match meant(alloc, written, &meanings.definitions)? {
        Some(formula) => {
            keeps(&formula);
            let definitions = std::mem::replace(
                &mut meanings.definitions,
                Definitions::new(alloc, logic),
            );
            meanings.definitions = definitions.with(name, formula)?;
        }
        None => meanings.large = Some(at),
    }
    Ok(())
}
