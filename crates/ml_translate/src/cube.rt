// Cubes: literals in the order of their propositions, each proposition once.
ghost use Rattle.std.specs.Prelude.{◌≡◌, ◌≤◌, List, MatchOption, IfOk, length};
ghost use Rattle.ml_lists.specs.Ascending.{IsAscending};
ghost use Rattle.ml_labelled.specs.declared.labelled.Literal.{Literal};
ghost use Rattle.ml_translate.specs.Places.{IsJoined};
ghost use Rattle.ml_labelled.specs.CubeEquality.{cube_eq, cube_eq_equiv, cube_writes};
ghost use Rattle.ml_translate.specs.private.Finding as finding;
ghost use Rattle.ml_translate.specs.private.Finding.{IsSplit, props_of};

use ml_base::NoMemory;
use ml_labelled::Literal;
use std::alloc::{AllocError, Global};
use std::hash::{Hash, Hasher};
use std::marker::Model;

// The literals of a cube. Contracts see the list.
#[derive(Drop)]
pub(crate) struct Cube {
    literals: Vec<Literal>,
}

impl Model for Cube {
    ghost use Rattle.std.specs.Prelude.{List};
    ghost use Rattle.ml_labelled.specs.declared.labelled.Literal.{Literal};

    ghost Value = { List Literal };

    ghost view = { λ c. c.literals.items };
}

impl Cube {
    pub(crate) fn of(literals: Vec<Literal>) -> Cube
        ensures { result ≡ literals.items }
    {
        Cube { literals }
    }

    pub(crate) fn literals(&self) -> &[Literal]
        ensures { result.now ≡ self.now }
    {
        &self.literals
    }

    pub(crate) fn into_literals(self) -> Vec<Literal>
        ensures { result.items ≡ self }
    {
        let Cube { literals } = self;
        literals
    }

    pub(crate) fn copy(&self) -> Result<Cube, AllocError>
        ensures { IfOk result (λ c. c ≡ self.now) }
    {
        Ok(Cube::of(Vec::from_slice(*self.literals.allocator(), &self.literals)?))
    }
}

impl PartialEq for Cube {
    ghost use Rattle.std.specs.Cmp.{partial_equiv_from_equiv};

    ghost eq = { cube_eq };

    ghost laws = { partial_equiv_from_equiv cube_eq_equiv };

    fn eq(&self, other: &Cube) -> bool {
        self.literals == other.literals
    }
}

impl Eq for Cube {
    ghost laws = { cube_eq_equiv };
}

impl Hash for Cube {
    ghost use Rattle.std.proofs.Common.{ap};
    ghost use Rattle.ml_labelled.specs.CubeEquality.{cube_eq-same};

    ghost hash_input = { cube_writes };

    ghost respects_eq = { λ c d e. ap cube_writes (cube_eq-same c d e) };

    fn hash<H: Hasher>(&self, state: &mut H) {
        self.literals.hash(state);
    }
}

// how many literals of a cube have lower propositions
fn split(cube: &[Literal], prop: u32) -> usize
    ensures { IsSplit cube.now prop result }
{
    for (i, literal) in cube.iter().enumerate() {
        if literal.prop >= prop {
            return i;
        }
    }
    cube.len()
}

// the literals with one more behind the first `at`
fn inserted(
    alloc: Global,
    cube: &[Literal],
    at: usize,
    literal: Literal,
) -> Result<Cube, AllocError>
    requires { at ≤ length cube.now }
    ensures { IfOk result (λ c. c ≡ finding.inserted cube.now at literal) }
{
    let mut literals = Vec::with_capacity(alloc, cube.len().saturating_add(1))?;
    literals.extend_from_slice(&cube[..at])?;
    literals.push(literal)?;
    literals.extend_from_slice(&cube[at..])?;
    Ok(Cube::of(literals))
}

// the cube with a literal, unless it has the other sign of its proposition
pub(crate) fn joined(
    alloc: Global,
    cube: &[Literal],
    literal: Literal,
) -> Result<Option<Cube>, NoMemory>
    requires { IsAscending (props_of cube.now) }
    ensures { IfOk result (λ o. MatchOption o ((d : List Literal) → ¬ (IsJoined cube.now literal d)) (IsJoined cube.now literal)) }
{
    let at = split(cube, literal.prop);
    if at == cube.len() {
        return Ok(Some(inserted(alloc, cube, at, literal)?));
    }
    let known = cube[at];
    if known.prop != literal.prop {
        return Ok(Some(inserted(alloc, cube, at, literal)?));
    }
    if known.positive != literal.positive {
        return Ok(None);
    }
    Ok(Some(Cube::of(Vec::from_slice(alloc, cube)?)))
}
