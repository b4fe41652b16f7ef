// Laws over the definitions alone: no caller runs these functions, their contracts are the theorems.
ghost use Rattle.std.specs.Prelude.{◌≡◌, ◌↔◌, ◌⊎◌, ℕ, List};
ghost use Rattle.ml_base.specs.declared.name.TheConstants.{LONGEST_NAME};
ghost use Rattle.ml_lists.specs.Ascending.{IsAscending, ascending, insert_once};
ghost use Rattle.ml_lists.specs.Member.{IsMember};

/// A finite set of numbers is one ascending list: two with the same members are equal.
#[tactic(auto, using(crate::proofs::IdSets::one_list))]
pub fn one_list_for_each_set()
    ensures { (xs ys : List ℕ) → IsAscending xs → IsAscending ys → ((x : ℕ) → IsMember x xs ↔ IsMember x ys) → xs ≡ ys }
{}

/// A number put into a set makes an ascending list, whose members are that number and those of the set.
pub fn inserted_is_the_set()
    ensures { (x : ℕ) (xs : List ℕ) → IsAscending xs →
        IsAscending (insert_once x xs) × ((y : ℕ) → IsMember y (insert_once x xs) ↔ ((y ≡ x) ⊎ IsMember y xs)) }
{}

/// The ascending list of any list has its members, and no others.
#[tactic(auto, using(crate::proofs::IdSets::ascending_is_set))]
pub fn ascending_is_the_set()
    ensures { (xs : List ℕ) → IsAscending (ascending xs) × ((y : ℕ) → IsMember y (ascending xs) ↔ IsMember y xs) }
{}

/// Names have at most 64 bytes.
pub fn limits()
    ensures { LONGEST_NAME ≡ 64 }
{}
