// Laws over the definitions alone: no caller runs these functions, their contracts are the theorems.
ghost use Rattle.ml_machine_check.specs.Laws.{BrokenIsNotRight, OneCheck, SomeCheck};

/// What is found of a machine or an environment says one thing at most, and a word that breaks it shows that it isn't right.
///
/// Does nothing when called.
pub fn one_check()
    ensures one { OneCheck }
    ensures not_right { BrokenIsNotRight }
{}

/// Of each machine and each environment with the inputs and outputs of a task something is found.
///
/// Does nothing when called.
pub fn some_check()
    ensures { SomeCheck }
{}
