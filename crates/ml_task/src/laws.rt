// Laws over texts of tasks: no caller runs these functions, their contracts are the theorems.
ghost use Rattle.std.specs.Prelude.{◌≡◌};
ghost use Rattle.ml_task.specs.Laws.{OneTask, SomeAnswer, TaskOrFault, OneFault, TaskRulesRise};
ghost use Rattle.ml_task.specs.Task.{most_names};

/// A text is one of exactly one task, or it has exactly one first bad line with one lowest rule.
///
/// Does nothing when called. `one`, `one_fault`: it has one of each kind at most. `some`: one of the two. `never_both`.
pub fn one_answer()
    ensures one { OneTask }
    ensures one_fault { OneFault }
    ensures some { SomeAnswer }
    ensures never_both { TaskOrFault }
{}

/// The numbers of the rules of a line rise: so the first rule that it breaks is the one with the lowest number.
///
/// Does nothing when called.
pub fn rules_rise()
    ensures { TaskRulesRise }
{}

/// A task has at most 8 inputs and outputs together.
///
/// Does nothing when called.
pub fn limits()
    ensures names { most_names ≡ 8 }
{}
