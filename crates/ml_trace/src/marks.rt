// Marks of history steps.
ghost use Rattle.std.specs.Prelude.{◌≡◌};
ghost use Rattle.ml_trace.specs.MarkOrder.{FitsBelow};
ghost use Rattle.ml_trace.specs.Marks.{priority};

/// The mark of a step of a history, or of a line of a refutation: the least name that was lost, or the least one
/// that is green, or neither.
///
/// Marks are ordered Red(0), Green(0), Red(1), Green(1) and so on, with Neutral last (`specs/Marks.antt`).
#[derive(Clone, Copy, PartialEq, Eq, Debug)]
pub enum Mark {
    /// The name was lost.
    Red(u32),
    /// Each stack with the name was advanced by an accepting transition since the name was last green.
    Green(u32),
    /// No name was lost, and none is green.
    Neutral,
}

/// The priority of a mark: twice the name where it was lost, one more where it is green, and `neutral`, which is above
/// them, where it is neither.
pub fn priority_of(mark: Mark, neutral: u32) -> u32
    requires { FitsBelow neutral mark }
    ensures { result ≡ priority neutral mark }
{
    match mark {
        Mark::Red(name) => 2 * name,
        Mark::Green(name) => 2 * name + 1,
        Mark::Neutral => neutral,
    }
}
