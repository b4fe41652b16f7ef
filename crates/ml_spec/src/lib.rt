// Files of requirements and questions: what they say, why a text is none, and their formulas joined.
//
// A specification names a logic, and has requirements and questions, each with a name and a formula of that logic:
//
//     logic word                # comments go on to the end of a line
//     signals call open fire
//     enum floor: 0 1 2         # one of floor_0, floor_1, floor_2 is true at each moment
//     define home: floor_0 & !call
//     require answered: G(call -> F[0:3] open)
//     possible rescue: F(call & G fire)
//     follows shut: G(fire -> !open)
//
// Signals, enumerations and definitions declare propositions. Where signals stand, each proposition of a formula behind them is
// to be declared. A formula means what it is with its definitions and its bounded operators written out.
//
// The calls to know: `read` gives the `Specification` of a text, or tells at which line and column it breaks which rule first;
// `joined` gives the problem of some requirements and a question together, where it isn't too long for one formula.
//
// What a specification is stands in `specs/Specification.antt`, what its statements say and mean in `specs/Statements.antt`,
// `specs/Known.antt` and `specs/Meaning.antt`, which rules a text may break and where in `specs/Faults.antt`,
// and what is joined in `specs/Joined.antt` and `specs/Questions.antt`. `laws` says that each text is one specification or has
// one refusal, and never both.
//
// The parts that `read` is made of are public too: `uncommented` takes the comments out, with a blank for each byte, and
// `next_item` gives one item of such a text after the other. `split_word`, `item_kind_named`, `split_name`, `is_name` and
// `behind_colon` take an item apart, `ItemName` holds a name, and `line_and_column` tells where a byte stands.
//
// Below stand formulas as texts of files have them (`ml_written`), formulas of all logics (`ml_front`), texts (`ml_text`) and
// lines (`ml_lines`).
#![tactic(auto)]

mod comments;
mod context;
mod fault;
mod head;
mod items;
mod joining;
mod kind;
pub mod laws;
mod meaning;
mod name;
mod parts;
mod place;
mod question;
mod reading;
mod refusal;
mod rule;
mod specification;
mod statement;
mod words;

pub use comments::uncommented;
pub use context::Declared;
pub use items::{ItemText, next_item};
pub use joining::joined;
pub use kind::{ItemKind, Kind, item_kind_named, kind_named};
pub use name::ItemName;
pub use parts::{behind_colon, is_name, split_name, split_word};
pub use place::line_and_column;
pub use question::Question;
pub use reading::read;
pub use refusal::SpecRefusal;
pub use rule::SpecRule;
pub use specification::{Item, MOST_ITEMS, Specification};
