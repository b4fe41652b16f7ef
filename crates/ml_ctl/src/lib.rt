// CTL*: its formulas, what they mean, and their texts; and with the language as a part all that is the same for LTL.
//
// Begin with `Formula`, a state formula, which contracts see as the plain formula of `specs/Formula.antt`; it is a
// `FormulaOf` the language CTL*, as `ml_ltl` has those of LTL. `parse` gives the formula of a text, exactly as
// `specs/Grammar.antt`, `specs/Text.antt` and `specs/Parsing.antt` say, and `print` its canonical text. What formulas mean,
// along paths and at states, stands in `specs/Meaning.antt`, and where a problem holds in `specs/Problem.antt`. The module
// `laws` has what is true of texts and of meanings.
//
// Below stand `ml_text`, with tokens and grammars, `ml_lines`, with what is written whole or not at all, and `ml_base`, with
// structures.
#![tactic(auto)]

mod connecting;
mod copying;
mod enumerating;
mod forms;
mod formula;
mod language;
pub mod laws;
mod notation;
mod parsing;
mod printing;
mod replacing;
mod signs;
mod term;

pub use connecting::{always, conjunction, negation, proposition, quantified, truth};
pub use copying::{copy, count_term, occurrences};
pub use enumerating::enumeration;
pub use formula::{Formula, FormulaOf};
pub use language::{Ctl, Language, Ltl, Sort, Words};
pub use parsing::{parse, parse_in};
pub use printing::{append_text, print};
pub use replacing::replaced;
pub use term::{Pairing, Quantifier, Tense, Term};
