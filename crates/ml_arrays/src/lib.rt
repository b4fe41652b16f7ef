// Plain lists of numbers, for programs whose nodes and states are numbers.
//
// A list is read and written anywhere: past its end nothing stands, and nothing is written. So no caller has to show that a
// number names a place, and no clause says what is read; it is proved that all is safe and ends.
//
// - `number`, `flag` and `row` read, `put`, `set_flag` and `push_at` write, `more_numbers`, `more_flags` and `more_rows`
//   lengthen.
// - `ascend`, `within` and `signature` are of sets as ascending lists; a `NumberSet` is one that is emptied often, and a
//   `Numbering` gives numbers in the order in which something is met.
// - A `Digraph` is a directed graph in two lists; `Components` are its strong components.
//
// Below stands `ml_base`, for `NoMemory` alone. Above stand the searches and what else goes over graphs without a clause.
#![tactic(auto)]

mod components;
mod digraphs;
mod lists;
mod numberings;
mod sets;

pub use components::Components;
pub use digraphs::Digraph;
pub use lists::{
    NONE, empty_rows, flag, more_flags, more_numbers, more_rows, number, push_at, put, row,
    set_flag, small,
};
pub use numberings::Numbering;
pub use sets::{NumberSet, ascend, signature, within};
