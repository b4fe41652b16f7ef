// Names, and the outside: where bytes come from and where they go.
//
// A `Name` and an `Action` are their bytes, and nothing else is a name. A `Source` gives bytes and a `Sink` takes
// them, each with a count of faults, so that every failure above can be traced to a fault that was counted.
// Begin with `Name::new`, `read_all` and `write_all`. `MemSource` and `MemSink` stand in memory, for tests;
// `StdSource` and `StdSink` stand on std's readers and writers, and tell nothing of the bytes.
//
// An `IdSet` is a finite set of numbers, as they name states, nodes and propositions. `Version`, `DocFault` and
// `DocRefusal` are of documents, `ParseRefusal` of formulas: in which words they are written, and why they are refused.
//
// Below stands `ml_lists`, general mathematics. Whatever speaks of names, or reads and writes, stands above.
#![tactic(auto)]

mod bytes;
mod doc_fault;
mod doc_refusal;
mod id_set;
pub mod laws;
pub mod memory;
mod name;
mod no_memory;
mod order;
mod parse_refusal;
mod sink;
mod source;
pub mod streams;
mod structure;
mod version;
pub mod whole;

pub use doc_fault::DocFault;
pub use doc_refusal::DocRefusal;
pub use id_set::IdSet;
pub use memory::{MemSink, MemSource};
pub use name::{Action, LONGEST_NAME, Name, NameRefusal};
pub use no_memory::NoMemory;
pub use parse_refusal::ParseRefusal;
pub use sink::Sink;
pub use source::{Failed, Source};
pub use streams::{StdSink, StdSource};
pub use structure::Edge;
pub use version::Version;
pub use whole::{ReadRefusal, WriteRefusal, read_all, write_all};
