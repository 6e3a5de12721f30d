//! Apache Thrift's compact protocol: a reader that builds a tree, a typed reader, a canonical writer, and a tree's text.
#![tactic(auto)]

mod canonical;
mod cursor;
mod frame;
mod heads;
mod ids;
mod kind;
mod laws;
mod order;
mod put;
mod read;
mod reader;
mod refusal;
mod show;
mod skip;
mod spelling_laws;
mod tree;
mod writer;
mod writing_laws;

pub use canonical::spell;
pub use frame::FieldHead;
pub use kind::TKind;
pub use laws::{
    bytes_are_spelled_or_faulty, one_spelling, what_is_faulty_is_refused, what_is_read_is_spelled,
    what_is_refused_is_faulty, what_is_spelled_is_read,
};
pub use read::read_tree;
pub use reader::Reader;
pub use refusal::ThriftRefusal;
pub use show::show_tree;
pub use spelling_laws::{canonical_is_spelled, ordered_is_arranged, spelled_is_proper};
pub use tree::{TFields, TList, TMap, TVal};
pub use writer::Writer;
pub use writing_laws::writes_the_canonical_spelling;
