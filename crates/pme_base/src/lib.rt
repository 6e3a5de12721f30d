//! Types shared by all crates: byte lists and lists, places of a file, refusals with their causes, and the
//! traits `Files`, `Random` and `Sink` for input and output, each with an implementation in memory and a real one.
#![tactic(auto)]

mod bytes;
mod calls;
mod faults;
mod limits;
mod mem_files;
mod mem_random;
mod mem_sink;
mod memory_error;
mod name_set;
mod outside;
mod place;
mod reading;
mod refusal;
mod sequence;
mod slices;
mod std_files;
mod std_random;
mod std_sink;
mod text;
mod words;

pub use bytes::Bytes;
pub use limits::{
    COLUMN_LIMIT, FOOTER_AREA_LIMIT, FOOTER_LIMIT, MODULE_LIMIT, ORDINAL_LIMIT, PREFIX_LIMIT,
    SMALL_FILE_LIMIT, UNIQUE_LIMIT,
};
pub use mem_files::MemFiles;
pub use mem_random::MemRandom;
pub use mem_sink::MemSink;
pub use memory_error::OutOfMemory;
pub use name_set::NameSet;
pub use outside::{Failed, Files, Random, Sink, Trouble};
pub use place::{OrdinalTooLarge, Place, PlaceKind};
pub use reading::{buffer_of, file_size, read_full, read_refusal};
pub use refusal::{
    Cause, Detail, ItemWord, PagePart, Refusal, StructName, ThriftFault, plain_refusal, refusal_at,
};
pub use sequence::{Sequence, SequenceIter};
pub use std_files::StdFiles;
pub use std_random::StdRandom;
pub use std_sink::StdSink;
pub use text::Text;
pub use words::Words;
