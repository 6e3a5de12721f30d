//! Parquet's RLE / bit-packing hybrid (parquet-format, Encodings.md): reads the first values of an encoded slice at
//! any width from 0 to 32 bits, and writes bits as one bit-packed run, which is read back.
#![tactic(auto)]

ghost use Rattle.hybrid_runs.specs.Written.{BitsReadBack};

mod bits;
mod reading;
mod varint;
mod writing;

pub use bits::le_number;
pub use reading::first_values;
pub use writing::{run_length, write_bits, write_run};

/// The law that bits written as a run are read back, whatever bytes follow.
pub fn bits_are_read_back()
    ensures { BitsReadBack }
{}
