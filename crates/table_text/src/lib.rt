//! Tables as CSV text: parsing and writing of the header with its column names and types, of cells, and of whole
//! tables; and tables that are generated from a seed.
#![tactic(auto)]

mod cells;
mod column_type;
mod fields;
mod from_csv;
mod generated;
mod header;
mod numbers;
mod reading_back;
mod records;
mod refusals;
mod texts;

pub use from_csv::{TableRefusal, table_from_csv};
pub use generated::generate;
pub use reading_back::{
    cells_are_read_back, headings_are_read_back, records_are_read_back, tables_are_read_back,
};
pub use texts::{CellTexts, Choice, cell_text, header_text, heading_text, row_text};
