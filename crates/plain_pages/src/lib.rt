//! The cells of data pages and dictionary pages (PLAIN or dictionary-encoded), columns and tables in memory, and the
//! writing of PLAIN pages.
#![tactic(auto)]

ghost use Rattle.plain_pages.specs.Columns.{PagesReadBack};

mod cell_ref;
mod dictionary;
mod faults;
mod levels;
mod page_index;
mod page_view;
mod page_writing;
mod places;
mod plain;
mod ranks;
mod table;
mod table_column;

pub use cell_ref::CellRef;
pub use dictionary::Dictionary;
pub use page_index::PageIndex;
pub use page_view::PageView;
pub use table::{Table, write_page};
pub use table_column::TableColumn;

/// A page that is written from cells is read back as the same cells.
pub fn pages_are_read_back()
    ensures { PagesReadBack }
{}
