// The laws that written cells, headings, records and tables are read back unchanged, each the contract of a function.
ghost use Rattle.table_text.specs.ReadingBack.{CellsReadBack, HeadingsReadBack, RecordsReadBack, TablesReadBack};

/// The text of a cell is read back as the same cell.
pub fn cells_are_read_back()
    ensures { CellsReadBack }
{}

/// The heading of a column is read back as the same name and type.
pub fn headings_are_read_back()
    ensures { HeadingsReadBack }
{}

/// The text of a record is read back as the same fields, whatever follows it.
pub fn records_are_read_back()
    ensures { RecordsReadBack }
{}

/// The text of a table, a header and a record for each row, is read back as the same table.
pub fn tables_are_read_back()
    ensures { TablesReadBack }
{}
