// The numbers of the format, each said once; specs/Format.antt has the same for the definitions.

// Columns of a line, and its bytes: the columns and LF.
pub const LINE_COLUMNS: usize = 80;

pub const LINE_BYTES: usize = 81;

// Columns of S and G lines that hold text; the section letter stands behind them.
pub const TEXT_COLUMNS: usize = 72;

// Columns of P lines that hold values.
pub const PARAMETER_COLUMNS: usize = 64;

// Columns of a directory field, of a label and of a status; of the two reserved fields.
pub const FIELD_COLUMNS: usize = 8;

pub const RESERVED_COLUMNS: usize = 16;

// Columns of a sequence number, of a count on T, and of the directory number on a P line.
pub const NUMBER_COLUMNS: usize = 7;

// Columns of the canonical file's Global opening.
pub const OPENING_COLUMNS: usize = 8;

// Lines of a file.
pub const MOST_LINES: usize = 200000;

// The list that knows every type.
pub const MOST_LIST: u64 = 16383;

// The size of an integer.
pub const MOST_INTEGER: u32 = 2147483647;

// The same where a larger number is compared with it.
pub const MOST_INTEGER_WIDE: u64 = MOST_INTEGER as u64;
