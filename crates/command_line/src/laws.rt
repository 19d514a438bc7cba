//! The laws of the table.
ghost use Rattle.command_line.specs.Requests.{RowsNameFiles, DeskRowNamesFiles};

/// A request names just the files that its words give under the keys that its command's row has as read and as written; and so does what
/// is asked of the desk, by the desk's row.
pub fn rows_name_files()
    ensures commands { RowsNameFiles }
    ensures desk { DeskRowNamesFiles }
{}
