//! What is known of names.

ghost use Rattle.merge_print.specs.Laws.{ReadNamesAreUtf8};

/// The names of a problem that a text says are UTF-8, as the JSON text asks. A call does nothing: it tells the prover.
pub fn read_names_are_utf8()
    ensures { ReadNamesAreUtf8 }
{}
