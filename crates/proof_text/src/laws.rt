//! Laws of the definitions, for who reads and prints lines of other kinds.

ghost use Rattle.proof_text.specs.Laws.{WordsReadBack, NumbersReadBack, LinesReadBack, LinesHaveOneText};

/// The law that words are read back from the text that joins them.
pub fn law_words_read_back()
    ensures { WordsReadBack }
{}

/// The law that a number is read back from its digits, and from no other word.
pub fn law_numbers_read_back()
    ensures { NumbersReadBack }
{}

/// The law that reading a printed line gives it back.
pub fn law_lines_read_back()
    ensures { LinesReadBack }
{}

/// The law that bytes which are read as a line are its printed text, and that the line can be printed.
pub fn law_lines_have_one_text()
    ensures { LinesHaveOneText }
{}
