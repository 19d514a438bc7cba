//! Laws of the definitions.

ghost use Rattle.cert_text.specs.Laws.{CertLinesReadBack, CertLinesHaveOneText, ToldLinesAreTexts};

/// The law that reading a printed line gives it back.
pub fn law_cert_lines_read_back()
    ensures { CertLinesReadBack }
{}

/// The law that bytes which are read as a line are its one text, and that the line can be printed.
pub fn law_cert_lines_have_one_text()
    ensures { CertLinesHaveOneText }
{}

/// The law that lines are read back from their text, and that bytes which tell lines are their text.
pub fn law_told_lines_are_texts()
    ensures { ToldLinesAreTexts }
{}
