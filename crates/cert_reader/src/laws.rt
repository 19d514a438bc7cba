//! Laws of the definitions.

ghost use Rattle.cert_reader.specs.Laws.{StandingLinesAreRead};

/// The law that lines which may stand one after another, the last of which ends a certificate, are read whole from bytes that spell them.
pub fn law_standing_lines_are_read()
    ensures { StandingLinesAreRead }
{}
