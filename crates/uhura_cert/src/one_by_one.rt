//! The laws of the lines of a document, taken one by one (`specs/Machine.antt`): which line is the first that no
//! document has, and which lines are a document's. They hold of all documents, and speak of no reader.
ghost use Rattle.uhura_cert.specs.OneByOne.{RefusedLinesAreMalformed, LinesEndTooEarly, TakenLinesAreRead};

/// The first line that isn't taken is the first malformed one; where lines end too early it is the line behind the
/// last; and lines that are taken to the end of a document are the text of this document.
pub fn lines_are_taken_one_by_one()
    ensures refused { RefusedLinesAreMalformed }
    ensures early { LinesEndTooEarly }
    ensures whole { TakenLinesAreRead }
{}
