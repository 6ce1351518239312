//! Lines of cycles: what norm7 and classify7 make of those that norm7 and `diy7 -list` write.

ghost use Rattle.tools_agree.specs.{SpelledWords.{WordsReadBack}, OwnLines.{SaidAreCycles, ListedAreCycles, LinesReadAsThemselves, NormsAgain, LinesAreClassified}};

/// The words of edges, with a blank between each two, are read as these edges.
pub fn words_read_back()
    ensures { WordsReadBack }
{}

/// What lines give, of edges or of names, are cycles of the architecture. So the lines that norm7 writes are lines of such cycles.
pub fn said_are_cycles()
    ensures { SaidAreCycles }
{}

/// The cycles of a listing are cycles of its architecture. So the lines that `diy7 -list` writes are lines of such cycles.
pub fn listed_are_cycles()
    ensures { ListedAreCycles }
{}

/// The lines of cycles of an architecture are read without an error, the lines of the cycles that they give are the same text, and the
/// families of these cycles are the same.
pub fn lines_read_as_themselves()
    ensures { LinesReadAsThemselves }
{}

/// If the lines of cycles of an architecture are what norm7 reads, it writes them again, unless a device fails or they have more
/// bytes than an input may have.
pub fn norms_again()
    ensures { NormsAgain }
{}

/// If the lines of cycles of an architecture are what classify7 reads, it writes the families of these cycles, unless a device fails,
/// they have more bytes than an input may have, or there is no memory.
pub fn lines_are_classified()
    ensures { LinesAreClassified }
{}
