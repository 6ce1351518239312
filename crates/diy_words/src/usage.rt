ghost use Rattle.std.specs.Prelude.{◌≡◌};

/// A usage error, and the index of the argument at fault, where 0 is the tool's name. If no single
/// argument is at fault, `word` is the number of arguments.
#[derive(Clone, Copy)]
pub struct Usage {
    pub word: usize,
    pub kind: UsageKind,
}

/// What is wrong with an argument, or with all of them together.
#[derive(Clone, Copy, Debug)]
pub enum UsageKind {
    /// There is no argument, or the first names no tool.
    UnknownTool,
    /// An argument that begins with `-`, where an option may come, is no option of the tool.
    UnknownOption,
    /// An option that takes a value is the last argument.
    MissingValue,
    /// A number isn't 1 to 7 digits, or is out of its range.
    BadNumber,
    /// The value of `-arch` is no architecture.
    UnknownArch,
    /// The value of `-obs` is no observer mode.
    BadMode,
    /// The value of `-name` isn't 1 to 800 letters, digits, `+`, `-`, `.` and `_`.
    BadName,
    /// The value of `-o` is empty, or has more than 1,024 bytes.
    BadFolder,
    /// A word in a list of edges or of relaxations isn't the name of an edge.
    UnknownEdge,
    /// A bracket in a list of relaxations isn't closed, is empty, has a bracket in it, or closes nothing.
    BadBracket,
    /// A bracket in a list of relaxations has more than 8 edges.
    RelaxTooLong,
    /// No choice of a bracket's edges joins.
    DoesNotJoin,
    /// A list has more than 64 relaxations.
    TooManyRelaxes,
    /// No cycle of the architecture has the name that `-from` gives.
    UnknownName,
    /// The edges of `-after` make no cycle: there are none, more than 48, or some that don't compose.
    BadAfter,
    /// The tool takes no operand, or no further one, or an operand comes together with `-from` or `-lines`.
    StrayWord,
    /// An option comes after one that excludes it: `-obs`, `-why` and `-co` exclude each other, and so do
    /// `-why` and `-exec`, `-lines` and `-name`, `-list` and `-o`, and `-states` and `-dot`. Or `-states` comes after
    /// an operand, or an option of mcheck7 after that of `-states`.
    ExcludedOption,
    /// The tool requires `-arch`, which is missing.
    MissingArch,
    /// The tool requires `-edges`, which is missing.
    MissingEdges,
    /// The tool requires a number, which is missing.
    MissingNumber,
    /// The tool requires two files, of which at least one is missing, or with `-states` that of a test.
    MissingFile,
    /// `-o` of diyone7 requires `-why` or `-lines`, and both are missing.
    MissingWhy,
    /// There are more than 65,536 ways to choose a relaxation for each position.
    TooManyChoices,
    /// With `-strict`: the relaxation in this part of the argument can stand in no cycle of the call.
    IdleRelax {
        /// The byte, from 0, where it begins.
        start: usize,
        /// How many bytes it has.
        len: usize,
    },
}

/// An error with the index of its argument, or with the number of arguments if it is at none of them.
pub fn usage_at(word: usize, kind: UsageKind) -> Usage
    ensures { result ≡ record { word = word; kind = kind } }
{
    Usage { word, kind }
}
