ghost use Rattle.std.specs.Prelude.{◌≡◌, ◌+◌, ◌≤◌, ◌++◌, [], codes, length, IfOk, IfErr, IfSome, OnOk};
ghost use Rattle.tests_to_files.specs.ListedFiles.{file_named, file_number};
ghost use Rattle.lines_to_files.specs.{LineTestEnds.{KindNamesLocation}, Judged.{making_of, TakesName, JudgesLine, JudgesLines, ErrorNamesLocation}, TextLines.{lines_by}};

use crate::form::WrongTest;
use crate::making::judge_cycle;
use crate::names::Name;
use crate::reading::{LineSpace, read_test};
use crate::text_lines::{LastLine, next_line};
use crate::wanted::Wanted;
use arch_trait::Arch;
use diy_io::NoMemory;
use edge_algebra::Cycle;
use edges_from_text::EdgeList;
use litmus_text::Test;
use std::alloc::Global;
use std::collections::BTreeSet;
use tests_to_files::file_named;

/// What is found wrong with a line, or that there is no memory.
#[derive(Clone, Copy)]
pub(crate) enum JudgeError {
    Wrong(WrongTest),
    NoMemory,
}

/// Judges lines, one after another, and gathers what names their files.
#[derive(Drop)]
pub(crate) struct Judge {
    /// The names of the tests of the lines so far.
    taken: BTreeSet<String>,
    /// The lines that name the files of these tests.
    names: Vec<u8>,
    /// How many these are.
    count: u128,
}

/// The lines of a text up to the first that is wrong or whose test is.
#[derive(Drop)]
pub(crate) struct Judged {
    /// How many lines there are.
    pub(crate) lines: usize,
    /// How many tests they give.
    pub(crate) count: u128,
    /// The lines that name the files of these tests.
    pub(crate) names: Vec<u8>,
    /// What is wrong with the line after them, if there is one.
    pub(crate) wrong: Option<WrongTest>,
}

/// Judges the lines of a text up to the first that is wrong or whose test is. `test` is space for a test.
pub(crate) fn judge_lines<A: Arch>(
    alloc: Global,
    wanted: &Wanted,
    last: LastLine,
    text: &[u8],
    test: &mut Test,
) -> Result<Judged, NoMemory>
    ensures judges { IfOk result (λ judged. JudgesLines (making_of A.puts A.writing wanted.now) (lines_by last text.now) judged) }
    ensures few { IfOk result (λ judged. judged.lines ≤ length text.now) }
    ensures located { IfOk result (λ judged. IfSome judged.wrong KindNamesLocation) }
{
    let mut space = LineSpace {
        edges: EdgeList::new(),
        cycle: None,
        name: Name::new(),
    };
    let mut judge = Judge::new(alloc);
    let mut lines = 0;
    let mut rest = text;
    while let Some((line, later)) = next_line(last, rest) {
        match judge.add::<A>(alloc, wanted, line, &mut space, test) {
            Ok(()) => {}
            Err(error) => {
                return match error {
                    JudgeError::Wrong(kind) => Ok(judge.end(lines, Some(kind))),
                    JudgeError::NoMemory => Err(NoMemory),
                };
            }
        }
        lines += 1;
        rest = later;
    }
    Ok(judge.end(lines, None))
}

impl Judge {
    /// A judge that has seen no line.
    fn new(alloc: Global) -> Judge
        ensures taken { result.taken.keys ≡ [] }
        ensures names { result.names.items ≡ [] }
        ensures count { result.count ≡ 0 }
    {
        Judge {
            taken: BTreeSet::new(alloc),
            names: Vec::new(alloc),
            count: 0,
        }
    }

    /// Judges one more line.
    fn add<A: Arch>(
        &mut self,
        alloc: Global,
        wanted: &Wanted,
        line: &[u8],
        space: &mut LineSpace,
        test: &mut Test,
    ) -> Result<(), JudgeError>
        ensures judges { JudgesLine (making_of A.puts A.writing wanted.now) self.old self.new line.now result }
        ensures located { IfErr result ErrorNamesLocation }
    {
        let cycle = match read_test(A::NAME, line, space) {
            Ok(Some(cycle)) => cycle,
            Ok(None) => return Ok(()),
            Err(kind) => return Err(JudgeError::Wrong(kind)),
        };
        match self.take(alloc, space.name.as_str()) {
            Ok(true) => {}
            Ok(false) => return Err(JudgeError::Wrong(WrongTest::NameTaken)),
            Err(NoMemory) => return Err(JudgeError::NoMemory),
        }
        match judge_cycle::<A>(wanted.form, &cycle, test) {
            Ok(()) => {}
            Err(refusal) => return Err(JudgeError::Wrong(WrongTest::Refused(refusal))),
        }
        match self.count(space.name.as_str()) {
            Ok(()) => Ok(()),
            Err(NoMemory) => Err(JudgeError::NoMemory),
        }
    }

    /// Keeps the name of a test, and returns whether it is new.
    fn take(&mut self, alloc: Global, name: &str) -> Result<bool, NoMemory>
        ensures { IfOk result (λ is_new. TakesName self.old self.new name.now is_new) }
    {
        let name = String::from_str(alloc, name)?;
        Ok(self.taken.insert(name)?)
    }

    /// Adds the line that names the file of one more test.
    fn count(&mut self, name: &str) -> Result<(), NoMemory>
        ensures names { OnOk result (self.new.names.items ≡ self.old.names.items ++ (file_named self.old.count name.now ++ codes "\n")) }
        ensures count { OnOk result (self.new.count ≡ file_number (self.old.count + 1)) }
        ensures taken { self.new.taken ≡ self.old.taken }
    {
        let file = file_named(self.count, name);
        self.names.extend_from_slice(file.as_str().as_bytes())?;
        self.names.push(b'\n')?;
        self.count = self.count.saturating_add(1);
        Ok(())
    }

    /// What was judged: so many lines, and then one that is wrong in this way, if any is.
    fn end(self, lines: usize, wrong: Option<WrongTest>) -> Judged
        ensures { result ≡ record { lines = lines; count = self.count; names = self.names; wrong = wrong } }
    {
        Judged {
            lines,
            count: self.count,
            names: self.names,
            wrong,
        }
    }
}
