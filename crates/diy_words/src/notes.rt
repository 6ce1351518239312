ghost use Rattle.std.specs.Prelude.{◌≡◌, ◌<◌, ◌≤◌, ◌+◌, ◌^◌, Some, Err};
ghost use Rattle.relax_edges.specs.{Architectures.arch_of, declared.TheConstants.MAX_EDGES};
ghost use Rattle.edges_from_text.specs.{Relaxations.{relaxes_of}, KeptEdges.{kept_edges}};
ghost use Rattle.edges_from_text.specs.{declared.read.Separators.TheVariants.{BlanksAndCommas}, Spelled.{edges_of, text_edges}};
ghost use Rattle.edge_algebra.specs.Compose.{composed};
ghost use Rattle.diy_words.specs.{CodeNotes.{cycle_kept}, NumberWords.{number_to}, declared.usage.UsageKind.TheVariants.{ExcludedOption}};
ghost use Rattle.diy_words.specs.{Parts.{Unvalued, mode_named}, Notes.{before_noted, more_choices}};
ghost use Rattle.diy_words.specs.Sayings.{Before, SaysRelaxes, SaysPlace, SaysSize, SaysThreads, SaysAccesses, said_by, arch_said, arch_option_said, is_leading, takes_logs, table_said, skip_said, states_said, check_dot_said, name_said, test_name_said, mode_said, obs_said, from_said, why_said, co_said, exec_said, dot_said, needs_said, line_tests_said, lines_said, file_folder_said, edges_said, relaxes_said, relax_usage, number_said, after_said, folder_said, checked_said, operand_said, begins_option};
ghost use Rattle.diy_words.specs.declared.options.Tool.TheVariants as tools;

use crate::name::name_of;
use crate::number::number_to;
use crate::options::{OptionName, Tool, mode_named};
use crate::request::{MAX_CHOICES, MAX_TESTS, Source, TestName};
use crate::usage::{Usage, UsageKind, usage_at};
use arrayvec::ArrayVec;
use cycle_enum::Limits;
use cycles_from_lines::cycle_named;
use diy_io::MAX_FOLDER;
use edge_algebra::{Cycle, cycle};
use edges_from_text::{EdgeList, RelaxKind, Relaxes, Separators, read_edges, read_relaxes};
use relax_edges::{ArchName, Edge, MAX_EDGES, ObsMode, read_arch};

/// What is noted of the arguments so far.
#[derive(Drop)]
pub struct Notes<'a> {
    pub arch: Option<ArchName>,
    pub name: Option<TestName>,
    /// The value of `-obs`.
    pub mode: Option<ObsMode>,
    /// The value of `-from`.
    pub from: Option<Source<'a>>,
    /// The index of the first operand of edges.
    pub operand: Option<usize>,
    pub edges: EdgeList,
    pub relaxes: Option<Relaxes>,
    pub limits: Limits,
    pub threads: u8,
    /// The most accesses of a thread, if a limit is given.
    pub accesses: Option<u8>,
    pub after: Option<Cycle>,
    pub folder: Option<&'a str>,
    /// In how many ways a relaxation can be chosen for each position, up to one more than allowed.
    pub choices: u32,
    /// How many tests demo makes.
    pub count: Option<u32>,
    /// The index of the argument that names the file of the test, for mcheck7.
    pub test: Option<usize>,
    /// The index of the argument that names the file of the execution, for mcheck7.
    pub execution: Option<usize>,
    /// How many operands of demo or of mcheck7 were taken.
    pub taken: u8,
    /// Whether `-why` was given.
    pub why: bool,
    /// Whether `-co` was given.
    pub co: bool,
    /// Whether `-exec` was given.
    pub exec: bool,
    /// Whether `-needs` was given.
    pub needs: bool,
    /// Whether `-list` was given.
    pub lines: bool,
    /// Whether `-dot` was given.
    pub graph: bool,
    /// Whether `-names` was given.
    pub names: bool,
    /// Whether `-table` was given.
    pub table: bool,
    /// Whether `-lines` was given.
    pub line_tests: bool,
    /// Whether `-skip` was given.
    pub skip: bool,
    /// Whether `-states` was given.
    pub states: bool,
}

impl<'a> Notes<'a> {
    ghost use Rattle.diy_words.specs.{CodeNotes.{ChoosesEdges, code_notes, notes_after, notes_alone, notes_dashed, notes_left, notes_valued}, Notes.{no_notes}};

    pub fn new() -> Notes<'a>
        ensures { code_notes result ≡ no_notes }
    {
        Notes {
            arch: None,
            name: None,
            mode: None,
            from: None,
            operand: None,
            edges: EdgeList::new(),
            relaxes: None,
            limits: Limits {
                size: 6,
                exact: false,
            },
            threads: 4,
            accesses: None,
            after: None,
            folder: None,
            choices: 1,
            count: None,
            test: None,
            execution: None,
            taken: 0,
            why: false,
            co: false,
            exec: false,
            needs: false,
            lines: false,
            graph: false,
            names: false,
            table: false,
            line_tests: false,
            skip: false,
            states: false,
        }
    }

    /// Takes in an option of a tool at index `at` with its value, which comes after it.
    pub fn take_value(
        &mut self,
        tool: Tool,
        option: OptionName,
        at: usize,
        value: &'a str,
    ) -> Result<(), Usage>
        requires { at + 1 < 2 ^ 64 }
        ensures { notes_left result (code_notes self.new) ≡ notes_valued tool (code_notes self.old) option at value.now }
    {
        match option {
            OptionName::Arch => self.take_arch_option(tool, at, value),
            OptionName::Name => self.take_test_name(at, value),
            OptionName::Obs => self.take_obs(at, value),
            OptionName::From => self.take_from(at, value),
            OptionName::Edges => self.take_relaxes(at + 1, value),
            OptionName::Size => self.take_size(at + 1, value),
            OptionName::Nprocs => self.take_threads(at + 1, value),
            OptionName::Accesses => self.take_accesses(at + 1, value),
            OptionName::After => self.take_after(at + 1, value),
            OptionName::Folder => self.take_file_folder(at, value),
        }
    }

    /// Takes in `-arch` at index `at` with its value, unless it comes after the test of `-states`.
    fn take_arch_option(&mut self, tool: Tool, at: usize, value: &str) -> Result<(), Usage>
        requires { at + 1 < 2 ^ 64 }
        ensures { notes_left result (code_notes self.new) ≡ notes_after (code_notes self.old) (arch_option_said tool (before_noted (code_notes self.old)) at value.now) }
    {
        match tool {
            Tool::Check if self.takes_logs() => Err(excluded_option(at)),
            _ => self.take_arch(at + 1, value),
        }
    }

    fn take_arch(&mut self, at: usize, value: &str) -> Result<(), Usage>
        ensures { notes_left result (code_notes self.new) ≡ notes_after (code_notes self.old) (arch_said at (arch_of value.now)) }
    {
        let arch = read_arch(value).ok_or(usage_at(at, UsageKind::UnknownArch))?;
        self.arch = Some(arch);
        Ok(())
    }

    /// Takes in `-name` at index `at` with its value, unless `-lines` comes before it.
    fn take_test_name(&mut self, at: usize, value: &str) -> Result<(), Usage>
        requires { at + 1 < 2 ^ 64 }
        ensures { notes_left result (code_notes self.new) ≡ notes_after (code_notes self.old) (test_name_said (before_noted (code_notes self.old)) at value.now) }
    {
        if self.line_tests {
            return Err(excluded_option(at));
        }
        self.take_name(at + 1, value)
    }

    fn take_name(&mut self, at: usize, value: &str) -> Result<(), Usage>
        ensures { notes_left result (code_notes self.new) ≡ notes_after (code_notes self.old) (name_said at value.now) }
    {
        let name = name_of(value).ok_or(usage_at(at, UsageKind::BadName))?;
        self.name = Some(name);
        Ok(())
    }

    /// Takes in `-obs` at index `at` with its value, unless `-why` or `-co` comes before it.
    fn take_obs(&mut self, at: usize, value: &str) -> Result<(), Usage>
        requires { at + 1 < 2 ^ 64 }
        ensures { notes_left result (code_notes self.new) ≡ notes_after (code_notes self.old) (obs_said (before_noted (code_notes self.old)) at value.now) }
    {
        if self.why || self.co {
            return Err(excluded_option(at));
        }
        self.take_mode(at + 1, value)
    }

    fn take_mode(&mut self, at: usize, value: &str) -> Result<(), Usage>
        ensures { notes_left result (code_notes self.new) ≡ notes_after (code_notes self.old) (mode_said at (mode_named value.now)) }
    {
        let mode = mode_named(value).ok_or(usage_at(at, UsageKind::BadMode))?;
        self.mode = Some(mode);
        Ok(())
    }

    /// Takes in `-from` at index `at` with its value, unless `-lines` comes before it.
    fn take_from(&mut self, at: usize, value: &'a str) -> Result<(), Usage>
        requires { at + 1 < 2 ^ 64 }
        ensures { notes_left result (code_notes self.new) ≡ notes_after (code_notes self.old) (from_said (before_noted (code_notes self.old)) at value.now) }
    {
        if self.line_tests {
            return Err(excluded_option(at));
        }
        self.from = Some(Source {
            word: at + 1,
            name: value,
        });
        Ok(())
    }

    fn take_relaxes(&mut self, at: usize, value: &str) -> Result<(), Usage>
        ensures { notes_left result (code_notes self.new) ≡ notes_after (code_notes self.old) (relaxes_said SaysRelaxes at (relaxes_of value.now)) }
    {
        let mut relaxes = Relaxes::new();
        match read_relaxes(value, &mut relaxes) {
            Ok(()) => {
                self.relaxes = Some(relaxes);
                Ok(())
            }
            Err(error) => Err(usage_at(at, relax_usage(error.kind))),
        }
    }

    fn take_size(&mut self, at: usize, value: &str) -> Result<(), Usage>
        ensures { notes_left result (code_notes self.new) ≡ notes_after (code_notes self.old) (number_said SaysSize at (number_to MAX_EDGES value.now)) }
    {
        let size = number_to(MAX_EDGES as u32, value).ok_or(usage_at(at, UsageKind::BadNumber))?;
        self.limits.size = size as u8;
        Ok(())
    }

    fn take_threads(&mut self, at: usize, value: &str) -> Result<(), Usage>
        ensures { notes_left result (code_notes self.new) ≡ notes_after (code_notes self.old) (number_said SaysThreads at (number_to MAX_EDGES value.now)) }
    {
        let threads = number_to(MAX_EDGES as u32, value).ok_or(usage_at(at, UsageKind::BadNumber))?;
        self.threads = threads as u8;
        Ok(())
    }

    fn take_accesses(&mut self, at: usize, value: &str) -> Result<(), Usage>
        ensures { notes_left result (code_notes self.new) ≡ notes_after (code_notes self.old) (number_said SaysAccesses at (number_to MAX_EDGES value.now)) }
    {
        let accesses = number_to(MAX_EDGES as u32, value).ok_or(usage_at(
            at,
            UsageKind::BadNumber,
        ))?;
        self.accesses = Some(accesses as u8);
        Ok(())
    }

    fn take_after(&mut self, at: usize, value: &str) -> Result<(), Usage>
        ensures { notes_left result (code_notes self.new) ≡ notes_after (code_notes self.old) (after_said at (edges_of BlanksAndCommas value.now)) }
    {
        let mut edges = EdgeList::new();
        match read_edges(value.as_bytes(), Separators::BlanksAndCommas, &mut edges) {
            Ok(()) => match cycle_of(&edges) {
                Some(cycle) => {
                    self.after = Some(cycle);
                    Ok(())
                }
                None => Err(Usage {
                    word: at,
                    kind: UsageKind::BadAfter,
                }),
            },
            Err(_) => Err(usage_at(at, UsageKind::UnknownEdge)),
        }
    }

    /// Takes in `-o` at index `at` with its value, unless `-list` comes before it.
    fn take_file_folder(&mut self, at: usize, value: &'a str) -> Result<(), Usage>
        requires { at + 1 < 2 ^ 64 }
        ensures { notes_left result (code_notes self.new) ≡ notes_after (code_notes self.old) (file_folder_said (before_noted (code_notes self.old)) at value.now) }
    {
        if self.lines {
            return Err(excluded_option(at));
        }
        self.take_folder(at + 1, value)
    }

    fn take_folder(&mut self, at: usize, value: &'a str) -> Result<(), Usage>
        ensures { notes_left result (code_notes self.new) ≡ notes_after (code_notes self.old) (folder_said at value.now) }
    {
        if value.is_empty() || value.len() > MAX_FOLDER {
            return Err(usage_at(at, UsageKind::BadFolder));
        }
        self.folder = Some(value);
        Ok(())
    }

    /// Takes in an argument of a tool at index `at` that is no option with a value.
    pub fn take_alone(&mut self, tool: Tool, at: usize, text: &str) -> Result<(), Usage>
        ensures { notes_left result (code_notes self.new) ≡ notes_alone tool (code_notes self.old) at text.now }
    {
        if begins_option(text.as_bytes()) {
            self.take_dashed(tool, at, text)
        } else {
            self.take_operand(tool, at, text)
        }
    }

    /// Takes in an argument that begins with `-` and is no option with a value.
    fn take_dashed(&mut self, tool: Tool, at: usize, text: &str) -> Result<(), Usage>
        ensures { notes_left result (code_notes self.new) ≡ notes_dashed tool (code_notes self.old) at text.now }
    {
        match tool {
            Tool::DiyOne if text == "-why" => self.take_why(at),
            Tool::DiyOne if text == "-co" => self.take_co(at),
            Tool::DiyOne if text == "-exec" => self.take_exec(at),
            Tool::DiyOne if text == "-needs" => self.take_needs(at),
            Tool::DiyOne if text == "-dot" => self.take_dot(at),
            Tool::DiyOne if text == "-lines" => self.take_line_tests(at),
            Tool::Diy if text == "-exact" => {
                self.limits.exact = true;
                Ok(())
            }
            Tool::Diy if text == "-list" => self.take_lines(at),
            Tool::Diy if text == "-strict" => Ok(()),
            Tool::Cross if text == "-strict" => Ok(()),
            Tool::Norm if text == "-names" => {
                self.names = true;
                Ok(())
            }
            Tool::Msum if text == "-table" => self.take_table(at),
            Tool::Msum if text == "-skip" => self.take_skip(at),
            Tool::Check if text == "-dot" => self.take_check_dot(at),
            Tool::Check if text == "-states" => self.take_states(at),
            _ => Err(usage_at(at, UsageKind::UnknownOption)),
        }
    }

    /// Takes in `-why`, unless `-obs`, `-co`, `-exec`, `-needs`, `-dot` or `-lines` comes before it.
    fn take_why(&mut self, at: usize) -> Result<(), Usage>
        ensures { notes_left result (code_notes self.new) ≡ notes_after (code_notes self.old) (why_said (before_noted (code_notes self.old)) at) }
    {
        if self.mode.is_some()
            || self.co
            || self.exec
            || self.needs
            || self.graph
            || self.line_tests
        {
            return Err(excluded_option(at));
        }
        self.why = true;
        Ok(())
    }

    /// Takes in `-co`, unless `-obs`, `-why` or `-needs` comes before it.
    fn take_co(&mut self, at: usize) -> Result<(), Usage>
        ensures { notes_left result (code_notes self.new) ≡ notes_after (code_notes self.old) (co_said (before_noted (code_notes self.old)) at) }
    {
        if self.mode.is_some() || self.why || self.needs {
            return Err(excluded_option(at));
        }
        self.co = true;
        Ok(())
    }

    /// Takes in `-exec`, unless `-why`, `-needs`, `-dot` or `-lines` comes before it.
    fn take_exec(&mut self, at: usize) -> Result<(), Usage>
        ensures { notes_left result (code_notes self.new) ≡ notes_after (code_notes self.old) (exec_said (before_noted (code_notes self.old)) at) }
    {
        if self.why || self.needs || self.graph || self.line_tests {
            return Err(excluded_option(at));
        }
        self.exec = true;
        Ok(())
    }

    /// Takes in `-dot` for diyone7, unless `-why`, `-exec`, `-needs` or `-lines` comes before it.
    fn take_dot(&mut self, at: usize) -> Result<(), Usage>
        ensures { notes_left result (code_notes self.new) ≡ notes_after (code_notes self.old) (dot_said (before_noted (code_notes self.old)) at) }
    {
        if self.why || self.exec || self.needs || self.line_tests {
            return Err(excluded_option(at));
        }
        self.graph = true;
        Ok(())
    }

    /// Takes in `-needs`, unless `-why`, `-co`, `-exec`, `-dot` or `-lines` comes before it.
    fn take_needs(&mut self, at: usize) -> Result<(), Usage>
        ensures { notes_left result (code_notes self.new) ≡ notes_after (code_notes self.old) (needs_said (before_noted (code_notes self.old)) at) }
    {
        if self.why || self.co || self.exec || self.graph || self.line_tests {
            return Err(excluded_option(at));
        }
        self.needs = true;
        Ok(())
    }

    /// Takes in `-lines`, unless `-why`, `-exec`, `-dot`, `-needs`, `-from` or `-name` comes before it.
    fn take_line_tests(&mut self, at: usize) -> Result<(), Usage>
        ensures { notes_left result (code_notes self.new) ≡ notes_after (code_notes self.old) (line_tests_said (before_noted (code_notes self.old)) at) }
    {
        if self.why
            || self.exec
            || self.graph
            || self.needs
            || self.from.is_some()
            || self.name.is_some()
        {
            return Err(excluded_option(at));
        }
        self.line_tests = true;
        Ok(())
    }

    /// Takes in `-list`, unless `-o` comes before it.
    fn take_lines(&mut self, at: usize) -> Result<(), Usage>
        ensures { notes_left result (code_notes self.new) ≡ notes_after (code_notes self.old) (lines_said (before_noted (code_notes self.old)) at) }
    {
        if self.folder.is_some() {
            return Err(excluded_option(at));
        }
        self.lines = true;
        Ok(())
    }

    /// Takes in `-table`, if nothing but `-skip` comes between the tool's name and it.
    fn take_table(&mut self, at: usize) -> Result<(), Usage>
        ensures { notes_left result (code_notes self.new) ≡ notes_after (code_notes self.old) (table_said (before_noted (code_notes self.old)) at) }
    {
        if !is_leading(at, self.skip) {
            return Err(usage_at(at, UsageKind::UnknownOption));
        }
        self.table = true;
        Ok(())
    }

    /// Takes in `-skip`, if nothing but `-table` comes between the tool's name and it.
    fn take_skip(&mut self, at: usize) -> Result<(), Usage>
        ensures { notes_left result (code_notes self.new) ≡ notes_after (code_notes self.old) (skip_said (before_noted (code_notes self.old)) at) }
    {
        if !is_leading(at, self.table) {
            return Err(usage_at(at, UsageKind::UnknownOption));
        }
        self.skip = true;
        Ok(())
    }

    /// Takes in `-dot` for mcheck7, unless `-states` comes before it.
    fn take_check_dot(&mut self, at: usize) -> Result<(), Usage>
        ensures { notes_left result (code_notes self.new) ≡ notes_after (code_notes self.old) (check_dot_said (before_noted (code_notes self.old)) at) }
    {
        if self.states {
            return Err(excluded_option(at));
        }
        self.graph = true;
        Ok(())
    }

    /// Takes in `-states`, unless `-dot` or an operand comes before it.
    fn take_states(&mut self, at: usize) -> Result<(), Usage>
        ensures { notes_left result (code_notes self.new) ≡ notes_after (code_notes self.old) (states_said (before_noted (code_notes self.old)) at) }
    {
        if self.graph || self.taken > 0 {
            return Err(excluded_option(at));
        }
        self.states = true;
        Ok(())
    }

    /// Whether the test of `-states` was taken, so that the operands after it name logs.
    fn takes_logs(&self) -> bool
        ensures { result ≡ takes_logs (before_noted (code_notes self.now)) }
    {
        self.states && self.taken > 0
    }

    fn take_operand(&mut self, tool: Tool, at: usize, text: &str) -> Result<(), Usage>
        ensures { notes_left result (code_notes self.new) ≡ notes_after (code_notes self.old) (operand_said tool (before_noted (code_notes self.old)) at text.now) }
    {
        match tool {
            Tool::DiyOne | Tool::Norm => self.take_edges(at, text),
            Tool::Diy => Err(usage_at(at, UsageKind::StrayWord)),
            Tool::Msum | Tool::Classify => Ok(()),
            Tool::Cross => self.take_place(at, text),
            Tool::Demo => self.take_count(at, text),
            Tool::Check => self.take_checked(at),
        }
    }

    fn take_edges(&mut self, at: usize, text: &str) -> Result<(), Usage>
        ensures { notes_left result (code_notes self.new) ≡ notes_after (code_notes self.old) (edges_said at (text_edges text.now)) }
    {
        match read_edges(text.as_bytes(), Separators::Blanks, &mut self.edges) {
            Ok(()) => {
                self.operand = self.operand.or(Some(at));
                Ok(())
            }
            Err(_) => Err(usage_at(at, UsageKind::UnknownEdge)),
        }
    }

    /// Takes in the relaxations of one more position.
    fn take_place(&mut self, at: usize, text: &str) -> Result<(), Usage>
        ensures { notes_left result (code_notes self.new) ≡ notes_after (code_notes self.old) (relaxes_said SaysPlace at (relaxes_of text.now)) }
    {
        let mut relaxes = Relaxes::new();
        match read_relaxes(text, &mut relaxes) {
            Ok(()) => {
                self.choices = more_choices(self.choices, relaxes.len());
                Ok(())
            }
            Err(error) => Err(usage_at(at, relax_usage(error.kind))),
        }
    }

    /// Takes in a file for mcheck7: first that of the test, then that of the execution, and no third; or with `-states`
    /// first that of the test, then logs.
    fn take_checked(&mut self, at: usize) -> Result<(), Usage>
        ensures { notes_left result (code_notes self.new) ≡ notes_after (code_notes self.old) (checked_said (before_noted (code_notes self.old)) at) }
    {
        if self.takes_logs() {
            return Ok(());
        }
        match self.taken {
            0 => self.test = Some(at),
            1 => self.execution = Some(at),
            _ => {
                return Err(usage_at(at, UsageKind::StrayWord));
            }
        }
        self.taken += 1;
        Ok(())
    }

    /// Takes in the number of demo, if none was taken before.
    fn take_count(&mut self, at: usize, text: &str) -> Result<(), Usage>
        ensures { notes_left result (code_notes self.new) ≡ notes_after (code_notes self.old) (operand_said tools.Demo (before_noted (code_notes self.old)) at text.now) }
    {
        if self.taken != 0 {
            return Err(usage_at(at, UsageKind::StrayWord));
        }
        match number_to(MAX_TESTS, text) {
            Some(count) => {
                self.count = Some(count);
                self.taken += 1;
                Ok(())
            }
            None => Err(usage_at(at, UsageKind::BadNumber)),
        }
    }

    /// After all arguments of diyone7, sets the edges to those of the cycle that `-from` names, if it was given, unless an
    /// operand was given too.
    pub fn choose_edges(&mut self) -> Result<(), Usage>
        ensures { ChoosesEdges (code_notes self.old) (code_notes self.new) result }
    {
        match self.arch {
            Some(arch) => match self.from {
                Some(source) => self.choose_named(arch, source),
                None => Ok(()),
            },
            None => Ok(()),
        }
    }

    /// Sets the edges to those of the cycle of an architecture that is named, unless an operand was given.
    fn choose_named(&mut self, arch: ArchName, source: Source<'_>) -> Result<(), Usage>
        requires arch { self.old.arch ≡ Some arch }
        requires from { self.old.from ≡ Some source }
        ensures { ChoosesEdges (code_notes self.old) (code_notes self.new) result }
    {
        if let Some(word) = self.operand {
            return Err(usage_at(word, UsageKind::StrayWord));
        }
        match cycle_named(arch, source.name.as_bytes()) {
            Some(cycle) => {
                self.edges = kept_edges(&cycle);
                Ok(())
            }
            None => Err(usage_at(source.word, UsageKind::UnknownName)),
        }
    }
}

/// The edges of a cycle, as they are kept.
fn kept_edges(cycle: &Cycle) -> EdgeList
    ensures { result ≡ kept_edges cycle.now }
{
    let mut list = ArrayVec::new();
    match list.try_extend_from_slice(cycle.edges()) {
        Ok(()) => EdgeList::Whole(list),
        Err(_) => unreachable!(),
    }
}

/// In how many ways relaxations can be chosen with those of one more position, up to one more than allowed.
fn more_choices(choices: u32, relaxes: usize) -> u32
    requires { relaxes ≤ 64 }
    ensures { result ≡ more_choices choices relaxes }
{
    (choices as u64 * relaxes as u64).min(MAX_CHOICES as u64 + 1) as u32
}

/// What is wrong with relaxations, as a usage error.
fn relax_usage(kind: RelaxKind) -> UsageKind
    ensures { result ≡ relax_usage kind }
{
    match kind {
        RelaxKind::UnknownEdge => UsageKind::UnknownEdge,
        RelaxKind::BadBracket => UsageKind::BadBracket,
        RelaxKind::RelaxTooLong => UsageKind::RelaxTooLong,
        RelaxKind::DoesNotJoin => UsageKind::DoesNotJoin,
        RelaxKind::TooManyRelaxes => UsageKind::TooManyRelaxes,
    }
}

/// The cycle that kept edges make, if they make one.
fn cycle_of(list: &EdgeList) -> Option<Cycle>
    ensures { result ≡ cycle_kept list.now }
{
    match list {
        EdgeList::Whole(edges) => cycle(edges.as_slice()).ok(),
        EdgeList::TooLong => None,
    }
}

/// Whether an option of msum7 at index `at` comes right after the tool's name, or after the other option if that was given.
fn is_leading(at: usize, other: bool) -> bool
    ensures { result ≡ is_leading at other }
{
    if other { at == 2 } else { at == 1 }
}

/// The error of an option at index `at` that comes after one that excludes it.
fn excluded_option(at: usize) -> Usage
    ensures { result ≡ record { word = at; kind = ExcludedOption } }
{
    usage_at(at, UsageKind::ExcludedOption)
}

/// The error of an option with a value at index `at` that is the last argument.
pub fn missing_value(tool: Tool, option: OptionName, at: usize) -> Usage
    ensures { (before : Before) → said_by tool before (Unvalued option at) ≡ Err result }
{
    let _ = (tool, option);
    usage_at(at, UsageKind::MissingValue)
}

/// Whether a text begins with `-`.
pub(crate) fn begins_option(text: &[u8]) -> bool
    ensures { result ≡ begins_option text.now }
{
    match text {
        [byte, ..] => *byte == b'-',
        [] => false,
    }
}
