ghost use Rattle.std.specs.Prelude.{◌<◌, length};

use crate::block::Keyword;
use crate::errors::TableError;
use crate::part::Trial;
use arch_aarch64::A64;
use arch_arm::Arm;
use arch_power::Power;
use arch_riscv::Riscv;
use arch_trait::Arch;
use arch_x86::X86;
use final_cond::print_cond;
use litmus_text::{ReadError, ReadTest, TextError, arch_of, read_test};
use memory_devices::MemSink;
use relax_edges::ArchName;
use std::alloc::Global;

/// The architecture with this name or, if the name is empty, the one that the header of a text names.
fn arch_named(word: &str, text: &[u8]) -> Result<Result<ArchName, TextError>, TableError> {
    match word {
        "" => Ok(arch_of(text)),
        "X86" => Ok(Ok(ArchName::X86)),
        "PPC" => Ok(Ok(ArchName::PPC)),
        "AArch64" => Ok(Ok(ArchName::AArch64)),
        "RISCV" => Ok(Ok(ArchName::RISCV)),
        "ARM" => Ok(Ok(ArchName::ARM)),
        _ => Err(TableError::BadRow),
    }
}

impl Trial<'_> {
    /// Reads the input of a row, or its prefix if a length is given, as a test, and adds the parts: the
    /// status is `Read` or the error, and the output describes the whole test, or is empty after an error.
    pub fn read(&mut self, arch: &str) -> Result<(), TableError> {
        let text = self.prefix_of(Keyword::Input)?;
        match arch_named(arch, text)? {
            Ok(ArchName::X86) => self.add_reading::<X86>(text),
            Ok(ArchName::PPC) => self.add_reading::<Power>(text),
            Ok(ArchName::AArch64) => self.add_reading::<A64>(text),
            Ok(ArchName::RISCV) => self.add_reading::<Riscv>(text),
            Ok(ArchName::ARM) => self.add_reading::<Arm>(text),
            Err(fault) => self.add_fault(fault),
        }
    }

    /// Adds what a text is read as to the parts.
    fn add_reading<A: Arch>(&mut self, text: &[u8]) -> Result<(), TableError> {
        match read_test::<A>(self.alloc, text) {
            Ok(test) => {
                self.add_status("Read")?;
                self.add_out(describe(self.alloc, &test)?.as_slice())
            }
            Err(ReadError::Text(fault)) => self.add_fault(fault),
            Err(ReadError::NoMemory) => Err(TableError::NoMemory),
        }
    }

    /// Adds the error of a text to the parts.
    fn add_fault(&mut self, fault: TextError) -> Result<(), TableError> {
        let line = fault.line;
        let kind = fault.kind;
        let got = format!(in self.alloc; "line {line} {kind:?}")?;
        self.add_status(got.as_str())?;
        self.add_out(b"")
    }
}

/// Describes a whole test: the architecture and the name, what it quotes, its locations, the registers
/// that each thread is given and its operations, and the condition.
fn describe<A: Arch>(alloc: Global, test: &ReadTest<A>) -> Result<Vec<u8>, TableError> {
    let mut page = Vec::new(alloc);
    let arch = A::NAME;
    let header = format!(in alloc; "{arch:?} ")?;
    add_line(&mut page, header.as_str(), test.name())?;
    if let Some(quoted) = test.quoted() {
        add_line(&mut page, "quoted ", quoted)?;
    }
    let places = test.places();
    for place in 0..places.len() {
        add_line(&mut page, "place ", places.get(place).as_str().as_bytes())?;
    }
    for thread in 0..test.threads() {
        add_thread(alloc, test, thread, &mut page)?;
    }
    let mut printed = MemSink::new(alloc, 8192)?;
    if print_cond(test.cond(), &mut printed).is_err() {
        return Err(TableError::BadRow);
    }
    add_line(&mut page, "", printed.bytes())?;
    Ok(page)
}

/// Adds a line with a word and then bytes.
fn add_line(page: &mut Vec<u8>, word: &str, bytes: &[u8]) -> Result<(), TableError> {
    page.extend_from_slice(word.as_bytes())?;
    page.extend_from_slice(bytes)?;
    page.push(b'\n')?;
    Ok(())
}

/// Adds the registers that a thread is given, and its operations.
fn add_thread<A: Arch>(
    alloc: Global,
    test: &ReadTest<A>,
    thread: u8,
    page: &mut Vec<u8>,
) -> Result<(), TableError>
    requires { thread < length test.now.threads }
{
    let header = format!(in alloc; "{thread}")?;
    add_line(page, "thread ", header.as_str().as_bytes())?;
    for (register, value) in test.init(thread) {
        let given = format!(in alloc; "{register} {value:?}")?;
        add_line(page, "register ", given.as_str().as_bytes())?;
    }
    for op in test.code(thread) {
        let text = format!(in alloc; "{op:?}")?;
        add_line(page, "", text.as_str().as_bytes())?;
    }
    Ok(())
}
