ghost use Rattle.std.specs.{Prelude.{◌≡◌, ◌++◌, IfOk, OnOk, length, map}, Fmt.{decimal}, List.{enumerate_from, flat_map, zip}};
ghost use Rattle.litmus_text.specs.TestText.{with_line_feed};
ghost use Rattle.exec_text.specs.ExecutionText.{place_head, thread_head};
ghost use Rattle.exec_text.specs.Written.{access_word, place_line, read_word, source_word, text_of_execution, thread_line};

use arch_trait::Places;
use diy_io::NoMemory;
use final_cond::PlaceName;
use itoa::Buffer;
use program_meaning::{Execution, Read, WriteAt};
use std::alloc::Global;

fn push_number(number: u32, text: &mut Vec<u8>) -> Result<(), NoMemory>
    ensures { OnOk result (text.new.items ≡ text.old.items ++ decimal number) }
{
    text.extend_from_slice(Buffer::new().format(number).as_bytes())?;
    Ok(())
}

#[tactic(auto, unfolding(crate::specs::Written::access_word))]
fn push_access(access: WriteAt, text: &mut Vec<u8>) -> Result<(), NoMemory>
    ensures { OnOk result (text.new.items ≡ text.old.items ++ access_word access) }
{
    push_number(u32::from(access.thread), text)?;
    text.push(b'.')?;
    push_number(u32::from(access.access), text)
}

/// Appends the word for what a read reads, `init` or `T.N`.
#[tactic(auto, unfolding(crate::specs::Written::source_word))]
fn push_source(source: Option<WriteAt>, text: &mut Vec<u8>) -> Result<(), NoMemory>
    ensures { OnOk result (text.new.items ≡ text.old.items ++ source_word source) }
{
    match source {
        None => {
            text.extend_from_slice(b"init")?;
            Ok(())
        }
        Some(access) => push_access(access, text),
    }
}

#[tactic(auto, unfolding(crate::specs::Written::read_word))]
fn push_read(read: Read, text: &mut Vec<u8>) -> Result<(), NoMemory>
    ensures { OnOk result (text.new.items ≡ text.old.items ++ read_word read) }
{
    let (value, source) = read;
    push_number(value, text)?;
    text.push(b'@')?;
    push_source(source, text)
}

fn push_thread_head(thread: u8, text: &mut Vec<u8>) -> Result<(), NoMemory>
    ensures { OnOk result (text.new.items ≡ text.old.items ++ thread_head thread) }
{
    text.push(b'P')?;
    push_number(u32::from(thread), text)?;
    text.push(b':')?;
    Ok(())
}

fn push_place_head(place: &PlaceName, text: &mut Vec<u8>) -> Result<(), NoMemory>
    ensures { OnOk result (text.new.items ≡ text.old.items ++ place_head place.now.bytes) }
{
    text.extend_from_slice(place.as_str().as_bytes())?;
    text.push(b':')?;
    Ok(())
}

/// Appends the line of a thread.
fn push_thread(thread: u8, reads: &[Read], text: &mut Vec<u8>) -> Result<(), NoMemory>
    ensures { OnOk result (text.new.items ≡ text.old.items ++ with_line_feed (thread_line (thread, reads.now))) }
{
    push_thread_head(thread, text)?;
    for read in reads {
        text.push(b' ')?;
        push_read(*read, text)?;
    }
    text.push(b'\n')?;
    Ok(())
}

/// Appends the line of a location.
fn push_place(place: &PlaceName, writes: &[WriteAt], text: &mut Vec<u8>) -> Result<(), NoMemory>
    ensures { OnOk result (text.new.items ≡ text.old.items ++ with_line_feed (place_line (place.now.bytes, writes.now))) }
{
    push_place_head(place, text)?;
    for write in writes {
        text.push(b' ')?;
        push_access(*write, text)?;
    }
    text.push(b'\n')?;
    Ok(())
}

/// Appends the lines of the threads.
fn push_threads(execution: &Execution, text: &mut Vec<u8>) -> Result<(), NoMemory>
    ensures { OnOk result (text.new.items ≡ text.old.items ++ flat_map with_line_feed (map thread_line (enumerate_from 0 execution.now.reads))) }
{
    for thread in 0..execution.threads() {
        push_thread(thread, execution.reads(thread), text)?;
    }
    Ok(())
}

/// Appends the lines of the locations.
fn push_places(execution: &Execution, places: &Places, text: &mut Vec<u8>) -> Result<(), NoMemory>
    requires { length execution.now.orders ≡ length places.now }
    ensures { OnOk result (text.new.items ≡ text.old.items ++ flat_map with_line_feed (map place_line (zip places.now execution.now.orders))) }
{
    for place in 0..places.len() {
        push_place(places.get(place), execution.writes(place), text)?;
    }
    Ok(())
}

/// The text of an execution over locations with these names, where location number k has name number k: a line for
/// each thread, `Pk:` and for each of its reads `VALUE@init` or `VALUE@T.N`, the value and the access that is read;
/// then a line for each location, its name, a colon and its writes in coherence order, each as `T.N`. There is
/// one blank between words, and a line feed after each line. It fails only if there is no memory.
///
/// `written_reads_back` says for which executions this text is read back as the execution.
#[tactic(auto, unfolding(crate::specs::Written::text_of_execution))]
pub fn write_execution(
    alloc: Global,
    execution: &Execution,
    places: &Places,
) -> Result<Vec<u8>, NoMemory>
    requires { length execution.now.orders ≡ length places.now }
    ensures { IfOk result (λ text. text.items ≡ text_of_execution places.now execution.now) }
{
    let mut text = Vec::new(alloc);
    push_threads(execution, &mut text)?;
    push_places(execution, places, &mut text)?;
    Ok(text)
}
