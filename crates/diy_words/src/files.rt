ghost use Rattle.std.specs.{Prelude.{◌≡◌, ◌<◌, [], length, IfOk, OnErr}, List.{All}};
ghost use Rattle.diy_words.specs.Requests.{asked_of, files_of, IsClassifying};

use crate::options::{Tool, option_named};
use diy_io::{NoMemory, Words};
use std::alloc::Global;

/// The indices of the operands of classify7, which name files, in order. The only error is running out
/// of memory, and it comes only if there is an operand.
pub fn read_files(alloc: Global, words: &Words) -> Result<Vec<usize>, NoMemory>
    // The arguments ask for something of classify7.
    requires { IsClassifying (asked_of words.now) }
    ensures files { IfOk result (λ files. files.items ≡ files_of (asked_of words.now)) }
    ensures some { OnErr result (files_of (asked_of words.now) ≡ [] → ⊥) }
    ensures within { IfOk result (λ files. All (λ place. place < length words.now) files.items) }
{
    let mut files = Vec::new(alloc);
    let mut at = 1;
    while at < words.len() {
        match option_named(Tool::Classify, words.get(at)) {
            Some(_) => at += 2,
            None => {
                files.push(at)?;
                at += 1;
            }
        }
    }
    Ok(files)
}
