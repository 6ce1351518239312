//! The program: hands its arguments, the standard streams and the files of the current folder to `run`.
#![tactic(auto)]

use diy_io::{NoMemory, Words};
use diy_tools::run;
use std::env;
use std::io::ErrorKind;
use std::process::ExitCode;
use system_devices::{DirShelf, StdSink, StdSource};

/// The arguments after the program's name, or the status with which the program ends if it gets none:
/// 4 if there is no memory for them, and 3 if the system fails to supply them for another reason.
fn words_of(rt: &HostRuntime) -> Result<Words, ExitCode> {
    let args = match env::args(rt) {
        Ok(args) => args,
        Err(error) if error.kind() == ErrorKind::OutOfMemory => return Err(no_memory(rt)),
        Err(_) => {
            let _ = rt.eprintln("diy: read fault: words");
            return Err(ExitCode::from(3));
        }
    };
    let mut words = Words::new(rt.alloc());
    for word in args.skip(1) {
        if let Err(NoMemory) = words.push(word.as_str()) {
            return Err(no_memory(rt));
        }
    }
    Ok(words)
}

/// Says that there is no memory for the arguments, and returns the status for that.
fn no_memory(rt: &HostRuntime) -> ExitCode {
    let _ = rt.eprintln("diy: no memory");
    ExitCode::from(4)
}

fn main(rt: HostRuntime) -> ExitCode {
    match words_of(&rt) {
        Err(code) => code,
        Ok(words) => {
            let mut input = StdSource::new(rt.stdin());
            let mut out = StdSink::new(rt.stdout());
            let mut err = StdSink::new(rt.stderr());
            let mut shelf = DirShelf::new(rt.alloc(), &rt);
            let status = run(
                rt.alloc(),
                &words,
                &mut input,
                &mut out,
                &mut err,
                &mut shelf,
            );
            ExitCode::from(status.exit())
        }
    }
}
