ghost use Rattle.std.specs.Prelude.{◌≡◌};
ghost use Rattle.diy_io.specs.Shelf.{Idle, IsReading};

use diy_io::{Failed, OpenError, Shelf, Sink};
use std::io::{ErrorKind, Write};
use std::{fs, io};
use system_devices::{DirShelf, StdSink};

/// A writer that takes at most three bytes in a call, fails at call 2 and takes nothing at call 4, counted from 0.
#[derive(Drop)]
struct Unsteady {
    calls: u8,
    taken: Vec<u8>,
}

impl Write for Unsteady {
    fn write(&mut self, buf: &[u8]) -> io::Result<usize> {
        let call = self.calls;
        self.calls = self.calls.saturating_add(1);
        let count = match call {
            2 => return Err(io::Error::from(ErrorKind::Other)),
            4 => 0,
            _ => buf.len().min(3),
        };
        self.taken.extend_from_slice(&buf[..count])?;
        Ok(count)
    }

    fn flush(&mut self) -> io::Result<()> {
        Ok(())
    }
}

#[test]
fn std_sink_writes_until_the_writer_fails(rt: HostRuntime) {
    let mut writer = Unsteady {
        calls: 0,
        taken: Vec::new(rt.alloc()),
    };
    let mut sink = StdSink::new(&mut writer);
    assert_eq!(rt; sink.write_all(b"abcd"), Ok(()));
    assert_eq!(rt; sink.write_all(b"efgh"), Err(Failed));
    assert_eq!(rt; sink.write_all(b"ijklm"), Err(Failed));
    assert_eq!(rt; writer.taken.as_slice(), b"abcdijk".as_slice());
}

/// Makes a file from two parts.
fn store<S: Shelf>(shelf: &mut S, name: &str, first: &[u8], second: &[u8]) -> Result<(), Failed>
    requires { (S.seen shelf.old).mode ≡ Idle }
    ensures { (S.seen shelf.new).mode ≡ Idle }
{
    shelf.create(name)?;
    shelf.append(first)?;
    shelf.append(second)?;
    shelf.finish()
}

/// Reads a file in four pieces of at most two bytes, and returns their lengths.
fn load<S: Shelf>(shelf: &mut S, name: &str, buf: &mut [u8; 8]) -> Result<[usize; 4], OpenError>
    requires { (S.seen shelf.old).mode ≡ Idle }
    ensures { (S.seen shelf.new).mode ≡ Idle }
{
    shelf.open_file(name)?;
    match load_pieces(shelf, buf) {
        Ok(lens) => Ok(lens),
        Err(Failed) => Err(OpenError::Failed),
    }
}

fn load_pieces<S: Shelf>(shelf: &mut S, buf: &mut [u8; 8]) -> Result<[usize; 4], Failed>
    requires { IsReading (S.seen shelf.old).mode }
    ensures { (S.seen shelf.new).mode ≡ Idle }
{
    let first = shelf.read(&mut buf[..2])?;
    let second = shelf.read(&mut buf[2..4])?;
    let third = shelf.read(&mut buf[4..6])?;
    let last = shelf.read(&mut buf[6..])?;
    shelf.finish()?;
    Ok([first, second, third, last])
}

/// Whether a shelf does what is expected with a file that doesn't exist, one in a folder that doesn't exist,
/// one from two parts, and one that is made anew.
fn keeps_files<S: Shelf>(shelf: &mut S, buf: &mut [u8; 8]) -> bool
    requires { (S.seen shelf.old).mode ≡ Idle }
{
    load(shelf, "shelf/a", buf) == Err(OpenError::Missing)
        && store(shelf, "shelf/none/a", b"abc", b"") == Err(Failed)
        && store(shelf, "shelf/a", b"abc", b"de") == Ok(())
        && load(shelf, "shelf/a", buf) == Ok([2, 2, 1, 0])
        && *buf == *b"abcde..."
        && store(shelf, "shelf/a", b"", b"") == Ok(())
        && load(shelf, "shelf/a", buf) == Ok([0, 0, 0, 0])
        && *buf == *b"abcde..."
}

#[test]
fn folder_shelf_keeps_files(rt: HostRuntime) {
    let _ = fs::remove_dir_all(&rt, "shelf");
    assert!(rt; fs::create_dir(&rt, "shelf").is_ok());
    let mut shelf = DirShelf::new(rt.alloc(), &rt);
    let mut buf = *b"........";
    assert!(rt; keeps_files(&mut shelf, &mut buf));
    assert!(rt; fs::remove_dir_all(&rt, "shelf").is_ok());
}
