ghost use Rattle.std.specs.Prelude.{◌≡◌, ◌≤◌, Err, length, take, IfOk, OnOk, OnErr};
ghost use Rattle.diy_io.specs.declared.shelf.OpenError.TheVariants as open_errors;
ghost use Rattle.diy_io.specs.Shelf.{ShelfSeen, Idle, name_written, IsReading, IsWriting, IsBusy, Opened, NotThere, Stopped, Gave, Created, NotCreated, Appended, AppendedPart, Finished};

use crate::errors::Failed;

/// The most bytes of the name of a folder that is given.
pub const MAX_FOLDER: usize = 1_024;

/// Why a file isn't open.
#[derive(Clone, Copy, PartialEq, Eq)]
pub enum OpenError {
    /// There is no file of that name.
    Missing,
    /// The shelf failed.
    Failed,
}

/// Where files are kept by their names: a folder, memory.
///
/// One file at a time is read or written. A shelf may show its files. It counts its failed calls, the
/// bytes that were taken from the file that it opened last, the files that it opened to be read, and the
/// ends of files that were seen, each up to the maximum of 64 bits, and keeps what the count of failed
/// calls was when it opened a file last. After each failure no file is open.
pub trait Shelf {
    // What the shelf shows of its files, its mode, and its counts.
    ghost seen: { Self → ShelfSeen };

    /// Opens a file, to be read from its first byte. No file may be open.
    ///
    /// If the shelf shows its files, it returns `Missing` only if none has the name, and doesn't count
    /// that as an error; otherwise `Missing` counts as an error too.
    fn open_file(&mut self, name: &str) -> Result<(), OpenError>
        requires { (seen self.old).mode ≡ Idle }
        ensures ok { OnOk result (Opened (seen self.old) (seen self.new) name.now) }
        ensures missing { result ≡ Err open_errors.Missing → NotThere (seen self.old) (seen self.new) name.now }
        ensures failed { result ≡ Err open_errors.Failed → Stopped (seen self.old) (seen self.new) };

    /// Reads bytes of the file that was opened into the start of `buf`, and returns how many. If `buf`
    /// is not empty, 0 means the end of the file, which is counted as an end that was seen.
    fn read(&mut self, buf: &mut [u8]) -> Result<usize, Failed>
        requires { IsReading (seen self.old).mode }
        ensures bound { IfOk result (λ n. n ≤ length buf.new) }
        ensures ok { IfOk result (λ n. Gave (seen self.old) (seen self.new) (take n buf.new) (length buf.new)) }
        ensures failed { OnErr result (Stopped (seen self.old) (seen self.new)) };

    /// Begins to write a file, which then has no bytes, whatever it had. No file may be open. If that
    /// fails, the file may be empty.
    fn create(&mut self, name: &str) -> Result<(), Failed>
        requires { (seen self.old).mode ≡ Idle }
        ensures ok { OnOk result (Created (seen self.old) (seen self.new) name.now) }
        ensures failed { OnErr result (NotCreated (seen self.old) (seen self.new) name.now) };

    /// Appends bytes to the file that is being written. If the shelf fails, the file has grown by a
    /// prefix of them.
    fn append(&mut self, bytes: &[u8]) -> Result<(), Failed>
        requires { IsWriting (seen self.old).mode }
        ensures ok { OnOk result (Appended (seen self.old) (seen self.new) (name_written (seen self.old).mode) bytes.now) }
        ensures failed { OnErr result (AppendedPart (seen self.old) (seen self.new) (name_written (seen self.old).mode) bytes.now) };

    /// Closes the file that is read or written. After a failure, too, it is closed.
    fn finish(&mut self) -> Result<(), Failed>
        requires { IsBusy (seen self.old).mode }
        ensures ok { OnOk result (Finished (seen self.old) (seen self.new)) }
        ensures failed { OnErr result (Stopped (seen self.old) (seen self.new)) };
}
