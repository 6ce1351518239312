ghost use Rattle.std.specs.{Prelude.{◌≡◌, ◌≤◌, ◌++◌, length}, Option.{ForSome, option_map}};
ghost use Rattle.tests_to_files.specs.ListedFiles.{file_named, path_of, stem_named};

use arrayvec::ArrayString;
use diy_io::MAX_FOLDER;
use itoa::Buffer;

/// The most bytes of a test's name that its file is called by: 200.
const MAX_NAMED: usize = 200;

/// The most bytes of the ending of a file's name: 7.
pub const MAX_ENDING: usize = 7;

/// The most bytes of a file's name, with its ending and without its folder: 207.
pub const MAX_FILE: usize = 207;

/// The most bytes of a file's name with its folder: 1,232.
pub const MAX_PATH: usize = 1_232;

/// The name of a file with its ending and without its folder.
pub type FileName = ArrayString<MAX_FILE>;

/// The name of a file with its folder.
pub type Path = ArrayString<MAX_PATH>;

/// The name of the file of a test, by the number and the name of the test. The number counts only if the name has more than
/// 200 bytes.
#[tactic(auto, unfolding(crate::specs::ListedFiles::file_named))]
pub fn file_named(number: u128, name: &str) -> FileName
    ensures { result.bytes ≡ file_named number name.now }
{
    file_ending(number, name, ".litmus")
}

/// The path of a file of a test, by the number and the name of the test and the file's ending. The folder has at most
/// `MAX_FOLDER` bytes, and the ending at most `MAX_ENDING`.
pub fn test_path(folder: Option<&str>, number: u128, name: &str, ending: &str) -> Path
    requires folder { ForSome folder (λ folder. length folder.now ≤ MAX_FOLDER) }
    requires ending { length ending.now ≤ MAX_ENDING }
    ensures { result.bytes ≡ path_of (option_map (λ folder. folder.now) folder.entry) (stem_named number name.now ++ ending.now) }
{
    path_of(folder, file_ending(number, name, ending).as_str())
}

/// The name of a file of a test with this ending.
#[tactic(auto, unfolding(crate::specs::ListedFiles::stem_named))]
fn file_ending(number: u128, name: &str, ending: &str) -> FileName
    requires { length ending.now ≤ MAX_ENDING }
    ensures { result.bytes ≡ stem_named number name.now ++ ending.now }
{
    let mut file = FileName::new();
    if name.len() <= MAX_NAMED {
        file.push_str(name);
    } else {
        let mut digits = Buffer::new();
        file.push_str("long");
        file.push_str(digits.format(number));
    }
    file.push_str(ending);
    file
}

/// The path of a file, in a folder if one is given.
pub(crate) fn path_of(folder: Option<&str>, file: &str) -> Path
    requires folder { ForSome folder (λ folder. length folder.now ≤ MAX_FOLDER) }
    requires file { length file.now ≤ MAX_FILE }
    ensures { result.bytes ≡ path_of (option_map (λ folder. folder.now) folder.entry) file.now }
{
    let mut path = Path::new();
    set_path(folder, file, &mut path);
    path
}

/// Sets `path` to that of a file, in a folder of at most `MAX_FOLDER` bytes if one is given. The file's name has at most
/// `MAX_FILE` bytes. What `path` held doesn't matter.
pub fn set_path(folder: Option<&str>, file: &str, path: &mut Path)
    requires folder { ForSome folder (λ folder. length folder.now ≤ MAX_FOLDER) }
    requires file { length file.now ≤ MAX_FILE }
    ensures { path.new.bytes ≡ path_of (option_map (λ folder. folder.now) folder.entry) file.now }
{
    path.clear();
    match folder {
        Some(folder) => {
            path.push_str(folder);
            path.push_str("/");
        }
        None => {}
    }
    path.push_str(file);
}
