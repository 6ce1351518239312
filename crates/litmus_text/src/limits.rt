/// The most bytes that the text of a test can have.
pub const MAX_TEST_TEXT: usize = 1_048_576;

/// The most bytes that the name of a test can have.
pub const MAX_TEST_NAME: usize = 800;

/// The most threads that a test can have.
pub const MAX_THREADS: usize = 64;

/// The most rows that a test's table can have, without its header.
pub const MAX_ROWS: usize = 1024;

/// The most accesses that a thread can have.
pub const MAX_ACCESSES: usize = 64;
