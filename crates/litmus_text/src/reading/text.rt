ghost use Rattle.std.specs.Prelude.{◌<◌, ◌+◌, ◌^◌, length};

/// What is left of a text, from the beginning of a line on.
#[derive(Clone, Copy)]
pub(crate) struct Text<'a> {
    pub(crate) bytes: &'a [u8],
    /// The number of that line.
    pub(crate) number: u64,
    ghost fits: { number + length bytes.now < 2 ^ 64 },
}
