use crate::form::TestForm;

/// What is wanted of tests: their form, and the folder of their files; with no folder a path is the file's name only.
#[derive(Clone, Copy)]
pub(crate) struct Wanted<'a> {
    pub(crate) form: TestForm,
    pub(crate) folder: Option<&'a str>,
}
