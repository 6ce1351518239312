use crate::errors::TableError;
use diy_io::Source;
use std::alloc::Global;

/// The bytes that a source gives up to its end. If the source fails, the error is `BadRow`.
pub fn read_all<S: Source>(alloc: Global, source: &mut S) -> Result<Vec<u8>, TableError> {
    let mut bytes = Vec::new(alloc);
    let mut piece = [0; 4096];
    for _ in 0..u64::MAX {
        match source.read(&mut piece) {
            Ok(0) => return Ok(bytes),
            Ok(count) => bytes.extend_from_slice(&piece[..count])?,
            Err(_) => return Err(TableError::BadRow),
        }
    }
    Ok(bytes)
}
