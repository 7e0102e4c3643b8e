//! The words of a question.
use script::words::{LineError, words};
use std::alloc::{AllocError, Global};
use std::borrow::CowStr;

/// The words of a line; none where it is of no form.
pub fn words_of<'t>(alloc: Global, line: &'t str) -> Result<Vec<CowStr<'t>>, AllocError> {
    match words(alloc, line.as_bytes()) {
        Ok(words) => Ok(words),
        Err(LineError::NoMemory) => Err(AllocError),
        Err(LineError::BadLine) => Ok(Vec::new(alloc)),
    }
}
