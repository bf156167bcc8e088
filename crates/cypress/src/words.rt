//! The words of the command line.

use cyp_term::NoMemory;
use std::alloc::Global;
use std::env::Args;
use std::io::{self, ErrorKind};

/// The words behind the program's name. Where a word isn't UTF-8 there are none: no command is without words, so they are
/// refused as a faulty command line is.
pub(crate) fn words_behind(
    alloc: Global,
    given: io::Result<Args>,
) -> Result<Vec<String>, NoMemory> {
    let mut words = Vec::new(alloc);
    match given {
        Ok(all) => {
            for word in all.skip(1) {
                words.push(word)?;
            }
        }
        Err(error) => {
            if error.kind() == ErrorKind::OutOfMemory {
                return Err(NoMemory);
            }
        }
    }
    Ok(words)
}
