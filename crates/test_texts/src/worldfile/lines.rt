//! What is printed of a text that is read.

use std::alloc::Global;
use std::test::Fail;
use sv_worldfile::{ReadFault, append_fault_line, read_world};

/// The text with `"` for each `'`.
pub(crate) fn quoted(alloc: Global, text: &str) -> Result<Vec<u8>, Fail> {
    let mut bytes = Vec::new(alloc);
    for byte in text.as_bytes() {
        bytes.push(if *byte == b'\'' { b'"' } else { *byte })?;
    }
    Ok(bytes)
}

fn tell(fault: ReadFault, line: &mut String) -> Result<(), Fail> {
    match fault {
        ReadFault::Scenario(fault) => {
            let done = append_fault_line(&fault, line);
            drop(fault);
            Ok(done?)
        }
        ReadFault::Memory => Err(Fail::from("out of memory")),
    }
}

/// The line that tells why bytes are no world file, and `read` where they are one.
fn line_of(alloc: Global, bytes: &[u8]) -> Result<String, Fail> {
    let mut line = String::new(alloc);
    match read_world(alloc, bytes) {
        Ok(file) => {
            drop(file);
            line.push_str("read")?
        }
        Err(fault) => tell(fault, &mut line)?,
    }
    Ok(line)
}

/// Whether this is printed of bytes.
pub(crate) fn is_line(alloc: Global, bytes: &[u8], printed: &str) -> Result<bool, Fail> {
    let line = line_of(alloc, bytes)?;
    Ok(line.as_str() == printed)
}
