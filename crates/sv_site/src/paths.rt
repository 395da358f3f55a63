//! Paths of the site.
ghost use Rattle.std.specs.Prelude.{◌≡◌, IfOk, option_map, string_bytes};
ghost use Rattle.std.specs.List.{list_all};
ghost use Rattle.sv_site.specs.Paths.{slash, is_plain_byte, is_plain, is_path, file_of};
ghost use Rattle.sv_site.specs.Parts.{parts_of};

use crate::parts::cut_at;
use std::alloc::{AllocError, Global};

fn is_plain_byte(byte: u8) -> bool
    ensures { result ≡ is_plain_byte byte }
{
    byte.is_ascii_alphanumeric() || byte == b'-' || byte == b'_' || byte == b'.'
}

fn has_plain_bytes(part: &[u8]) -> bool
    ensures { result ≡ list_all is_plain_byte part.now }
{
    part.iter().all(|byte| is_plain_byte(*byte))
}

/// Whether a part of a path names something in its folder: it is not empty, does not begin with a dot, and has plain bytes alone.
fn is_plain(part: &[u8]) -> bool
    ensures { result ≡ is_plain part.now }
{
    !part.is_empty() && part[0] != b'.' && has_plain_bytes(part)
}

/// Whether each part of what stands below a folder is so.
fn are_plain(below: &[u8]) -> bool
    ensures { result ≡ list_all is_plain (parts_of slash below.now) }
{
    let mut left = Some(below);
    while let Some(text) = left {
        let (part, rest) = cut_at(text, b'/');
        if !is_plain(part) {
            return false;
        }
        left = rest;
    }
    true
}

/// Whether a path begins with a slash, and each part behind it names something in its folder.
fn is_path(path: &[u8]) -> bool
    ensures { result ≡ is_path path.now }
{
    match path {
        [b'/', below @ ..] => are_plain(below),
        _ => false,
    }
}

/// The file of a folder that a path names, where it names one that is in the folder.
pub fn path_in(alloc: Global, folder: &str, path: &str) -> Result<Option<String>, AllocError>
    ensures { IfOk result (λ name. option_map string_bytes name ≡ file_of folder.now path.now) }
{
    let path = if path == "/" { "/index.html" } else { path };
    if !is_path(path.as_bytes()) {
        return Ok(None);
    }
    let mut name = String::from_str(alloc, folder)?;
    name.push_str(path)?;
    Ok(Some(name))
}
