//! The limits of files and of their long lists.

use crate::worldfile::lines::{is_line, quoted};
use std::alloc::Global;
use std::test::Fail;

/// A head, so many times an item with commas between, and a tail.
type Long = (&'static str, &'static str, usize, &'static str);

fn written(alloc: Global, long: Long) -> Result<String, Fail> {
    let (head, item, count, tail) = long;
    let mut text = String::from_str(alloc, head)?;
    for index in 0..count {
        if index > 0 {
            text.push_str(",")?;
        }
        text.push_str(item)?;
    }
    text.push_str(tail)?;
    Ok(text)
}

fn is_printed(alloc: Global, long: Long, printed: &str) -> Result<bool, Fail> {
    let text = written(alloc, long)?;
    let bytes = quoted(alloc, &text)?;
    is_line(alloc, &bytes, printed)
}

/// Up to the objects, and up to the rights.
const OBJECTS: &str = "{'bound':4,'attrs':1,'objects':[";

const RIGHTS: &str = "{'attrs':1,'objects':[[5]],'bound':4,'rights':[";

const RIGHT: &str = "{'clients':[0,0],'objects':[0,0]}";

#[test]
fn keeps_the_limits_of_lists(rt: HostRuntime) -> Result<(), Fail> {
    for (long, printed) in [
        ((OBJECTS, "[5]", 0, "]}"), "scenario: /objects: range\n"),
        ((OBJECTS, "[5]", 4097, "]}"), "read"),
        ((OBJECTS, "[5]", 65_535, "]}"), "read"),
        (
            (OBJECTS, "[5]", 65_536, "]}"),
            "scenario: /objects: range\n",
        ),
        ((RIGHTS, RIGHT, 0, "]}"), "read"),
        ((RIGHTS, RIGHT, 65_536, "]}"), "read"),
        ((RIGHTS, "5", 65_536, "]}"), "scenario: /rights/0: kind\n"),
        ((RIGHTS, "5", 65_537, "]}"), "scenario: /rights: range\n"),
    ] {
        assert!(rt; is_printed(rt.alloc(), long, printed)?, "{printed}");
    }
    Ok(())
}

/// What stands behind the objects of a world of which somebody may write the last one, or one more.
const LAST: &str = "],'rights':[{'clients':[0,65535],'objects':[0,65534]}]}";

const BEYOND: &str = "],'rights':[{'clients':[0,65535],'objects':[0,65535]}]}";

#[test]
fn the_greatest_world_has_65534_as_its_last_object(rt: HostRuntime) -> Result<(), Fail> {
    for (long, printed) in [
        ((OBJECTS, "[5]", 65_535, LAST), "read"),
        (
            (OBJECTS, "[5]", 65_535, BEYOND),
            "scenario: /rights/0/objects/1: object\n",
        ),
    ] {
        assert!(rt; is_printed(rt.alloc(), long, printed)?, "{printed}");
    }
    Ok(())
}

const GOOD: &str = "{'attrs':1,'objects':[[5]],'bound':4}";

/// So much is printed of a text with a byte behind it so often that there are so many bytes in all.
fn is_filled(
    alloc: Global,
    text: &str,
    byte: u8,
    size: usize,
    printed: &str,
) -> Result<bool, Fail> {
    let mut bytes = quoted(alloc, text)?;
    bytes.resize(size, byte)?;
    is_line(alloc, &bytes, printed)
}

#[test]
fn refuses_more_than_16_mebibytes(rt: HostRuntime) -> Result<(), Fail> {
    for (text, byte, size, printed) in [
        (GOOD, b' ', 16_777_216, "read"),
        (GOOD, b' ', 16_777_217, "scenario: : size\n"),
        (GOOD, 0xFF, 16_777_217, "scenario: : size\n"),
    ] {
        assert!(rt;
            is_filled(rt.alloc(), text, byte, size, printed)?,
            "{printed}"
        );
    }
    Ok(())
}
