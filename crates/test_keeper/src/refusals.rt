//! Logs that are refused, each with its file, line and cause, and left as they were.
use crate::runs::{
    EIGHT, Edit, GONE, NINE, ONE, OWN, PARTED, THREE, files_of, finds, folder_of, open,
};
use std::alloc::{AllocError, Global};
use std::test::Fail;
use sv_keeper::OpenFault;

/// An edit of the log of three segments, and the file, the line and the cause that are told.
type Row = (
    &'static str,
    &'static str,
    &'static str,
    &'static str,
    u64,
    &'static str,
);

const ROWS: &[Row] = &[
    // Another reply, another request, another number, and a number that is not canonical.
    (ONE, "=(10)", "=(11)", ONE, 1, "Other"),
    (ONE, "relay 1 at 0", "relay 1 at 1", ONE, 2, "Other"),
    (THREE, "noted 1", "idle", THREE, 1, "Other"),
    (THREE, "3 s0", "3 s1", THREE, 1, "Other"),
    (THREE, "observe 0 [0]", "observe 0 [1]", THREE, 3, "Other"),
    (NINE, "10 s2", "11 s2", NINE, 2, "Other"),
    (NINE, "refused 6 4", "refused 5 3", NINE, 4, "Other"),
    (NINE, "refused 6 4", "refused 6 12", NINE, 4, "Other"),
    (THREE, "observe 0 [0]", "observe 0 [00]", THREE, 3, "Other"),
    // A session that is not the next one, and sessions that had their Ends.
    (THREE, "4 s1", "4 s2", THREE, 2, "Session"),
    (THREE, "7 s1", "7 s0", THREE, 5, "Session"),
    (NINE, "9 s2", "9 s1", NINE, 1, "Session"),
    // No lines.
    (NINE, "9 s2", "\n9 s2", NINE, 1, "Unread"),
    (NINE, "11 s2 poll", "11 s2 pole", NINE, 3, "Unread"),
    // A line is left out, and stands twice: in the last segment, and in another one.
    (NINE, "11 s2 poll -> idle\n", "", NINE, 3, "Other"),
    (NINE, "11 s2", "11 s2 poll -> idle\n11 s2", NINE, 4, "Other"),
    (THREE, "6 s0 end -> bye\n", "", EIGHT, 0, "Missing"),
    (THREE, "6 s0", "6 s0 end -> bye\n6 s0", NINE, 0, "Misnamed"),
    // A line is cut, zeros stand in the middle, and zeros stand at the end of a segment that is not the last one.
    (ONE, "[1:c7.1]\n", "[1:c7.1]", ONE, 2, "Behind"),
    (THREE, "(20)]\n", "(2", THREE, 6, "Behind"),
    (THREE, "6 s0", "\0\06 s0", THREE, 4, "Behind"),
    (THREE, "(20)]\n", "(20)]\n\0", THREE, 7, "Behind"),
    // Files that are missing, or empty, and another world.
    (OWN, "", GONE, OWN, 0, "Missing"),
    (ONE, "", GONE, ONE, 0, "Missing"),
    (THREE, "", GONE, THREE, 0, "Missing"),
    (ONE, "", "", ONE, 0, "Empty"),
    (THREE, "", "", THREE, 0, "Empty"),
    (OWN, "w", "v", OWN, 0, "World"),
];

/// The file, the line and the cause that are told, and whether nothing was asked of the folder, which is what it was.
fn refused(alloc: Global, edit: &Edit) -> Result<(String, bool), Fail> {
    let folder = folder_of(alloc, PARTED.parts, edit)?;
    let files = files_of(alloc, &folder)?;
    match open(alloc, folder, 8)? {
        Ok(keeper) => {
            drop(keeper);
            Err(Fail::new("it is opened"))
        }
        Err((fault, folder)) => {
            let told = told(alloc, &fault);
            drop(fault);
            let is_same = files_of(alloc, &folder)?.as_slice() == files.as_slice();
            Ok((told?, is_same && folder.asked() == 0))
        }
    }
}

fn told(alloc: Global, fault: &OpenFault) -> Result<String, AllocError> {
    match fault {
        OpenFault::Line { file, line, cause } => format!(in alloc; "{file} {line} {cause:?}"),
        OpenFault::Refused(it) => format!(in alloc; "{} {} {:?}", it.file, it.line, it.cause),
        _ => Ok(String::new(alloc)),
    }
}

#[test]
fn wrong_logs_are_refused(rt: HostRuntime) -> Result<(), Fail> {
    for (file, old, new, of, line, cause) in ROWS {
        let expected = format!(in rt.alloc(); "{of} {line} {cause}")?;
        let (told, is_same) = refused(rt.alloc(), &(*file, *old, *new))?;
        assert_eq!(rt; told.as_str(), expected.as_str());
        assert!(rt; is_same);
    }
    Ok(())
}

#[test]
fn what_stands_behind_the_last_text_is_kept(rt: HostRuntime) -> Result<(), Fail> {
    let alloc = rt.alloc();
    let folder = folder_of(alloc, PARTED.parts, &(NINE, "11", "\0\0"))?;
    let folder = finds(alloc, folder, (10, 10))?;
    let rest = folder.file("rest-00000000000000000011.txt")?;
    let behind = "\0\0 s2 poll -> idle\n12 s2 submit 3 bad -> refused 6 4\n13 s2 e";
    assert!(rt; rest.unwrap_or(Vec::new(alloc)).as_slice() == behind.as_bytes());
    Ok(())
}
