//! Files of a disk. Those of whole runs stand in cases/.

use io_edges::{DiskFiles, Failed, Files};
use std::fs;
use std::test::Fail;

/// A file of ten octets, and one that is written later.
const FILE: &str = "call_tests_ten_octets.txt";

const LATER: &str = "call_tests_written_later.txt";

// A file gives what it held at its first reading, and one that wasn't there is read once it is. The current folder is no
// file. Once all octets are let go of, every reading fails.
#[test]
fn files_of_a_disk_are_read(rt: HostRuntime) -> Result<(), Fail> {
    fs::write(&rt, FILE, "0123456789")?;
    let mut files = DiskFiles::new(&rt);
    assert!(rt; gives(&mut files, FILE, 0, Some(b"0123")));
    assert!(rt; gives(&mut files, FILE, 8, Some(b"89")));
    assert!(rt; gives(&mut files, FILE, 10, Some(b"")));
    assert!(rt; gives(&mut files, FILE, u64::MAX, Some(b"")));
    assert!(rt; gives(&mut files, LATER, 0, None));
    assert!(rt; gives(&mut files, ".", 0, None));
    fs::write(&rt, FILE, "changed")?;
    fs::write(&rt, LATER, "now")?;
    assert!(rt; gives(&mut files, FILE, 2, Some(b"2345")));
    assert!(rt; gives(&mut files, LATER, 0, Some(b"now")));
    files.let_go_of_all();
    assert!(rt; gives(&mut files, FILE, 0, None));
    assert!(rt; gives(&mut files, LATER, 0, None));
    fs::remove_file(&rt, FILE)?;
    fs::remove_file(&rt, LATER)?;
    Ok(())
}

/// Whether a reading of at most four octets gives these, or fails where there are none.
fn gives<F: Files>(files: &mut F, name: &str, at: u64, wanted: Option<&[u8]>) -> bool {
    let mut into = [0u8; 4];
    match (files.read(name, at, &mut into), wanted) {
        (Ok(count), Some(octets)) => into.get(..count) == Some(octets),
        (Err(Failed), None) => true,
        _ => false,
    }
}
