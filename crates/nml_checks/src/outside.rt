//! What the system's files and a writer are given, of which no clause can tell the content.

use nk_base::Text;
use nk_outside::{Files, OsFiles, OsSink, ReadFault, Sink};
use std::fs;
use std::test::Fail;

/// A folder that only this test has.
const FOLDER: &str = "nml_checks_outside";

/// More than three blocks of 65,536 bytes, then fewer bytes in their place, and none. The name's blanks at its end belong to it.
#[test]
fn bytes_come_back(rt: HostRuntime) -> Result<(), Fail> {
    let _ = fs::remove_dir_all(&rt, FOLDER);
    fs::create_dir(&rt, FOLDER)?;
    let name = Text::from_bytes(rt.alloc(), b"nml_checks_outside/two words  ".as_slice())?;
    let bare = Text::from_bytes(rt.alloc(), b"nml_checks_outside/two words".as_slice())?;
    let mut long = Vec::new(rt.alloc());
    for i in 0..200_000u32 {
        long.push((i % 251) as u8)?;
    }
    let mut files = OsFiles::new(rt);
    assert_eq!(rt; files.read(rt.alloc(), &name), Err(ReadFault::Absent));
    for bytes in [
        long.as_slice(),
        b"add r1\0\xff\n".as_slice(),
        b"".as_slice(),
    ] {
        files.write(rt.alloc(), &name, bytes)?;
        let held = files.read(rt.alloc(), &name)?;
        assert!(rt; held.as_slice() == bytes);
    }
    assert_eq!(rt; files.read(rt.alloc(), &bare), Err(ReadFault::Absent));
    assert_eq!(rt; (files.calls, files.absents), (8, 2));
    assert_eq!(rt; (files.read_faults, files.write_faults), (0, 0));
    fs::remove_dir_all(&rt, FOLDER)?;

    let mut sink = OsSink::new(Vec::new(rt.alloc()));
    for piece in [b"two ".as_slice(), b"".as_slice(), b"pieces".as_slice()] {
        sink.put(rt.alloc(), piece)?;
    }
    assert_eq!(rt; sink.writer.as_slice(), b"two pieces".as_slice());
    assert_eq!(rt; sink.faults, 0);
    Ok(())
}
