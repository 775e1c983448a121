// Lists, scripts and rows of events.
use inputs::events::refused;
use inputs::lists::{Reason, read_list};
use inputs::scripts::{ScriptError, Wrong, read_script};
use std::test::Fail;

// a list with all ten sizes in any order, a comment, blanks, and contents of file 1
const LIST: &[u8] =
    b"# small\nturn 8\nprocesses 2\nopens 4\npipes 1\nhandles 5\n\n  memory 4096 # one page\npipe 4\nfile 256\nfiles 2\nscreens 1\r\nput 1 old.txt\n";

#[test]
fn a_list(rt: HostRuntime) -> Result<(), Fail> {
    match read_list(LIST) {
        Ok(list) => {
            assert!(rt; list.sizes.processes == 2 && list.sizes.memory == 4096);
            assert!(rt; list.sizes.pipe == 4 && list.sizes.pipes == 1 && list.sizes.turn == 8);
            assert!(rt; list.lines[0] == 3 && list.puts[0].is_none());
            match list.puts[1] {
                Some(put) => {
                    assert!(rt; put.line == 13);
                    Ok(())
                },
                None => Err(Fail::new("file 1 has contents")),
            }
        }
        Err(_) => Err(Fail::new("the list is right")),
    }
}

#[test]
fn a_wrong_list(rt: HostRuntime) -> Result<(), Fail> {
    match read_list(b"turn 8\n\nturn 9\n") {
        Err(fault) => {
            assert!(rt; fault.line == 3 && matches!(fault.reason, Reason::Twice(_)));
            Ok(())
        },
        Ok(_) => Err(Fail::new("turn stands twice")),
    }
}

#[test]
fn a_script(rt: HostRuntime) -> Result<(), Fail> {
    let text = b"ticks 300 # some\nkey 0 k\nkey 1 #7\n\ncut 3 255\n";
    match read_script(rt.alloc(), text) {
        Ok(bytes) => {
            assert!(rt;
                bytes.as_slice()
                    == [0, 44, 1, 0, 0, 1, 0, 107, 1, 1, 7, 2, 3, 0, 0, 0, 255].as_slice()
            );
            assert_eq!(rt; refused(&bytes), None);
            Ok(())
        }
        Err(_) => Err(Fail::new("the script is right")),
    }
}

#[test]
fn a_wrong_script(rt: HostRuntime) -> Result<(), Fail> {
    match read_script(rt.alloc(), b"ticks 1\nkey 0\n") {
        Err(ScriptError::Line(line, wrong)) => {
            assert!(rt; line == 2 && matches!(wrong, Wrong::NoKey));
            Ok(())
        },
        _ => Err(Fail::new("a key is missing")),
    }
}

#[test]
fn refusals(rt: HostRuntime) {
    assert_eq!(rt; refused(b""), None);
    assert_eq!(rt; refused(b"\x03"), Some(0));
    assert_eq!(rt; refused(b"\x01\x00k\x00\x01\x00\x00"), Some(3));
    assert_eq!(rt; refused(b"\x02\x00\x00\x00\x00\xff"), None);
}
