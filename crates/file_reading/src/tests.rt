// What `read_file` reads of a file that the test has written, and of one that is not there.
use crate::read_file;
use std::fs;
use std::test::Fail;

const PATH: &str = "file_reading_test";

#[test]
fn as_much_of_a_file_as_the_buffer_takes(rt: HostRuntime) -> Result<(), Fail> {
    fs::write(&rt, PATH, "12345")?;
    let mut longer = [0; 7];
    assert_eq!(rt; read_file(&rt, PATH, &mut longer), 5);
    assert_eq!(rt; longer, *b"12345\0\0");
    let mut shorter = [0; 3];
    assert_eq!(rt; read_file(&rt, PATH, &mut shorter), 3);
    assert_eq!(rt; shorter, *b"123");
    assert_eq!(rt; read_file(&rt, PATH, &mut []), 0);
    fs::write(&rt, PATH, "")?;
    assert_eq!(rt; read_file(&rt, PATH, &mut shorter), 0);
    assert_eq!(rt; shorter, *b"123");
    fs::remove_file(&rt, PATH)?;
    Ok(())
}

#[test]
fn nothing_of_a_file_that_is_not_there(rt: HostRuntime) {
    let mut buffer = *b"123";
    assert_eq!(rt; read_file(&rt, "no_such_file", &mut buffer), 0);
    assert_eq!(rt; buffer, *b"123");
}
