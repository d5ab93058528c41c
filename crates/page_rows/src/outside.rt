use cal_base::{
    Failed, Files, Gate, HostFiles, HostSink, MemFiles, MemSink, OpenGate, Point, Sink, append_all,
    write_all,
};
use cal_terms::NoMemory;
use std::alloc::Global;
use std::fs::remove_file;
use std::test::Fail;

fn text(alloc: Global, text: &str) -> Result<String, NoMemory> {
    Ok(String::from_str(alloc, text)?)
}

#[test]
fn a_sink_takes_a_byte_at_a_time(rt: HostRuntime) -> Result<(), Fail> {
    let alloc = rt.alloc();
    let mut sink = MemSink::make(alloc, 1, 64, Vec::new(alloc))?;
    write_all(&mut sink, b"abc")?;
    assert_eq!(rt; sink.bytes(), b"abc".as_slice());
    Ok(())
}

#[test]
fn a_put_fails_by_its_number(rt: HostRuntime) -> Result<(), Fail> {
    let alloc = rt.alloc();
    let mut sink = MemSink::make(alloc, 1, 64, vec![in alloc; 2]?)?;
    assert!(rt; write_all(&mut sink, b"1\n").is_err());
    assert_eq!(rt; sink.bytes(), b"1".as_slice());
    write_all(&mut sink, b"23")?;
    assert_eq!(rt; sink.bytes(), b"123".as_slice());
    Ok(())
}

#[test]
fn a_full_sink_fails(rt: HostRuntime) -> Result<(), Fail> {
    let alloc = rt.alloc();
    let mut sink = MemSink::make(alloc, 3, 4, Vec::new(alloc))?;
    assert!(rt; write_all(&mut sink, b"abcdef").is_err());
    assert_eq!(rt; sink.bytes(), b"abcd".as_slice());
    assert_eq!(rt; sink.put(b"g"), Err(Failed));
    Ok(())
}

#[test]
fn file_calls_fail_by_number_name_and_room(rt: HostRuntime) -> Result<(), Fail> {
    let alloc = rt.alloc();
    let mut given = Vec::new(alloc);
    given.push((text(alloc, "p")?, b"12".to_vec(alloc)?))?;
    let free = vec![in alloc; text(alloc, "l")?]?;
    let mut files = MemFiles::make(alloc, given, free, 4, vec![in alloc; 3]?)?;
    assert_eq!(rt; files.load(alloc, "p", 0)?.as_slice(), b"1".as_slice());
    assert!(rt; files.load(alloc, "l", 9).is_err());
    assert_eq!(rt; files.create("l"), Err(Failed));
    files.create("l")?;
    assert_eq!(rt; files.append("l", b"abcdef"), Ok(4));
    assert_eq!(rt; files.append("l", b"e"), Err(Failed));
    assert!(rt; append_all(&mut files, "l", b"e").is_err());
    assert_eq!(rt; files.create("z"), Err(Failed));
    assert!(rt; files.bytes("l") == Some(b"abcd".as_slice()));
    assert!(rt; files.bytes("z").is_none());
    files.create("p")?;
    assert!(rt; files.bytes("p") == Some(b"".as_slice()));
    append_all(&mut files, "p", b"3")?;
    assert_eq!(rt; files.load(alloc, "p", 9)?.as_slice(), b"3".as_slice());
    Ok(())
}

#[test]
fn host_files_hold_what_they_took(rt: HostRuntime) -> Result<(), Fail> {
    let alloc = rt.alloc();
    let mut files = HostFiles::make(&rt);
    assert!(rt; files.load(alloc, "missing", 9).is_err());
    files.create("x")?;
    append_all(&mut files, "x", b"abc")?;
    assert_eq!(rt; files.load(alloc, "x", 1)?.as_slice(), b"ab".as_slice());
    assert_eq!(rt; files.load(alloc, "x", 9)?.as_slice(), b"abc".as_slice());
    remove_file(&rt, "x")?;
    OpenGate.at(Point::BeforeExecute(0));
    Ok(())
}

#[test]
fn real_streams_take_a_text(rt: HostRuntime) -> Result<(), Fail> {
    write_all(&mut HostSink::out(&rt), b"to standard output\n")?;
    write_all(&mut HostSink::err(&rt), b"to standard error\n")?;
    Ok(())
}
