//! The real files: what they hold, what they do where the system interrupts them, and the program over them.

use cal_base::{Files, HostFiles, LoadError, MemSink, OpenGate, append_all};
use calypso_cli::calypso;
use row_calls::strings;
use std::alloc::{Allocator, Global};
use std::fs::{File, Metadata, OpenFile, OpenOptions, create_dir, remove_dir, remove_file, write};
use std::io::{self, ErrorKind, Read, Seek, SeekFrom, Write};
use std::rt;
use std::test::Fail;

/// A host whose reads and writes are interrupted so many times before each is done, or whose writes take nothing.
#[derive(Drop)]
struct Shaky<'a> {
    rt: &'a HostRuntime,
    interrupts: u32,
    takes_nothing: bool,
}

#[derive(Drop)]
struct ShakyFile {
    file: File,
    interrupts: u32,
    left: u32,
    takes_nothing: bool,
}

impl ShakyFile {
    fn interrupt(&mut self) -> io::Result<()> {
        if self.left > 0 {
            self.left -= 1;
            return Err(io::Error::from(ErrorKind::Interrupted));
        }
        self.left = self.interrupts;
        Ok(())
    }
}

impl Read for ShakyFile {
    fn read(&mut self, buf: &mut [u8]) -> io::Result<usize> {
        self.interrupt()?;
        self.file.read(buf)
    }
}

impl Write for ShakyFile {
    fn write(&mut self, buf: &[u8]) -> io::Result<usize> {
        self.interrupt()?;
        if self.takes_nothing {
            return Ok(0);
        }
        self.file.write(buf)
    }

    fn flush(&mut self) -> io::Result<()> {
        self.file.flush()
    }
}

impl Seek for ShakyFile {
    fn seek(&mut self, to: SeekFrom) -> io::Result<u64> {
        self.file.seek(to)
    }
}

impl OpenFile for ShakyFile {
    fn metadata(&self) -> io::Result<Metadata> {
        self.file.metadata()
    }

    fn set_len(&self, size: u64) -> io::Result<()> {
        self.file.set_len(size)
    }

    fn sync_all(&self) -> io::Result<()> {
        self.file.sync_all()
    }

    fn sync_data(&self) -> io::Result<()> {
        self.file.sync_data()
    }
}

impl rt::Files for Shaky<'_> {
    type File = ShakyFile;

    type Dir = <HostRuntime as rt::Files>::Dir;

    fn open_file(&self, how: &OpenOptions, path: &str) -> io::Result<ShakyFile> {
        Ok(ShakyFile {
            file: self.rt.open_file(how, path)?,
            interrupts: self.interrupts,
            left: self.interrupts,
            takes_nothing: self.takes_nothing,
        })
    }

    fn open_dir(&self, path: &str) -> io::Result<<HostRuntime as rt::Files>::Dir> {
        self.rt.open_dir(path)
    }

    fn metadata(&self, path: &str) -> io::Result<Metadata> {
        self.rt.metadata(path)
    }

    fn symlink_metadata(&self, path: &str) -> io::Result<Metadata> {
        self.rt.symlink_metadata(path)
    }

    fn copy(&self, from: &str, to: &str) -> io::Result<u64> {
        self.rt.copy(from, to)
    }

    fn rename(&self, from: &str, to: &str) -> io::Result<()> {
        self.rt.rename(from, to)
    }

    fn remove_file(&self, path: &str) -> io::Result<()> {
        self.rt.remove_file(path)
    }

    fn create_dir(&self, path: &str) -> io::Result<()> {
        self.rt.create_dir(path)
    }

    fn remove_dir(&self, path: &str) -> io::Result<()> {
        self.rt.remove_dir(path)
    }

    fn remove_dir_all<B: Allocator>(&self, alloc: B, path: &str) -> io::Result<()> {
        self.rt.remove_dir_all(alloc, path)
    }
}

#[test]
fn files_hold_what_was_appended(rt: HostRuntime) -> Result<(), Fail> {
    let alloc = rt.alloc();
    let mut files = HostFiles::make(&rt);
    files.create("here")?;
    files.create("beside")?;
    append_all(&mut files, "beside", b"other")?;
    append_all(&mut files, "here", b"abc")?;
    append_all(&mut files, "here", b"d")?;
    assert_eq!(rt;
        files.load(alloc, "here", 9)?.as_slice(),
        b"abcd".as_slice()
    );
    files.create("here")?;
    assert_eq!(rt; files.load(alloc, "here", 9)?.as_slice(), b"".as_slice());
    append_all(&mut files, "here", b"e")?;
    assert_eq!(rt; files.load(alloc, "here", 9)?.as_slice(), b"e".as_slice());
    assert_eq!(rt;
        files.load(alloc, "beside", 9)?.as_slice(),
        b"other".as_slice()
    );
    remove_file(&rt, "here")?;
    remove_file(&rt, "beside")?;
    Ok(())
}

#[test]
fn no_more_than_one_byte_past_the_limit_is_read(rt: HostRuntime) -> Result<(), Fail> {
    let alloc = rt.alloc();
    let mut files = HostFiles::make(&rt);
    for (size, limit, got) in [
        (0usize, 0usize, 0usize),
        (4, 4, 4),
        (5, 4, 5),
        (9000, 4, 5),
        (9000, 4095, 4096),
        (9000, 4096, 4097),
        (9000, 8999, 9000),
        (9000, 9000, 9000),
    ] {
        write(&rt, "sized", vec![in alloc; 7u8; size]?.as_slice())?;
        assert_eq!(rt; files.load(alloc, "sized", limit)?.len(), got);
    }
    remove_file(&rt, "sized")?;
    Ok(())
}

#[test]
fn what_is_no_file_fails(rt: HostRuntime) -> Result<(), Fail> {
    let alloc = rt.alloc();
    let mut files = HostFiles::make(&rt);
    create_dir(&rt, "folder")?;
    for name in ["missing", "folder", "missing/below", ""] {
        assert!(rt; matches!(files.load(alloc, name, 9), Err(LoadError::Failed)));
    }
    for name in ["folder", "missing/below", ""] {
        assert!(rt; files.create(name).is_err());
    }
    remove_dir(&rt, "folder")?;
    Ok(())
}

#[test]
fn calls_that_are_interrupted(rt: HostRuntime) -> Result<(), Fail> {
    let alloc = rt.alloc();
    for (interrupts, works) in [(0, true), (1, true), (15, true), (16, false), (17, false)] {
        write(&rt, "shaken", "abc")?;
        let shaky = Shaky {
            rt: &rt,
            interrupts,
            takes_nothing: false,
        };
        let mut files = HostFiles::make(&shaky);
        assert_eq!(rt; files.load(alloc, "shaken", 9).is_ok(), works);
        assert_eq!(rt; append_all(&mut files, "shaken", b"d").is_ok(), works);
        let mut plain = HostFiles::make(&rt);
        let left = if works {
            b"abcd".as_slice()
        } else {
            b"abc".as_slice()
        };
        assert_eq!(rt; plain.load(alloc, "shaken", 9)?.as_slice(), left);
    }
    let shaky = Shaky {
        rt: &rt,
        interrupts: 0,
        takes_nothing: true,
    };
    let mut files = HostFiles::make(&shaky);
    assert!(rt; append_all(&mut files, "shaken", b"d").is_err());
    remove_file(&rt, "shaken")?;
    Ok(())
}

/// What the program's words come to over the real files: the status, and what out and err get.
type Row = (&'static [&'static str], u8, &'static [u8], &'static [u8]);

#[test]
fn the_program_over_real_files(rt: HostRuntime) -> Result<(), Fail> {
    let alloc = rt.alloc();
    create_dir(&rt, "programs")?;
    write(&rt, "good.csl", "shared { } main { print(7); }")?;
    write(&rt, "long.csl", vec![in alloc; b' '; 1_048_577]?.as_slice())?;
    write(&rt, "most.csl", vec![in alloc; b' '; 1_048_576]?.as_slice())?;
    let rows: &[Row] = &[
        (&["run", "good.csl"], 0, b"7\n", b""),
        (
            &["check", "./good.csl"],
            0,
            b"shared {\n}\nmain {\n  print ( 7 ) ;\n}\n",
            b"",
        ),
        (
            &["eval", "missing.csl"],
            3,
            b"",
            b"file missing.csl: cannot be used\n",
        ),
        (
            &["run", "programs"],
            3,
            b"",
            b"file programs: cannot be used\n",
        ),
        (
            &["run", "most.csl"],
            4,
            b"",
            b"refused: at 1048576: unexpected\n",
        ),
        (&["run", "long.csl"], 9, b"", b"file long.csl: too long\n"),
        (&["run", "good.csl", "--log", "l"], 0, b"7\n", b""),
        (&["run", "good.csl", "--log"], 2, b"", b"no command\n"),
    ];
    for (words, status, text, line) in rows {
        let words = strings(alloc, words)?;
        let mut files = HostFiles::make(&rt);
        let mut out = MemSink::make(alloc, 5, 99, Vec::new(alloc))?;
        let mut err = MemSink::make(alloc, 5, 99, Vec::new(alloc))?;
        let answer = calypso(
            &rt, alloc, &words, &mut files, &mut out, &mut err, &OpenGate,
        );
        assert_eq!(rt; err.bytes(), *line);
        assert_eq!(rt; out.bytes(), *text);
        assert_eq!(rt; answer, *status);
    }
    let mut files = HostFiles::make(&rt);
    let log = files.load(alloc, "l", 9).ok().ok_or("a log")?;
    assert!(rt; log.is_empty());
    remove_file(&rt, "l")?;
    remove_file(&rt, "good.csl")?;
    remove_file(&rt, "long.csl")?;
    remove_file(&rt, "most.csl")?;
    remove_dir(&rt, "programs")?;
    Ok(())
}
