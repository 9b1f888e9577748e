//! Each object outside, called through its trait.

use crate::{
    DirFiles, Files, MemFiles, MemSink, MemSource, OutFault, Sink, Source, StdSink, StdSource,
    SureFiles, SureSink, SureSource,
};
use std::io::{ErrorKind, Read, Write};
use std::process::Abort;
use std::test::Fail;
use std::{fs, io};

// A reader of so many bytes, two at a time, after one signal. Then it fails.
#[derive(Drop)]
struct SlowReader {
    left: usize,
    interrupted: bool,
}

impl Read for SlowReader {
    fn read(&mut self, buf: &mut [u8]) -> io::Result<usize> {
        if !self.interrupted {
            self.interrupted = true;
            return Err(io::Error::from(ErrorKind::Interrupted));
        }
        if self.left == 0 {
            return Err(io::Error::from(ErrorKind::BrokenPipe));
        }
        let count = buf.len().min(self.left).min(2);
        buf[..count].fill(b'x');
        self.left -= count;
        Ok(count)
    }
}

// A writer with room for so many bytes, which takes two at a time, after one signal. Then it takes
// nothing.
#[derive(Drop)]
struct SlowWriter<'a> {
    taken: &'a mut Vec<u8>,
    room: usize,
    interrupted: bool,
}

impl Write for SlowWriter<'_> {
    fn write(&mut self, buf: &[u8]) -> io::Result<usize> {
        if !self.interrupted {
            self.interrupted = true;
            return Err(io::Error::from(ErrorKind::Interrupted));
        }
        let count = buf.len().min(self.room).min(2);
        if self.taken.extend_from_slice(&buf[..count]).is_err() {
            return Err(io::Error::from(ErrorKind::OutOfMemory));
        }
        self.room -= count;
        Ok(count)
    }

    fn flush(&mut self) -> io::Result<()> {
        Ok(())
    }
}

// A reader that fails at its first call and each second one after it, and else fills the buffer. It
// counts its calls.
#[derive(Drop)]
struct UnsteadyReader<'a> {
    kind: ErrorKind,
    calls: &'a mut u64,
}

impl Read for UnsteadyReader<'_> {
    fn read(&mut self, buf: &mut [u8]) -> io::Result<usize> {
        *self.calls = self.calls.wrapping_add(1);
        if *self.calls % 2 == 1 {
            return Err(io::Error::from(self.kind));
        }
        buf.fill(b'x');
        Ok(buf.len())
    }
}

// A writer that takes so many bytes at a time. Where it has an error to answer, it fails at its
// first call and each second one after it. It counts its calls.
#[derive(Drop)]
struct NarrowWriter<'a> {
    taken: &'a mut Vec<u8>,
    most: usize,
    failure: Option<ErrorKind>,
    calls: &'a mut u64,
}

impl Write for NarrowWriter<'_> {
    fn write(&mut self, buf: &[u8]) -> io::Result<usize> {
        *self.calls = self.calls.wrapping_add(1);
        if let Some(kind) = self.failure
            && *self.calls % 2 == 1
        {
            return Err(io::Error::from(kind));
        }
        let count = buf.len().min(self.most);
        match self.taken.extend_from_slice(&buf[..count]) {
            Ok(()) => Ok(count),
            Err(_) => Err(io::Error::from(ErrorKind::OutOfMemory)),
        }
    }

    fn flush(&mut self) -> io::Result<()> {
        Ok(())
    }
}

// Errors of which none is that of a signal.
static FAILURES: [ErrorKind; 6] = [
    ErrorKind::WouldBlock,
    ErrorKind::TimedOut,
    ErrorKind::UnexpectedEof,
    ErrorKind::WriteZero,
    ErrorKind::BrokenPipe,
    ErrorKind::Other,
];

// The lengths of long pieces.
static LENGTHS: [usize; 4] = [255, 256, 65_537, 1_000_000];

// One read into a buffer of eight bytes or fewer gives these bytes, or fails.
fn expect_read<S: Source>(rt: &impl Abort, source: &mut S, room: usize, want: Option<&[u8]>) {
    let mut buf = [b'-'; 8];
    let room = room.min(8);
    match (source.read(&mut buf[..room]), want) {
        (Ok(count), Some(want)) => assert_eq!(rt; &buf[..count], want),
        (Err(fault), None) => assert_eq!(rt; fault, OutFault::Failed),
        _ => panic!(rt; "a fault in the place of bytes, or bytes in the place of a fault"),
    }
}

fn expect_write<K: Sink>(rt: &impl Abort, sink: &mut K, piece: &[u8], want: Result<(), OutFault>) {
    assert_eq!(rt; sink.write(piece), want);
}

fn expect_size<F: Files>(rt: &impl Abort, files: &mut F, name: &str, want: Result<u64, OutFault>) {
    assert_eq!(rt; files.size(name), want, "{name}");
}

// One read of a file into a buffer of eight bytes or fewer gives these bytes, or fails.
fn expect_read_at<F: Files>(
    rt: &impl Abort,
    files: &mut F,
    name: &str,
    at: u64,
    room: usize,
    want: Option<&[u8]>,
) {
    let mut buf = [b'-'; 8];
    let room = room.min(8);
    match (files.read_at(name, at, &mut buf[..room]), want) {
        (Ok(count), Some(want)) => assert_eq!(rt; &buf[..count], want, "{name} at {at}"),
        (Err(fault), None) => assert_eq!(rt; fault, OutFault::Failed, "{name} at {at}"),
        _ => panic!(rt; "a fault in the place of bytes, or bytes in the place of a fault"),
    }
}

// A call that writes: a `start` where there is no piece, else an `append`.
fn expect_change<F: Files>(
    rt: &impl Abort,
    files: &mut F,
    name: &str,
    piece: Option<&[u8]>,
    want: Result<(), OutFault>,
) {
    let answer = match piece {
        Some(piece) => files.append(name, piece),
        None => files.start(name),
    };
    assert_eq!(rt; answer, want, "{name}");
}

#[test]
fn a_source_in_memory_gives_its_bytes_and_fails_at_the_listed_calls(rt: HostRuntime) {
    let mut source = MemSource::new(rt.alloc());
    assert_eq!(rt; source.give(b"hello, "), Ok(()));
    assert_eq!(rt; source.give(b"world"), Ok(()));
    assert_eq!(rt; source.fail_at(2), Ok(()));
    assert_eq!(rt; source.fail_at(5), Ok(()));
    let rows: [(usize, Option<&[u8]>); 7] = [
        (5, Some(b"hello")),
        (5, None),
        (0, Some(b"")),
        (8, Some(b", world")),
        (8, None),
        (8, Some(b"")),
        (0, Some(b"")),
    ];
    for (room, want) in rows {
        expect_read(&rt, &mut source, room, want);
    }
}

#[test]
fn a_sink_in_memory_keeps_its_bytes_and_fails_at_the_listed_calls(rt: HostRuntime) {
    let mut sink = MemSink::new(rt.alloc());
    assert_eq!(rt; sink.bytes(), b"".as_slice());
    assert_eq!(rt; sink.fail_at(2), Ok(()));
    expect_write(&rt, &mut sink, b"ab", Ok(()));
    expect_write(&rt, &mut sink, b"cd", Err(OutFault::Failed));
    expect_write(&rt, &mut sink, b"", Ok(()));
    expect_write(&rt, &mut sink, b"ef", Ok(()));
    assert_eq!(rt; sink.bytes(), b"abef".as_slice());
}

#[test]
fn files_in_memory_are_read_by_name(rt: HostRuntime) {
    let mut files = MemFiles::new(rt.alloc());
    assert_eq!(rt; files.put("a", b"old"), Ok(()));
    assert_eq!(rt; files.put("a", b"0123456789"), Ok(()));
    assert_eq!(rt; files.put("empty", b""), Ok(()));
    assert_eq!(rt; files.put("a/b", b"xyz"), Ok(()));
    assert_eq!(rt; files.fail_at(3), Ok(()));
    expect_size(&rt, &mut files, "a", Ok(10));
    expect_size(&rt, &mut files, "b", Err(OutFault::Failed));
    expect_size(&rt, &mut files, "a", Err(OutFault::Failed));
    expect_size(&rt, &mut files, "empty", Ok(0));
    let rows: [(&str, u64, usize, Option<&[u8]>); 8] = [
        ("a", 0, 4, Some(b"0123")),
        ("a", 7, 8, Some(b"789")),
        ("a", 9, 0, Some(b"")),
        ("a", 10, 8, Some(b"")),
        ("a", 18_446_744_073_709_551_615, 8, Some(b"")),
        ("a/b", 1, 1, Some(b"y")),
        ("empty", 0, 8, Some(b"")),
        ("", 0, 8, None),
    ];
    for (name, at, room, want) in rows {
        expect_read_at(&rt, &mut files, name, at, room, want);
    }
    assert!(rt; files.bytes("a") == Some(b"0123456789".as_slice()));
    assert!(rt; files.bytes("b").is_none());
}

// Calls that write, the first of them number 1: the name, the piece of an `append` or none for a
// `start`, the answer, and what the named file holds then. Calls 4 and 7 are to fail.
type Change = (
    &'static str,
    Option<&'static [u8]>,
    Result<(), OutFault>,
    Option<&'static [u8]>,
);

static CHANGES: [Change; 12] = [
    ("a", Some(b"x"), Err(OutFault::Failed), None),
    ("a", None, Ok(()), Some(b"")),
    ("a", Some(b"012"), Ok(()), Some(b"012")),
    ("a", Some(b"xy"), Err(OutFault::Failed), Some(b"012")),
    ("a", Some(b"34"), Ok(()), Some(b"01234")),
    ("kept", Some(b""), Ok(()), Some(b"as it was")),
    ("a", None, Err(OutFault::Failed), Some(b"01234")),
    ("a/b", None, Ok(()), Some(b"")),
    ("a/b", Some(b"z"), Ok(()), Some(b"z")),
    ("a", Some(b"5"), Ok(()), Some(b"012345")),
    ("b", Some(b""), Err(OutFault::Failed), None),
    ("a", None, Ok(()), Some(b"")),
];

#[test]
fn files_in_memory_are_started_and_appended_to(rt: HostRuntime) {
    let mut files = MemFiles::new(rt.alloc());
    assert_eq!(rt; files.put("kept", b"as it was"), Ok(()));
    assert_eq!(rt; files.fail_at(4), Ok(()));
    assert_eq!(rt; files.fail_at(7), Ok(()));
    assert_eq!(rt; files.fail_at(13), Ok(()));
    for (name, piece, want, held) in CHANGES.iter() {
        expect_change(&rt, &mut files, name, *piece, *want);
        assert!(rt; files.bytes(name) == *held, "{name}");
        assert!(rt; files.bytes("kept") == Some(b"as it was".as_slice()));
    }
    assert_eq!(rt; (files.read_faults, files.write_faults), (0, 4));
    expect_size(&rt, &mut files, "a/b", Err(OutFault::Failed));
    expect_size(&rt, &mut files, "b", Err(OutFault::Failed));
    expect_read_at(&rt, &mut files, "a/b", 0, 8, Some(b"z"));
    assert_eq!(rt; (files.read_faults, files.write_faults), (2, 4));
}

// Calls on files that never fail: the name, the piece of an `append` or none for a `start`, and what the
// named file holds then.
static SURE_CHANGES: [(&str, Option<&[u8]>, &[u8]); 6] = [
    ("made", Some(b"0"), b"0"),
    ("made", Some(b"12"), b"012"),
    ("kept", Some(b""), b"as it was"),
    ("made", None, b""),
    ("", Some(b"x"), b"x"),
    ("new", None, b""),
];

// Reads of such files: the name, the place, the room of the buffer, and the bytes.
static SURE_READS: [(&str, u64, usize, &[u8]); 5] = [
    ("kept", 3, 4, b"it w"),
    ("kept", 6, 8, b"was"),
    ("kept", 18_446_744_073_709_551_615, 8, b""),
    ("none", 0, 8, b""),
    ("none", 5, 0, b""),
];

#[test]
fn files_that_never_fail_make_what_they_do_not_hold(rt: HostRuntime) {
    let mut files = SureFiles::new(rt.alloc());
    assert!(rt; files.put("kept", b"old").is_ok() && files.put("kept", b"as it was").is_ok());
    for (name, piece, held) in SURE_CHANGES.iter() {
        expect_change(&rt, &mut files, name, *piece, Ok(()));
        assert!(rt; files.bytes(name) == Some(*held), "{name}");
    }
    for (name, at, room, want) in SURE_READS.iter() {
        expect_read_at(&rt, &mut files, name, *at, *room, Some(*want));
    }
    expect_size(&rt, &mut files, "kept", Ok(9));
    expect_size(&rt, &mut files, "none", Ok(0));
    assert!(rt; files.bytes("none").is_none());
}

#[test]
fn a_source_and_a_sink_that_never_fail_keep_their_bytes(rt: HostRuntime) {
    let mut source = SureSource::new(rt.alloc());
    assert!(rt; source.give(b"hello, ").is_ok() && source.give(b"world").is_ok());
    let rows: [(usize, &[u8]); 4] = [(5, b"hello"), (0, b""), (8, b", world"), (8, b"")];
    for (room, want) in rows {
        expect_read(&rt, &mut source, room, Some(want));
    }
    let mut sink = SureSink::new(rt.alloc());
    expect_write(&rt, &mut sink, b"ab", Ok(()));
    expect_write(&rt, &mut sink, b"", Ok(()));
    expect_write(&rt, &mut sink, b"cd", Ok(()));
    assert!(rt; sink.bytes() == b"abcd".as_slice());
}

#[test]
fn a_reader_is_a_source_and_its_errors_are_faults(rt: HostRuntime) {
    let mut source = StdSource::new(SlowReader {
        left: 3,
        interrupted: false,
    });
    expect_read(&rt, &mut source, 8, Some(b"xx"));
    expect_read(&rt, &mut source, 8, Some(b"x"));
    expect_read(&rt, &mut source, 8, None);
    let mut input = StdSource::new(rt.stdin());
    expect_read(&rt, &mut input, 0, Some(b""));
}

#[test]
fn a_writer_is_a_sink_and_its_errors_are_faults(rt: HostRuntime) {
    let mut taken = Vec::new(rt.alloc());
    let mut sink = StdSink::new(SlowWriter {
        taken: &mut taken,
        room: 5,
        interrupted: false,
    });
    expect_write(&rt, &mut sink, b"", Ok(()));
    expect_write(&rt, &mut sink, b"abc", Ok(()));
    expect_write(&rt, &mut sink, b"def", Err(OutFault::Failed));
    expect_write(&rt, &mut sink, b"", Ok(()));
    assert_eq!(rt; taken.as_slice(), b"abcde".as_slice());
    let mut output = StdSink::new(rt.stdout());
    expect_write(&rt, &mut output, b"", Ok(()));
    let mut errors = StdSink::new(rt.stderr());
    expect_write(&rt, &mut errors, b"", Ok(()));
}

#[test]
fn a_reader_that_fails_is_not_asked_again_in_the_same_read(rt: HostRuntime) {
    for kind in FAILURES.iter() {
        let mut calls = 0;
        let mut source = StdSource::new(UnsteadyReader {
            kind: *kind,
            calls: &mut calls,
        });
        expect_read(&rt, &mut source, 2, None);
        expect_read(&rt, &mut source, 2, Some(b"xx"));
        expect_read(&rt, &mut source, 8, None);
        expect_read(&rt, &mut source, 8, Some(b"xxxxxxxx"));
        assert_eq!(rt; calls, 4);
    }
}

#[test]
fn a_writer_that_fails_is_not_asked_again_in_the_same_write(rt: HostRuntime) {
    for kind in FAILURES.iter() {
        let mut calls = 0;
        let mut taken = Vec::new(rt.alloc());
        let mut sink = StdSink::new(NarrowWriter {
            taken: &mut taken,
            most: 2,
            failure: Some(*kind),
            calls: &mut calls,
        });
        expect_write(&rt, &mut sink, b"ab", Err(OutFault::Failed));
        expect_write(&rt, &mut sink, b"cd", Ok(()));
        expect_write(&rt, &mut sink, b"ef", Err(OutFault::Failed));
        expect_write(&rt, &mut sink, b"ghi", Err(OutFault::Failed));
        assert_eq!(rt; calls, 5);
        assert_eq!(rt; taken.as_slice(), b"cdgh".as_slice());
    }
}

#[test]
fn a_long_piece_goes_whole_to_a_writer(rt: HostRuntime) -> Result<(), Fail> {
    for len in LENGTHS.iter() {
        let piece = vec![in rt.alloc(); b'x'; *len]?;
        let mut calls = 0;
        let mut taken = Vec::new(rt.alloc());
        let mut sink = StdSink::new(NarrowWriter {
            taken: &mut taken,
            most: 4096,
            failure: None,
            calls: &mut calls,
        });
        expect_write(&rt, &mut sink, &piece, Ok(()));
        assert!(rt; taken.as_slice() == piece.as_slice(), "{len} bytes");
    }
    Ok(())
}

#[test]
fn a_long_piece_comes_whole_from_a_reader(rt: HostRuntime) -> Result<(), Fail> {
    for len in LENGTHS.iter() {
        let piece = vec![in rt.alloc(); b'x'; *len]?;
        let mut buf = vec![in rt.alloc(); b'-'; *len]?;
        let mut source = StdSource::new(piece.as_slice());
        assert_eq!(rt; source.read(&mut buf), Ok(*len));
        assert!(rt; buf.as_slice() == piece.as_slice(), "{len} bytes");
    }
    Ok(())
}

#[test]
fn a_long_piece_goes_whole_to_a_file_and_back(rt: HostRuntime) -> Result<(), Fail> {
    let mut files = DirFiles::new(&rt);
    for len in LENGTHS.iter() {
        let piece = vec![in rt.alloc(); b'x'; *len]?;
        let mut buf = vec![in rt.alloc(); b'-'; *len]?;
        expect_change(&rt, &mut files, "long", None, Ok(()));
        expect_change(&rt, &mut files, "long", Some(&piece), Ok(()));
        expect_size(&rt, &mut files, "long", Ok(*len as u64));
        assert_eq!(rt; files.read_at("long", 0, &mut buf), Ok(*len));
        assert!(rt; buf.as_slice() == piece.as_slice(), "{len} bytes");
    }
    fs::remove_file(&rt, "long")?;
    Ok(())
}

#[test]
fn the_files_of_the_system_are_read_by_path(rt: HostRuntime) -> Result<(), Fail> {
    fs::create_dir(&rt, "folder")?;
    fs::write(&rt, "folder/file", "0123456789")?;
    fs::write(&rt, "empty", "")?;
    let mut files = DirFiles::new(&rt);
    expect_size(&rt, &mut files, "folder/file", Ok(10));
    expect_size(&rt, &mut files, "empty", Ok(0));
    for name in ["folder", "absent", "folder/file\0", ""] {
        expect_size(&rt, &mut files, name, Err(OutFault::Failed));
        expect_read_at(&rt, &mut files, name, 0, 8, None);
    }
    let rows: [(u64, usize, Option<&[u8]>); 6] = [
        (0, 4, Some(b"0123")),
        (7, 8, Some(b"789")),
        (2, 8, Some(b"23456789")),
        (9, 0, Some(b"")),
        (10, 8, Some(b"")),
        (4_294_967_296, 8, Some(b"")),
    ];
    for (at, room, want) in rows {
        expect_read_at(&rt, &mut files, "folder/file", at, room, want);
    }
    fs::remove_file(&rt, "folder/file")?;
    fs::remove_dir(&rt, "folder")?;
    fs::remove_file(&rt, "empty")?;
    Ok(())
}

#[test]
fn the_files_of_the_system_are_written_by_path(rt: HostRuntime) -> Result<(), Fail> {
    fs::create_dir(&rt, "written")?;
    let mut files = DirFiles::new(&rt);
    let rows: [(&str, Option<&[u8]>, Option<&[u8]>); 11] = [
        ("written/a", None, Some(b"")),
        ("written/a", Some(b"012"), Some(b"012")),
        ("written/a", Some(b""), Some(b"012")),
        ("written/a", Some(b"34"), Some(b"01234")),
        ("written/b", None, Some(b"")),
        ("written/a", Some(b"5"), Some(b"012345")),
        ("written/b", Some(b"y"), Some(b"y")),
        ("written/a", Some(b"6"), Some(b"0123456")),
        ("written/b", Some(b"z"), Some(b"yz")),
        ("written/a", None, Some(b"")),
        ("written/a", Some(b"7"), Some(b"7")),
    ];
    for (name, piece, held) in rows {
        expect_change(&rt, &mut files, name, piece, Ok(()));
        expect_read_at(&rt, &mut files, name, 0, 8, held);
    }
    expect_read_at(&rt, &mut files, "written/b", 0, 8, Some(b"yz"));
    assert_eq!(rt; (files.read_faults, files.write_faults), (0, 0));
    let failing: [(&str, Option<&[u8]>); 5] = [
        ("absent/a", None),
        ("written", None),
        ("written/c", Some(b"")),
        ("written/c\0", None),
        ("", Some(b"x")),
    ];
    for (name, piece) in failing {
        expect_change(&rt, &mut files, name, piece, Err(OutFault::Failed));
    }
    assert_eq!(rt; (files.read_faults, files.write_faults), (0, 5));
    fs::remove_file(&rt, "written/a")?;
    fs::remove_file(&rt, "written/b")?;
    fs::remove_dir(&rt, "written")?;
    Ok(())
}

#[test]
fn the_file_that_was_last_written_stays_open(rt: HostRuntime) -> Result<(), Fail> {
    fs::create_dir(&rt, "kept")?;
    let mut files = DirFiles::new(&rt);
    expect_change(&rt, &mut files, "kept/a", None, Ok(()));
    fs::rename(&rt, "kept/a", "kept/b")?;
    expect_change(&rt, &mut files, "kept/a", Some(b"01"), Ok(()));
    fs::rename(&rt, "kept/b", "kept/c")?;
    expect_change(&rt, &mut files, "kept/a", Some(b"23"), Ok(()));
    expect_read_at(&rt, &mut files, "kept/c", 0, 8, Some(b"0123"));
    // Another file is opened, and then that of the first name is no longer there.
    expect_change(&rt, &mut files, "kept/c", Some(b"4"), Ok(()));
    expect_change(&rt, &mut files, "kept/a", Some(b"5"), Err(OutFault::Failed));
    expect_change(&rt, &mut files, "kept/c", Some(b"6"), Ok(()));
    // A file that is started anew is opened anew.
    fs::rename(&rt, "kept/c", "kept/a")?;
    expect_change(&rt, &mut files, "kept/c", None, Ok(()));
    expect_change(&rt, &mut files, "kept/c", Some(b"7"), Ok(()));
    expect_read_at(&rt, &mut files, "kept/a", 0, 8, Some(b"012346"));
    expect_read_at(&rt, &mut files, "kept/c", 0, 8, Some(b"7"));
    fs::remove_file(&rt, "kept/a")?;
    fs::remove_file(&rt, "kept/c")?;
    fs::remove_dir(&rt, "kept")?;
    Ok(())
}
