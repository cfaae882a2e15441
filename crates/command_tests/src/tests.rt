//! What the words ask for, and the program over files that the tests write, and sinks in memory: each status that it
//! can give, with its line.

ghost use Rattle.std.specs.Prelude.{None, Some, ⊤};

use arguments::read_words;
use command::{Disk, FileFeed, KnownFeed, OpenFault, Opener, StreamSink, run_process, run_words};
use series::{MemorySink, Sink};
use settings::{Mode, UseFault};
use std::alloc::{Allocator, Global};
use std::fs::{File, Metadata, OpenOptions};
use std::io::{ErrorKind, Read, Write};
use std::process::Abort;
use std::rt::Files;
use std::test::Fail;
use std::{fs, io};
use tokens::{DeviceFault, Feed};

mod option_tests;

/// The line of wrong usage.
const USAGE: &[u8] =
    b"usage: crobots (-c | -mMATCHES) [-lCYCLES] [-sSEED] [-pPROFILE] [-fFIRST] FILE...\n";

/// The listing of `main(){}` without its first line.
const EMPTY: &str =
    "Externals 0\nFunction 0 main vars 0 at 0\nCode 3\n    0 CONST 0\n    1 RETSUB\n    2 NOP\n";

/// Returns the bytes that a sink took.
fn taken(rt: &impl AllocGlobal, sink: &MemorySink) -> Result<Vec<u8>, Fail> {
    let mut all = Vec::new(rt.alloc());
    for portion in sink.portions() {
        all.extend_from_slice(portion)?;
    }
    Ok(all)
}

/// Runs the program on these words, and compares its status and what it writes.
fn check<'a, R: Abort + Files + AllocGlobal>(
    rt: &R,
    words: &'a [&'a str],
    status: u8,
    text: &[u8],
    faults: &[u8],
) -> Result<(), Fail> {
    let mut out = MemorySink::new(rt.alloc());
    let mut err = MemorySink::new(rt.alloc());
    assert_eq!(rt;
        run_words(rt.alloc(), &Disk::new(rt), words, &mut out, &mut err),
        status,
        "{words:?}"
    );
    assert_eq!(rt; taken(rt, &out)?.as_slice(), text, "{words:?}");
    assert_eq!(rt; taken(rt, &err)?.as_slice(), faults, "{words:?}");
    Ok(())
}

/// What accepted words ask for: the words, whether files are listed, the numbers of `-m`, `-l`, `-s` and `-f`, whether
/// the profile is the second, and the files.
struct Accepted {
    words: &'static [&'static str],
    listing: bool,
    matches: u32,
    limit: u32,
    seed: u64,
    first: u32,
    second: bool,
    files: &'static [&'static str],
}

/// What is asked for by options that are not given.
const DEFAULTS: Accepted = Accepted {
    words: &[],
    listing: false,
    matches: 1,
    limit: 500_000,
    seed: 1,
    first: 1,
    second: false,
    files: &[],
};

/// Words that are accepted.
const ACCEPTED: &[Accepted] = &[
    Accepted {
        words: &["-c", "b", "a"],
        listing: true,
        files: &["b", "a"],
        ..DEFAULTS
    },
    // the values may be words of their own, and the options may be among the files
    Accepted {
        words: &[
            "a.r", "-m", "3", "k/b.r", "-l", "20", "-s", "5", "-p", "2", "-f", "7",
        ],
        matches: 3,
        limit: 20,
        seed: 5,
        first: 7,
        second: true,
        files: &["a.r", "k/b.r"],
        ..DEFAULTS
    },
    Accepted {
        words: &["-m0001", "-l15", "a.r"],
        limit: 15,
        files: &["a.r"],
        ..DEFAULTS
    },
    Accepted {
        words: &[
            "-m1000000",
            "-l1000000000",
            "-s18446744073709551615",
            "-f1000000",
            "a.r",
        ],
        matches: 1_000_000,
        limit: 1_000_000_000,
        seed: 18_446_744_073_709_551_615,
        first: 1_000_000,
        files: &["a.r"],
        ..DEFAULTS
    },
    // one `=` before an attached value is no part of it
    Accepted {
        words: &["-m=5", "a.r"],
        matches: 5,
        files: &["a.r"],
        ..DEFAULTS
    },
    // after `--` every word is a file
    Accepted {
        words: &["-c", "--", "-m"],
        listing: true,
        files: &["-m"],
        ..DEFAULTS
    },
    // listings are asked for, beside matches too
    Accepted {
        words: &["-m3", "d", "-", "-c", "", "b"],
        listing: true,
        matches: 3,
        files: &["d", "-", "", "b"],
        ..DEFAULTS
    },
];

#[test]
fn words_accepted(rt: HostRuntime) -> Result<(), Fail> {
    for case in ACCEPTED {
        match read_words(rt.alloc(), case.words) {
            Ok(settings) => {
                let words = case.words;
                assert_eq!(rt; settings.mode() == Mode::Listing, case.listing, "{words:?}");
                assert_eq!(rt; settings.matches(), case.matches, "{words:?}");
                assert_eq!(rt; settings.limit(), case.limit, "{words:?}");
                assert_eq!(rt; settings.seed(), case.seed, "{words:?}");
                assert_eq!(rt; settings.first(), case.first, "{words:?}");
                assert_eq!(rt;
                    settings.profile().short_circuit(),
                    case.second,
                    "{words:?}"
                );
                assert_eq!(rt; settings.file_words(), case.files, "{words:?}");
            }
            Err(fault) => panic!(rt; "{fault}"),
        }
    }
    Ok(())
}

/// Words that are refused.
const REFUSED: &[(&[&str], UseFault)] = &[
    (&[], UseFault::Usage),
    (&["-c"], UseFault::Usage),
    (&["-m1"], UseFault::Usage),
    (&["-x", "a.r"], UseFault::Usage),
    (&["-d", "a.r"], UseFault::Usage),
    (&["-h"], UseFault::Usage),
    (&["--help"], UseFault::Usage),
    (&["--matches", "1", "a.r"], UseFault::Usage),
    (&["-m1", "-m1", "a.r"], UseFault::Usage),
    (&["-m", "-5", "a.r"], UseFault::Usage),
    (&["-c=1", "a.r"], UseFault::Usage),
    (&["a.r", "-m"], UseFault::Usage),
    (&["-c", "a", "b", "c", "d", "-e"], UseFault::Usage),
    (&["-m0", "a.r"], UseFault::Number),
    (&["-c", "-m0", "a.r"], UseFault::Number),
    (&["-m+1", "a.r"], UseFault::Number),
    (&["-m=", "a.r"], UseFault::Number),
    (&["-m1000001", "a.r"], UseFault::Number),
    (&["-m1", "-l1000000001", "a.r"], UseFault::Number),
    (&["-m1", "-s18446744073709551616", "a.r"], UseFault::Number),
    (&["-m1", "-p3", "a.r"], UseFault::Number),
    (&["-m1", "-f0", "a.r"], UseFault::Number),
    (&["-m1", "-lx", "a", "b", "c", "d", "e"], UseFault::Number),
    (&["-m1", "a", "b", "c", "d", "e"], UseFault::TooMany),
    (&["-c", "a", "b", "c", "d", "e"], UseFault::TooMany),
    (&["a", "b", "c", "d", "e"], UseFault::TooMany),
    (&["a.r"], UseFault::NoMode),
    (&["-l15", "a.r"], UseFault::NoMode),
];

#[test]
fn words_refused(rt: HostRuntime) -> Result<(), Fail> {
    for (words, fault) in REFUSED {
        assert_eq!(rt;
            read_words(rt.alloc(), *words).err(),
            Some(*fault),
            "{words:?}"
        );
        check(&rt, *words, 2, b"", USAGE)?;
    }
    Ok(())
}

#[test]
fn texts_of_refusals(rt: HostRuntime) -> Result<(), Fail> {
    for (fault, text) in [
        (UseFault::Usage, "wrong usage"),
        (UseFault::Number, "a value is no number within its limits"),
        (UseFault::TooMany, "too many files"),
        (UseFault::NoMode, "no mode"),
        (UseFault::Memory, "out of memory"),
    ] {
        assert_eq!(rt; format!(in rt.alloc(); "{fault}")?.as_str(), text);
    }
    Ok(())
}

#[test]
fn done(rt: HostRuntime) -> Result<(), Fail> {
    fs::write(&rt, "done.r", "main(){}")?;
    let listing = format!(in rt.alloc(); "File done.r\n{EMPTY}")?;
    check(&rt, &["-c", "done.r"], 0, listing.as_bytes(), b"")?;
    Ok(fs::remove_file(&rt, "done.r")?)
}

#[test]
fn faulty(rt: HostRuntime) -> Result<(), Fail> {
    fs::write(&rt, "faulty.r", "")?;
    let line = b"faulty.r:1: no main function\n";
    check(&rt, &["-c", "./faulty.r"], 1, b"", line)?;
    check(&rt, &["-m1", "./faulty.r"], 1, b"", line)?;
    Ok(fs::remove_file(&rt, "faulty.r")?)
}

/// The report and the totals of a match of 15 cycles that one robot plays against itself.
const STILL: &[u8] = b"Match 1: cycles = 15
  1) alive damage   0% still.r
  2) alive damage   0% still.r
Totals: 1 matches
  1) won 0 tied 1 lost 0 still.r
  2) won 0 tied 1 lost 0 still.r
";

#[test]
fn played(rt: HostRuntime) -> Result<(), Fail> {
    fs::write(&rt, "still.r", "main(){}")?;
    check(&rt, &["-m1", "-l15", "still.r"], 0, STILL, b"")?;
    Ok(fs::remove_file(&rt, "still.r")?)
}

#[test]
fn files_in_order(rt: HostRuntime) -> Result<(), Fail> {
    fs::write(&rt, "one.r", "main(){}")?;
    fs::write(&rt, "two.r", "")?;
    fs::write(&rt, "three.r", "main(){}")?;
    fs::write(&rt, "four.r", "main(){\nbreak; }")?;
    let listings = format!(in rt.alloc(); "File three.r\n{EMPTY}File one.r\n{EMPTY}")?;
    check(
        &rt,
        &["-c", "three.r", "four.r", "./one.r", "two.r"],
        1,
        listings.as_bytes(),
        b"four.r:2: reserved word\ntwo.r:1: no main function\n",
    )?;
    for name in ["one.r", "two.r", "three.r", "four.r"] {
        fs::remove_file(&rt, name)?;
    }
    Ok(())
}

#[test]
fn not_opened(rt: HostRuntime) -> Result<(), Fail> {
    let line = b"crobots: cannot open k/missing.r\n";
    check(&rt, &["-c", "k/missing.r"], 3, b"", line)?;
    check(&rt, &["-m1", "k/missing.r"], 3, b"", line)?;
    check(&rt, &["-c", ""], 3, b"", b"crobots: cannot open \n")?;
    check(&rt, &["-c", "-"], 3, b"", b"crobots: cannot open -\n")
}

#[test]
fn not_opened_after_a_good_file(rt: HostRuntime) -> Result<(), Fail> {
    fs::write(&rt, "good.r", "main(){}")?;
    let line = b"crobots: cannot open missing.r\n";
    check(&rt, &["-c", "good.r", "missing.r", "gone.r"], 3, b"", line)?;
    Ok(fs::remove_file(&rt, "good.r")?)
}

#[test]
fn not_read(rt: HostRuntime) -> Result<(), Fail> {
    // A folder opens, and fails at its first read.
    fs::write(&rt, "before.r", "main(){}")?;
    let listing = format!(in rt.alloc(); "File before.r\n{EMPTY}")?;
    let line = b"crobots: cannot read .\n";
    check(&rt, &["-c", "before.r", "."], 3, listing.as_bytes(), line)?;
    check(&rt, &["-m1", "before.r", "."], 3, b"", line)?;
    Ok(fs::remove_file(&rt, "before.r")?)
}

/// Runs the program on these words while its texts have room for ten bytes, and compares what they take.
fn check_full<'a, R: Abort + Files + AllocGlobal>(
    rt: &R,
    words: &'a [&'a str],
    text: &[u8],
) -> Result<(), Fail> {
    let mut out = MemorySink::new(rt.alloc()).with_room(10);
    let mut err = MemorySink::new(rt.alloc());
    assert_eq!(rt;
        run_words(rt.alloc(), &Disk::new(rt), words, &mut out, &mut err),
        4,
        "{words:?}"
    );
    assert_eq!(rt; taken(rt, &out)?.as_slice(), text, "{words:?}");
    let line = b"crobots: cannot write\n".as_slice();
    assert_eq!(rt; taken(rt, &err)?.as_slice(), line, "{words:?}");
    Ok(())
}

#[test]
fn not_written(rt: HostRuntime) -> Result<(), Fail> {
    fs::write(&rt, "written.r", "main(){}")?;
    check_full(&rt, &["-c", "written.r"], b"File writt")?;
    check_full(&rt, &["-m2", "-l15", "written.r"], b"Match 1: c")?;
    Ok(fs::remove_file(&rt, "written.r")?)
}

#[test]
fn own_line_not_written(rt: HostRuntime) -> Result<(), Fail> {
    let mut out = MemorySink::new(rt.alloc());
    let mut err = MemorySink::new(rt.alloc()).with_room(5);
    assert_eq!(rt;
        run_words(rt.alloc(), &Disk::new(&rt), &["-x"], &mut out, &mut err),
        2
    );
    assert_eq!(rt; taken(&rt, &err)?.as_slice(), b"usage".as_slice());
    Ok(())
}

/// A stream whose first write fails, and which then takes all that it is given.
#[derive(Drop)]
struct Flaky {
    writes: u64,
}

impl Write for Flaky {
    fn write(&mut self, buf: &[u8]) -> io::Result<usize> {
        self.writes = self.writes.saturating_add(1);
        if self.writes == 1 {
            Err(io::Error::from(ErrorKind::Interrupted))
        } else {
            Ok(buf.len())
        }
    }

    fn flush(&mut self) -> io::Result<()> {
        Ok(())
    }
}

#[test]
fn a_failed_write_is_not_tried_again(rt: HostRuntime) {
    let mut sink = StreamSink::new(Flaky { writes: 0 });
    assert_eq!(rt; sink.put(b"text"), Err(DeviceFault));
    assert_eq!(rt; sink.put(b"text"), Ok(4));
}

/// A file whose first read is interrupted, and which then gives a byte at each read.
#[derive(Drop)]
struct Interrupted {
    reads: u64,
}

impl Read for Interrupted {
    fn read(&mut self, buf: &mut [u8]) -> io::Result<usize> {
        self.reads = self.reads.saturating_add(1);
        if self.reads == 1 {
            return Err(io::Error::from(ErrorKind::Interrupted));
        }
        match buf.first_mut() {
            Some(first) => {
                *first = b'a';
                Ok(1)
            }
            None => Ok(0),
        }
    }
}

#[test]
fn an_interrupted_read_is_not_tried_again(rt: HostRuntime) {
    let mut feed = FileFeed::new(Interrupted { reads: 0 });
    let mut buf = [0; 4];
    assert_eq!(rt; feed.fill(&mut buf), Err(DeviceFault));
    assert_eq!(rt; feed.fill(&mut buf), Ok(1));
}

/// Files that give a source, or fail at their first read: that of the word `b.r`.
#[derive(Drop)]
struct Failing;

/// What gives a source, or fails at its first read and then gives it.
#[derive(Drop)]
struct Script {
    source: &'static [u8],
    fails: bool,
}

impl Read for Script {
    fn read(&mut self, buf: &mut [u8]) -> io::Result<usize> {
        if self.fails {
            self.fails = false;
            return Err(io::Error::from(ErrorKind::InvalidData));
        }
        self.source.read(buf)
    }
}

impl Opener for Failing {
    type File = FileFeed<Script>;

    ghost files = { λ _. record { holds = λ _. None; opens = λ _. ⊤; refuses = λ _. ⊥; fails = λ _. ⊤ } };

    fn open(&self, word: &str) -> Result<FileFeed<Script>, OpenFault> {
        Ok(FileFeed::new(Script {
            source: b"main(){}",
            fails: word == "b.r",
        }))
    }
}

#[test]
fn a_file_whose_first_read_fails_ends_the_run(rt: HostRuntime) -> Result<(), Fail> {
    let listing = format!(in rt.alloc(); "File a.r\n{EMPTY}")?;
    for (words, text) in [
        (["-c", "a.r", "b.r", "c.r"], listing.as_bytes()),
        (["-m1", "a.r", "b.r", "c.r"], b"".as_slice()),
    ] {
        let mut out = MemorySink::new(rt.alloc());
        let mut err = MemorySink::new(rt.alloc());
        assert_eq!(rt;
            run_words(rt.alloc(), &Failing, &words, &mut out, &mut err),
            3
        );
        assert_eq!(rt; taken(&rt, &out)?.as_slice(), text);
        let line = b"crobots: cannot read b.r\n".as_slice();
        assert_eq!(rt; taken(&rt, &err)?.as_slice(), line);
    }
    Ok(())
}

/// Files in memory: each word's file holds this source.
#[derive(Drop)]
struct Everywhere {
    source: &'static [u8],
}

impl Opener for Everywhere {
    type File = KnownFeed<&'static [u8]>;

    ghost files = { λ disk. record {
      holds = λ _. Some disk.source.now;
      opens = λ _. ⊤;
      refuses = λ _. ⊥;
      fails = λ _. ⊤;
    } };

    fn open(&self, _: &str) -> Result<KnownFeed<&'static [u8]>, OpenFault> {
        Ok(KnownFeed::new(self.source))
    }
}

#[test]
fn readers_of_known_contents(rt: HostRuntime) -> Result<(), Fail> {
    let disk = Everywhere {
        source: b"main(){}",
    };
    let mut out = MemorySink::new(rt.alloc());
    let mut err = MemorySink::new(rt.alloc());
    assert_eq!(rt;
        run_words(rt.alloc(), &disk, &["-c", "a.r", "b.r"], &mut out, &mut err),
        0
    );
    let listed = format!(in rt.alloc(); "File a.r\n{EMPTY}File b.r\n{EMPTY}")?;
    assert_eq!(rt; taken(&rt, &out)?.as_slice(), listed.as_bytes());
    assert_eq!(rt; taken(&rt, &err)?.as_slice(), b"".as_slice());
    Ok(())
}

/// Runs the program over what its process got for words, and compares its status and its line.
fn check_process<R: Abort + Files + AllocGlobal>(
    rt: &R,
    words: io::Result<Vec<String>>,
    status: u8,
    faults: &[u8],
) -> Result<(), Fail> {
    let mut out = MemorySink::new(rt.alloc());
    let mut err = MemorySink::new(rt.alloc());
    assert_eq!(rt; run_process(rt, words, &mut out, &mut err), status);
    assert_eq!(rt; taken(rt, &out)?.as_slice(), b"".as_slice());
    assert_eq!(rt; taken(rt, &err)?.as_slice(), faults);
    Ok(())
}

#[test]
fn words_of_a_process(rt: HostRuntime) -> Result<(), Fail> {
    let mut words = Vec::new(rt.alloc());
    words.push(format!(in rt.alloc(); "crobots")?)?;
    words.push(format!(in rt.alloc(); "-c")?)?;
    words.push(format!(in rt.alloc(); "absent.r")?)?;
    check_process(&rt, Ok(words), 3, b"crobots: cannot open absent.r\n")?;
    check_process(&rt, Ok(Vec::new(rt.alloc())), 2, USAGE)?;
    let no_text = io::Error::from(ErrorKind::InvalidData);
    check_process(&rt, Err(no_text), 2, USAGE)?;
    let no_memory = io::Error::from(ErrorKind::OutOfMemory);
    check_process(&rt, Err(no_memory), 5, b"crobots: out of memory\n")
}

/// A file system that is refused memory at each call.
#[derive(Drop)]
struct NoMemory<'a>(&'a HostRuntime);

impl Alloc for NoMemory<'_> {
    type A = Global;

    fn alloc(&self) -> Global {
        self.0.alloc()
    }
}

impl Files for NoMemory<'_> {
    type File = File;

    type Dir = File;

    fn open_file(&self, _how: &OpenOptions, _path: &str) -> io::Result<File> {
        Err(io::Error::from(ErrorKind::OutOfMemory))
    }

    fn open_dir(&self, _path: &str) -> io::Result<File> {
        Err(io::Error::from(ErrorKind::OutOfMemory))
    }

    fn metadata(&self, _path: &str) -> io::Result<Metadata> {
        Err(io::Error::from(ErrorKind::OutOfMemory))
    }

    fn symlink_metadata(&self, _path: &str) -> io::Result<Metadata> {
        Err(io::Error::from(ErrorKind::OutOfMemory))
    }

    fn copy(&self, _from: &str, _to: &str) -> io::Result<u64> {
        Err(io::Error::from(ErrorKind::OutOfMemory))
    }

    fn rename(&self, _from: &str, _to: &str) -> io::Result<()> {
        Err(io::Error::from(ErrorKind::OutOfMemory))
    }

    fn remove_file(&self, _path: &str) -> io::Result<()> {
        Err(io::Error::from(ErrorKind::OutOfMemory))
    }

    fn create_dir(&self, _path: &str) -> io::Result<()> {
        Err(io::Error::from(ErrorKind::OutOfMemory))
    }

    fn remove_dir(&self, _path: &str) -> io::Result<()> {
        Err(io::Error::from(ErrorKind::OutOfMemory))
    }

    fn remove_dir_all<A: Allocator>(&self, _alloc: A, _path: &str) -> io::Result<()> {
        Err(io::Error::from(ErrorKind::OutOfMemory))
    }
}

#[test]
fn out_of_memory(rt: HostRuntime) -> Result<(), Fail> {
    let mut out = MemorySink::new(rt.alloc());
    let mut err = MemorySink::new(rt.alloc());
    let broken = NoMemory(&rt);
    let disk = Disk::new(&broken);
    assert_eq!(rt;
        run_words(broken.alloc(), &disk, &["-c", "a.r"], &mut out, &mut err),
        5
    );
    assert_eq!(rt; taken(&rt, &out)?.as_slice(), b"".as_slice());
    assert_eq!(rt;
        taken(&rt, &err)?.as_slice(),
        b"crobots: out of memory\n".as_slice()
    );
    Ok(())
}
