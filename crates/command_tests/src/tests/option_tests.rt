//! Words that give options, and words that don't.

use std::alloc::Global;
use std::process::Abort;
use std::test::Fail;
use tools::{Fault, Known, SPAN_OPTIONS, Span, Wrong, read_options, visible};

/// The options of a made-up program.
const KNOWN: [&[Known]; 3] = [
    &[
        Known::Valued("k", "MATCH", ""),
        Known::Also("f", "k"),
        Known::Valued("p", "PROFILE", ""),
    ],
    &SPAN_OPTIONS,
    &[Known::Flag("sum", ""), Known::Flag("steps", "")],
];

/// Splits a line into words.
fn split(alloc: Global, line: &str) -> Result<Vec<String>, Fail> {
    let mut words = Vec::new(alloc);
    for word in line.split(' ') {
        let Ok(word) = String::from_str(alloc, word) else {
            return Err(Fail::from("no memory"));
        };
        if words.push(word).is_err() {
            return Err(Fail::from("no memory"));
        }
    }
    Ok(words)
}

/// Compares the value of an option that a line of words gives with the one wanted.
fn check(
    rt: &impl Abort,
    alloc: Global,
    line: &str,
    name: &str,
    wanted: Option<&str>,
) -> Result<(), Fail> {
    let words = split(alloc, line)?;
    let Ok(options) = read_options(alloc, words.as_slice(), &KNOWN) else {
        return Err(Fail::from("wrong usage"));
    };
    assert_eq!(rt; options.value(name), wanted);
    Ok(())
}

/// Returns what is said of a line of words: nothing if it isn't refused.
fn complaint(alloc: Global, line: &str) -> Result<String, Fail> {
    let words = split(alloc, line)?;
    let said = match read_options(alloc, words.as_slice(), &KNOWN) {
        Err(misread) => misread.to_string(alloc),
        Ok(_) => Ok(String::new(alloc)),
    };
    match said {
        Ok(said) => Ok(said),
        Err(_) => Err(Fail::from("no memory")),
    }
}

#[test]
fn values(rt: HostRuntime) -> Result<(), Fail> {
    let alloc = rt.alloc();
    check(&rt, alloc, "-k7 a.r", "k", Some("7"))?;
    check(&rt, alloc, "a.r -k 7", "k", Some("7"))?;
    check(&rt, alloc, "-k -7 a.r", "k", Some("-7"))?;
    check(&rt, alloc, "--robot 2 a.r", "robot", Some("2"))?;
    check(&rt, alloc, "--robot=2 a.r", "robot", Some("2"))?;
    check(&rt, alloc, "--sum a.r", "sum", Some(""))?;
    check(&rt, alloc, "-f7 a.r", "k", Some("7"))?;
    check(&rt, alloc, "a.r --help", "h", Some(""))?;
    check(&rt, alloc, "-h", "h", Some(""))?;
    check(&rt, alloc, "--version", "version", Some(""))?;
    check(&rt, alloc, "-- -k7", "k", None)
}

#[test]
fn refused(rt: HostRuntime) -> Result<(), Fail> {
    let alloc = rt.alloc();
    for (line, wanted) in [
        ("-", ""),
        ("-x1", "unknown option -x1"),
        ("-\x1b[31m", "unknown option -?[31m"),
        ("-m3 a.r", "unknown option -m3 (the match is -k)"),
        ("-k", "-k lacks its value"),
        ("a.r -f", "-f lacks its value"),
        ("-k1 -k2", "-k is given twice"),
        ("-f1 -f2", "-f is given twice"),
        ("-k1 -f2", "-k and -f are one option, given twice"),
        ("-h -h --help --version --version", ""),
        ("-h=1", "-h takes no value"),
        ("--help=1", "--help takes no value"),
        ("--robot= a.r", "--robot has an empty value"),
        ("-f  a.r", "-f has an empty value"),
        ("--sum --sum", "--sum is given twice"),
        ("--sum=1", "--sum takes no value"),
        ("--other", "unknown option --other"),
        ("--", ""),
        ("-sum", "unknown option -sum"),
    ] {
        assert_eq!(&rt; complaint(alloc, line)?.as_str(), wanted);
    }
    Ok(())
}

#[test]
fn files(rt: HostRuntime) -> Result<(), Fail> {
    let alloc = rt.alloc();
    let words = split(alloc, "a.r -k1 - b.r -- --sum")?;
    let Ok(options) = read_options(alloc, words.as_slice(), &KNOWN) else {
        return Err(Fail::from("wrong usage"));
    };
    assert_eq!(&rt; options.files(), ["a.r", "-", "b.r", "--sum"].as_slice());
    assert_eq!(&rt; options.has("sum"), false);
    Ok(())
}

/// Compares what a line of words says of a file that is missing: the option that may have taken it, and the word.
fn check_taken(
    rt: &impl Abort,
    alloc: Global,
    line: &str,
    wanted: Option<(&str, &str)>,
) -> Result<(), Fail> {
    let words = split(alloc, line)?;
    let Ok(options) = read_options(alloc, words.as_slice(), &KNOWN) else {
        return Err(Fail::from("wrong usage"));
    };
    assert_eq!(rt; options.taken(), wanted);
    Ok(())
}

#[test]
fn taken_words(rt: HostRuntime) -> Result<(), Fail> {
    let alloc = rt.alloc();
    check_taken(&rt, alloc, "--robot a.r", Some(("robot", "a.r")))?;
    check_taken(&rt, alloc, "-f a.r --robot 2", Some(("f", "a.r")))?;
    check_taken(&rt, alloc, "-f a.r -p b.r", Some(("p", "b.r")))?;
    check_taken(&rt, alloc, "-fa.r --robot=a.r --sum", None)
}

/// Reads the span of two robots that a line of words asks for.
fn span(alloc: Global, line: &str) -> Result<Result<Span, Fault>, Fail> {
    let words = split(alloc, line)?;
    let Ok(options) = read_options(alloc, words.as_slice(), &KNOWN) else {
        return Err(Fail::from("wrong usage"));
    };
    Ok(Span::read(&options, 2))
}

#[test]
fn spans(rt: HostRuntime) -> Result<(), Fail> {
    let alloc = rt.alloc();
    let whole = Span {
        robot: None,
        from: 0,
        to: 1_000_000_000,
    };
    assert_eq!(&rt; span(alloc, "a.r")?, Ok(whole));
    let part = Span {
        robot: Some(1),
        from: 15,
        to: 30,
    };
    assert_eq!(&rt; span(alloc, "a.r --robot 2 --from 15 --to 30")?, Ok(part));
    for (line, from, to) in [
        ("--from 5 --to 5", 5, 5),
        ("--to 0", 0, 0),
        ("--from 0 --to 1", 0, 1),
        ("--from 1000000000", 1_000_000_000, 1_000_000_000),
        ("--from 999999999", 999_999_999, 1_000_000_000),
    ] {
        let part = Span {
            robot: None,
            from,
            to,
        };
        assert_eq!(&rt; span(alloc, line)?, Ok(part));
    }
    for (line, wrong) in [
        ("--robot 0", Wrong::Robot(2)),
        ("--robot 3", Wrong::Robot(2)),
        ("--from 2 --to 1", Wrong::Order),
        ("--from 1000000000 --to 999999999", Wrong::Order),
        ("--to 1000000001", Wrong::Number("to", 0, 1_000_000_000)),
    ] {
        assert_eq!(&rt; span(alloc, line)?, Err(Fault::Wrong(wrong)));
    }
    Ok(())
}

#[test]
fn characters_that_lines_show(rt: HostRuntime) -> Result<(), Fail> {
    for c in ['\0', '\t', '\n', '\x1b', '\x1f', '\x7f', '\u{80}', '\u{9f}'] {
        assert_eq!(&rt; visible(c), '?');
    }
    for c in [' ', '?', '~', '\u{a0}', 'é', '漢', '😀'] {
        assert_eq!(&rt; visible(c), c);
    }
    Ok(())
}

#[test]
fn choices(rt: HostRuntime) -> Result<(), Fail> {
    let alloc = rt.alloc();
    for (line, wanted) in [
        ("a.r", Ok(None)),
        ("a.r --steps", Ok(Some(2))),
        (
            "--sum --steps",
            Err(Fault::Wrong(Wrong::Both("sum", "steps"))),
        ),
    ] {
        let words = split(alloc, line)?;
        let Ok(options) = read_options(alloc, words.as_slice(), &KNOWN) else {
            return Err(Fail::from("wrong usage"));
        };
        assert_eq!(&rt; options.only(&[("sum", 1), ("steps", 2)]), wanted);
    }
    Ok(())
}
