//! What no contract says: that calls with room and memory succeed, and how pieces are cut into portions.

use series::put_diagnostic;
use sinks::{MemorySink, Pen, Sink, file_name, put_all};
use std::alloc::{AllocError, Global};
use std::process::Abort;
use std::test::Fail;

/// Returns the bytes that a sink took, with a `|` at each portion's end.
fn shown(alloc: Global, sink: &MemorySink) -> Result<Vec<u8>, AllocError> {
    let mut all = Vec::new(alloc);
    for portion in sink.portions() {
        all.extend_from_slice(portion)?;
        all.push(b'|')?;
    }
    Ok(all)
}

fn sizes(alloc: Global, sink: &MemorySink) -> Result<Vec<usize>, AllocError> {
    sink.portions()
        .iter()
        .map(|portion| portion.len())
        .collect(alloc)
}

#[test]
fn short_puts_go_on(rt: HostRuntime) -> Result<(), Fail> {
    let mut sink = MemorySink::new(rt.alloc()).with_most(3);
    put_all(&mut sink, b"abcdefgh").ok().ok_or("it failed")?;
    assert_eq!(rt;
        shown(rt.alloc(), &sink)?.as_slice(),
        b"abc|def|gh|".as_slice()
    );
    assert_eq!(rt; sink.failures(), 0);
    Ok(())
}

#[test]
fn a_full_sink_keeps_a_front(rt: HostRuntime) -> Result<(), Fail> {
    let mut sink = MemorySink::new(rt.alloc()).with_room(4);
    assert!(rt; put_all(&mut sink, b"abcdefgh").is_err());
    assert_eq!(rt; shown(rt.alloc(), &sink)?.as_slice(), b"abcd|".as_slice());
    assert_eq!(rt; sink.failures(), 1);
    Ok(())
}

#[test]
fn fragments_make_one_portion(rt: HostRuntime) -> Result<(), Fail> {
    let mut sink = MemorySink::new(rt.alloc());
    let mut pen = Pen::new();
    pen.add(&mut sink, b"Match ");
    pen.add_number(&mut sink, 1_000_000);
    pen.add(&mut sink, b" damage ");
    pen.add_column(&mut sink, 3, 7);
    pen.add_column(&mut sink, 3, 20);
    pen.add_column(&mut sink, 3, 100);
    pen.finish(&mut sink).ok().ok_or("it failed")?;
    assert_eq!(rt;
        shown(rt.alloc(), &sink)?.as_slice(),
        b"Match 1000000 damage   7 20100|".as_slice()
    );
    Ok(())
}

#[test]
fn long_pieces_are_put_page_by_page(rt: HostRuntime) -> Result<(), Fail> {
    let mut sink = MemorySink::new(rt.alloc());
    let mut pen = Pen::new();
    pen.add(&mut sink, &[b'a'; 300]);
    pen.add(&mut sink, &[b'b'; 300]);
    pen.add(&mut sink, &[b'c'; 600]);
    pen.add(&mut sink, b"d");
    pen.finish(&mut sink).ok().ok_or("it failed")?;
    assert_eq!(rt;
        sizes(rt.alloc(), &sink)?.as_slice(),
        [300, 300, 600, 1].as_slice()
    );
    Ok(())
}

#[test]
fn nothing_is_put_after_a_failure(rt: HostRuntime) -> Result<(), Fail> {
    let mut sink = MemorySink::new(rt.alloc()).failing_after(1);
    let mut pen = Pen::new();
    pen.add(&mut sink, &[b'a'; 513]);
    pen.add(&mut sink, &[b'b'; 513]);
    pen.add(&mut sink, &[b'c'; 513]);
    assert!(rt; pen.finish(&mut sink).is_err());
    assert_eq!(rt; sizes(rt.alloc(), &sink)?.as_slice(), [513].as_slice());
    assert_eq!(rt; sink.failures(), 1);
    Ok(())
}

#[test]
fn diagnostics_name_the_file_and_the_line(rt: HostRuntime) -> Result<(), Fail> {
    let mut sink = MemorySink::new(rt.alloc());
    put_diagnostic(&mut sink, file_name(b"k/c.r"), 20, b"reserved word")
        .ok()
        .ok_or("it failed")?;
    assert_eq!(rt;
        shown(rt.alloc(), &sink)?.as_slice(),
        b"c.r:20: reserved word\n|".as_slice()
    );
    assert_eq!(rt; file_name(b"c.r"), b"c.r".as_slice());
    assert_eq!(rt; file_name(b"k/"), b"".as_slice());
    Ok(())
}
