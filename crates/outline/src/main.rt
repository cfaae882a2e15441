//! An example of the library: prints the outline of a robot's source, by the parser alone. For each function it
//! lists the parameters, the other variables, and how deep its statements are nested.
#![tactic(auto)]

mod depths;

use crate::depths::Depths;
use lang::{Diagnostic, Name, ParseFault, Profile, TreeMaker, Watched, parse};
use std::io::ErrorKind;
use std::{env, fs, io, str};
use tokens::MemoryFeed;

/// Prints the outline of the file that the first word names.
fn main(rt: HostRuntime) -> io::Result<()> {
    let Some(word) = env::args(&rt)?.nth(1) else {
        return Err(ErrorKind::InvalidInput.into());
    };
    let source = fs::read(&rt, word.as_str())?;
    outline(&rt, source.as_slice())
}

/// Prints the outline of a source, or its first fault.
fn outline(rt: &HostRuntime, source: &[u8]) -> io::Result<()> {
    let mut watched = Watched {
        watcher: Depths::new(),
        builder: TreeMaker::new(rt.alloc(), Profile::first()),
    };
    let pools = match parse(&mut MemoryFeed::new(source, 4096), &mut watched) {
        Ok(pools) => pools,
        Err(ParseFault::Source(Diagnostic { line, code })) => {
            return println!(rt; "line {line}: {}", code.text());
        }
        Err(_) => return Err(ErrorKind::OutOfMemory.into()),
    };
    print_names(rt, "externals", pools.externals())?;
    for (number, function) in pools.functions().iter().enumerate() {
        println!(rt; "function {}", function.name().as_str())?;
        let (parameters, others) = function
            .variables()
            .split_at(usize::from(function.parameter_count()));
        print_names(rt, "  parameters", parameters)?;
        print_names(rt, "  variables", others)?;
        println!(rt; "  nesting {}", watched.watcher.deepest(number as u8))?;
    }
    Ok(())
}

/// Prints names on one line.
fn print_names(rt: &HostRuntime, what: &str, names: &[Name]) -> io::Result<()> {
    print!(rt; "{what}:")?;
    for name in names {
        print!(rt; " {}", name.as_str())?;
    }
    println!(rt; "")
}
