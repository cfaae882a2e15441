//! Drives a machine and a field many times, to measure what a cycle, an update, a scan and a bearing cost.
#![tactic(auto)]

mod field;
mod machine;

use crate::field::{bearings, marches, rests, scans};
use crate::machine::{ROBOT, compiled, counted};
use std::io::ErrorKind;
use std::{env, io};

/// The drills, and how often each is done if no words are given: ten lives of the robot, and 300 of each other drill.
const DRILLS: [(&str, u32); 5] = [
    ("machine", 29_060),
    ("marches", 300),
    ("rests", 300),
    ("scans", 300),
    ("bearings", 300),
];

/// Does the drill of the first word as often as the second word says, or all drills.
fn main(rt: HostRuntime) -> io::Result<()> {
    let mut words = env::args(&rt)?;
    let _ = words.next();
    let Some(drill) = words.next() else {
        return do_all(&rt);
    };
    let times = words.next().ok_or(ErrorKind::InvalidInput)?;
    let times = times.parse().map_err(|_| ErrorKind::InvalidInput)?;
    run(&rt, drill.as_str(), times)
}

/// Does each drill.
fn do_all(rt: &HostRuntime) -> io::Result<()> {
    for (drill, times) in DRILLS {
        run(rt, drill, times)?;
    }
    Ok(())
}

/// Does a drill a number of times, and prints its result. Refuses a drill that doesn't exist.
fn run(rt: &HostRuntime, drill: &str, times: u32) -> io::Result<()> {
    match drill {
        "machine" => run_machine(rt, times),
        "marches" => println!(rt; "damage {}", marches(times)),
        "rests" => println!(rt; "damage {}", rests(times)),
        "scans" => println!(rt; "range {}", scans(times)),
        "bearings" => println!(rt; "degree {}", bearings(times)),
        _ => Err(ErrorKind::InvalidInput.into()),
    }
}

/// Runs the robot for a number of cycles, and prints in how many it asked and restarted.
fn run_machine(rt: &HostRuntime, cycles: u32) -> io::Result<()> {
    let program = compiled(ROBOT).ok_or(ErrorKind::InvalidData)?;
    let counts = counted(&program, cycles);
    println!(rt; "cycles {cycles}")?;
    println!(rt; "asks {}", counts.asks)?;
    println!(rt; "restarts {}", counts.restarts)
}
