//! The report of the sums of matches.

use crate::habits::{add_calls, add_directions, add_streak};
use crate::items::{Items, mean, percents};
use crate::measured::add_measured;
use crate::misses::add_misses;
use crate::ranges::add_ranges;
use crate::requests::Task;
use crate::restarts::add_restarts;
use crate::tallies::{RobotCounts, add, largest_first};
use notes::{Note, NotedProgram, plain};
use std::alloc::{AllocError, Global};
use tools::{Draft, Text};
use watching::percent;

/// The most lines of a source that the report has.
const MOST_TOLD: usize = 10;

/// How many characters stand before the text of a line of a source.
const TEXT_COLUMN: usize = 26;

/// The matches of a report.
#[derive(Clone, Copy)]
pub struct Played {
    /// The number of the first one.
    first: u32,
    /// The number of the last one.
    last: u32,
    /// How many there are.
    count: u64,
    /// Their cycles in all.
    cycles: u64,
}

impl Played {
    /// Makes none, of which this will be the first.
    pub fn none(first: u32) -> Played {
        Played {
            first,
            last: first,
            count: 0,
            cycles: 0,
        }
    }

    /// Adds the match of this number.
    pub fn add(&mut self, number: u32, cycles: u32) {
        self.last = number;
        self.count = self.count.saturating_add(1);
        self.cycles = self.cycles.saturating_add(u64::from(cycles));
    }

    /// Reports whether there are more than one.
    pub fn are_several(self) -> bool {
        self.count > 1
    }
}

/// A robot of the report: what was counted of it, and what gives these counts their lines and names.
#[derive(Clone, Copy)]
pub struct Subject<'a> {
    /// Its number, from 1.
    pub number: usize,
    /// What was counted.
    pub tally: &'a RobotCounts,
    /// Its program, and what is known of its file.
    pub noted: NotedProgram<'a>,
    /// The most characters of a line.
    pub columns: usize,
}

/// Returns the robots of a match, by what was counted of each.
pub fn subjects_of<'a>(
    alloc: Global,
    task: Task<'a>,
    tallies: &'a [RobotCounts],
) -> Result<Vec<Subject<'a>>, AllocError> {
    let mut subjects = Vec::new(alloc);
    for (robot, tally) in tallies.iter().enumerate() {
        if let Some(noted) = task.sources.robot(robot) {
            subjects.push(Subject {
                number: robot.saturating_add(1),
                tally,
                noted,
                columns: task.request.columns,
            })?;
        }
    }
    Ok(subjects)
}

/// Adds the report: the match and how each robot ended, as crobots has it, or the matches and how often each robot was
/// alive; and then each robot in the span.
pub fn add_report(
    text: &mut Draft,
    task: Task<'_>,
    played: Played,
    tallies: &[RobotCounts],
) -> Result<(), AllocError> {
    let subjects = subjects_of(text.alloc(), task, tallies)?;
    let (first, last, cycles) = (played.first, played.last, played.cycles);
    if played.are_several() {
        writeln!(text, "Matches {first} to {last}: cycles = {cycles}");
    } else {
        writeln!(text, "Match {first}: cycles = {cycles}");
    }
    for subject in &subjects {
        add_end(text, subject, played);
    }
    for (robot, subject) in subjects.iter().enumerate() {
        if task.request.span.has_robot(robot) {
            add_robot(text, subject, played)?;
        }
    }
    Ok(())
}

/// Adds how a robot ended: of several matches how often it was alive, and its damage in the mean.
fn add_end(text: &mut Draft, subject: &Subject<'_>, played: Played) {
    let (number, name) = (subject.number, &subject.noted.note.name);
    let (damage, death) = (subject.tally.damage, subject.tally.death);
    if played.are_several() {
        let (survived, count) = (subject.tally.survived, played.count);
        let damage = mean(subject.tally.damages, count);
        writeln!(
            text,
            "  {number}) alive in {survived} of {count}, damage {damage:>3}% {name}"
        );
        return;
    }
    let state = if death.is_some() { "dead" } else { "alive" };
    writeln!(text, "  {number}) {state:<5} damage {damage:>3}% {name}");
}

/// Adds the part of the report on a robot.
fn add_robot(text: &mut Draft, subject: &Subject<'_>, played: Played) -> Result<(), AllocError> {
    add_name(text, subject);
    add_losses(text, subject)?;
    add_taken(text, subject)?;
    add_shots(text, subject)?;
    add_misses(text, &subject.tally.misses)?;
    if played.are_several() {
        add_ranges(text, subject.tally)?;
    }
    add_restarts(text, subject)?;
    if !played.are_several() {
        add_streak(text, subject)?;
    }
    add_time(text, subject)?;
    add_calls(text, subject)?;
    add_directions(text, subject.tally)?;
    add_functions(text, subject)?;
    add_lines(text, subject)?;
    add_measured(text, subject)
}

/// Adds a robot's number and name, and when it was dead.
fn add_name(text: &mut Draft, subject: &Subject<'_>) {
    write!(text, "\n{}) {}", subject.number, subject.noted.note.name);
    if let Some(cycle) = subject.tally.death {
        write!(text, ", dead after cycle {cycle}");
    }
    text.add("\n");
}

/// Adds what was taken from a robot, and by what.
fn add_losses(text: &mut Draft, subject: &Subject<'_>) -> Result<(), AllocError> {
    let tally = subject.tally;
    let mut items = Items::new("lost", text, subject.columns);
    for (by, percent) in tally.shots.iter().enumerate() {
        let by = by.saturating_add(1);
        if by == subject.number {
            add_share(&mut items, *percent, "its own shots");
        } else if *percent > 0 {
            write!(items.begin(), "{percent}% by shots of {by}");
        }
    }
    add_share(&mut items, tally.walls, "walls");
    add_share(&mut items, tally.collisions, "collisions");
    items.end(text)
}

/// Adds a share of damage, if there is any.
fn add_share(items: &mut Items, percent: u64, by: &str) {
    if percent > 0 {
        write!(items.begin(), "{percent}% by {by}");
    }
}

/// Adds what a robot's shots took from others.
fn add_taken(text: &mut Draft, subject: &Subject<'_>) -> Result<(), AllocError> {
    let mut items = Items::new("took", text, subject.columns);
    for (from, percent) in subject.tally.taken.iter().enumerate() {
        if *percent > 0 {
            write!(items.begin(), "{percent}% from {}", from.saturating_add(1));
        }
    }
    items.end(text)
}

/// Adds a robot's shots.
fn add_shots(text: &mut Draft, subject: &Subject<'_>) -> Result<(), AllocError> {
    let tally = subject.tally;
    let mut items = Items::new("shots", text, subject.columns);
    if let Some(shots) = tally.fired() {
        let [fired, refused] = shots;
        write!(items.begin(), "{fired} fired");
        write!(items.begin(), "{refused} refused");
        write!(items.begin(), "{} burst", tally.bursts);
        write!(items.begin(), "{} hit another robot", tally.hits);
    }
    items.end(text)
}

/// Adds what a robot's cycles were for.
fn add_time(text: &mut Draft, subject: &Subject<'_>) -> Result<(), AllocError> {
    let (all, shares) = (subject.tally.cycles(), &subject.tally.shares);
    let rest = shares.sums.saturating_add(shares.open_cycles);
    let [moving, scanning, shooting, rest] = percents([
        shares.moving,
        shares.scanning,
        shares.shooting,
        rest,
    ]);
    let mut items = Items::new("time", text, subject.columns);
    write!(items.begin(), "{all} cycles: {moving}% to move");
    write!(items.begin(), "{scanning}% to scan");
    write!(items.begin(), "{shooting}% to shoot");
    write!(items.begin(), "{rest}% else");
    items.end(text)
}

/// Adds the cycles of each function, and their share in all of the robot's.
fn add_functions(text: &mut Draft, subject: &Subject<'_>) -> Result<(), AllocError> {
    let mut items = Items::new("functions", text, subject.columns);
    let counts = cycles_by_function(text.alloc(), subject)?;
    let (all, functions) = (subject.tally.cycles(), counts.len());
    for (number, cycles) in &largest_first(counts, functions)? {
        let name = subject.noted.named().function_name(*number);
        let share = percent(*cycles, all);
        write!(items.begin(), "{cycles} {name} ({share}%)");
    }
    items.end(text)
}

/// Returns the cycles of each function of a robot's program.
pub fn cycles_by_function(alloc: Global, subject: &Subject<'_>) -> Result<Vec<u64>, AllocError> {
    let noted = subject.noted;
    let mut counts = vec![in alloc; 0; noted.program.addresses().len()]?;
    for (address, spot) in subject.tally.spots.iter().enumerate() {
        add(
            counts.as_mut_slice(),
            noted.named().function(address),
            spot.cycles,
        );
    }
    Ok(counts)
}

/// Adds the lines that took most cycles.
fn add_lines(text: &mut Draft, subject: &Subject<'_>) -> Result<(), AllocError> {
    let (tally, note) = (subject.tally, subject.noted.note);
    let (lines, counts) = cycles_by_line(text.alloc(), tally, note)?;
    let all = tally.cycles();
    text.add("   line      cycles    %  text\n");
    for (n, cycles) in &largest_first(counts, MOST_TOLD)? {
        let line = lines.get(*n).copied().unwrap_or(0);
        let source = plain(text.alloc(), note.text_of(line))?;
        let width = subject.columns.saturating_sub(TEXT_COLUMN);
        write!(text, "{line:>7}{cycles:>12}{:>5}  ", percent(*cycles, all));
        writeln!(text, "{:.width$}", source.trim());
    }
    Ok(())
}

/// Returns the lines that instructions come from, and the cycles of each.
fn cycles_by_line(
    alloc: Global,
    tally: &RobotCounts,
    note: &Note,
) -> Result<(Vec<u32>, Vec<u64>), AllocError> {
    let mut lines = Vec::new(alloc);
    let mut counts = Vec::new(alloc);
    for (address, spot) in tally.spots.iter().enumerate() {
        let line = note.positions.line(address);
        let n = position(lines.as_slice(), line);
        if n == lines.len() {
            lines.push(line)?;
            counts.push(0)?;
        }
        add(counts.as_mut_slice(), n, spot.cycles);
    }
    Ok((lines, counts))
}

/// Returns where a line is among some, or their number if it isn't.
fn position(lines: &[u32], line: u32) -> usize {
    for (n, other) in lines.iter().enumerate() {
        if *other == line {
            return n;
        }
    }
    lines.len()
}
