//! A page that shows stages of a source by chapters, on a screen or on paper: its code side by side with its lines, in
//! their colours, what is known of it, and others.

use crate::chapters::{CHAPTERS, Chapter, Chapters};
use crate::charts::add_chart;
use crate::code_rows::add_listing;
use crate::derivation_rows::add_derivation_rows;
use crate::derivation_trees::derivation_tree;
use crate::drawings::tree_of;
use crate::flow::blocks_of;
use crate::looks::{
    BEFORE_CODE, BEFORE_INSTRUCTIONS, BEFORE_LINES, BEFORE_NAME, BEFORE_TITLE, BEHIND_NAME,
    END_SECTION, LOOK, TAIL, TOO_WIDE,
};
use crate::markup::{COLOURS, Escaped, hue};
use crate::operation_rows::add_operation_rows;
use crate::origins::Origins;
use crate::outlines::Outline;
use crate::pictures::{MOST_ON_PAPER, add_pictures};
use crate::robots::Robot;
use crate::texts::{lines_of, shown};
use crate::token_rows::add_token_rows;
use facts::{Facts, Part, add_call, add_gap, add_room, add_shot, add_turn};
use grammar::Profile;
use std::alloc::{AllocError, Global};
use tools::Draft;

/// A page of a robot.
#[derive(Clone, Copy)]
pub struct Page<'a> {
    /// The name of its file.
    pub name: &'a str,
    /// Its source.
    pub source: &'a [u8],
    /// The profile by which it compiles.
    pub profile: Profile,
    /// What it compiles to.
    pub robot: &'a Robot,
    /// What is known of it before a match.
    pub facts: &'a Facts,
    /// What the page has.
    pub chapters: Chapters,
}

impl<'a> Page<'a> {
    /// Adds the page.
    pub fn add(&self, text: &mut String) -> Result<(), AllocError> {
        let name = shown(*text.allocator(), self.name.as_bytes())?;
        let name = Escaped(name.as_str());
        write!(text, "{BEFORE_TITLE}{name}{LOOK}")?;
        add_colours(text, &self.robot.origins)?;
        write!(text, "{BEFORE_NAME}{name}{BEHIND_NAME}")?;
        for (_, chapter) in &CHAPTERS {
            if self.chapters.has(*chapter) {
                self.add_chapter(text, *chapter)?;
            }
        }
        text.push_str(TAIL)
    }

    /// Adds a chapter.
    fn add_chapter(&self, text: &mut String, chapter: Chapter) -> Result<(), AllocError> {
        let mut rows = String::new(*text.allocator());
        match chapter {
            Chapter::Tokens => add_token_rows(&mut rows, self.source, None)?,
            Chapter::Derivation => add_derivation_rows(&mut rows, self.source, None)?,
            Chapter::Tree => self.tree(*text.allocator())?.add_indented(&mut rows)?,
            Chapter::Operations => add_operation_rows(&mut rows, self.robot)?,
            Chapter::Svg => return self.add_trees(text),
            Chapter::Code => return self.add_code(text),
            Chapter::Flow => return self.add_flow(text),
            Chapter::Bounds => return self.add_bounds(text),
        }
        begin_section(text, "wide", chapter)?;
        add_lines(text, rows.as_str(), chapter)?;
        text.push_str(END_SECTION)
    }

    /// Returns its tree.
    fn tree(&self, alloc: Global) -> Result<Outline, AllocError> {
        tree_of(alloc, self.source, self.profile, self.robot)
    }

    /// Adds the pictures of its trees. On paper they lie across a page, or other chapters are named if they are too wide.
    fn add_trees(&self, text: &mut String) -> Result<(), AllocError> {
        let alloc = *text.allocator();
        let derivation = derivation_tree(alloc, self.source)?;
        let mut pictures = String::new(alloc);
        let width = add_pictures(&mut pictures, &derivation, &self.tree(alloc)?, "")?;
        let (class, begin) = if width > MOST_ON_PAPER {
            ("wide", TOO_WIDE)
        } else {
            ("wide landscape", "<div class=\"flow\">\n")
        };
        begin_section(text, class, Chapter::Svg)?;
        text.push_str(begin)?;
        text.push_str(pictures.as_str())?;
        text.push_str(END_SECTION)
    }

    /// Adds its code: beside its lines, and on paper below them.
    fn add_code(&self, text: &mut String) -> Result<(), AllocError> {
        text.push_str(BEFORE_CODE)?;
        begin_section(text, "paper", Chapter::Code)?;
        let mut listing = String::new(*text.allocator());
        add_listing(&mut listing, self.source, self.robot)?;
        add_lines(text, listing.as_str(), Chapter::Code)?;
        text.push_str(END_SECTION)?;
        text.push_str(BEFORE_LINES)?;
        add_source(text, self.source, self.robot)?;
        text.push_str(BEFORE_INSTRUCTIONS)?;
        for address in 0..self.robot.program.instructions().len() {
            add_instruction(text, self.robot, address)?;
        }
        text.push_str(END_SECTION)
    }

    /// Adds the control flow graph of each function.
    fn add_flow(&self, text: &mut String) -> Result<(), AllocError> {
        begin_section(text, "wide", Chapter::Flow)?;
        text.push_str("<div class=\"flow\">\n")?;
        let blocks = blocks_of(*text.allocator(), &self.robot.program)?;
        let robot = self.robot;
        for own in blocks.chunk_by(|_, next| robot.function_begun_at(next.begin).is_none()) {
            add_chart(text, self.robot, own)?;
        }
        text.push_str(END_SECTION)
    }

    /// Adds what is known of it before a match.
    fn add_bounds(&self, text: &mut String) -> Result<(), AllocError> {
        begin_section(text, "wide", Chapter::Bounds)?;
        text.push_str("<div class=\"rows\">\n")?;
        add_facts(text, self.facts)?;
        text.push_str(END_SECTION)
    }
}

/// Begins the section of a chapter.
fn begin_section(text: &mut String, class: &str, chapter: Chapter) -> Result<(), AllocError> {
    let (label, heading) = heading_of(chapter);
    writeln!(text, r#"<section class="{class}" aria-label="{label}">"#)?;
    writeln!(text, "<h2>{heading}</h2>")
}

/// Returns the name of a chapter, and its heading.
fn heading_of(chapter: Chapter) -> (&'static str, &'static str) {
    match chapter {
        Chapter::Tokens => ("Tokens", "Tokens: line, column, kind, text"),
        Chapter::Derivation => ("Derivation", "Derivation: each step of the parser"),
        Chapter::Tree => ("Tree", "Tree"),
        Chapter::Svg => ("Pictures", "Derivation tree, and tree"),
        Chapter::Code => ("Lines", "Each line of the source, and its code"),
        Chapter::Operations => ("Operations", "Code, and the operations in its place"),
        Chapter::Flow => (
            "Control flow",
            "Control flow: a jump is at the side, with a 0 if it is one of two ways; nothing leads to a block with a broken edge",
        ),
        Chapter::Bounds => (
            "Before a match",
            "Before a match: line, function, what a call or a turn takes",
        ),
    }
}

/// Adds lines of text as the rows of a chapter. Of a listing a line of the source is kept together with its code, and the
/// name of a function that stands above operations is a heading.
fn add_lines(text: &mut String, lines: &str, chapter: Chapter) -> Result<(), AllocError> {
    text.push_str("<div class=\"rows\">\n")?;
    let mut is_open = false;
    for line in lines.trim_end().split('\n') {
        if chapter == Chapter::Code && begins_line(line) {
            text.push_str(if is_open { "</div>\n" } else { "" })?;
            text.push_str("<div class=\"b\">\n")?;
            is_open = true;
        }
        let is_name = chapter == Chapter::Operations && !line.starts_with(" ");
        let class = if is_name { " class=\"f\"" } else { "" };
        writeln!(text, "<div{class}>{}</div>", Escaped(line))?;
    }
    text.push_str(if is_open { "</div>\n" } else { "" })
}

/// Reports whether a line of a listing is one of the source.
fn begins_line(line: &str) -> bool {
    match line.split_once('|') {
        Some((number, _)) => number
            .trim_ascii()
            .bytes()
            .all(|byte| byte.is_ascii_digit()),
        None => false,
    }
}

/// Adds the colours, by their hue, and for each line that its rows are marked together.
fn add_colours(text: &mut String, origins: &Origins) -> Result<(), AllocError> {
    for colour in 0..COLOURS {
        writeln!(text, ".k{colour} {{ --h: {}; }}", hue(colour))?;
    }
    for line in origins.distinct() {
        write!(text, "main:has(.l{line}:hover) .l{line}")?;
        writeln!(text, " {{ background: hsl(var(--h) 60% var(--strong)); }}")?;
    }
    Ok(())
}

/// Adds the lines of the source. The number of a line leads to the first instruction that comes from it.
fn add_source(text: &mut String, source: &[u8], robot: &Robot) -> Result<(), AllocError> {
    let alloc = *text.allocator();
    for (index, line) in lines_of(alloc, source)?.iter().enumerate() {
        let number = index.saturating_add(1);
        match robot.origins.of_line(number) {
            [(_, address), ..] => {
                add_colour(text, &robot.origins, number)?;
                let link = format_args!(r##"<a href="#c{address}">{number}</a>"##);
                write!(text, r#" id="s{number}">{link}"#)?;
            }
            [] => write!(text, r#"<div id="s{number}"><i class="n">{number}</i>"#)?,
        }
        let line = shown(alloc, line)?;
        writeln!(text, "{}</div>", Escaped(line.as_str()))?;
    }
    Ok(())
}

/// Adds the first part of a row in the colour of a line.
fn add_colour(text: &mut String, origins: &Origins, line: usize) -> Result<(), AllocError> {
    let colour = origins.rank(line) % COLOURS;
    write!(text, r#"<div class="k k{colour} l{line}""#)
}

/// Adds the row of an instruction: the line that it comes from, its address, itself, and the name that it speaks of.
/// Before the first one of a function is that function's name.
fn add_instruction(text: &mut String, robot: &Robot, address: usize) -> Result<(), AllocError> {
    if let Some(name) = robot.function_begun_at(address) {
        writeln!(text, r#"<div class="f">{name}</div>"#)?;
    }
    let line = robot.origins.line(address);
    let instruction = robot.instruction(*text.allocator(), address)?;
    let instruction = Escaped(instruction.as_str());
    let name = robot.named().name_in(address).unwrap_or("");
    add_colour(text, &robot.origins, line)?;
    write!(text, r##" id="c{address}"><a href="#s{line}">{line}</a>"##)?;
    write!(text, r#"<i class="n">{address}</i><b>{instruction}</b>"#)?;
    writeln!(text, "<i>{name}</i></div>")
}

/// Adds what is known before a match: the lines on room, the row of each function and of each loop, and the rows on what
/// lies between questions.
fn add_facts(text: &mut String, facts: &Facts) -> Result<(), AllocError> {
    let mut room = Draft::new(*text.allocator());
    add_room(&mut room, facts);
    for line in room.finish()?.trim().split('\n') {
        writeln!(text, "<div>{line}</div>")?;
    }
    let mut row = Draft::new(*text.allocator());
    for part in &facts.functions {
        add_call(&mut row, part);
        add_row(text, part, &mut row)?;
    }
    for part in &facts.loops {
        add_turn(&mut row, part);
        add_row(text, part, &mut row)?;
    }
    for part in &facts.loops {
        if let Some(gap) = part.gap {
            add_gap(&mut row, part, gap);
            add_row(text, part, &mut row)?;
        }
        if let Some(shot) = part.shot {
            add_shot(&mut row, part, shot);
            add_row(text, part, &mut row)?;
        }
    }
    Ok(())
}

/// Adds the row of a function or a loop, which begins with the number of its line, and leads there.
fn add_row(text: &mut String, part: &Part, row: &mut Draft) -> Result<(), AllocError> {
    let line = part.line;
    write!(text, r##"<div><a href="#s{line}">{line}</a>"##)?;
    row.move_behind(text)?;
    writeln!(text, "</div>")
}
