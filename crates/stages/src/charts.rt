//! The control flow graph of a function as SVG: its blocks from top to bottom, jumps down on the right, jumps back on
//! the left.

use crate::flow::Block;
use crate::flow_rows::add_block_row;
use crate::markup::{COLOURS, Escaped};
use crate::robots::Robot;
use std::alloc::{AllocError, Global};

/// The height of an instruction's row.
const ROW: usize = 18;

/// What is free above and below the rows of a block.
const PAD: usize = 5;

/// What is free between two blocks.
const GAP: usize = 26;

/// The width of a block.
const WIDTH: usize = 380;

/// What is between two lanes, in which jumps go up or down.
const LANE: usize = 14;

/// The greatest height of a graph on paper.
const MOST_ON_PAPER: usize = 1000;

/// A jump between two blocks.
#[derive(Clone, Copy)]
struct Jump {
    /// The number of the block that it leads from.
    from: usize,
    /// The number of the block that it leads to.
    to: usize,
    /// Whether it is one of two ways.
    is_choice: bool,
    /// Its lane: those next to the blocks are 0.
    lane: usize,
}

impl Jump {
    /// Reports whether it leads back, or to the block itself.
    fn leads_back(&self) -> bool {
        self.to <= self.from
    }

    /// Reports whether it goes beside another one, on the same side.
    fn is_beside(&self, other: &Jump) -> bool {
        self.leads_back() == other.leads_back()
            && self.from.min(self.to) <= other.from.max(other.to)
            && other.from.min(other.to) <= self.from.max(self.to)
    }

    /// Returns how far its lane is from the blocks.
    fn distance(&self) -> usize {
        self.lane.saturating_add(2).saturating_mul(LANE)
    }
}

/// How a function is drawn.
#[derive(Drop)]
struct Chart<'a> {
    robot: &'a Robot,
    blocks: &'a [Block],
    // by block, its upper edge; the last is where a further block would begin
    tops: Vec<usize>,
    // the shortest first
    jumps: Vec<Jump>,
    // the left edge of the blocks
    left: usize,
}

/// Adds the graph of a function of a robot, whose blocks these are. One that is too high for a page of paper has rows
/// there.
pub fn add_chart(text: &mut String, robot: &Robot, blocks: &[Block]) -> Result<(), AllocError> {
    let chart = Chart::of(*text.allocator(), robot, blocks)?;
    let is_high = chart.height() > MOST_ON_PAPER;
    let class = if is_high { "chart screen" } else { "chart" };
    writeln!(text, r#"<div class="{class}">"#)?;
    chart.add_begin(text)?;
    for (number, block) in blocks.iter().enumerate() {
        chart.add_block(text, number, block)?;
    }
    for jump in &chart.jumps {
        chart.add_jump(text, jump)?;
    }
    writeln!(text, "</svg>\n</div>")?;
    if is_high {
        chart.add_rows(text)?;
    }
    Ok(())
}

impl<'a> Chart<'a> {
    /// Places the blocks and the jumps of a function.
    fn of(alloc: Global, robot: &'a Robot, blocks: &'a [Block]) -> Result<Chart<'a>, AllocError> {
        let mut tops = Vec::new(alloc);
        let mut top = 0usize;
        tops.push(top)?;
        for block in blocks {
            top = top.saturating_add(height_of(block)).saturating_add(GAP);
            tops.push(top)?;
        }
        let jumps = jumps_of(alloc, blocks)?;
        Ok(Chart {
            robot,
            blocks,
            tops,
            left: room(jumps.as_slice(), true),
            jumps,
        })
    }

    /// Returns the upper edge of a block.
    fn top(&self, number: usize) -> usize {
        self.tops.get(number).copied().unwrap_or(0)
    }

    /// Returns the lower edge of a block.
    fn bottom(&self, number: usize) -> usize {
        self.top(number.saturating_add(1)).saturating_sub(GAP)
    }

    /// Returns the height of the graph.
    fn height(&self) -> usize {
        let last = self.blocks.len().saturating_sub(1);
        self.bottom(last).saturating_add(2)
    }

    /// Returns the function's name.
    fn name(&self) -> &str {
        let begin = self.blocks.first().map_or(0, |block| block.begin);
        self.robot
            .named()
            .function_name(self.robot.named().function(begin))
    }

    /// Adds the blocks as rows, for paper.
    fn add_rows(&self, text: &mut String) -> Result<(), AllocError> {
        let name = self.name();
        writeln!(text, r#"<div class="paper">"#)?;
        writeln!(text, "<h3>{name}</h3>\n<div class=\"rows\">")?;
        writeln!(text, "<div>  from    to  lines         goes to</div>")?;
        for block in self.blocks {
            let mut row = String::new(*text.allocator());
            add_block_row(&mut row, self.robot, block)?;
            writeln!(text, "<div>{}</div>", row.trim_end())?;
        }
        writeln!(text, "</div>\n</div>")
    }

    /// Adds the function's name, and the head of the graph.
    fn add_begin(&self, text: &mut String) -> Result<(), AllocError> {
        let name = self.name();
        let right = self.left.saturating_add(WIDTH);
        let width = right.saturating_add(room(self.jumps.as_slice(), false));
        let height = self.height();
        writeln!(text, "<h3>{name}</h3>")?;
        write!(text, r#"<svg width="{width}" height="{height}""#)?;
        write!(text, r#" viewBox="-1 -1 {width} {height}" role="img""#)?;
        writeln!(text, r#" aria-label="Control flow of {name}">"#)
    }

    /// Adds a block: its edge, in the colour of its first line, its instructions, and the arrow to the one below it.
    fn add_block(&self, text: &mut String, number: usize, block: &Block) -> Result<(), AllocError> {
        let (x, y, height) = (self.left, self.top(number), height_of(block));
        let origins = &self.robot.origins;
        let colour = origins.rank(origins.line(block.begin)) % COLOURS;
        let mark = if block.is_reached { "" } else { " u" };
        write!(text, r#"<g class="k{colour}{mark}"><rect x="{x}" y="{y}""#)?;
        writeln!(text, r#" width="{WIDTH}" height="{height}" rx="4"></rect>"#)?;
        for address in block.begin..=block.last {
            let row = address.saturating_sub(block.begin).saturating_add(1);
            self.add_instruction(text, address, y.saturating_add(row.saturating_mul(ROW)))?;
        }
        writeln!(text, "</g>")?;
        if block.goes_on {
            self.add_step(text, y.saturating_add(height))?;
        }
        Ok(())
    }

    /// Adds the instruction of an address at this height, which leads to its row in the code.
    fn add_instruction(
        &self,
        text: &mut String,
        address: usize,
        y: usize,
    ) -> Result<(), AllocError> {
        let instruction = self.robot.instruction(*text.allocator(), address)?;
        let instruction = Escaped(instruction.as_str());
        let x = self.left.saturating_add(44);
        write!(text, r##"<a href="#c{address}"><text x="{x}" y="{y}">"##)?;
        write!(text, r#"<tspan text-anchor="end">{address}</tspan>"#)?;
        let x = self.left.saturating_add(56);
        write!(text, r#"<tspan x="{x}">{instruction}</tspan>"#)?;
        if let Some(name) = self.robot.named().name_in(address) {
            let x = self.left.saturating_add(190);
            write!(text, r#"<tspan class="m" x="{x}">{name}</tspan>"#)?;
        }
        writeln!(text, "</text></a>")
    }

    /// Adds the arrow from a block, whose lower edge this is, to the one below it.
    fn add_step(&self, text: &mut String, bottom: usize) -> Result<(), AllocError> {
        let x = self.left.saturating_add(WIDTH / 2);
        let below = bottom.saturating_add(GAP);
        write!(text, r#"<path d="M{x} {bottom}V{below}"></path>"#)?;
        writeln!(text, r#"<path class="t" d="M{x} {below}l-4 -8h8z"></path>"#)
    }

    /// Adds the arrow of a jump: beside the blocks, in its lane.
    fn add_jump(&self, text: &mut String, jump: &Jump) -> Result<(), AllocError> {
        let right = self.left.saturating_add(WIDTH);
        let (x, lane, tip) = if jump.leads_back() {
            let lane = self.left.saturating_sub(jump.distance());
            (self.left, lane, "l-8 -4v8z")
        } else {
            (right, right.saturating_add(jump.distance()), "l8 -4v8z")
        };
        let y = self.bottom(jump.from).saturating_sub(PAD + ROW / 2);
        let end = self.top(jump.to).saturating_add(PAD + ROW / 2);
        write!(text, r#"<path d="M{x} {y}H{lane}V{end}H{x}"></path>"#)?;
        writeln!(text, r#"<path class="t" d="M{x} {end}{tip}"></path>"#)?;
        if jump.is_choice {
            let (x, y) = (x.saturating_add(3), y.saturating_sub(4));
            writeln!(text, r#"<text class="m" x="{x}" y="{y}">0</text>"#)?;
        }
        Ok(())
    }
}

/// Returns how much room the lanes of one side need.
fn room(jumps: &[Jump], is_back: bool) -> usize {
    let mut room = LANE;
    for jump in jumps {
        if jump.leads_back() == is_back {
            room = room.max(jump.distance());
        }
    }
    room.saturating_add(LANE)
}

/// Returns the height of a block: a row for each instruction.
fn height_of(block: &Block) -> usize {
    let rows = block.last.saturating_sub(block.begin).saturating_add(1);
    rows.saturating_mul(ROW).saturating_add(2 * PAD)
}

/// Returns the jumps between blocks, the shortest first, each in its lane.
fn jumps_of(alloc: Global, blocks: &[Block]) -> Result<Vec<Jump>, AllocError> {
    let mut jumps = Vec::new(alloc);
    for (from, block) in blocks.iter().enumerate() {
        if let Some(address) = block.jump
            && let Some(to) = blocks.iter().position(|to| to.begin == address)
        {
            jumps.push(Jump {
                from,
                to,
                is_choice: block.goes_on,
                lane: 0,
            })?;
        }
    }
    jumps.sort_by_key(|jump: &Jump| jump.from.abs_diff(jump.to))?;
    let mut placed = Vec::new(alloc);
    for jump in &jumps {
        let lane = free_lane(placed.as_slice(), jump);
        placed.push(Jump { lane, ..*jump })?;
    }
    Ok(placed)
}

/// Returns the first lane that is free for a jump: in which none of those before it goes beside it.
fn free_lane(before: &[Jump], jump: &Jump) -> usize {
    for lane in 0..before.len() {
        let mut taken = before.iter().filter(|other| other.lane == lane);
        if !taken.any(|other| other.is_beside(jump)) {
            return lane;
        }
    }
    before.len()
}
