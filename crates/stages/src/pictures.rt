//! Pictures of trees, as SVG: a node above those below it, in the middle of their width.

use crate::markup::Escaped;
use crate::outlines::{Outline, OutlineNode, Standing};
use std::alloc::{AllocError, Global};

/// The width of a character of a label.
const LETTER: usize = 7;

/// What is free beside a label.
const PAD: usize = 10;

/// The height of a node.
const HEIGHT: usize = 22;

/// From one node to the one below it.
const ROW: usize = 46;

/// What is free between two nodes that are side by side.
const GAP: usize = 8;

/// The height of the words above a tree.
const HEAD: usize = 24;

/// What is free between two trees.
const BETWEEN: usize = 40;

/// The greatest width of both trees on paper: its letters are five points high there.
pub const MOST_ON_PAPER: usize = 1700;

/// The look of both trees where no page has one.
const LOOK: &str = "<style>
.trees { background: #ffffff; color: #1b1f24; --edge: #59636e; --light: #e8eef5; }
.trees { font: 11.5px ui-monospace, monospace; }
.trees text { fill: currentcolor; text-anchor: middle; }
.trees .head { font-weight: bold; text-anchor: start; }
.trees rect { fill: none; stroke: var(--edge); }
.trees .w rect { fill: var(--light); stroke-width: 2; }
.trees .m rect { stroke: none; }
.trees .m text { font-style: italic; }
.trees path { fill: none; stroke: var(--edge); }
</style>
";

/// A tree with the place of each node.
#[derive(Drop)]
struct Placed<'a> {
    nodes: &'a [OutlineNode],
    // by node, the middle of its width
    middles: Vec<usize>,
    width: usize,
    height: usize,
}

/// Adds a picture of a source's derivation tree and of its tree, as a file of its own.
pub fn add_picture_file(
    text: &mut String,
    derivation: &Outline,
    tree: &Outline,
) -> Result<(), AllocError> {
    add_pictures(text, derivation, tree, LOOK)?;
    Ok(())
}

/// Adds a picture of a source's derivation tree, and of its tree beside it, with this look. Returns its width.
pub fn add_pictures(
    text: &mut String,
    derivation: &Outline,
    tree: &Outline,
    look: &str,
) -> Result<usize, AllocError> {
    let alloc = *text.allocator();
    let left = Placed::of(alloc, derivation.nodes())?;
    let right = Placed::of(alloc, tree.nodes())?;
    let begin = left.width.saturating_add(BETWEEN);
    let width = begin.saturating_add(right.width).saturating_add(2);
    let height = left.height.max(right.height).saturating_add(2);
    write!(
        text,
        r#"<svg xmlns="http://www.w3.org/2000/svg" class="trees""#
    )?;
    write!(text, r#" width="{width}" height="{height}""#)?;
    write!(text, r#" viewBox="-1 -1 {width} {height}" role="img""#)?;
    writeln!(text, r#" aria-label="Derivation tree and tree">"#)?;
    text.push_str(look)?;
    left.add(text, "Derivation tree", 0)?;
    right.add(text, "Tree", begin)?;
    writeln!(text, "</svg>")?;
    Ok(width)
}

impl<'a> Placed<'a> {
    /// Places the nodes of a tree.
    fn of(alloc: Global, nodes: &'a [OutlineNode]) -> Result<Placed<'a>, AllocError> {
        let inner = inner_widths(alloc, nodes)?;
        let inner = inner.as_slice();
        let mut middles = Vec::new(alloc);
        // by node, where the next one below it begins
        let mut begins = Vec::new(alloc);
        let (mut right, mut lowest) = (0usize, 0usize);
        for (number, node) in nodes.iter().enumerate() {
            let within = at(inner, number);
            let width = within.max(width_of(node));
            let begin = at(begins.as_slice(), node.above);
            let end = begin.saturating_add(width);
            middles.push(begin.saturating_add(width / 2))?;
            begins.push(begin.saturating_add(width.saturating_sub(within) / 2))?;
            if number != node.above {
                set(begins.as_mut_slice(), node.above, end.saturating_add(GAP));
            }
            right = right.max(end);
            lowest = lowest.max(node.depth);
        }
        Ok(Placed {
            nodes,
            middles,
            width: right,
            height: lowest.saturating_mul(ROW).saturating_add(HEIGHT + HEAD),
        })
    }

    /// Adds the tree with its name, from this column on.
    fn add(&self, text: &mut String, name: &str, left: usize) -> Result<(), AllocError> {
        writeln!(text, r#"<g transform="translate({left} {HEAD})">"#)?;
        writeln!(text, r#"<text class="head" x="0" y="-9">{name}</text>"#)?;
        for (number, node) in self.nodes.iter().enumerate() {
            self.add_node(text, number, node)?;
        }
        writeln!(text, "</g>")
    }

    /// Adds a node, and the line to the one above it.
    fn add_node(
        &self,
        text: &mut String,
        number: usize,
        node: &OutlineNode,
    ) -> Result<(), AllocError> {
        let middle = at(self.middles.as_slice(), number);
        let top = node.depth.saturating_mul(ROW);
        if number != node.above {
            let above = at(self.middles.as_slice(), node.above);
            let bottom = top.saturating_sub(ROW).saturating_add(HEIGHT);
            writeln!(
                text,
                r#"<path d="M{above} {bottom}L{middle} {top}"></path>"#
            )?;
        }
        let class = class_of(node.standing);
        let (width, label) = (width_of(node), Escaped(node.label.as_str()));
        let left = middle.saturating_sub(width / 2);
        write!(
            text,
            r#"<g class="{class}"><rect x="{left}" y="{top}" width="{width}""#
        )?;
        let line = top.saturating_add(15);
        write!(
            text,
            r#" height="{HEIGHT}" rx="4"></rect><text x="{middle}""#
        )?;
        writeln!(text, r#" y="{line}">{label}</text></g>"#)
    }
}

/// Returns the class of a node of a picture.
fn class_of(standing: Standing) -> &'static str {
    match standing {
        Standing::Part => "p",
        Standing::Word => "w",
        Standing::Nothing => "m",
    }
}

/// Returns the width of a node itself.
fn width_of(node: &OutlineNode) -> usize {
    let letters = node.label.chars().count();
    letters.saturating_mul(LETTER).saturating_add(PAD)
}

/// Returns by node the width of all that is below it.
fn inner_widths(alloc: Global, nodes: &[OutlineNode]) -> Result<Vec<usize>, AllocError> {
    let mut widths = vec![in alloc; 0; nodes.len()]?;
    for (number, node) in nodes.iter().enumerate().rev() {
        let width = at(widths.as_slice(), number).max(width_of(node));
        if number != node.above {
            let before = at(widths.as_slice(), node.above);
            let gap = if before == 0 { 0 } else { GAP };
            let sum = before.saturating_add(gap).saturating_add(width);
            set(widths.as_mut_slice(), node.above, sum);
        }
    }
    Ok(widths)
}

/// Returns the number at a place.
fn at(numbers: &[usize], place: usize) -> usize {
    numbers.get(place).copied().unwrap_or(0)
}

/// Sets the number at a place.
fn set(numbers: &mut [usize], place: usize, number: usize) {
    if let Some(there) = numbers.get_mut(place) {
        *there = number;
    }
}
