//! A tree that is shown: indented, or as a graph in the language of Graphviz. Pictures of it are in `pictures`.

use std::alloc::{AllocError, Global};
use std::fmt;

/// What a node stands for.
#[derive(Clone, Copy, PartialEq, Eq)]
pub enum Standing {
    /// A part of a source, with what is below it.
    Part,
    /// A token of the source.
    Word,
    /// Nothing: a symbol that derives no token.
    Nothing,
}

/// A node.
#[derive(Drop)]
pub struct OutlineNode {
    /// What is written on it.
    pub label: String,
    /// What it stands for.
    pub standing: Standing,
    /// The number of the node above it. That of the root is its own.
    pub above: usize,
    /// How many nodes there are above it.
    pub depth: usize,
}

/// A tree: its nodes, by their numbers, each after the one above it and after all that is below its elder siblings.
#[derive(Drop)]
pub struct Outline {
    alloc: Global,
    nodes: Vec<OutlineNode>,
}

impl Outline {
    /// Makes a tree of no nodes.
    pub fn new(alloc: Global) -> Outline {
        Outline {
            alloc,
            nodes: Vec::new(alloc),
        }
    }

    /// Returns the allocator of its labels.
    pub fn alloc(&self) -> Global {
        self.alloc
    }

    /// Returns its nodes.
    pub fn nodes(&self) -> &[OutlineNode] {
        self.nodes.as_slice()
    }

    /// Adds a node below the one of a number, or the root, and returns its number.
    pub fn add(
        &mut self,
        above: Option<usize>,
        standing: Standing,
        label: impl fmt::Display + Drop,
    ) -> Result<usize, AllocError> {
        let number = self.nodes.len();
        let mut written = String::new(self.alloc);
        write!(written, "{label}")?;
        let depth = match above {
            Some(above) => self.depth(above).saturating_add(1),
            None => 0,
        };
        self.nodes.push(OutlineNode {
            label: written,
            standing,
            above: above.unwrap_or(number),
            depth,
        })?;
        Ok(number)
    }

    /// Returns how many nodes there are above the one of a number.
    fn depth(&self, number: usize) -> usize {
        match self.nodes.get(number) {
            Some(node) => node.depth,
            None => 0,
        }
    }

    /// Adds a line for each node, indented by two blanks for each node above it.
    pub fn add_indented(&self, text: &mut String) -> Result<(), AllocError> {
        for node in &self.nodes {
            let indent = node.depth.saturating_mul(2);
            writeln!(text, "{:indent$}{}", "", node.label)?;
        }
        Ok(())
    }

    /// Adds a graph of the nodes, in the language of Graphviz. No label has a quote or a backslash.
    pub fn add_graph(&self, text: &mut String) -> Result<(), AllocError> {
        writeln!(text, "digraph tree {{")?;
        writeln!(text, r#"  node [shape=box, fontname="monospace"];"#)?;
        for (number, node) in self.nodes.iter().enumerate() {
            writeln!(text, r#"  n{number} [label="{}"];"#, node.label)?;
            if number != node.above {
                writeln!(text, "  n{} -> n{number};", node.above)?;
            }
        }
        text.push_str("}\n")
    }
}
