//! Blocks by the indentation: where a brace is missing, or one is too many, if the braces don't agree with it.

use crate::indices::token_at;
use arrayvec::ArrayVec;
use derivations::Located;
use grammar::MOST_NESTED;
use tokens::{Keyword, Punctuator, Token};

/// The most blocks that are open at once.
const MOST_BLOCKS: usize = MOST_NESTED as usize;

/// Where braces and indentation disagree first.
#[derive(Clone, Copy)]
pub enum Disagreement {
    /// The block that begins on a line isn't closed before another line.
    Unclosed(u32, u32),
    /// A `}` of a line closes a block too early.
    Early(u32),
    /// So it does, and an `if`, `else` or `while` on a line has no `{`.
    Unopened(u32, u32),
}

/// An open block: the line of its `{`, the column at which that line begins, and the column of its first line, 0 before
/// there is one.
#[derive(Clone, Copy, Default)]
struct Block {
    line: u32,
    indent: u32,
    inner: u32,
}

impl Block {
    /// Reports whether its lines begin further to the right than its head.
    fn is_indented(&self) -> bool {
        self.inner > self.indent
    }
}

/// What is open at a token.
#[derive(Drop)]
struct Layout {
    blocks: ArrayVec<Block, MOST_BLOCKS>,
    /// How many brackets are open.
    depth: usize,
    /// The column at which the line begins.
    indent: u32,
    /// The line and the column of the last head of a branch or a loop without a `{`.
    head: (u32, u32),
    /// The line of the `}` right before, and the column of the first line of its block.
    closed: (u32, u32),
}

impl Layout {
    /// Returns where the token that begins a line disagrees with the open blocks.
    fn clash(&self, located: &Located) -> Option<Disagreement> {
        let top = self.blocks.as_slice().last()?;
        let (line, column) = (located.line, located.column);
        let is_closing = located.token == Token::Punctuator(Punctuator::CloseCurly);
        let is_level = column == top.indent && top.is_indented() && !is_closing;
        let is_opening = located.token == Token::Punctuator(Punctuator::OpenCurly);
        if (column < top.indent || is_level) && !is_opening {
            return Some(Disagreement::Unclosed(top.line, line));
        }
        if is_closing && top.is_indented() && column == top.inner {
            let (head, at) = self.head;
            return Some(if at == column && head > top.line {
                Disagreement::Unopened(head, line)
            } else {
                Disagreement::Early(line)
            });
        }
        let (end, inner) = self.closed;
        (end > 0 && column == inner && column > top.inner).then_some(Disagreement::Early(end))
    }

    /// Takes the column of what follows the `{` of the last block first, in its line or in another one.
    fn begin_block(&mut self, column: u32) {
        if let Some(top) = self.blocks.as_mut_slice().last_mut()
            && top.inner == 0
        {
            top.inner = column;
        }
    }

    /// Takes a token.
    fn take(&mut self, located: &Located) {
        if !is_brace(&located.token) {
            self.begin_block(located.column);
        }
        self.closed = (0, 0);
        match located.token {
            Token::Punctuator(Punctuator::OpenRound) => self.depth = self.depth.saturating_add(1),
            Token::Punctuator(Punctuator::CloseRound) => self.depth = self.depth.saturating_sub(1),
            Token::Punctuator(Punctuator::OpenCurly) => {
                self.head = (0, 0);
                let _ = self.blocks.try_push(Block {
                    line: located.line,
                    indent: self.indent,
                    inner: 0,
                });
            }
            Token::Punctuator(Punctuator::CloseCurly) => {
                if let Some(block) = self.blocks.pop() {
                    self.closed = (located.line, block.inner);
                }
            }
            Token::Punctuator(Punctuator::Semicolon) if located.line == self.head.0 => {
                self.head = (0, 0);
            }
            Token::Keyword(Keyword::If | Keyword::Else | Keyword::While) => {
                self.head = (located.line, self.indent);
            }
            _ => {}
        }
    }
}

/// Reports whether a token is a brace.
fn is_brace(token: &Token) -> bool {
    matches!(
        token,
        Token::Punctuator(Punctuator::OpenCurly | Punctuator::CloseCurly)
    )
}

/// Returns where the braces of a source and its indentation disagree first: at a block that isn't closed, or else at a `}`
/// that is too early.
pub fn first_disagreement(tokens: &[Located], is_unclosed: bool) -> Option<Disagreement> {
    let mut layout = Layout {
        blocks: ArrayVec::new(),
        depth: 0,
        indent: 1,
        head: (0, 0),
        closed: (0, 0),
    };
    let mut line = 0;
    for (index, located) in tokens.iter().enumerate() {
        if located.line != line && layout.depth == 0 && token_at(tokens, index) != Token::End {
            let found = layout.clash(located);
            let is_wanted = match found {
                Some(Disagreement::Unclosed(..)) => is_unclosed,
                Some(_) => !is_unclosed,
                None => false,
            };
            if is_wanted {
                return found;
            }
            layout.indent = located.column;
        }
        line = located.line;
        layout.take(located);
    }
    None
}
