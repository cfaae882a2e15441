//! The robot of a source that compiles: its trees, its names, where its functions and loops begin, and the room that it needs.

use crate::rows::Subject;
use derivations::Located;
use facts::{Chain, Facts, Link};
use grammar::{Name, ParseFault, Pools};
use parser::parse;
use room::{Bound, bounds, chain};
use std::alloc::{AllocError, Global};
use tokens::{Keyword, MemoryFeed, Punctuator, Token, WINDOW_BYTES};
use trees::TreeMaker;

/// A robot.
#[derive(Drop)]
pub struct Robot {
    maker: TreeMaker,
    names: Pools,
    places: Places,
    facts: Facts,
}

impl Robot {
    /// Finds out what is known of the robot of a source that compiles. The only fault is that memory is refused.
    pub fn of(subject: &Subject<'_>) -> Result<Robot, ParseFault> {
        let (alloc, source, profile) = (subject.alloc, subject.source, subject.profile);
        let mut maker = TreeMaker::new(alloc, profile);
        let names = parse(&mut MemoryFeed::new(source, WINDOW_BYTES), &mut maker)?;
        let bound = bounds(alloc, &mut MemoryFeed::new(source, WINDOW_BYTES), profile)?;
        let Ok(places) = Places::of(alloc, subject.tokens) else {
            return Err(ParseFault::Memory);
        };
        let chain = chain_of(subject, &bound, &maker, &names, &places)?;
        let facts = Facts {
            profile,
            bound,
            chain,
            functions: Vec::new(alloc),
            loops: Vec::new(alloc),
        };
        Ok(Robot {
            maker,
            names,
            places,
            facts,
        })
    }

    /// Returns its trees.
    pub fn maker(&self) -> &TreeMaker {
        &self.maker
    }

    /// Returns where its functions and loops begin.
    pub fn places(&self) -> &Places {
        &self.places
    }

    /// Returns the room that it needs, and of which functions that is said.
    pub fn facts(&self) -> &Facts {
        &self.facts
    }

    /// Returns the name of the function of a number.
    pub fn name(&self, number: u8) -> Name {
        name_of(&self.names, number)
    }
}

/// Returns the name of the function of a number.
fn name_of(names: &Pools, number: u8) -> Name {
    match names.functions().get(usize::from(number)) {
        Some(function) => *function.name(),
        None => Name::new(),
    }
}

/// Returns the functions that call one another where a robot needs most, if its profile doesn't give so much: else nothing
/// is said of them.
fn chain_of(
    subject: &Subject<'_>,
    bound: &Bound,
    maker: &TreeMaker,
    names: &Pools,
    places: &Places,
) -> Result<Chain, ParseFault> {
    let (alloc, source, profile) = (subject.alloc, subject.source, subject.profile);
    if bound.has_room {
        return Ok(Chain::new(Vec::new(alloc), None));
    }
    let numbers = chain(alloc, &mut MemoryFeed::new(source, WINDOW_BYTES), profile)?;
    match linked(alloc, numbers.as_slice(), maker, names, places) {
        Ok(chain) => Ok(chain),
        Err(AllocError) => Err(ParseFault::Memory),
    }
}

/// Lists the functions of these numbers, of which the last may stand there twice.
fn linked(
    alloc: Global,
    numbers: &[u8],
    maker: &TreeMaker,
    names: &Pools,
    places: &Places,
) -> Result<Chain, AllocError> {
    let mut links = Vec::new(alloc);
    for (index, number) in numbers.iter().enumerate() {
        for (before, other) in numbers.iter().enumerate() {
            if before < index && other == number {
                return Ok(Chain::new(links, Some(before)));
            }
        }
        links.push(link(*number, maker, names, places))?;
    }
    Ok(Chain::new(links, None))
}

/// Makes a link of the function of a number.
fn link(number: u8, maker: &TreeMaker, names: &Pools, places: &Places) -> Link {
    let mut link = Link {
        name: name_of(names, number),
        line: 0,
        variables: 0,
    };
    for (index, function) in maker.functions().iter().enumerate() {
        if function.number == number {
            link.line = places.function(index).0;
            link.variables = function.variables;
        }
    }
    link
}

/// Where the functions and the loops of a source that compiles begin, each in its order: the line and the column.
#[derive(Drop)]
pub struct Places {
    functions: Vec<(u32, u32)>,
    loops: Vec<(u32, u32)>,
}

impl Places {
    /// Finds them. A name before a bracket that stands in no braces is a function's, and each `while` begins a loop.
    fn of(alloc: Global, tokens: &[Located]) -> Result<Places, AllocError> {
        let mut places = Places {
            functions: Vec::new(alloc),
            loops: Vec::new(alloc),
        };
        let mut depth: usize = 0;
        let mut before = Located::default();
        for located in tokens {
            match located.token {
                Token::Punctuator(Punctuator::OpenCurly) => depth = depth.saturating_add(1),
                Token::Punctuator(Punctuator::CloseCurly) => depth = depth.saturating_sub(1),
                Token::Punctuator(Punctuator::OpenRound) if depth == 0 => {
                    places.functions.push((before.line, before.column))?;
                }
                Token::Keyword(Keyword::While) => {
                    places.loops.push((located.line, located.column))?;
                }
                _ => {}
            }
            before = *located;
        }
        Ok(places)
    }

    /// Returns the line and the column of the name of a function, by how many begin before it; 0 if there is none.
    pub fn function(&self, index: usize) -> (u32, u32) {
        self.functions.get(index).copied().unwrap_or((0, 0))
    }

    /// Returns the line and the column of a loop, by how many begin before it; 0 if there is none.
    pub fn turn(&self, index: usize) -> (u32, u32) {
        self.loops.get(index).copied().unwrap_or((0, 0))
    }
}
