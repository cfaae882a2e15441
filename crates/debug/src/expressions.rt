//! Expressions of the language with the variables that a robot sees: each is compiled as the result of a function that has
//! the same variables, and its instructions are worked out. It calls nothing, and sets nothing.

use crate::refusals::Refusal;
use arith::binop;
use code::{Instr, Machine};
use derivations::{Compiled, Located, compile, locate};
use grammar::{Name, ParseFault, Var};
use notes::NotedProgram;
use std::alloc::{AllocError, Global};
use tokens::{MemoryFeed, Punctuator, Token, WINDOW_BYTES};
use tools::{Draft, Text};

/// An expression in one function: its instructions, and room for words.
#[derive(Drop)]
pub struct Expression {
    instrs: Vec<Instr>,
    words: Vec<i32>,
}

impl Expression {
    /// Reads an expression with the variables of the function of this number.
    pub fn read<'a>(
        alloc: Global,
        noted: &NotedProgram<'_>,
        function: usize,
        words: &'a str,
    ) -> Result<Expression, Refusal<'a>> {
        check(alloc, noted, function, words)?;
        let source = source_of(alloc, noted, function, words)?;
        let mut feed = MemoryFeed::new(source.as_bytes(), WINDOW_BYTES);
        match compile(noted.program.profile(), &mut feed) {
            Ok(Compiled { program, .. }) if is_quiet(program.instructions()) => Ok(Expression {
                instrs: Vec::from_slice(alloc, program.instructions())?,
                words: Vec::new(alloc),
            }),
            Ok(_) => Err(Refusal::Acts(words)),
            Err(ParseFault::Source(_)) => Err(Refusal::Expression(words)),
            Err(ParseFault::Device | ParseFault::Memory) => Err(Refusal::Memory),
        }
    }

    /// Works it out with the variables of a machine, of which those of the function begin at this word.
    pub fn value(&mut self, machine: &Machine, home: usize) -> Result<i32, AllocError> {
        self.words.clear();
        let mut at: usize = 0;
        for _ in 0..self.instrs.len() {
            let Some(instr) = self.instrs.get(at).copied() else {
                break;
            };
            at = at.saturating_add(1);
            match instr {
                Instr::Const(value) => self.words.push(value)?,
                Instr::Fetch(variable) => self.words.push(variable_of(machine, home, variable))?,
                Instr::Binop(op) => {
                    let right = self.word();
                    let left = self.word();
                    self.words.push(binop(op, left, right))?;
                }
                Instr::Truth => {
                    let word = self.word();
                    self.words.push(i32::from(word != 0))?;
                }
                Instr::Branch(to) => {
                    if self.word() == 0 {
                        at = usize::from(to);
                    }
                }
                // the result is on top
                _ => break,
            }
        }
        Ok(self.word())
    }

    /// Takes the word on top.
    fn word(&mut self) -> i32 {
        self.words.pop().unwrap_or(0)
    }
}

/// Returns the value of a variable of a machine, where those of the function begin at this word.
fn variable_of(machine: &Machine, home: usize, variable: Var) -> i32 {
    let word = match variable {
        Var::External(number) => machine.externals().get(usize::from(number)),
        Var::Local(number) => machine
            .words()
            .get(home.saturating_add(usize::from(number))),
    };
    word.copied().unwrap_or(0)
}

/// Reports whether instructions ask nothing, call nothing and set nothing.
fn is_quiet(instrs: &[Instr]) -> bool {
    for instr in instrs {
        match instr {
            Instr::Store(_, _) | Instr::Fcall(_) | Instr::Frame | Instr::Chop => return false,
            _ => {}
        }
    }
    true
}

/// Stops at a token that no expression has, and at a name that is none of a variable which the function sees.
fn check<'a>(
    alloc: Global,
    noted: &NotedProgram<'_>,
    function: usize,
    words: &'a str,
) -> Result<(), Refusal<'a>> {
    let tokens = locate(alloc, words.as_bytes())?;
    let mut depth: usize = 0;
    for (index, located) in tokens.iter().enumerate() {
        match located.token {
            Token::Punctuator(Punctuator::OpenRound) => depth = depth.saturating_add(1),
            // no bracket closes what the expression hasn't opened
            Token::Punctuator(Punctuator::CloseRound) => match depth.checked_sub(1) {
                Some(less) => depth = less,
                None => return Err(Refusal::Expression(words)),
            },
            Token::Keyword(_)
            | Token::Fault(_)
            | Token::Punctuator(
                Punctuator::Semicolon | Punctuator::OpenCurly | Punctuator::CloseCurly,
            ) => return Err(Refusal::Expression(words)),
            Token::Name(_) if is_called(tokens.as_slice(), index) => {
                return Err(Refusal::Acts(words));
            }
            Token::Name(name) if !is_seen(noted, function, &name) => {
                let word = words.get(located.start()..located.end());
                return Err(Refusal::Name(word.unwrap_or(words)));
            }
            _ => {}
        }
    }
    Ok(())
}

/// Reports whether a `(` is right behind the token of an index.
fn is_called(tokens: &[Located], index: usize) -> bool {
    match tokens.get(index.saturating_add(1)) {
        Some(next) => next.token == Token::Punctuator(Punctuator::OpenRound),
        None => false,
    }
}

/// Reports whether a name is that of an external, or of a variable of the function of this number.
fn is_seen(noted: &NotedProgram<'_>, function: usize, name: &Name) -> bool {
    let variables = noted.named().variables(function);
    is_among(noted.note.names.externals(), name) || is_among(variables, name)
}

/// Reports whether a name is one of some.
fn is_among(names: &[Name], name: &Name) -> bool {
    for other in names {
        if other.is_same(name) {
            return true;
        }
    }
    false
}

/// Returns a source whose `main` has the variables of a function in the same order, and an expression as its result.
fn source_of(
    alloc: Global,
    noted: &NotedProgram<'_>,
    function: usize,
    words: &str,
) -> Result<String, AllocError> {
    let mut text = Draft::new(alloc);
    add_declarations(&mut text, noted.note.names.externals());
    text.add("main(){");
    add_declarations(&mut text, noted.named().variables(function));
    text.add("return(");
    text.add(words);
    text.add("\n);}");
    text.finish()
}

/// Adds a declaration of each name.
fn add_declarations(text: &mut Draft, names: &[Name]) {
    for name in names {
        text.add("int ");
        text.add(name.as_str());
        text.add(";");
    }
}

/// An expression in each function of a robot in which it has a value.
#[derive(Drop)]
pub struct Expressions {
    list: Vec<Option<Expression>>,
}

impl Expressions {
    /// Reads an expression. It has to have a value in a function with an instruction that is marked, or in any one if
    /// there are no marks.
    pub fn read<'a>(
        alloc: Global,
        noted: &NotedProgram<'_>,
        words: &'a str,
        marks: Option<&[bool]>,
    ) -> Result<Expressions, Refusal<'a>> {
        let mut list = Vec::new(alloc);
        let mut refusal = Some(Refusal::Expression(words));
        let mut is_first = true;
        for function in 0..noted.note.names.functions().len() {
            let is_meant = is_marked(noted, function, marks);
            match Expression::read(alloc, noted, function, words) {
                Ok(expression) => {
                    list.push(Some(expression)).map_err(AllocError::from)?;
                    if is_meant {
                        refusal = None;
                    }
                }
                Err(Refusal::Memory) => return Err(Refusal::Memory),
                Err(why) => {
                    list.push(None).map_err(AllocError::from)?;
                    if is_meant && is_first && refusal.is_some() {
                        is_first = false;
                        refusal = Some(why);
                    }
                }
            }
        }
        match refusal {
            Some(why) => Err(why),
            None => Ok(Expressions { list }),
        }
    }

    /// Works it out in the function in which a machine is: there is no value if it has none there.
    pub fn value(
        &mut self,
        noted: &NotedProgram<'_>,
        machine: &Machine,
    ) -> Result<Option<i32>, AllocError> {
        let function = noted.named().function(machine.address());
        match self.list.get_mut(function) {
            Some(Some(expression)) => {
                Ok(Some(expression.value(machine, usize::from(machine.home()))?))
            }
            _ => Ok(None),
        }
    }
}

/// Reports whether a function has an instruction that is marked, or there are no marks.
fn is_marked(noted: &NotedProgram<'_>, function: usize, marks: Option<&[bool]>) -> bool {
    let Some(marks) = marks else {
        return true;
    };
    let named = noted.named();
    for (address, is_marked) in marks.iter().enumerate() {
        if *is_marked && named.function(address) == function {
            return true;
        }
    }
    false
}
