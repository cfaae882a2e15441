//! The walk along the derivation of a source: what each step comes upon, with what each name means at its token.

use crate::choices::operator_at;
use crate::locations::Located;
use crate::steps::{Derivation, StepEnd};
use crate::symbols::{Item, Role, SemanticAction, Symbol};
use grammar::{Callee, Code, MOST_NESTED, Profile, Scope, Var, lexical_error_code};
use tokens::{Keyword, Name, Token};

/// What a name means at its token.
#[derive(Clone, Copy)]
pub enum Meaning {
    /// A variable is mentioned.
    Mentions(Var),
    /// This is called.
    Calls(Callee),
    /// The function of this number begins.
    Begins(u8),
    /// The next parameter of a list.
    Parameter,
    /// A variable of a function is declared.
    Declares,
    /// A variable of the file is declared.
    External,
}

/// What a step of a walk came upon.
#[derive(Clone, Copy)]
pub enum Event {
    /// Nothing of its own.
    Passed,
    /// A name, with what it means.
    Named {
        /// The index of the name's token.
        token: usize,
        /// What it means.
        meaning: Meaning,
    },
    /// A constant.
    Number {
        /// The index of its token.
        token: usize,
        /// Its value.
        value: u32,
    },
    /// A tree is made.
    Made {
        /// What is made of what was derived.
        action: SemanticAction,
        /// The index of the token at which its production was chosen.
        chosen_at: usize,
        /// The index of the next token.
        token: usize,
    },
    /// A fault.
    Refused {
        /// The index of its token.
        token: usize,
        /// What it is.
        code: Code,
    },
    /// The end of the source, which was derived.
    Done,
}

/// A walk: how far the derivation has come, and what is known of the names there.
#[derive(Drop)]
pub struct Walk<'a> {
    tokens: &'a [Located],
    derivation: Derivation<'a>,
    scope: Scope,
    profile: Profile,
    instructions: usize,
    is_over: bool,
}

impl<'a> Walk<'a> {
    /// Begins before the first of a source's tokens.
    pub fn start(tokens: &'a [Located], profile: Profile) -> Walk<'a> {
        Walk {
            tokens,
            derivation: Derivation::start(tokens),
            scope: Scope::new(),
            profile,
            instructions: 1,
            is_over: false,
        }
    }

    /// Returns the derivation as far as it has come.
    pub fn derivation(&self) -> &Derivation<'a> {
        &self.derivation
    }

    /// Returns the index of the source's last token.
    pub fn last(&self) -> usize {
        self.tokens.len().saturating_sub(1)
    }

    /// Returns how many instructions it has come upon, with the NOP that ends the code.
    pub fn instructions(&self) -> usize {
        self.instructions
    }

    /// Reports whether it goes no further: it is at the end, or at a token that doesn't fit.
    pub fn is_over(&self) -> bool {
        self.is_over
    }

    /// Does a step, and those behind it that only pass levels of operators, and returns what it came upon: these come upon
    /// nothing. At a token that doesn't fit, and at the end, it stays.
    pub fn step(&mut self) -> Event {
        let event = self.coming();
        self.count();
        let were_too_many = self.has_too_many_levels();
        let outcome = match self.derivation.step() {
            StepEnd::Stepped => self.pass_levels(),
            end => end,
        };
        self.is_over = outcome != StepEnd::Stepped;
        let token = self.derivation.place();
        match outcome {
            StepEnd::Full => Event::Refused {
                token,
                code: Code::NestedTooDeeply,
            },
            StepEnd::Misfit => Event::Refused {
                token,
                code: misfit(&self.derivation.next()),
            },
            StepEnd::Done => Event::Done,
            StepEnd::Stepped if !were_too_many && self.has_too_many_levels() => {
                Event::Refused {
                    token,
                    code: Code::NestedTooDeeply,
                }
            }
            StepEnd::Stepped => event,
        }
    }

    /// Does the steps that only pass levels of operators, which are most of a source, and returns how the last one ended.
    fn pass_levels(&mut self) -> StepEnd {
        for _ in 0..u64::MAX {
            if !self.is_at_level() {
                break;
            }
            let outcome = self.derivation.step();
            if outcome != StepEnd::Stepped {
                return outcome;
            }
        }
        StepEnd::Stepped
    }

    /// Reports whether the next step only passes a level of operators. A lexical error is no such step.
    fn is_at_level(&self) -> bool {
        let Some(pending) = self.derivation.front_pending() else {
            return false;
        };
        match (pending.item, self.derivation.next_located()) {
            (Item::Part(symbol), Some(located)) => passes_level(symbol, &located.token),
            _ => false,
        }
    }

    /// Reports whether more levels are open than may be.
    fn has_too_many_levels(&self) -> bool {
        self.derivation.levels() > usize::from(MOST_NESTED)
    }

    /// Returns what the next step comes upon, if it fits.
    fn coming(&mut self) -> Event {
        let Some(pending) = self.derivation.front_pending() else {
            return Event::Done;
        };
        let (item, chosen_at) = (pending.item, pending.chosen_at);
        let token = self.derivation.place();
        match item {
            Item::Naming(role) => self.named(role, token),
            Item::Number => self.number(token),
            Item::Make(SemanticAction::Define) => self.define(chosen_at, token),
            Item::Make(action) => Event::Made {
                action,
                chosen_at,
                token,
            },
            _ => Event::Passed,
        }
    }

    /// Returns what the next step comes upon where it takes a name in this role.
    fn named(&mut self, role: Role, token: usize) -> Event {
        let Some(
            Located {
                token: Token::Name(name),
                ..
            },
        ) = self.derivation.next_located()
        else {
            return Event::Passed;
        };
        match self.meaning(role, name) {
            Ok(meaning) => Event::Named { token, meaning },
            Err(code) => Event::Refused { token, code },
        }
    }

    /// Returns what the next step comes upon where it takes a constant.
    fn number(&self, token: usize) -> Event {
        match self.derivation.next_located() {
            Some(
                Located {
                    token: Token::Constant(value),
                    ..
                },
            ) => Event::Number {
                token,
                value: *value,
            },
            _ => Event::Passed,
        }
    }

    /// Resolves a name in its role.
    fn meaning(&mut self, role: Role, name: &Name) -> Result<Meaning, Code> {
        let line = self.line();
        Ok(match role {
            Role::Defined => Meaning::Begins(self.scope.begin_definition(name, line)?),
            Role::Called => Meaning::Calls(self.scope.resolve_call(name, line)?),
            Role::Mentioned => Meaning::Mentions(self.scope.resolve_variable(name)?),
            Role::Parameter => {
                self.scope.declare_parameter(name)?;
                Meaning::Parameter
            }
            Role::Typed => {
                self.scope.declare_parameter_type(name)?;
                Meaning::Declares
            }
            Role::Local => {
                self.scope.declare_local(name)?;
                Meaning::Declares
            }
            Role::External => {
                self.scope.declare_external(name)?;
                Meaning::External
            }
        })
    }

    /// Returns the line of the next token.
    fn line(&self) -> u32 {
        match self.tokens.get(self.derivation.place()) {
            Some(located) => located.line,
            None => 1,
        }
    }

    /// Ends a function. Its code may be what passes the profile's limit, which is a fault at this token.
    fn define(&mut self, chosen_at: usize, token: usize) -> Event {
        self.scope.end_definition();
        if self.instructions.saturating_add(2) > usize::from(self.profile.instructions()) {
            return Event::Refused {
                token,
                code: Code::TooMuchCode,
            };
        }
        Event::Made {
            action: SemanticAction::Define,
            chosen_at,
            token,
        }
    }

    /// Counts the instructions that the next step makes.
    fn count(&mut self) {
        let made = self.derivation.emission().instructions(self.profile);
        self.instructions = self.instructions.saturating_add(made);
    }
}

/// Reports whether the production of a symbol goes into a level of operators, or past one of which no operator follows.
fn passes_level(symbol: Symbol, next: &Token) -> bool {
    match (symbol, next) {
        (_, Token::Fault(_)) => false,
        (Symbol::Level(_), _) => true,
        (Symbol::Tail(level), next) => operator_at(level, next).is_none(),
        _ => false,
    }
}

/// Returns the code of the fault of a token that doesn't fit.
fn misfit(token: &Token) -> Code {
    match token {
        Token::Fault(fault) => lexical_error_code(*fault),
        Token::Keyword(Keyword::Refused) => Code::ReservedWord,
        _ => Code::SyntaxError,
    }
}
