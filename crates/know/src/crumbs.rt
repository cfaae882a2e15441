//! Tokens that stay, and crumbs of those that don't: a statement or a declaration for each name.

ghost use Rattle.std.specs.Prelude.{◌≡◌, ◌++◌, ◌∷◌, [], None, OnOk};
ghost use Rattle.know.specs.Names.{name_of, names_of};

use crate::parts_left_out::Fate;
use derivations::Located;
use recovery::is_head_at;
use std::alloc::{AllocError, Global};
use tokens::{Keyword, Name, Punctuator, Token};

/// The tokens so far, and what is open behind them.
#[derive(Drop)]
pub struct Crumbs {
    list: Vec<Located>,
    /// Whether a function is open.
    is_inside: bool,
    /// How many braces are open in it, its own among them.
    depth: usize,
    /// Whether its brace is a crumb.
    is_opened: bool,
    /// How many more braces are open in what is left out.
    inner: usize,
    head: Head,
    /// How many brackets are open in what is left out.
    brackets: usize,
    /// Whether a declaration has begun.
    declares: bool,
    /// Whether a name that comes next is declared.
    wants_name: bool,
}

/// How far the head of a function has come.
#[derive(Clone, Copy, PartialEq, Eq)]
enum Head {
    /// There is none.
    Nothing,
    /// To its parameters, of which this many stand there.
    Parameters(usize),
    /// Behind them.
    Types,
}

#[tactic(auto, using(crate::proofs::NameLaws::names_joined, crate::proofs::NameLaws::names_kept))]
impl Crumbs {
    /// Begins without a token.
    pub fn new(alloc: Global) -> Crumbs
        ensures { result.list.items ≡ [] }
    {
        Crumbs {
            list: Vec::new(alloc),
            is_inside: false,
            depth: 0,
            is_opened: false,
            inner: 0,
            head: Head::Nothing,
            brackets: 0,
            declares: false,
            wants_name: false,
        }
    }

    /// Returns the tokens.
    pub fn finish(self) -> Vec<Located>
        ensures { result ≡ self.list }
    {
        self.list
    }

    /// Takes the token of an index, as its fate is.
    pub fn take(
        &mut self,
        tokens: &[Located],
        index: usize,
        located: &Located,
        fate: Fate,
    ) -> Result<(), AllocError>
        ensures { OnOk result (names_of self.new.list.items ≡ names_of self.old.list.items ++ names_of (located.now ∷ [])) }
    {
        match fate {
            Fate::Stays => self.keep(located),
            Fate::Goes => self.crumble(tokens, index, located),
            Fate::GoesBeforeBrace => {
                self.crumble(tokens, index, located)?;
                self.close(located)
            }
        }
    }

    /// Takes a token as it is.
    fn keep(&mut self, located: &Located) -> Result<(), AllocError>
        ensures { OnOk result (names_of self.new.list.items ≡ names_of self.old.list.items ++ names_of (located.now ∷ [])) }
    {
        self.settle(located)?;
        if located.token == Token::End {
            self.close(located)?;
        }
        self.note_brace(&located.token);
        self.own(located)
    }

    /// Takes a crumb of the token of an index, which is left out.
    fn crumble(
        &mut self,
        tokens: &[Located],
        index: usize,
        located: &Located,
    ) -> Result<(), AllocError>
        ensures { OnOk result (names_of self.new.list.items ≡ names_of self.old.list.items ++ names_of (located.now ∷ [])) }
    {
        match located.token {
            Token::Name(_) => self.crumble_name(tokens, index, located),
            Token::Punctuator(mark) => self.crumble_mark(mark, located),
            Token::Keyword(word) => {
                self.declares = word == Keyword::Type;
                self.wants_name = self.declares;
                Ok(())
            }
            Token::Constant(_) | Token::End | Token::Fault(_) => Ok(()),
        }
    }

    /// Closes the function that is open, if one is.
    fn close(&mut self, place: &Located) -> Result<(), AllocError>
        ensures { OnOk result (names_of self.new.list.items ≡ names_of self.old.list.items) }
    {
        let missing = if self.is_inside { self.depth } else { 0 };
        self.is_inside = false;
        self.is_opened = false;
        self.depth = 0;
        self.inner = 0;
        for _brace in 0..missing {
            self.mark(Punctuator::CloseCurly, place)?;
        }
        Ok(())
    }

    /// Ends what only crumbs have begun, before a token that stays.
    fn settle(&mut self, place: &Located) -> Result<(), AllocError>
        ensures { OnOk result (names_of self.new.list.items ≡ names_of self.old.list.items) }
    {
        let head = self.head;
        self.head = Head::Nothing;
        self.brackets = 0;
        self.declares = false;
        self.wants_name = false;
        if matches!(head, Head::Parameters(_)) {
            self.mark(Punctuator::CloseRound, place)?;
        }
        if head != Head::Nothing {
            self.open(place)?;
        }
        if self.is_opened {
            self.close(place)
        } else {
            Ok(())
        }
    }

    /// Notes the brace that a token is, if it is one.
    fn note_brace(&mut self, token: &Token)
        ensures { self.new.list ≡ self.old.list }
    {
        match token {
            Token::Punctuator(Punctuator::OpenCurly) => {
                self.is_inside = true;
                self.depth = self.depth.saturating_add(1);
            }
            Token::Punctuator(Punctuator::CloseCurly) => {
                self.depth = self.depth.saturating_sub(1);
                self.is_inside = self.depth > 0;
            }
            _ => {}
        }
    }

    /// Opens the block of a function by a crumb.
    fn open(&mut self, place: &Located) -> Result<(), AllocError>
        ensures { OnOk result (names_of self.new.list.items ≡ names_of self.old.list.items) }
    {
        self.is_inside = true;
        self.is_opened = true;
        self.depth = 1;
        self.head = Head::Nothing;
        self.mark(Punctuator::OpenCurly, place)
    }

    /// Takes a crumb of a punctuator.
    fn crumble_mark(&mut self, mark: Punctuator, place: &Located) -> Result<(), AllocError>
        ensures { OnOk result (names_of self.new.list.items ≡ names_of self.old.list.items) }
    {
        match mark {
            Punctuator::Comma => self.wants_name = self.declares && self.brackets == 0,
            Punctuator::OpenRound => self.brackets = self.brackets.saturating_add(1),
            Punctuator::CloseRound => return self.close_bracket(place),
            Punctuator::Semicolon => self.end_statement(),
            Punctuator::OpenCurly | Punctuator::CloseCurly => {
                self.end_statement();
                return self.crumble_brace(mark, place);
            }
            _ => self.wants_name = false,
        }
        Ok(())
    }

    /// Ends a statement or a declaration of what is left out.
    fn end_statement(&mut self)
        ensures { self.new.list ≡ self.old.list }
    {
        self.declares = false;
        self.wants_name = false;
        self.brackets = 0;
    }

    /// Takes a crumb of a `)`.
    fn close_bracket(&mut self, place: &Located) -> Result<(), AllocError>
        ensures { OnOk result (names_of self.new.list.items ≡ names_of self.old.list.items) }
    {
        self.brackets = self.brackets.saturating_sub(1);
        if self.brackets == 0 && matches!(self.head, Head::Parameters(_)) {
            self.head = Head::Types;
            return self.mark(Punctuator::CloseRound, place);
        }
        Ok(())
    }

    /// Takes a crumb of a brace: those within a function are only counted.
    fn crumble_brace(&mut self, mark: Punctuator, place: &Located) -> Result<(), AllocError>
        ensures { OnOk result (names_of self.new.list.items ≡ names_of self.old.list.items) }
    {
        let opens = mark == Punctuator::OpenCurly;
        if opens && self.head == Head::Types {
            return self.open(place);
        }
        if self.is_inside && (opens || self.inner > 0) {
            self.inner = if opens {
                self.inner.saturating_add(1)
            } else {
                self.inner.saturating_sub(1)
            };
            return Ok(());
        }
        self.close(place)
    }

    /// Takes a crumb of a name, that of the token of an index.
    fn crumble_name(
        &mut self,
        tokens: &[Located],
        index: usize,
        located: &Located,
    ) -> Result<(), AllocError>
        ensures { OnOk result (names_of self.new.list.items ≡ names_of self.old.list.items ++ names_of (located.now ∷ [])) }
    {
        if self.head != Head::Nothing {
            return self.crumble_of_head(located);
        }
        let is_head = is_head_at(tokens, index);
        if self.is_inside && is_head && located.column == 1 {
            self.close(located)?;
        }
        if is_head && !self.is_inside {
            return self.begin_head(located);
        }
        let is_called = is_called(tokens, index);
        let is_declared = self.wants_name && !is_called;
        self.wants_name = false;
        if !self.is_inside && !is_declared {
            self.open_nameless(located)?;
        }
        if is_declared {
            self.declaration(located)
        } else {
            self.statement(located, is_called)
        }
    }

    /// Takes the name of a function whose head is left out, and a `(`.
    fn begin_head(&mut self, located: &Located) -> Result<(), AllocError>
        ensures { OnOk result (names_of self.new.list.items ≡ names_of self.old.list.items ++ names_of (located.now ∷ [])) }
    {
        self.end_statement();
        self.head = Head::Parameters(0);
        self.own(located)?;
        self.mark(Punctuator::OpenRound, located)
    }

    /// Takes a name of a head: a parameter, or one behind their list.
    fn crumble_of_head(&mut self, located: &Located) -> Result<(), AllocError>
        ensures { OnOk result (names_of self.new.list.items ≡ names_of self.old.list.items ++ names_of (located.now ∷ [])) }
    {
        match self.head {
            Head::Parameters(count) => {
                self.head = Head::Parameters(count.saturating_add(1));
                if count > 0 {
                    self.mark(Punctuator::Comma, located)?;
                }
                self.own(located)
            }
            Head::Types | Head::Nothing => self.typed(located),
        }
    }

    /// Opens a function without a name, for names that stand outside of all.
    fn open_nameless(&mut self, place: &Located) -> Result<(), AllocError>
        ensures { OnOk result (names_of self.new.list.items ≡ names_of self.old.list.items) }
    {
        self.token(Token::Name(Name::new()), place)?;
        self.mark(Punctuator::OpenRound, place)?;
        self.mark(Punctuator::CloseRound, place)?;
        self.open(place)
    }

    /// Adds a declaration of a name: in a function in a block of its own, since it may stand behind statements.
    fn declaration(&mut self, located: &Located) -> Result<(), AllocError>
        ensures { OnOk result (names_of self.new.list.items ≡ names_of self.old.list.items ++ names_of (located.now ∷ [])) }
    {
        if !self.is_inside {
            return self.typed(located);
        }
        self.mark(Punctuator::OpenCurly, located)?;
        self.typed(located)?;
        self.mark(Punctuator::CloseCurly, located)
    }

    /// Adds a type word, a name and a semicolon.
    fn typed(&mut self, located: &Located) -> Result<(), AllocError>
        ensures { OnOk result (names_of self.new.list.items ≡ names_of self.old.list.items ++ names_of (located.now ∷ [])) }
    {
        self.token(Token::Keyword(Keyword::Type), located)?;
        self.own(located)?;
        self.mark(Punctuator::Semicolon, located)
    }

    /// Adds a statement that is a name, or a call of it.
    fn statement(&mut self, located: &Located, is_called: bool) -> Result<(), AllocError>
        ensures { OnOk result (names_of self.new.list.items ≡ names_of self.old.list.items ++ names_of (located.now ∷ [])) }
    {
        self.own(located)?;
        if is_called {
            self.mark(Punctuator::OpenRound, located)?;
            self.mark(Punctuator::CloseRound, located)?;
        }
        self.mark(Punctuator::Semicolon, located)
    }

    /// Adds a punctuator at the place of a token.
    fn mark(&mut self, mark: Punctuator, place: &Located) -> Result<(), AllocError>
        ensures { OnOk result (names_of self.new.list.items ≡ names_of self.old.list.items) }
    {
        self.token(Token::Punctuator(mark), place)
    }

    /// Adds a token as the source has it.
    fn own(&mut self, located: &Located) -> Result<(), AllocError>
        ensures { OnOk result (names_of self.new.list.items ≡ names_of self.old.list.items ++ names_of (located.now ∷ [])) }
    {
        self.push(*located)
    }

    /// Adds a token.
    fn push(&mut self, located: Located) -> Result<(), AllocError>
        ensures { OnOk result (self.new.list.items ≡ self.old.list.items ++ located ∷ []) }
    {
        self.list.extend_from_slice(&[located])
    }

    /// Adds a token that isn't the source's at the place of one.
    fn token(&mut self, token: Token, place: &Located) -> Result<(), AllocError>
        ensures { OnOk result (name_of token ≡ None → names_of self.new.list.items ≡ names_of self.old.list.items) }
    {
        let mut crumb = *place;
        crumb.token = token;
        self.push(crumb)
    }
}

/// Reports whether a `(` is right behind the token of an index.
fn is_called(tokens: &[Located], index: usize) -> bool {
    match tokens.get(index.saturating_add(1)) {
        Some(next) => next.token == Token::Punctuator(Punctuator::OpenRound),
        None => false,
    }
}
