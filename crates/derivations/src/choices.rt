//! The grammar as a table: the production of each symbol, by the next token and the one after it.

ghost use Rattle.std.specs.Prelude.{◌≡◌, ◌≤◌, ◌∷◌, [], ℕ, List, Some, IfSome};
ghost use Rattle.tokens.specs.declared.located_tokens.Token.{Token};
ghost use Rattle.tokens.specs.declared.located_tokens.Token.TheVariants as token;
ghost use Rattle.grammar.specs.Grammar as table;
ghost use Rattle.grammar.specs.Operators.{operator_at};
ghost use Rattle.derivations.specs.Table.{action_of, item_of, role_of, symbol_of};

use crate::symbols::Item::{AKeyword, Close, Ending, Exactly, Make, Naming, Number, Part};
use crate::symbols::{Item, Production, Role, SemanticAction, Symbol};
use grammar::{BinaryOperator, Op, StoreOp, UNARY_LEVEL, operator_from, store_operator};
use tokens::{Keyword, Punctuator, Token};

/// The greatest level of the binary operators.
const TIGHTEST: u8 = 10;

/// Returns the production of a symbol, if the next token is no lexical error. If there is none, the token doesn't fit.
/// If the table says so, the token after the next one decides too.
pub fn choice(symbol: Symbol, next: &Token, after: &Token) -> Option<Production>
    ensures { result ≡ table.choice (symbol_of symbol) next.now after.now }
{
    // one production for all that are always there: each that an arm has of its own is blanked at each call
    let production = match symbol {
        Symbol::Source => return source(next),
        Symbol::Head => return head(next, after),
        Symbol::FunctionBlock => return function_block(next),
        Symbol::Block => return block(next),
        Symbol::Primary => return primary(next, after),
        Symbol::Types => types(next),
        Symbol::More(role) => more(role, next),
        Symbol::Parameters => parameters(next),
        Symbol::ParameterTypes => parameter_types(next),
        Symbol::Declarations => declarations(next),
        Symbol::Statements => statements(next),
        Symbol::Statement => statement(next),
        Symbol::ElsePart => else_part(next),
        Symbol::Back => back(next),
        Symbol::Expression => expression(next, after),
        Symbol::Level(level) => operators(level),
        Symbol::Tail(level) => tail(level, next),
        Symbol::Unary => unary(next),
        Symbol::Arguments => arguments(next),
        Symbol::MoreArguments => more_arguments(next),
    };
    Some(production)
}

/// Returns the production of a file, or of the rest of it.
fn source(next: &Token) -> Option<Production>
    ensures { (after : Token) → result ≡ table.choice table.Source next.now after }
{
    match next {
        Token::End => Some(Production::of(&[Ending])),
        Token::Keyword(Keyword::Type) => Some(Production::of(&[
            AKeyword(Keyword::Type),
            Part(Symbol::Types),
            Part(Symbol::Head),
            Part(Symbol::Source),
        ])),
        Token::Name(_) => Some(definition().and(Part(Symbol::Source))),
        _ => None,
    }
}

/// Returns the production of further type words.
fn types(next: &Token) -> Production
    ensures { (after : Token) → Some result ≡ table.choice table.Types next.now after }
{
    match next {
        Token::Keyword(Keyword::Type) => {
            Production::of(&[AKeyword(Keyword::Type), Part(Symbol::Types)])
        }
        _ => Production::empty(),
    }
}

/// Returns the production of what follows the type words at a file's level: a definition if a bracket follows the name.
fn head(next: &Token, after: &Token) -> Option<Production>
    ensures { result ≡ table.choice table.Head next.now after.now }
{
    match (next, after) {
        (Token::Name(_), Token::Punctuator(Punctuator::OpenRound)) => Some(definition()),
        (Token::Name(_), _) => Some(Production::of(&[
            Naming(Role::External),
            Part(Symbol::More(Role::External)),
            Exactly(Punctuator::Semicolon),
        ])),
        _ => None,
    }
}

/// Returns the production of a function's definition.
fn definition() -> Production
    ensures { result ≡ table.AName table.Defined ∷ table.Exactly Punctuator.OpenRound ∷ table.Part table.Parameters
        ∷ table.Exactly Punctuator.CloseRound ∷ table.Part table.ParameterTypes ∷ table.Part table.FunctionBlock ∷ [] }
{
    Production::of(&[
        Naming(Role::Defined),
        Exactly(Punctuator::OpenRound),
        Part(Symbol::Parameters),
        Exactly(Punctuator::CloseRound),
        Part(Symbol::ParameterTypes),
        Part(Symbol::FunctionBlock),
    ])
}

/// Returns the production of further names of a list.
fn more(role: Role, next: &Token) -> Production
    ensures { (after : Token) → Some result ≡ table.choice (table.More (role_of role)) next.now after }
{
    match next {
        Token::Punctuator(Punctuator::Comma) => Production::of(&[
            Exactly(Punctuator::Comma),
            Naming(role),
            Part(Symbol::More(role)),
        ]),
        _ => Production::empty(),
    }
}

/// Returns the production of the names of a parameter list.
fn parameters(next: &Token) -> Production
    ensures { (after : Token) → Some result ≡ table.choice table.Parameters next.now after }
{
    match next {
        Token::Name(_) => Production::of(&[
            Naming(Role::Parameter),
            Part(Symbol::More(Role::Parameter)),
        ]),
        _ => Production::empty(),
    }
}

/// Returns the production of declarations of parameters.
fn parameter_types(next: &Token) -> Production
    ensures { (after : Token) → Some result ≡ table.choice table.ParameterTypes next.now after }
{
    match next {
        Token::Keyword(Keyword::Type) => declared(Role::Typed, Symbol::ParameterTypes),
        _ => Production::empty(),
    }
}

/// Returns the production of a declaration of names in this role, and of what follows it.
fn declared(role: Role, others: Symbol) -> Production
    ensures { result ≡ table.AKeyword Keyword.Type ∷ table.Part table.Types ∷ table.AName (role_of role)
        ∷ table.Part (table.More (role_of role)) ∷ table.Exactly Punctuator.Semicolon
        ∷ table.Part (symbol_of others) ∷ [] }
{
    Production::of(&[
        AKeyword(Keyword::Type),
        Part(Symbol::Types),
        Naming(role),
        Part(Symbol::More(role)),
        Exactly(Punctuator::Semicolon),
        Part(others),
    ])
}

/// Returns the production of a function's block.
fn function_block(next: &Token) -> Option<Production>
    ensures { (after : Token) → result ≡ table.choice table.FunctionBlock next.now after }
{
    match next {
        Token::Punctuator(Punctuator::OpenCurly) => Some(Production::of(&[
            Exactly(Punctuator::OpenCurly),
            Make(SemanticAction::Empty),
            Part(Symbol::Declarations),
            Part(Symbol::Statements),
            Make(SemanticAction::Define),
            Exactly(Punctuator::CloseCurly),
            Close,
        ])),
        _ => None,
    }
}

/// Returns the production of a block within a function.
fn block(next: &Token) -> Option<Production>
    ensures { (after : Token) → result ≡ table.choice table.Block next.now after }
{
    match next {
        Token::Punctuator(Punctuator::OpenCurly) => Some(Production::of(&[
            Exactly(Punctuator::OpenCurly),
            Part(Symbol::Declarations),
            Part(Symbol::Statements),
            Exactly(Punctuator::CloseCurly),
            Close,
        ])),
        _ => None,
    }
}

/// Returns the production of the declarations of a block.
fn declarations(next: &Token) -> Production
    ensures { (after : Token) → Some result ≡ table.choice table.Declarations next.now after }
{
    match next {
        Token::Keyword(Keyword::Type) => declared(Role::Local, Symbol::Declarations),
        _ => Production::empty(),
    }
}

/// Returns the production of the statements of a block.
fn statements(next: &Token) -> Production
    ensures { (after : Token) → Some result ≡ table.choice table.Statements next.now after }
{
    match next {
        Token::Punctuator(Punctuator::CloseCurly) => Production::empty(),
        _ => Production::of(&[Part(Symbol::Statement), Part(Symbol::Statements)]),
    }
}

/// Returns the production of a statement.
fn statement(next: &Token) -> Production
    ensures { (after : Token) → Some result ≡ table.choice table.Statement next.now after }
{
    match next {
        Token::Punctuator(Punctuator::Semicolon) => {
            Production::of(&[Exactly(Punctuator::Semicolon)])
        }
        Token::Punctuator(Punctuator::OpenCurly) => Production::of(&[Part(Symbol::Block)]),
        Token::Keyword(Keyword::If) => tested(Keyword::If, Part(Symbol::ElsePart)),
        Token::Keyword(Keyword::While) => tested(Keyword::While, Make(SemanticAction::Repeat)),
        Token::Keyword(Keyword::Return) => Production::of(&[
            AKeyword(Keyword::Return),
            Part(Symbol::Back),
            Exactly(Punctuator::Semicolon),
            Make(SemanticAction::GiveBack),
        ]),
        _ => Production::of(&[
            Part(Symbol::Expression),
            Exactly(Punctuator::Semicolon),
            Make(SemanticAction::Evaluate),
        ]),
    }
}

/// Returns the production of an `if` or a `while`, by its word and what follows its body.
fn tested(word: Keyword, last: Item) -> Production
    ensures { result ≡ table.AKeyword word ∷ table.Exactly Punctuator.OpenRound ∷ table.Part table.Expression
        ∷ table.Exactly Punctuator.CloseRound ∷ table.Make table.Empty ∷ table.Part table.Statement
        ∷ item_of last ∷ table.Close ∷ [] }
{
    Production::of(&[
        AKeyword(word),
        Exactly(Punctuator::OpenRound),
        Part(Symbol::Expression),
        Exactly(Punctuator::CloseRound),
        Make(SemanticAction::Empty),
        Part(Symbol::Statement),
        last,
        Close,
    ])
}

/// Returns the production of what follows the first branch of an `if`.
fn else_part(next: &Token) -> Production
    ensures { (after : Token) → Some result ≡ table.choice table.ElsePart next.now after }
{
    match next {
        Token::Keyword(Keyword::Else) => Production::of(&[
            AKeyword(Keyword::Else),
            Make(SemanticAction::Empty),
            Part(Symbol::Statement),
            Make(SemanticAction::DecideElse),
        ]),
        _ => Production::of(&[Make(SemanticAction::Decide)]),
    }
}

/// Returns the production of what a `return` returns.
fn back(next: &Token) -> Production
    ensures { (after : Token) → Some result ≡ table.choice table.Back next.now after }
{
    match next {
        Token::Punctuator(Punctuator::Semicolon) => {
            Production::of(&[Make(SemanticAction::Zero)])
        }
        _ => Production::of(&[Part(Symbol::Expression)]),
    }
}

/// Returns the production of an expression: an assignment if its operator follows a name.
fn expression(next: &Token, after: &Token) -> Production
    ensures { Some result ≡ table.choice table.Expression next.now after.now }
{
    match (next, after) {
        (Token::Name(_), Token::Punctuator(punctuator)) => match store_operator(after) {
            Some(op) => Production::of(&[
                Naming(Role::Mentioned),
                Exactly(*punctuator),
                Part(Symbol::Expression),
                Make(SemanticAction::Store(op)),
                Close,
            ]),
            None => Production::of(&[Part(Symbol::Level(1))]),
        },
        _ => Production::of(&[Part(Symbol::Level(1))]),
    }
}

/// Returns the production of operators of a level and of tighter ones.
fn operators(level: u8) -> Production
    ensures { (next after : Token) → Some result ≡ table.choice (table.Level level) next after }
{
    if level < UNARY_LEVEL {
        Production::of(&[Part(Symbol::Level(level + 1)), Part(Symbol::Tail(level))])
    } else {
        Production::of(&[Part(Symbol::Unary)])
    }
}

/// Returns the production of further operators of a level.
fn tail(level: u8, next: &Token) -> Production
    ensures { (after : Token) → Some result ≡ table.choice (table.Tail level) next.now after }
{
    let Token::Punctuator(punctuator) = *next else {
        return Production::empty();
    };
    match operator_at(level, next) {
        Some(op) => Production::of(&[
            Exactly(punctuator),
            Part(Symbol::Level(level + 1)),
            Make(SemanticAction::Operate(op)),
            Part(Symbol::Tail(level)),
        ]),
        None => Production::empty(),
    }
}

/// Returns the operator of a level that a token spells.
pub(crate) fn operator_at(level: u8, token: &Token) -> Option<Op>
    ensures value { result ≡ operator_at level token.now }
    ensures bounded { IfSome result (λ op. level ≤ TIGHTEST) }
{
    match operator_from(token, level) {
        Some(BinaryOperator { level: found, op }) if found == level => Some(op),
        _ => None,
    }
}

/// Returns the production of the unary operators.
fn unary(next: &Token) -> Production
    ensures { (after : Token) → Some result ≡ table.choice table.Unary next.now after }
{
    match next {
        Token::Punctuator(Punctuator::Minus) => before(Punctuator::Minus, SemanticAction::Negate),
        Token::Punctuator(Punctuator::Not) => before(Punctuator::Not, SemanticAction::Not),
        Token::Punctuator(Punctuator::Tilde) => {
            before(Punctuator::Tilde, SemanticAction::Complement)
        }
        Token::Punctuator(Punctuator::PlusPlus) => step_before(Punctuator::PlusPlus, StoreOp::Add),
        Token::Punctuator(Punctuator::MinusMinus) => {
            step_before(Punctuator::MinusMinus, StoreOp::Subtract)
        }
        _ => Production::of(&[Part(Symbol::Primary)]),
    }
}

/// Returns the production of a unary operator.
fn before(punctuator: Punctuator, action: SemanticAction) -> Production
    ensures { result ≡ table.Exactly punctuator ∷ table.Part table.Unary ∷ table.Make (action_of action) ∷ table.Close ∷ [] }
{
    Production::of(&[
        Exactly(punctuator),
        Part(Symbol::Unary),
        Make(action),
        Close,
    ])
}

/// Returns the production of `++v` or `--v`.
fn step_before(punctuator: Punctuator, op: StoreOp) -> Production
    ensures { result ≡ table.Exactly punctuator ∷ table.AName table.Mentioned ∷ table.Make (table.PrefixIncrement op) ∷ [] }
{
    Production::of(&[
        Exactly(punctuator),
        Naming(Role::Mentioned),
        Make(SemanticAction::PrefixIncrement(op)),
    ])
}

/// Returns the production of an operand.
fn primary(next: &Token, after: &Token) -> Option<Production>
    ensures { result ≡ table.choice table.Primary next.now after.now }
{
    match next {
        Token::Constant(_) => Some(Production::of(&[Number])),
        Token::Name(_) => Some(named(after)),
        Token::Punctuator(Punctuator::OpenRound) => Some(Production::of(&[
            Exactly(Punctuator::OpenRound),
            Part(Symbol::Expression),
            Exactly(Punctuator::CloseRound),
            Close,
        ])),
        _ => None,
    }
}

/// Returns the production of an operand that begins with a name: a call, `v++`, `v--` or a variable.
fn named(after: &Token) -> Production
    ensures { (name : List ℕ) → Some result ≡ table.choice table.Primary (token.Name name) after.now }
{
    match after {
        Token::Punctuator(Punctuator::OpenRound) => Production::of(&[
            Naming(Role::Called),
            Exactly(Punctuator::OpenRound),
            Part(Symbol::Arguments),
            Exactly(Punctuator::CloseRound),
            Make(SemanticAction::Invoke),
            Close,
        ]),
        Token::Punctuator(Punctuator::PlusPlus) => step_behind(Punctuator::PlusPlus, StoreOp::Add),
        Token::Punctuator(Punctuator::MinusMinus) => {
            step_behind(Punctuator::MinusMinus, StoreOp::Subtract)
        }
        _ => Production::of(&[Naming(Role::Mentioned), Make(SemanticAction::Fetch)]),
    }
}

/// Returns the production of `v++` or `v--`.
fn step_behind(punctuator: Punctuator, op: StoreOp) -> Production
    ensures { result ≡ table.AName table.Mentioned ∷ table.Exactly punctuator ∷ table.Make (table.PostfixIncrement op) ∷ [] }
{
    Production::of(&[
        Naming(Role::Mentioned),
        Exactly(punctuator),
        Make(SemanticAction::PostfixIncrement(op)),
    ])
}

/// Returns the production of the arguments of a call.
fn arguments(next: &Token) -> Production
    ensures { (after : Token) → Some result ≡ table.choice table.Arguments next.now after }
{
    match next {
        Token::Punctuator(Punctuator::CloseRound) => Production::empty(),
        _ => Production::of(&[
            Part(Symbol::Expression),
            Make(SemanticAction::Pass),
            Part(Symbol::MoreArguments),
        ]),
    }
}

/// Returns the production of further arguments.
fn more_arguments(next: &Token) -> Production
    ensures { (after : Token) → Some result ≡ table.choice table.MoreArguments next.now after }
{
    match next {
        Token::Punctuator(Punctuator::Comma) => Production::of(&[
            Exactly(Punctuator::Comma),
            Part(Symbol::Expression),
            Make(SemanticAction::Pass),
            Part(Symbol::MoreArguments),
        ]),
        _ => Production::empty(),
    }
}

/// Reports whether the production chosen is nested in others: a block, an `if`, a `while`, an assignment, a unary `-`,
/// `!` or `~`, an expression in brackets, or a call.
pub fn enters(symbol: Symbol, next: &Token, after: &Token) -> bool
    ensures { result ≡ table.enters (symbol_of symbol) next.now after.now }
{
    match (symbol, next) {
        (Symbol::FunctionBlock | Symbol::Block, Token::Punctuator(Punctuator::OpenCurly)) => true,
        (Symbol::Statement, Token::Keyword(Keyword::If | Keyword::While)) => true,
        (Symbol::Expression, Token::Name(_)) => store_operator(after).is_some(),
        (
            Symbol::Unary,
            Token::Punctuator(Punctuator::Minus | Punctuator::Not | Punctuator::Tilde),
        ) => true,
        (Symbol::Primary, Token::Punctuator(Punctuator::OpenRound)) => true,
        (Symbol::Primary, Token::Name(_)) => {
            matches!(after, Token::Punctuator(Punctuator::OpenRound))
        }
        _ => false,
    }
}
