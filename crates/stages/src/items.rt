//! How the items of productions are written.

use derivations::{Item, Production, SemanticAction, Symbol, spelled};
use std::alloc::AllocError;
use tokens::Keyword;

/// Adds a symbol with its production, without the semantic actions.
pub fn add_production(
    text: &mut String,
    symbol: Item,
    production: &Production,
) -> Result<(), AllocError> {
    add_item(text, symbol)?;
    text.push_str(" ->")?;
    add_items(text, production.items())
}

/// Adds the items of a production, without the semantic actions, each after a blank; or that there are none.
pub fn add_items(text: &mut String, items: &[Item]) -> Result<(), AllocError> {
    let mut is_empty = true;
    for item in items {
        if !matches!(item, Item::Make(_) | Item::Close) {
            is_empty = false;
            text.push(' ')?;
            add_item(text, *item)?;
        }
    }
    text.push_str(if is_empty { " nothing" } else { "" })
}

/// Adds an item as a production has it.
pub fn add_item(text: &mut String, item: Item) -> Result<(), AllocError> {
    match item {
        Item::Exactly(punctuator) => text.push_str(spelled(punctuator)),
        Item::AKeyword(word) => text.push_str(keyword_word(word)),
        Item::Naming(_) => text.push_str("name"),
        Item::Number => text.push_str("constant"),
        Item::Ending => text.push_str("end"),
        Item::Part(symbol @ (Symbol::Level(level) | Symbol::Tail(level))) => {
            write!(text, "{}{level}", symbol_word(symbol))
        }
        Item::Part(symbol) => text.push_str(symbol_word(symbol)),
        Item::Make(action) => text.push_str(action_word(action)),
        Item::Close => text.push_str("close"),
    }
}

/// Returns a keyword as a production has it.
fn keyword_word(word: Keyword) -> &'static str {
    match word {
        Keyword::If => "if",
        Keyword::Else => "else",
        Keyword::While => "while",
        Keyword::Return => "return",
        Keyword::Type => "type",
        Keyword::Refused => "reserved",
    }
}

/// Returns a symbol's name. Those of levels have a number besides.
fn symbol_word(symbol: Symbol) -> &'static str {
    match symbol {
        Symbol::Source => "source",
        Symbol::Types => "types",
        Symbol::Head => "head",
        Symbol::More(_) => "more",
        Symbol::Parameters => "params",
        Symbol::ParameterTypes => "pdecls",
        Symbol::FunctionBlock => "body",
        Symbol::Block => "block",
        Symbol::Declarations => "decls",
        Symbol::Statements => "stmts",
        Symbol::Statement => "stmt",
        Symbol::ElsePart => "elsepart",
        Symbol::Back => "back",
        Symbol::Expression => "expr",
        Symbol::Level(_) => "level",
        Symbol::Tail(_) => "tail",
        Symbol::Unary => "unary",
        Symbol::Primary => "primary",
        Symbol::Arguments => "args",
        Symbol::MoreArguments => "moreargs",
    }
}

/// Returns the words for a semantic action: what it makes of the trees.
pub fn action_word(action: SemanticAction) -> &'static str {
    match action {
        SemanticAction::Operate(_) => "makes a binary operator",
        SemanticAction::Negate => "makes a negation",
        SemanticAction::Not => "makes a comparison with 0",
        SemanticAction::Complement => "makes a complement",
        SemanticAction::Fetch => "makes the value of a variable",
        SemanticAction::Store(_) => "makes an assignment",
        SemanticAction::PrefixIncrement(_) | SemanticAction::PostfixIncrement(_) => {
            "makes a step of a variable"
        }
        SemanticAction::Pass => "adds an argument",
        SemanticAction::Invoke => "ends a call",
        SemanticAction::Empty => "begins a body",
        SemanticAction::Evaluate => "adds an expression statement",
        SemanticAction::Decide => "adds an if",
        SemanticAction::DecideElse => "adds an if with else",
        SemanticAction::Repeat => "adds a while",
        SemanticAction::Zero => "makes the constant 0",
        SemanticAction::GiveBack => "adds a return",
        SemanticAction::Define => "makes the function",
    }
}
