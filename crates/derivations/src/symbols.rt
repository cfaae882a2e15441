//! The symbols of the grammar, and what their productions are made of.

ghost use Rattle.std.specs.Prelude.{◌≡◌, ◌<◌, ◌≤◌, [], ◌∷◌, ◌++◌, length, map};
ghost use Rattle.derivations.specs.Table.{item_of};

use arrayvec::ArrayVec;
use grammar::{Op, StoreOp};
use std::marker::Model;
use tokens::{Keyword, Punctuator};

/// What a name is there for.
#[derive(Clone, Copy, PartialEq, Eq)]
pub enum Role {
    /// A function's definition begins.
    Defined,
    /// An external is declared.
    External,
    /// A parameter, in the list.
    Parameter,
    /// A parameter is declared, after the list.
    Typed,
    /// A local is declared.
    Local,
    /// A function is called.
    Called,
    /// A variable is mentioned.
    Mentioned,
}

/// A symbol of the grammar, which the derivation replaces by a production.
#[derive(Clone, Copy, PartialEq, Eq)]
pub enum Symbol {
    /// A file, or the rest of it.
    Source,
    /// Further type words.
    Types,
    /// What follows the type words at a file's level.
    Head,
    /// Further names of a list, in this role.
    More(Role),
    /// The names of a parameter list.
    Parameters,
    /// Declarations of parameters.
    ParameterTypes,
    /// The block of a function.
    FunctionBlock,
    /// A block within a function.
    Block,
    /// The declarations at the beginning of a block.
    Declarations,
    /// The statements of a block.
    Statements,
    /// One statement.
    Statement,
    /// What follows the first branch of an `if`.
    ElsePart,
    /// What a `return` returns.
    Back,
    /// An expression, which may be an assignment.
    Expression,
    /// Operators of this level, 1 to 11, and of tighter ones.
    Level(u8),
    /// Further operators of this level, 1 to 10.
    Tail(u8),
    /// The unary operators.
    Unary,
    /// An operand.
    Primary,
    /// The arguments of a call.
    Arguments,
    /// Further arguments.
    MoreArguments,
}

/// What is made of the trees just derived.
#[derive(Clone, Copy, PartialEq, Eq)]
pub enum SemanticAction {
    /// A binary operator of the last two expressions.
    Operate(Op),
    /// `-e`
    Negate,
    /// `!e`
    Not,
    /// `~e`
    Complement,
    /// The value of a variable.
    Fetch,
    /// An assignment.
    Store(StoreOp),
    /// `++v` or `--v`
    PrefixIncrement(StoreOp),
    /// `v++` or `v--`
    PostfixIncrement(StoreOp),
    /// One more argument of a call.
    Pass,
    /// The end of a call.
    Invoke,
    /// The beginning of a body, without statements.
    Empty,
    /// An expression statement.
    Evaluate,
    /// An `if` without `else`.
    Decide,
    /// An `if` with `else`.
    DecideElse,
    /// A `while`.
    Repeat,
    /// The value of `return;`.
    Zero,
    /// A `return`.
    GiveBack,
    /// A function's end.
    Define,
}

/// What a derivation still has to match or to do.
#[derive(Clone, Copy, PartialEq, Eq)]
pub enum Item {
    /// This punctuator comes next.
    Exactly(Punctuator),
    /// This keyword comes next.
    AKeyword(Keyword),
    /// A name comes next, in this role.
    Naming(Role),
    /// A constant comes next.
    Number,
    /// The end comes next.
    Ending,
    /// What the symbol is replaced by.
    Part(Symbol),
    /// A tree is made.
    Make(SemanticAction),
    /// The end of a nested production.
    Close,
}

impl Default for Item {
    ghost use Rattle.derivations.specs.declared.symbols.Item.TheVariants.{Close};

    ghost is_default = { λ item. item ≡ Close };

    fn default() -> Item {
        Item::Close
    }
}

/// The most items of a production: those of an `if` or a `while`.
pub const MOST_ITEMS: usize = 8;

/// What a symbol is replaced by. Its value is the list of its items.
#[derive(Drop)]
pub struct Production {
    items: ArrayVec<Item, MOST_ITEMS>,
}

impl Model for Production {
    ghost use Rattle.std.specs.Prelude.{List, map};
    ghost use Rattle.grammar.specs.Grammar.{Item};
    ghost use Rattle.derivations.specs.Table.{item_of};

    ghost Value = { List Item };

    ghost view = { λ p. map item_of p.items.items };
}

impl Production {
    /// Makes the production of no items, without a copy: where an operator may follow and none does, it is chosen.
    pub(crate) fn empty() -> Production
        ensures { result ≡ [] }
    {
        Production {
            items: ArrayVec::new(),
        }
    }

    /// Makes the production of these items.
    pub(crate) fn of(items: &[Item]) -> Production
        requires { length items.now ≤ MOST_ITEMS }
        ensures { result ≡ map item_of items.now }
    {
        let mut production = ArrayVec::new();
        let _ = production.try_extend_from_slice(items);
        Production { items: production }
    }

    /// Returns it with another item at its end.
    pub(crate) fn and(self, item: Item) -> Production
        requires { length self < MOST_ITEMS }
        ensures { result ≡ self ++ item_of item ∷ [] }
    {
        let mut production = self;
        let _ = production.items.try_push(item);
        production
    }

    /// Returns its items, the first to be matched first.
    pub fn items(&self) -> &[Item]
        ensures value { map item_of result.now ≡ self.now }
        ensures most { length result.now ≤ MOST_ITEMS }
    {
        self.items.as_slice()
    }
}
