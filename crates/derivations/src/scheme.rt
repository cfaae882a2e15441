//! The translation scheme: what each step of a derivation emits.

ghost use Rattle.std.specs.Prelude.{◌≡◌, ◌≤◌, ◌∷◌, [], length, false, true};
ghost use Rattle.grammar.specs.Grammar as table;
ghost use Rattle.grammar.specs.Grammar.{is_lexical_error};
ghost use Rattle.grammar.specs.Scope.{no_names};
ghost use Rattle.grammar_laws.specs.Emission as law;
ghost use Rattle.derivations.specs.Scheme.{blank_emitted, blank_rule, is_on_rule, known_items, origin_of};
ghost use Rattle.derivations.specs.Stacks.{items_of};
ghost use Rattle.derivations.specs.Table.{action_of, item_of, symbol_of};

use crate::choices::operator_at;
use crate::emissions::{Emission, MOST_ACTIONS, Origin};
use crate::steps::{Pending, two_in_front};
use crate::symbols::{Item, Role, SemanticAction, Symbol};
use grammar::{Action, Callee, Op, StoreOp, Var};
use tokens::{Keyword, Punctuator, Token};

/// A constant, of any value.
const CONSTANT: Action = Action::PushConstant(0);

/// The value of any variable.
const FETCH: Action = Action::FetchVariable(Var::Local(0));

/// A store by any operator.
const STORE: Action = Action::StoreVariable(Var::Local(0), StoreOp::Set);

/// The end of a call, of any function.
const END_CALL: Action = Action::EndCall(Callee::Function(0));

/// The beginning of any function.
const BEGIN_FUNCTION: Action = Action::BeginFunction(0, 0);

/// The end of any function.
const END_FUNCTION: Action = Action::EndFunction(0);

/// Returns what a step emits, by the item in front, the next token, and the items behind the one in front.
pub(crate) fn emitted(front: Item, next: &Token, behind: &[Pending]) -> Emission
    ensures actions { result.actions.now ≡ blank_emitted (item_of front ∷ items_of behind.now) next.now }
    ensures origin { is_lexical_error next.now ≡ false → result.origin ≡ origin_of (item_of front) }
{
    match (front, next) {
        (_, Token::Fault(_)) => Emission::of(&[], Origin::Next),
        (Item::Part(symbol), next) => Emission::of(on_choice(symbol, next), Origin::Next),
        (Item::Naming(Role::Called), Token::Name(_)) => {
            Emission::of(&[Action::BeginCall], Origin::Next)
        }
        (Item::Number, Token::Constant(_)) => Emission::of(&[CONSTANT], Origin::Next),
        (Item::Make(action), _) => making(action, behind),
        _ => Emission::of(&[], Origin::Next),
    }
}

/// Returns what is emitted as a tree is made.
fn making(action: SemanticAction, behind: &[Pending]) -> Emission
    ensures actions { result.actions.now ≡ blank_rule (action_of action) (items_of behind.now) }
    ensures origin { result.origin ≡ origin_of (table.Make (action_of action)) }
{
    match action {
        SemanticAction::Empty => Emission::of(on_body(two_in_front(behind)), Origin::Chosen),
        SemanticAction::Store(_) | SemanticAction::PostfixIncrement(_) => {
            Emission::of(on_rule(action), Origin::AfterChosen)
        }
        SemanticAction::Evaluate => Emission::of(on_rule(action), Origin::Passed),
        SemanticAction::Define => Emission::of(on_rule(action), Origin::Next),
        SemanticAction::Operate(op) => Emission::of(applying(op), Origin::Chosen),
        SemanticAction::Negate
        | SemanticAction::Not
        | SemanticAction::Complement
        | SemanticAction::Fetch
        | SemanticAction::PrefixIncrement(_)
        | SemanticAction::Pass
        | SemanticAction::Invoke
        | SemanticAction::Decide
        | SemanticAction::DecideElse
        | SemanticAction::Repeat
        | SemanticAction::Zero
        | SemanticAction::GiveBack => Emission::of(on_rule(action), Origin::Chosen),
    }
}

/// Returns what is emitted as a binary operator's tree is made.
fn applying(op: Op) -> &'static [Action]
    ensures value { result.now ≡ Action.ApplyBinop op ∷ [] }
    ensures most { length result.now ≤ MOST_ACTIONS }
{
    match op {
        Op::Or => &[Action::ApplyBinop(Op::Or)],
        Op::And => &[Action::ApplyBinop(Op::And)],
        Op::BitOr => &[Action::ApplyBinop(Op::BitOr)],
        Op::BitXor => &[Action::ApplyBinop(Op::BitXor)],
        Op::BitAnd => &[Action::ApplyBinop(Op::BitAnd)],
        Op::Equal => &[Action::ApplyBinop(Op::Equal)],
        Op::NotEqual => &[Action::ApplyBinop(Op::NotEqual)],
        Op::Less => &[Action::ApplyBinop(Op::Less)],
        Op::Greater => &[Action::ApplyBinop(Op::Greater)],
        Op::LessOrEqual => &[Action::ApplyBinop(Op::LessOrEqual)],
        Op::GreaterOrEqual => &[Action::ApplyBinop(Op::GreaterOrEqual)],
        Op::ShiftLeft => &[Action::ApplyBinop(Op::ShiftLeft)],
        Op::ShiftRight => &[Action::ApplyBinop(Op::ShiftRight)],
        Op::Add => &[Action::ApplyBinop(Op::Add)],
        Op::Subtract => &[Action::ApplyBinop(Op::Subtract)],
        Op::Multiply => &[Action::ApplyBinop(Op::Multiply)],
        Op::Divide => &[Action::ApplyBinop(Op::Divide)],
        Op::Remainder => &[Action::ApplyBinop(Op::Remainder)],
    }
}

/// Returns what is emitted as a body begins, by the items after it: that of an `if`, of an `else`, of a `while`, or of
/// a function.
fn on_body(behind: [Option<Item>; 2]) -> &'static [Action]
    ensures value { result.now ≡ law.on_body (known_items behind) }
    ensures most { length result.now ≤ MOST_ACTIONS }
{
    let [Some(Item::Part(Symbol::Statement)), Some(after)] = behind else {
        return &[];
    };
    match after {
        Item::Part(Symbol::ElsePart) => &[Action::IfTest],
        Item::Make(SemanticAction::DecideElse) => &[Action::ElsePart],
        Item::Make(SemanticAction::Repeat) => &[Action::WhileTest],
        // the body of a function begins without an action
        _ => &[],
    }
}

/// Returns what is emitted as a symbol's production is chosen by the next token.
fn on_choice(symbol: Symbol, next: &Token) -> &'static [Action]
    ensures value { result.now ≡ law.on_choice (symbol_of symbol) next.now no_names }
    ensures most { length result.now ≤ MOST_ACTIONS }
{
    match (symbol, next) {
        (Symbol::FunctionBlock, Token::Punctuator(Punctuator::OpenCurly)) => { &[BEGIN_FUNCTION] }
        (Symbol::Statement, Token::Keyword(Keyword::While)) => &[Action::BeginWhile],
        (Symbol::Unary, Token::Punctuator(Punctuator::Minus)) => &[CONSTANT],
        (Symbol::Tail(level), _) => match operator_at(level, next) {
            Some(Op::And) => &[Action::LogicMiddle(Op::And)],
            Some(Op::Or) => &[Action::LogicMiddle(Op::Or)],
            // the right side of any other operator is always evaluated
            _ => &[],
        },
        // no other choice emits an action
        _ => &[],
    }
}

/// Returns what is emitted as a tree is made, other than that of a binary operator or a body.
fn on_rule(action: SemanticAction) -> &'static [Action]
    ensures value { is_on_rule (action_of action) ≡ true → result.now ≡ blank_rule (action_of action) [] }
    ensures most { length result.now ≤ MOST_ACTIONS }
{
    match action {
        SemanticAction::Negate => &[Action::ApplyBinop(Op::Subtract)],
        SemanticAction::Not => &[CONSTANT, Action::ApplyBinop(Op::Equal)],
        SemanticAction::Complement => &[CONSTANT, Action::ApplyBinop(Op::BitXor)],
        SemanticAction::Fetch => &[FETCH],
        SemanticAction::Store(_) => &[STORE],
        SemanticAction::PrefixIncrement(_) => &[CONSTANT, STORE],
        SemanticAction::PostfixIncrement(_) => { &[FETCH, CONSTANT, STORE, Action::Chop] }
        SemanticAction::Invoke => &[END_CALL],
        SemanticAction::Evaluate => &[Action::Chop],
        SemanticAction::Decide | SemanticAction::DecideElse => &[Action::EndIf],
        SemanticAction::Repeat => &[Action::EndWhile],
        SemanticAction::Zero => &[CONSTANT],
        SemanticAction::GiveBack => &[Action::GiveBack],
        SemanticAction::Define => &[CONSTANT, Action::GiveBack, END_FUNCTION],
        SemanticAction::Operate(_) | SemanticAction::Pass | SemanticAction::Empty => &[],
    }
}
