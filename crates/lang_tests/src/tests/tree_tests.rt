//! Forms of the language with the trees that a parse makes of them.

use crate::tests::checks::{check_trees, parsed};
use std::process::Abort;
use std::test::Fail;
use tokens::MemoryFeed;

/// Sources, each with the statements of its first function.
const FORMS: &[(&[u8], &str)] = &[
    // a unary operator is a binary one with a constant
    (
        b"main(){-1 * 2; !3; ~4;}",
        "[ExpressionStatement(Binary(Multiply, Binary(Subtract, Constant(0), Constant(1)), Constant(2))), \
         ExpressionStatement(Binary(Equal, Constant(3), Constant(0))), \
         ExpressionStatement(Binary(BitXor, Constant(4), Constant(-1)))]",
    ),
    (
        b"main(){++a; --a; a++; a--;}",
        "[ExpressionStatement(Assign(Add, Local(0), Constant(1))), \
         ExpressionStatement(Assign(Subtract, Local(0), Constant(1))), \
         ExpressionStatement(Postfix(Add, Local(0))), \
         ExpressionStatement(Postfix(Subtract, Local(0)))]",
    ),
    // operators of one level are grouped to the left
    (
        b"main(){1 - 2 + 3; 4 / 5 % 6; 7 - (8 - 9);}",
        "[ExpressionStatement(Binary(Add, Binary(Subtract, Constant(1), Constant(2)), Constant(3))), \
         ExpressionStatement(Binary(Remainder, Binary(Divide, Constant(4), Constant(5)), Constant(6))), \
         ExpressionStatement(Binary(Subtract, Constant(7), Binary(Subtract, Constant(8), Constant(9))))]",
    ),
    // each level binds tighter than the one before
    (
        b"main(){1 || 2 && 3 | 4 ^ 5 & 6 == 7 < 8 << 9 + 10 * 11;}",
        "[ExpressionStatement(Binary(Or, Constant(1), Binary(And, Constant(2), Binary(BitOr, Constant(3), \
         Binary(BitXor, Constant(4), Binary(BitAnd, Constant(5), Binary(Equal, Constant(6), \
         Binary(Less, Constant(7), Binary(ShiftLeft, Constant(8), Binary(Add, Constant(9), \
         Binary(Multiply, Constant(10), Constant(11))))))))))))]",
    ),
    (
        b"main(){1 != 2; 3 > 4; 5 <= 6; 7 >= 8; 9 >> 10;}",
        "[ExpressionStatement(Binary(NotEqual, Constant(1), Constant(2))), \
         ExpressionStatement(Binary(Greater, Constant(3), Constant(4))), \
         ExpressionStatement(Binary(LessOrEqual, Constant(5), Constant(6))), \
         ExpressionStatement(Binary(GreaterOrEqual, Constant(7), Constant(8))), \
         ExpressionStatement(Binary(ShiftRight, Constant(9), Constant(10)))]",
    ),
    (
        b"main(){a = b -= 1; a *= 2; a /= 3; a %= 4;}",
        "[ExpressionStatement(Assign(Set, Local(0), Assign(Subtract, Local(1), Constant(1)))), \
         ExpressionStatement(Assign(Multiply, Local(0), Constant(2))), \
         ExpressionStatement(Assign(Divide, Local(0), Constant(3))), \
         ExpressionStatement(Assign(Remainder, Local(0), Constant(4)))]",
    ),
    (
        b"main(){a += 1; a <<= 2; a >>= 3; a &= 4; a ^= 5; a |= 6;}",
        "[ExpressionStatement(Assign(Add, Local(0), Constant(1))), \
         ExpressionStatement(Assign(ShiftLeft, Local(0), Constant(2))), \
         ExpressionStatement(Assign(ShiftRight, Local(0), Constant(3))), \
         ExpressionStatement(Assign(BitAnd, Local(0), Constant(4))), \
         ExpressionStatement(Assign(BitXor, Local(0), Constant(5))), \
         ExpressionStatement(Assign(BitOr, Local(0), Constant(6)))]",
    ),
    (
        b"main(){scan(1, rand(2), a++); main();}",
        "[ExpressionStatement(Call(Intrinsic(Scan), \
         [Constant(1), Call(Intrinsic(Rand), [Constant(2)]), Postfix(Add, Local(0))])), \
         ExpressionStatement(Call(Function(0), []))]",
    ),
    // an `else` belongs to the nearest `if`
    (
        b"main(){if(1) if(2) 3; else 4;}",
        "[IfStatement(Constant(1), [IfElseStatement(Constant(2), [ExpressionStatement(Constant(3))], \
         [ExpressionStatement(Constant(4))])])]",
    ),
    (
        b"main(){if(1) {2; {3;} ;} else {} while(a = 4) ;}",
        "[IfElseStatement(Constant(1), [ExpressionStatement(Constant(2)), ExpressionStatement(Constant(3))], []), \
         While(Assign(Set, Local(0), Constant(4)), [])]",
    ),
    (
        b"main(){return; return 1;}",
        "[Return(Constant(0)), Return(Constant(1))]",
    ),
];

#[test]
fn forms_have_their_trees(rt: HostRuntime) -> Result<(), Fail> {
    for (source, body) in FORMS {
        let outcome = parsed(rt.alloc(), MemoryFeed::new(source, 4_096));
        assert_eq!(rt; outcome.fault(), None, "{body}");
        let main = outcome.trees.functions().first().ok_or(*body)?;
        let made = format!(in rt.alloc(); "{:?}", main.body)?;
        assert_eq!(rt; made.as_str(), *body);
    }
    Ok(())
}

/// An external, and a local of its name that is declared later.
const HIDDEN: &[u8] = b"int x; main(){x; {int x; x;} x;}";

/// What its parse makes.
const HIDDEN_MADE: &[&str] = &[
    "externals x",
    "main x: Function { number: 0, parameters: 0, variables: 1, body: [\
     ExpressionStatement(Variable(External(0))), ExpressionStatement(Variable(Local(0))), \
     ExpressionStatement(Variable(Local(0)))] }",
];

/// What the parse of `main(){x;} int x;` makes.
const LATER_MADE: &[&str] = &[
    "externals x",
    "main x: Function { number: 0, parameters: 0, variables: 1, body: [ExpressionStatement(Variable(Local(0)))] }",
];

/// What the parse of `main(){g(); f();} f(){} g(){}` makes.
const MENTIONED_MADE: &[&str] = &[
    "externals",
    "main: Function { number: 0, parameters: 0, variables: 0, body: [\
     ExpressionStatement(Call(Function(1), [])), ExpressionStatement(Call(Function(2), []))] }",
    "f: Function { number: 2, parameters: 0, variables: 0, body: [] }",
    "g: Function { number: 1, parameters: 0, variables: 0, body: [] }",
];

#[test]
fn names_have_numbers_by_first_mention(rt: HostRuntime) -> Result<(), Fail> {
    check_trees(&rt, HIDDEN, HIDDEN_MADE)?;
    check_trees(&rt, b"main(){x;} int x;", LATER_MADE)?;
    check_trees(&rt, b"main(){g(); f();} f(){} g(){}", MENTIONED_MADE)
}
