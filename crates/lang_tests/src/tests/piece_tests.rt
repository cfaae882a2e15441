//! Sources in pieces of many sizes: what a parse makes doesn't depend on how they are cut.

use crate::tests::checks::{check_fault, check_trees};
use crate::tests::sources::Part::{Once, Times};
use crate::tests::sources::source_of;
use lang::Code;
use std::test::Fail;

/// What the parse of `main(){}` makes.
const EMPTY_MAIN: &[&str] = &[
    "externals",
    "main: Function { number: 0, parameters: 0, variables: 0, body: [] }",
];

/// What the parse of `main(){ x = a+++b; }` makes.
const POSTFIX: &[&str] = &[
    "externals",
    "main x a b: Function { number: 0, parameters: 0, variables: 3, body: [\
     ExpressionStatement(Assign(Set, Local(0), Binary(Add, Postfix(Add, Local(1)), Variable(Local(2)))))] }",
];

/// What the parse of `d(x,y) int x,y; {return(x*x+y*y);} main(){d(3);}` makes.
const PARAMETERS: &[&str] = &[
    "externals",
    "d x y: Function { number: 0, parameters: 2, variables: 2, body: [Return(Binary(Add, \
     Binary(Multiply, Variable(Local(0)), Variable(Local(0))), \
     Binary(Multiply, Variable(Local(1)), Variable(Local(1)))))] }",
    "main: Function { number: 1, parameters: 0, variables: 0, body: [\
     ExpressionStatement(Call(Function(0), [Constant(3)]))] }",
];

/// A file with an external, a function, a loop and an intrinsic function.
const SHOT: &[u8] = b"int x; f(){x=1;return 1;} main(){x+=f(); if(x==2) cannon(0,0); while(1);}";

/// What its parse makes.
const SHOT_MADE: &[&str] = &[
    "externals x",
    "f: Function { number: 0, parameters: 0, variables: 0, body: [\
     ExpressionStatement(Assign(Set, External(0), Constant(1))), Return(Constant(1))] }",
    "main: Function { number: 1, parameters: 0, variables: 0, body: [\
     ExpressionStatement(Assign(Add, External(0), Call(Function(0), []))), \
     IfStatement(Binary(Equal, Variable(External(0)), Constant(2)), [\
     ExpressionStatement(Call(Intrinsic(Cannon), [Constant(0), Constant(0)]))]), \
     While(Constant(1), [])] }",
];

#[test]
fn files_have_their_names_and_trees(rt: HostRuntime) -> Result<(), Fail> {
    check_trees(&rt, b"main(){}", EMPTY_MAIN)?;
    check_trees(&rt, b"main(){ x = a+++b; }", POSTFIX)?;
    let parameters = b"d(x,y) int x,y; {return(x*x+y*y);} main(){d(3);}";
    check_trees(&rt, parameters, PARAMETERS)?;
    check_trees(&rt, SHOT, SHOT_MADE)?;
    // the byte 26 ends a source
    check_trees(&rt, b"main(){}\x1a/* x", EMPTY_MAIN)
}

#[test]
fn faulty_files_have_their_fault(rt: HostRuntime) -> Result<(), Fail> {
    check_fault(&rt, b"main(){ f(); }", Some((1, Code::FunctionNotDefined)))?;
    check_fault(&rt, b"main(){\nbreak; }", Some((2, Code::ReservedWord)))?;
    check_fault(&rt, b"main(){}\n/* x", Some((2, Code::CommentNotClosed)))
}

/// What the parse of `main(){x<<=1;}` makes.
const SHIFTED: &[&str] = &[
    "externals",
    "main x: Function { number: 0, parameters: 0, variables: 1, body: [\
     ExpressionStatement(Assign(ShiftLeft, Local(0), Constant(1)))] }",
];

/// What the parse of `main(){abcdefghijklmnopqrstuvwxyz_1234;}` makes.
const LONG_NAME: &[&str] = &[
    "externals",
    "main abcdefghijklmnopqrstuvwxyz_1234: Function { number: 0, parameters: 0, variables: 1, body: [\
     ExpressionStatement(Variable(Local(0)))] }",
];

/// What the parse of `main(){1;}` makes.
const ONE: &[&str] = &[
    "externals",
    "main: Function { number: 0, parameters: 0, variables: 0, body: [ExpressionStatement(Constant(1))] }",
];

#[test]
fn tokens_may_lie_across_the_end_of_the_window(rt: HostRuntime) -> Result<(), Fail> {
    for offset in [4_094, 4_095, 4_096] {
        let punctuator = [Once(b"main(){x"), Times(b" ", offset - 8), Once(b"<<=1;}")];
        check_trees(&rt, &source_of(rt.alloc(), &punctuator)?, SHIFTED)?;
        let name = [
            Once(b"main(){"),
            Times(b" ", offset - 7),
            Once(b"abcdefghijklmnopqrstuvwxyz_1234;}"),
        ];
        check_trees(&rt, &source_of(rt.alloc(), &name)?, LONG_NAME)?;
        let comment = [
            Once(b"main(){"),
            Times(b" ", offset - 7),
            Once(b"/* x; */1;}"),
        ];
        check_trees(&rt, &source_of(rt.alloc(), &comment)?, ONE)?;
    }
    Ok(())
}
