//! Machines of whole sources: in which cycles they ask, and in which they first restart.

ghost use Rattle.code.specs.ReachedMachines.{IsReachable};

use crate::tests::checks::program_of;
use code::{Machine, Program, Want};
use lang::Intrinsic;
use std::alloc::{AllocError, Global};
use std::process::Abort;
use std::test::Fail;

/// Returns the cycles that ask before the first restart, and the restart's own after them, if each reply is 0.
fn asks_and_restart(alloc: Global, program: &Program) -> Result<Vec<u32>, AllocError> {
    let mut cycles = Vec::new(alloc);
    let mut machine = Machine::new(program);
    for cycle in 1..=200 {
        let want = machine.next(program);
        if want != Want::Quiet {
            cycles.push(cycle)?;
        }
        if want == Want::Restart {
            break;
        }
        machine.advance(program, 0);
    }
    Ok(cycles)
}

/// Sources, and their cycles that ask or restart up to the first restart.
const RESTARTS: &[(&[u8], &[u32])] = &[
    (b"main(){return 5;}", &[2]),
    (b"main(){damage();}", &[2, 5]),
    (b"main(){while(1) if(0) 2; else 3;}", &[]),
    (b"main(){while(1) while(1) return;}", &[6]),
    (b"main(){main();}", &[127]),
    (
        b"f(){
            int a0,a1,a2,a3,a4,a5,a6,a7,a8,a9,a10,a11,a12,a13,a14,a15,a16,a17,a18,a19,a20,a21,a22,a23,a24;
            int a25,a26,a27,a28,a29,a30,a31,a32,a33,a34,a35,a36,a37,a38,a39,a40,a41,a42,a43,a44,a45,a46,a47,a48,a49;
            f();
          }
          main(){f();}",
        &[22],
    ),
    // the tenth call fills the stack, and then damage isn't asked
    (
        b"f(){
            int a0,a1,a2,a3,a4,a5,a6,a7,a8,a9,a10,a11,a12,a13,a14,a15,a16,a17,a18,a19,a20,a21,a22,a23,a24;
            int a25,a26,a27,a28,a29,a30,a31,a32,a33,a34,a35,a36,a37,a38,a39,a40,a41,a42,a43,a44,a45,a46,a47,a48,a49;
            damage(); f();
          }
          main(){f();}",
        &[4, 9, 14, 19, 24, 29, 34, 39, 44, 49],
    ),
];

#[test]
fn restarts_in_its_cycle(rt: HostRuntime) -> Result<(), Fail> {
    for (source, cycles) in RESTARTS {
        let program = program_of(source)?;
        assert_eq!(rt; asks_and_restart(rt.alloc(), &program)?.as_slice(), *cycles);
    }
    Ok(())
}

/// Goes on by the given number of cycles, in which the machine wants nothing.
fn pass(rt: &impl Abort, machine: &mut Machine, program: &Program, cycles: u32)
    requires { IsReachable machine.old program.now }
    ensures { IsReachable machine.new program.now }
{
    for _ in 0..cycles {
        assert_eq!(rt; machine.next(program), Want::Quiet);
        machine.advance(program, 0);
    }
}

#[test]
fn asks_within_a_call(rt: HostRuntime) -> Result<(), Fail> {
    let program = program_of(b"f(a){return a+damage();} main(){f(5);}")?;
    let mut machine = Machine::new(&program);
    pass(&rt, &mut machine, &program, 5);
    assert_eq!(rt;
        machine.next(&program),
        Want::Ask(Intrinsic::Damage, [0, 0])
    );
    machine.advance(&program, 7);
    pass(&rt, &mut machine, &program, 4);
    assert_eq!(rt; machine.next(&program), Want::Restart);
    Ok(())
}
