//! Which side of an engine asks: operations, or the plain machine. The cycles and the counts of each robot are worked
//! out by hand, from the code of its source (docs/machine.md) and from where operations give up.

ghost use Rattle.std.specs.Prelude.{◌≡◌};
ghost use Rattle.code.specs.ReachedMachines.{IsReachable as MachineFits};
ghost use Rattle.engine.specs.Engines.{EngineFits, IsStopped};
ghost use Rattle.engine.specs.Questions.{IsAsked, want_of};

use crate::tests::made::{operations_of, program_of};
use code::{Intrinsic, Machine, Profile, Program, Want};
use engine::{Engine, Executable, Question};
use std::process::Abort;
use std::test::Fail;

/// A robot that comes to the limit of frames. In each life operations ask in main and in the first runs of `dig`, and
/// the plain machine in the next ones.
///
/// Main takes 11 cycles up to its call of `dig`, and each run of `dig` 15: five for the sum, `FRAME`, two arguments,
/// `FCALL` and `CHOP` for `scan`, `FRAME`, three for the argument, and `FCALL`. In the k-th run k + 1 frames are open.
/// So of 64 frames none is left for `scan` in the 63rd run, and its sixth cycle restarts: cycle 11 + 62 * 15 + 6 = 947.
/// Main opens three frames at once, so operations call where four more are left: not in the 60th run, as k + 5 = 65.
/// They ask three times in main and once in each of the runs 1 to 60, and the plain machine in the runs 61 and 62.
///
/// Of 128 frames all that comes 64 runs later: the restart in cycle 11 + 126 * 15 + 6 = 1,907.
const DIGGER: &[u8] = b"
    int deep;
    dig(a) { deep = deep + 1; scan(a, deep); dig(a + 1); }
    main() { sin(cos(tan(1))); dig(5); }
";

/// A robot that comes to the limit of words.
///
/// Main takes 11 cycles up to its call of `pile`, seven of them for `wide`, and each run of `pile` 15, as a run of
/// `dig`. At its call the k-th run has 9 * k words below the argument. Of 500 words that of the 55th run needs 504,
/// so its last cycle restarts: cycle 11 + 55 * 15 = 836. The most words of a run are 31, in `wide`. So operations
/// call where 9 * k + 31 are at most 500: up to the 52nd run. They ask once in `wide` and in the runs 1 to 53, and
/// the plain machine in the runs 54 and 55.
///
/// Of 1,000 words operations call up to the 107th run, and the plain machine asks in the runs 109 and 110. The 111th
/// begins with 999 words and restarts in its second cycle: 11 + 110 * 15 + 2 = 1,663.
const PILER: &[u8] = b"
    int deep;
    wide() {
      int a0, a1, a2, a3, a4, a5, a6, a7, a8, a9, b0, b1, b2, b3, b4, b5, b6, b7, b8, b9;
      int c0, c1, c2, c3, c4, c5, c6, c7, c8, c9;
      speed();
    }
    pile(a) { int b, c, d, e, f, g, h, i; deep = deep + 1; scan(a, deep); pile(a + 1); }
    main() { wide(); pile(5); }
";

/// A robot that turns back within the limit of frames, and never restarts.
///
/// Main takes 11 cycles up to its call of `dig`, and the runs 1 to 61 of `dig` nine each up to theirs: four for the
/// condition, `FRAME`, three for the argument, and `FCALL`. The 62nd run takes six, and each other one three more,
/// `CHOP`, `CONST` and `RETSUB`. `CHOP` in main is cycle 11 + 61 * 9 + 6 + 61 * 3 + 1 = 750. Then each turn of the loop
/// takes seven. Operations give up in the 60th run, as in the digger, so the plain machine asks all of the loop.
const RETURNER: &[u8] = b"
    dig(a) { if (a < 61) dig(a + 1); }
    main() { sin(cos(tan(1))); dig(0); while (1) speed(); }
";

/// A robot that calls little: nine cycles a turn.
const SCANNER: &[u8] = b"main() { while (1) scan(1, 10); }";

/// A robot whose main returns: `FRAME`, `FCALL`, `CHOP`, `CONST`, and the restart in the fifth cycle.
const ASKER: &[u8] = b"main() { damage(); }";

/// A robot that isn't translated. A life takes four cycles up to the first run of `f`, six for each of the three runs
/// with its `FCALL`, and three up to the restart: 25 in all.
const NESTER: &[u8] = b"f(a) { return a + damage(); } main() { f(f(f(1))); }";

/// How often each side asked and restarted.
#[derive(Clone, Copy, Debug, Default, PartialEq, Eq)]
pub struct Sides {
    asks: u16,
    restarts: u16,
    plain_asks: u16,
    plain_restarts: u16,
}

/// Adds one.
fn add_one(count: &mut u16) {
    *count = count.saturating_add(1);
}

impl Sides {
    /// Counts a question or a restart.
    fn count(&mut self, question: Question) {
        match question {
            Question::Plain(Want::Restart) => add_one(&mut self.plain_restarts),
            Question::Plain(_) => add_one(&mut self.plain_asks),
            Question::Restart => add_one(&mut self.restarts),
            Question::Draw(..)
            | Question::Ask(..)
            | Question::Scan(..)
            | Question::Cannon(..)
            | Question::Drive(..) => add_one(&mut self.asks),
        }
    }
}

/// Returns what a question wants.
fn want_of(question: Question) -> Want
    ensures { result ≡ want_of question }
{
    match question {
        Question::Draw(_, limit) => Want::Ask(Intrinsic::Rand, [limit, 0]),
        Question::Ask(_, intrinsic, word) => Want::Ask(intrinsic, [word, 0]),
        Question::Scan(_, degree, resolution) => Want::Ask(Intrinsic::Scan, [degree, resolution]),
        Question::Cannon(_, degree, range) => Want::Ask(Intrinsic::Cannon, [degree, range]),
        Question::Drive(_, degree, speed) => Want::Ask(Intrinsic::Drive, [degree, speed]),
        Question::Restart => Want::Restart,
        Question::Plain(want) => want,
    }
}

/// Runs the cycle in which an engine asks or restarts, and a plain machine beside it, which has to want the same.
/// Returns what the engine asked.
fn answer(
    rt: &impl Abort,
    engine: &mut Engine,
    exe: &Executable<'_>,
    machine: &mut Machine,
    program: &Program,
    reply: i32,
) -> Question
    requires fits { EngineFits engine.old exe.now }
    requires stopped { IsStopped exe.now engine.old }
    requires machine { MachineFits machine.old program.now }
    ensures fits { EngineFits engine.new exe.now }
    ensures machine { MachineFits machine.new program.now }
{
    let question = engine.asked(exe);
    let want = want_of(question);
    assert_eq!(rt; machine.next(program), want);
    match want {
        Want::Ask(..) => {
            engine.reply(exe, question, reply);
            machine.advance(program, reply);
        }
        Want::Quiet | Want::Restart => {
            engine.restart(exe);
            machine.restart(program);
        }
    }
    question
}

/// Runs an engine for the given number of cycles, and a plain machine beside it, which has to ask the same in the same
/// cycles. The replies differ from cycle to cycle. Returns how often each side asked.
fn both_run(rt: &impl Abort, exe: &Executable<'_>, program: &Program, cycles: u16) -> Sides {
    let (mut engine, mut machine) = (Engine::default(), Machine::new(program));
    engine.restart(exe);
    let mut sides = Sides::default();
    let mut left = u32::from(cycles);
    while left > 0 {
        let quiet = engine.run_quiet(exe, left).min(left);
        assert_eq!(rt;
            machine.run_quiet(program, quiet),
            quiet,
            "{left} cycles are left"
        );
        left -= quiet;
        if left > 0 {
            let reply = left as i32 % 100 - 50;
            sides.count(answer(rt, &mut engine, exe, &mut machine, program, reply));
            left -= 1;
        }
    }
    sides
}

/// Compiles a good source, translates it if it can be, and returns how often each side asks in the given number of
/// cycles.
fn sides_of(rt: &impl Abort, profile: Profile, source: &[u8], cycles: u16) -> Result<Sides, Fail> {
    let program = program_of(profile, source)?;
    let operations = operations_of(&program);
    let exe = Executable::new(&program, &operations);
    Ok(both_run(rt, &exe, &program, cycles))
}

/// Makes counts: questions and restarts by operations, and by the plain machine.
fn counted(asks: u16, restarts: u16, plain_asks: u16, plain_restarts: u16) -> Sides {
    Sides {
        asks,
        restarts,
        plain_asks,
        plain_restarts,
    }
}

#[test]
fn the_right_side_asks(rt: HostRuntime) -> Result<(), Fail> {
    let (first, second) = (Profile::first(), Profile::second());
    let table = [
        // in its second life and in its third one the digger asks by operations again
        ("digger", first, DIGGER, 947, counted(63, 0, 2, 1)),
        ("digger", first, DIGGER, 947 + 11, counted(66, 0, 2, 1)),
        ("digger", first, DIGGER, 3 * 947, counted(189, 0, 6, 3)),
        ("digger", second, DIGGER, 2 * 1907, counted(254, 0, 4, 2)),
        ("piler", first, PILER, 836, counted(54, 0, 2, 1)),
        ("piler", first, PILER, 836 + 11, counted(55, 0, 2, 1)),
        ("piler", first, PILER, 3 * 836, counted(162, 0, 6, 3)),
        ("piler", second, PILER, 2 * 1663, counted(218, 0, 4, 2)),
        (
            "returner",
            first,
            RETURNER,
            750 + 7 * 100,
            counted(3, 0, 100, 0),
        ),
        ("scanner", first, SCANNER, 9 * 100, counted(100, 0, 0, 0)),
        ("asker", first, ASKER, 5 * 100, counted(100, 100, 0, 0)),
        ("nester", first, NESTER, 25 * 100, counted(0, 0, 300, 100)),
    ];
    for (name, profile, source, cycles, want) in table {
        let sides = sides_of(&rt, profile, source, cycles)?;
        assert_eq!(rt; sides, want, "{name}, {cycles} cycles");
    }
    Ok(())
}
