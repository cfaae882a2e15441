//! The duel: what each robot asks, and what is printed after each update.

ghost use Rattle.std.specs.Prelude.{◌≡◌, ◌+◌, ◌<◌, ◌≤◌, length};

use arena::Arena;
use arrayvec::ArrayVec;
use grammar::Intrinsic;
use std::io;

/// How many updates the duel has.
const UPDATES: u32 = 6;

/// Places two robots 100 metres from each other and plays the duel.
pub fn duel(rt: &impl Print) -> io::Result<()> {
    let mut places = ArrayVec::new();
    places.push((2000, 5000));
    places.push((3000, 5000));
    let mut arena = Arena::placed(1, 1, &places);
    ask(rt, &mut arena, 1, Intrinsic::Drive, [90, 50])?;
    for update in 0..UPDATES {
        if update % 2 == 0 {
            ask(rt, &mut arena, 0, Intrinsic::Scan, [0, 10])?;
            ask(rt, &mut arena, 0, Intrinsic::Cannon, [0, 100])?;
        }
        arena.update();
        println!(rt; "update {}", update + 1)?;
        for robot in 0..2 {
            print_robot(rt, &arena, robot)?;
        }
    }
    Ok(())
}

/// Asks the field for a robot, and prints the reply. Only a live robot may ask.
fn ask(
    rt: &impl Print,
    arena: &mut Arena,
    robot: usize,
    intrinsic: Intrinsic,
    arguments: [i32; 2],
) -> io::Result<()>
    requires { robot < length arena.old.robots }
    ensures updates { arena.new.updates ≡ arena.old.updates }
    ensures robots { length arena.new.robots ≡ length arena.old.robots }
{
    if arena.alive(robot) {
        let reply = arena.ask(robot, intrinsic, arguments);
        println!(rt; "robot {robot} asks {intrinsic:?} {arguments:?}: {reply}")?;
    }
    Ok(())
}

/// Prints a robot's place in tenths of a metre, and its damage.
fn print_robot(rt: &impl Print, arena: &Arena, robot: usize) -> io::Result<()>
    requires { robot < length arena.now.robots }
{
    let (x, y) = arena.place(robot);
    println!(rt;
        "  robot {robot} is at ({x}, {y}), damage {}",
        arena.damage(robot)
    )
}
