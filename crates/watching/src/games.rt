//! Plays a match before a watcher, cycle by cycle: a turn of each live robot, and after each 15th cycle an update.

ghost use Rattle.std.specs.Prelude.{◌≡◌, ◌⊎◌, ◌==◌, ◌||◌, ℕ, ◌≢◌, ◌+◌, ◌-◌, ◌*◌, ◌/◌, ◌%◌, ◌≤◌, ◌<◌, ◌++◌, ◌∷◌, false, [], List, length, replicate};
ghost use Rattle.arena.specs.Field.{Field};
ghost use Rattle.arena.specs.Arena.{most_updates};
ghost use Rattle.arena.specs.Moved.{moved};
ghost use Rattle.arena.specs.Representing.{RepresentsField};
ghost use Rattle.battles.specs.Battle.{Behaviour, BattleState, first_state, is_due, state_after, turns};
ghost use Rattle.battles.specs.Carrying.{AreRobotsOf, EachIsAheadOf};
ghost use Rattle.code.specs.Generation.{Program};
ghost use Rattle.watching.specs.Games.{EndsWell, GoesOn, HasCome, HasEnded, HaveTakenTurns, TakesTurns};
ghost use Rattle.watching.specs.Pilot.{Pilot};
ghost use Rattle.watching.specs.Played.{HavePlayed, HaveUpdated, IsPlayed, codes_of, exes_of, runners_of};
ghost use Rattle.watching.specs.Sights.{Begins, Sight, Updated, Updates, cycle_sights, sights_of, turns_sights, update_sights};

use crate::pilot::Pilot;
use crate::watcher::{Turn, Watcher};
use arena::{Arena, MOST_ROBOTS};
use battles::UPDATE_CYCLES;
use settings::MOST_CYCLES;
use std::marker::Model;

/// How far a match was played.
#[derive(Clone, Copy)]
pub struct PlayEnd {
    /// The number of the last cycle that was played.
    pub cycles: u32,
    /// Whether the match is over: at most one robot lives after an update, or the limit of cycles is reached. If not,
    /// the watcher wanted no more.
    pub is_over: bool,
}

/// A match as it is played: its field, how far it has come, and its limit of cycles.
#[derive(Drop)]
pub struct Game {
    arena: Arena,
    ending: PlayEnd,
    limit: u32,
}

impl Model for Game {
    ghost use Rattle.std.specs.Prelude.{◌≤◌};
    ghost use Rattle.settings.specs.declared.settings_limits.TheConstants.{MOST_CYCLES};
    ghost use Rattle.watching.specs.Games.{Game, IsCounted};

    ghost Value = { Game };

    ghost view = { λ g. record { arena = g.arena; ending = g.ending; limit = g.limit } };

    ghost invariant = { λ g. IsCounted (view g) × (g.limit ≤ MOST_CYCLES) };
}

impl Game {
    /// Begins the match of this number and seed, of at most `limit` cycles: each pilot is put at the start of its
    /// program, whatever it did before.
    pub fn new(pilots: &mut [Pilot<'_>], seed: u64, number: u32, limit: u32) -> Game
        requires some { 2 ≤ length pilots.old }
        requires most { length pilots.old ≤ MOST_ROBOTS }
        requires limit { limit ≤ MOST_CYCLES }
        ensures battle { (robots : List Behaviour) → AreRobotsOf (exes_of (codes_of pilots.old)) robots
            → HasCome (codes_of pilots.old) robots (first_state (length robots) seed number) pilots.new result }
        ensures codes { codes_of pilots.new ≡ codes_of pilots.old }
        ensures manned { length result.arena.robots ≡ length pilots.new }
        ensures begins { result.ending.cycles ≡ 0 }
        ensures limit { result.limit ≡ limit }
        ensures ends { EndsWell result }
    {
        begin(pilots);
        Game {
            arena: Arena::new(seed, u64::from(number), pilots.len()),
            ending: PlayEnd {
                cycles: 0,
                is_over: limit == 0,
            },
            limit,
        }
    }

    /// Returns the field.
    pub fn arena(&self) -> &Arena
        ensures { result.now ≡ self.now.arena }
    {
        &self.arena
    }

    /// Returns how far the match was played.
    pub fn ending(&self) -> PlayEnd
        ensures ending { result ≡ self.now.ending }
        ensures limit { result.cycles ≤ self.now.limit }
        ensures most { result.cycles ≤ MOST_CYCLES }
        ensures goes_on { result.is_over ≡ false → result.cycles < self.now.limit }
    {
        self.ending
    }

    /// Plays the next cycle of a match that isn't over, before a watcher.
    pub fn cycle<W: Watcher>(&mut self, pilots: &mut [Pilot<'_>], watcher: &mut W)
        requires manned { length self.old.arena.robots ≡ length pilots.old }
        requires goes_on { self.old.ending.is_over ≡ false }
        ensures battle { (robots : List Behaviour) (s : BattleState) → AreRobotsOf (exes_of (codes_of pilots.old)) robots
            → HasCome (codes_of pilots.old) robots s pilots.old self.old
            → HasCome (codes_of pilots.old) robots s pilots.new self.new }
        ensures codes { codes_of pilots.new ≡ codes_of pilots.old }
        ensures manned { length self.new.arena.robots ≡ length pilots.new }
        ensures next { GoesOn self.old self.new }
        ensures ends { EndsWell self.new }
        ensures told { (robots : List Behaviour) (s : BattleState) (sights : List Sight)
            → AreRobotsOf (exes_of (codes_of pilots.old)) robots
            → HasCome (codes_of pilots.old) robots s pilots.old self.old → W.told watcher.old sights → W.told watcher.new
            (sights ++ cycle_sights robots (self.old.ending.cycles + 1) (state_after robots s self.old.ending.cycles)) }
        ensures kept { W.keeps watcher.new ≡ W.keeps watcher.old }
    {
        self.take_turns(pilots, watcher);
        self.end_cycle(watcher);
    }

    /// Runs the robots' turns of the next cycle of a match that isn't over, before a watcher. `end_cycle` is to follow.
    pub fn take_turns<W: Watcher>(&mut self, pilots: &mut [Pilot<'_>], watcher: &mut W)
        requires manned { length self.old.arena.robots ≡ length pilots.old }
        requires goes_on { self.old.ending.is_over ≡ false }
        ensures turns { TakesTurns self.old self.new pilots.old pilots.new }
        ensures manned { length self.new.arena.robots ≡ length pilots.new }
        ensures told { (robots : List Behaviour) (s : BattleState) (sights : List Sight)
            → AreRobotsOf (exes_of (codes_of pilots.old)) robots
            → HasCome (codes_of pilots.old) robots s pilots.old self.old → W.told watcher.old sights → W.told watcher.new
            (sights ++ turns_sights robots (self.old.ending.cycles + 1) (state_after robots s self.old.ending.cycles)
            (length robots)) }
        ensures kept { W.keeps watcher.new ≡ W.keeps watcher.old }
    {
        let cycle = self.ending.cycles + 1;
        turns(pilots, &mut self.arena, watcher, cycle);
    }

    /// Reports whether an update follows the turns of the next cycle.
    pub fn is_update_due(&self) -> bool
        requires { self.now.ending.is_over ≡ false }
        ensures { result ≡ is_due (self.now.ending.cycles + 1) }
    {
        (self.ending.cycles + 1) % UPDATE_CYCLES == 0
    }

    /// Ends the next cycle of a match that isn't over, in which the robots have taken their turns: does the update if
    /// one is due, before a watcher.
    pub fn end_cycle<W: Watcher>(&mut self, watcher: &mut W)
        requires { self.old.ending.is_over ≡ false }
        ensures battle { (codes : List Program) (robots : List Behaviour) (s : BattleState) (seats : List Pilot)
            → HaveTakenTurns codes robots s seats self.old → HasCome codes robots s seats self.new }
        ensures manned { length self.new.arena.robots ≡ length self.old.arena.robots }
        ensures next { GoesOn self.old self.new }
        ensures ends { EndsWell self.new }
        ensures told { (f : Field) (sights : List Sight) → RepresentsField self.old.arena f → W.told watcher.old sights
            → W.told watcher.new (sights ++ update_sights (self.old.ending.cycles + 1) f) }
        ensures kept { W.keeps watcher.new ≡ W.keeps watcher.old }
    {
        let cycle = self.ending.cycles + 1;
        let is_decided = update_after(&mut self.arena, watcher, cycle);
        self.ending = PlayEnd {
            cycles: cycle,
            is_over: is_last_of_match(is_decided, cycle, self.limit),
        };
    }
}

/// Reports whether a cycle is the last one of a match: it decides the match, or reaches the limit.
fn is_last_of_match(is_decided: bool, cycle: u32, limit: u32) -> bool
    ensures { result ≡ (is_decided || cycle == limit) }
{
    is_decided || cycle == limit
}

/// Plays the match of this number and seed before a watcher, up to its end, or until the watcher wants no more: at most
/// `limit` cycles. What the pilots did before makes no difference. It is the battle that the runner of matches plays.
pub fn play<W: Watcher>(
    pilots: &mut [Pilot<'_>],
    watcher: &mut W,
    seed: u64,
    number: u32,
    limit: u32,
) -> PlayEnd
    requires some { 2 ≤ length pilots.old }
    requires most { length pilots.old ≤ MOST_ROBOTS }
    requires limit { limit ≤ MOST_CYCLES }
    ensures battle { (robots : List Behaviour) → AreRobotsOf (exes_of (codes_of pilots.old)) robots
        → IsPlayed robots seed number limit result }
    ensures whole { result.is_over ≡ false → W.asks_more watcher.new result.cycles ≡ false }
    ensures kept { W.keeps watcher.new ≡ W.keeps watcher.old }
    ensures told { (robots : List Behaviour) (sights : List Sight) → AreRobotsOf (exes_of (codes_of pilots.old)) robots
        → W.told watcher.old sights → let opening = first_state (length robots) seed number in
        W.told watcher.new (sights ++ Begins opening.field ∷ [] ++ sights_of robots opening result.cycles) }
    ensures limit { result.cycles ≤ limit }
    ensures ends { (result.cycles ≡ limit) ⊎ (result.cycles ≡ result.cycles / UPDATE_CYCLES * UPDATE_CYCLES) }
{
    let mut game = Game::new(pilots, seed, number, limit);
    watcher.begins(game.arena());
    play_on(&mut game, pilots, watcher);
    game.ending()
}

/// Puts each pilot at the start of its program.
fn begin(pilots: &mut [Pilot<'_>])
    ensures codes { codes_of pilots.new ≡ codes_of pilots.old }
    ensures begun { EachIsAheadOf (runners_of pilots.new) (exes_of (codes_of pilots.old)) (replicate (length pilots.old) []) }
{
    for robot in 0..pilots.len() {
        pilots[robot].begin();
    }
}

/// Plays on until the match is over, or the watcher wants no more.
fn play_on<W: Watcher>(game: &mut Game, pilots: &mut [Pilot<'_>], watcher: &mut W)
    requires manned { length game.old.arena.robots ≡ length pilots.old }
    requires begins { game.old.ending.cycles ≡ 0 }
    requires ends { EndsWell game.old }
    ensures battle { (robots : List Behaviour) (s : BattleState) → AreRobotsOf (exes_of (codes_of pilots.old)) robots
        → HasCome (codes_of pilots.old) robots s pilots.old game.old
        → HasCome (codes_of pilots.old) robots s pilots.new game.new }
    ensures whole { game.new.ending.is_over ≡ false → W.asks_more watcher.new game.new.ending.cycles ≡ false }
    ensures kept { W.keeps watcher.new ≡ W.keeps watcher.old }
    ensures told { (robots : List Behaviour) (s : BattleState) (sights : List Sight)
        → AreRobotsOf (exes_of (codes_of pilots.old)) robots
        → HasCome (codes_of pilots.old) robots s pilots.old game.old → W.told watcher.old sights
        → W.told watcher.new (sights ++ sights_of robots s game.new.ending.cycles) }
    ensures limit { game.new.limit ≡ game.old.limit }
    ensures ends { (game.new.ending.cycles ≡ game.new.limit)
        ⊎ (game.new.ending.cycles ≡ game.new.ending.cycles / UPDATE_CYCLES * UPDATE_CYCLES) }
{
    while !game.ending().is_over {
        game.cycle(pilots, watcher);
        let cycle = game.ending().cycles;
        if cycle % UPDATE_CYCLES == 0 && !watcher.wants_more(cycle) {
            return;
        }
    }
}

/// Does the update after the turns of a cycle, if one is due. Reports whether that decides the match.
fn update_after<W: Watcher>(arena: &mut Arena, watcher: &mut W, cycle: u32) -> bool
    requires updates { arena.old.updates < most_updates }
    requires counts { arena.old.updates ≡ (cycle - 1) / UPDATE_CYCLES }
    requires some { 0 < cycle }
    ensures battle { (codes : List Program) (robots : List Behaviour) (s : BattleState) (seats : List Pilot) (before : ℕ)
        → cycle ≡ before + 1 → HasEnded codes robots s before seats arena.old arena.new result }
    ensures manned { length arena.new.robots ≡ length arena.old.robots }
    ensures due { cycle % UPDATE_CYCLES ≡ 0 → arena.new.updates ≡ arena.old.updates + 1 }
    ensures between { cycle % UPDATE_CYCLES ≢ 0 → (arena.new.updates ≡ arena.old.updates) × (result ≡ false) }
    ensures told { (f : Field) (sights : List Sight) → RepresentsField arena.old f → W.told watcher.old sights
        → W.told watcher.new (sights ++ update_sights cycle f) }
    ensures kept { W.keeps watcher.new ≡ W.keeps watcher.old }
{
    cycle % UPDATE_CYCLES == 0 && decides(arena, watcher, cycle)
}

/// Runs the turns of one cycle, in the order of the robots.
fn turns<W: Watcher>(pilots: &mut [Pilot<'_>], arena: &mut Arena, watcher: &mut W, cycle: u32)
    requires manned { length arena.old.robots ≡ length pilots.old }
    requires cycle { cycle ≤ MOST_CYCLES }
    ensures state { (robots : List Behaviour) (s : BattleState) → AreRobotsOf (exes_of (codes_of pilots.old)) robots
        → HavePlayed (codes_of pilots.old) pilots.old arena.old s
        → HavePlayed (codes_of pilots.old) pilots.new arena.new (turns robots (length robots) s) }
    ensures codes { codes_of pilots.new ≡ codes_of pilots.old }
    ensures robots { length arena.new.robots ≡ length arena.old.robots }
    ensures updates { arena.new.updates ≡ arena.old.updates }
    ensures told { (robots : List Behaviour) (s : BattleState) (sights : List Sight)
        → AreRobotsOf (exes_of (codes_of pilots.old)) robots → HavePlayed (codes_of pilots.old) pilots.old arena.old s
        → W.told watcher.old sights → W.told watcher.new (sights ++ turns_sights robots cycle s (length robots)) }
    ensures kept { W.keeps watcher.new ≡ W.keeps watcher.old }
{
    for robot in 0..pilots.len() {
        pilots[robot].turn(Turn { cycle, robot }, arena, watcher);
    }
}

/// Does the update after a cycle. Reports whether it decides the match: at most one robot lives.
fn decides<W: Watcher>(arena: &mut Arena, watcher: &mut W, cycle: u32) -> bool
    requires most { arena.old.updates < most_updates }
    requires cycle { cycle ≡ (arena.old.updates + 1) * UPDATE_CYCLES }
    ensures stands { (f : Field) → RepresentsField arena.old f → HaveUpdated f arena.new result }
    ensures robots { length arena.new.robots ≡ length arena.old.robots }
    ensures updates { arena.new.updates ≡ arena.old.updates + 1 }
    ensures told { (f : Field) (sights : List Sight) → RepresentsField arena.old f → W.told watcher.old sights
        → W.told watcher.new (sights ++ Updates cycle f ∷ Updated cycle (moved f) ∷ []) }
    ensures kept { W.keeps watcher.new ≡ W.keeps watcher.old }
{
    watcher.updates(cycle, arena);
    arena.update();
    watcher.updated(cycle, arena);
    arena.live_count() <= 1
}
