//! How often each robot won, tied and lost.

ghost use Rattle.std.specs.Prelude.{◌≡◌, ℕ, ◌+◌, ◌-◌, ◌^◌, ◌<◌, ◌≤◌, List, [], ◌∷◌, ◌++◌, length, map, All};
ghost use Rattle.battles.specs.Battle.{Outcome as Ended, is_survivor};
ghost use Rattle.settings.specs.SettingsLimits.{most_files};
ghost use Rattle.series.specs.Lines.{ended_line};
ghost use Rattle.series.specs.SeriesSteps.{Tally, IsTallyOf, score_at, with_match};
ghost use Rattle.sinks.specs.Pens.{MayFail, Adds};
ghost use Rattle.sinks.specs.Puts.{CanFail, Puts};
ghost use Rattle.series.specs.RobotNames.{robot_names};
ghost use Rattle.series.specs.Lines.{lines_text};
ghost use Rattle.series.specs.Totals.{totals, score_line, score_lines, survivors};

use crate::robot_names::robot_name;
use arena::DEADLY;
use battles::Outcome;
use settings::MOST_FILES;
use sinks::{Pen, Sink};
use std::marker::Model;
use tokens::DeviceFault;

/// How often a robot won, tied and lost.
#[derive(Clone, Copy)]
pub(crate) struct Score {
    won: u32,
    tied: u32,
    lost: u32,
}

/// The scores of up to four robots.
#[derive(Drop)]
pub(crate) struct Tally {
    matches: u32,
    scores: [Score; MOST_FILES],
}

impl Model for Tally {
    ghost Value = { Tally };

    ghost view = { λ t. record { matches = t.matches; scores = t.scores } };

    ghost invariant = { λ t. (length t.scores ≡ most_files)
        × All (λ score. score.won + score.tied + score.lost ≡ t.matches) t.scores };
}

impl Tally {
    /// Makes the tally of no matches.
    pub(crate) fn new() -> Tally
        ensures matches { result.matches ≡ 0 }
        ensures tally { IsTallyOf result [] }
    {
        Tally {
            matches: 0,
            scores: [Score {
                won: 0,
                tied: 0,
                lost: 0,
            }; MOST_FILES],
        }
    }

    /// Returns how many matches were counted.
    pub(crate) fn matches(&self) -> u32
        ensures { result ≡ self.now.matches }
    {
        self.matches
    }

    /// Counts one more match.
    pub(crate) fn count_match(&mut self, outcome: &Outcome)
        requires { self.old.matches < 2 ^ 32 - 1 }
        ensures matches { self.new.matches ≡ self.old.matches + 1 }
        ensures tally { (outcomes : List Ended) → IsTallyOf self.old outcomes
            → IsTallyOf self.new (outcomes ++ outcome.now ∷ []) }
    {
        self.matches += 1;
        let survivors = survivor_count(outcome);
        for robot in 0..MOST_FILES {
            self.scores[robot] = self.scores[robot].with_match(is_alive(outcome, robot), survivors);
        }
    }
}

impl Score {
    /// Returns the score with one more match, in which the given number of robots survived.
    fn with_match(self, alive: bool, survivors: usize) -> Score
        requires { self.won + self.tied + self.lost < 2 ^ 32 - 1 }
        ensures { result ≡ with_match self alive survivors }
    {
        match (alive, survivors) {
            (false, _) => Score {
                lost: self.lost + 1,
                ..self
            },
            (true, 1) => Score {
                won: self.won + 1,
                ..self
            },
            (true, _) => Score {
                tied: self.tied + 1,
                ..self
            },
        }
    }
}

/// Counts the robots that survived.
fn survivor_count(outcome: &Outcome) -> usize
    ensures { result ≡ survivors outcome.now }
{
    outcome
        .damages()
        .iter()
        .filter(|damage| **damage < DEADLY)
        .count()
}

/// Reports whether a robot is alive. There is none past the last one.
#[tactic(auto, using(crate::proofs::SeriesLemmas::none_alive))]
fn is_alive(outcome: &Outcome, robot: usize) -> bool
    ensures { result ≡ is_survivor outcome.now robot }
{
    robot < outcome.damages().len() && outcome.is_alive(robot)
}

/// Writes the totals of a series, as one piece. The words name the robots' files.
pub(crate) fn put_totals<S: Sink>(
    sink: &mut S,
    tally: &Tally,
    words: &[&str],
) -> Result<(), DeviceFault>
    requires some { 0 < length words.now }
    requires most { length words.now ≤ MOST_FILES }
    requires countable { CanFail (S.written sink.old) }
    ensures { Puts result (S.written sink.old) (S.written sink.new)
        (totals tally.now.matches (robot_names (map (λ word. word.now) words.now)) (score_at tally.now)) }
{
    let mut pen = Pen::new();
    pen.add(sink, b"Totals: ");
    pen.add_number(sink, tally.matches);
    pen.add(sink, b" matches");
    pen.add(sink, b"\n");
    add_scores(&mut pen, sink, tally, words);
    pen.finish(sink)
}

/// Adds the line of each robot.
fn add_scores<S: Sink>(pen: &mut Pen, sink: &mut S, tally: &Tally, words: &[&str])
    requires some { 0 < length words.now }
    requires most { length words.now ≤ MOST_FILES }
    requires countable { MayFail pen.old (S.written sink.old) }
    ensures countable { MayFail pen.new (S.written sink.new) }
    ensures text { Adds (S.written sink.old) pen.old (S.written sink.new) pen.new
        (lines_text (score_lines (robot_names (map (λ word. word.now) words.now)) (score_at tally.now))) }
{
    for robot in 0..words.len().max(2) {
        add_score(
            pen,
            sink,
            robot,
            tally.scores[robot],
            robot_name(words, robot),
        );
    }
}

/// Adds the line of one robot, which has this score and this name.
fn add_score<S: Sink>(pen: &mut Pen, sink: &mut S, robot: usize, score: Score, name: &[u8])
    requires there { robot < MOST_FILES }
    requires countable { MayFail pen.old (S.written sink.old) }
    ensures countable { MayFail pen.new (S.written sink.new) }
    ensures text { Adds (S.written sink.old) pen.old (S.written sink.new) pen.new
        (ended_line (score_line robot score name.now)) }
{
    pen.add(sink, b"  ");
    pen.add_number(sink, robot as u32 + 1);
    pen.add(sink, b") won ");
    pen.add_number(sink, score.won);
    pen.add(sink, b" tied ");
    pen.add_number(sink, score.tied);
    pen.add(sink, b" lost ");
    pen.add_number(sink, score.lost);
    pen.add(sink, b" ");
    pen.add(sink, name);
    pen.add(sink, b"\n");
}
