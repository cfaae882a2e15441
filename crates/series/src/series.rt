//! Series of matches: match after match, each report before the next match, and then the totals.

ghost use Rattle.std.specs.Prelude.{◌≡◌, ℕ, ◌+◌, ◌-◌, ◌^◌, ◌<◌, ◌≤◌, List, length, is_err, nat_eq, false, true, IfOk};
ghost use Rattle.battles.specs.Programs.{AreOfProfile};
ghost use Rattle.code.specs.Codes.{AreProgramsOf};
ghost use Rattle.grammar.specs.Tree.{File};
ghost use Rattle.series.specs.SeriesSteps.{IsTallyOf, next_text, played_after, next_step};
ghost use Rattle.series.specs.Failures.{FailsOnce};
ghost use Rattle.series.specs.Outcomes.{outcomes, totals_text};
ghost use Rattle.sinks.specs.Puts.{CanFail, Puts};

use crate::reports::put_report;
use crate::run_results::{SeriesFault, Step};
use crate::totals::{Tally, put_totals};
use battles::{Machines, Programs, battle};
use settings::Settings;
use sinks::Sink;
use std::marker::Model;
use tokens::DeviceFault;

/// A series of matches between the robots of one to four programs. A single program plays against itself.
///
/// It is of fixed size, and allocates nothing. Its machines are made once, and serve each match. It borrows its
/// programs: they are large, and moving them takes stack.
#[derive(Drop)]
pub struct Series<'a> {
    programs: &'a Programs,
    machines: Machines,
    settings: &'a Settings<'a>,
    tally: Tally,
    failed: bool,
}

impl<'a> Model for Series<'a> {
    ghost use Rattle.std.specs.Prelude.{◌≡◌, ◌≤◌, List, length};
    ghost use Rattle.battles.specs.Programs.{AreOfProfile};
    ghost use Rattle.code.specs.Codes.{AreProgramsOf};
    ghost use Rattle.grammar.specs.Tree.{File};
    ghost use Rattle.series.specs.SeriesSteps.{IsTallyOf, Series};
    ghost use Rattle.series.specs.Outcomes.{outcomes};

    ghost Value = { Series };

    ghost view = { λ s. record {
      settings = s.settings.now;
      programs = s.programs.now;
      played = s.tally.matches;
      failed = s.failed;
    } };

    ghost invariant = { λ s. (length s.programs.now ≡ length s.settings.now.file_words)
        × AreOfProfile s.settings.now.profile s.programs.now
        × (s.tally.matches ≤ s.settings.now.matches)
        × ((files : List File) → AreProgramsOf s.programs.now s.settings.now.profile files
        → IsTallyOf s.tally (outcomes s.settings.now files s.tally.matches)) };
}

impl<'a> Series<'a> {
    /// Makes the series of these programs, one for each word of the settings and of their profile. No match of it was
    /// played.
    pub fn new(programs: &'a Programs, settings: &'a Settings<'a>) -> Series<'a>
        requires manned { length programs.now ≡ length settings.now.file_words }
        requires profile { AreOfProfile settings.now.profile programs.now }
        ensures { result ≡ record { settings = settings.now; programs = programs.now; played = 0; failed = false } }
    {
        Series {
            programs,
            machines: Machines::default(),
            settings,
            tally: Tally::new(),
            failed: false,
        }
    }

    /// Plays the next match and writes its report, or does nothing if all matches were played.
    ///
    /// # Errors
    ///
    /// `Write` if the sink fails, which then has a prefix of the report: the match doesn't count as played. From then
    /// on each call answers `Write` and writes nothing.
    pub fn next<S: Sink>(&mut self, out: &mut S) -> Result<Step, SeriesFault>
        requires { CanFail (S.written out.old) }
        ensures step { IfOk result (λ step. step ≡ next_step self.old.settings self.old.played) }
        ensures after { self.new ≡ record self.old
            { played = played_after result self.old.played; failed = is_err result } }
        ensures text { self.old.failed ≡ false → (files : List File)
            → AreProgramsOf self.old.programs self.old.settings.profile files
            → Puts result (S.written out.old) (S.written out.new)
            (next_text self.old.settings files self.old.played) }
        ensures over { IfOk result (λ step. step ≡ Step.Over → S.written out.new ≡ S.written out.old) }
        ensures fails { FailsOnce self.old.failed result
            (S.written out.old) (S.written out.new) }
    {
        if self.failed {
            return Err(SeriesFault::Write);
        }
        if self.is_over() {
            return Ok(Step::Over);
        }
        let number = self.settings.first() + self.tally.matches();
        let (seed, limit) = (self.settings.seed(), self.settings.limit());
        let outcome = battle(self.programs, &mut self.machines, seed, number, limit);
        match put_report(out, number, &outcome, self.settings.file_words()) {
            Ok(()) => {
                self.tally.count_match(&outcome);
                Ok(Step::Played(number))
            }
            Err(DeviceFault) => {
                self.failed = true;
                Err(SeriesFault::Write)
            }
        }
    }

    /// Writes the totals of the series, all of whose matches were played.
    ///
    /// # Errors
    ///
    /// `Write` if the sink fails, which then has a prefix of the totals, or if it failed before.
    pub fn finish<S: Sink>(&mut self, out: &mut S) -> Result<(), SeriesFault>
        requires over { self.old.played ≡ self.old.settings.matches }
        requires countable { CanFail (S.written out.old) }
        ensures after { self.new ≡ record self.old { failed = is_err result } }
        ensures text { self.old.failed ≡ false → (files : List File)
            → AreProgramsOf self.old.programs self.old.settings.profile files
            → Puts result (S.written out.old) (S.written out.new)
            (totals_text self.old.settings files) }
        ensures fails { FailsOnce self.old.failed result
            (S.written out.old) (S.written out.new) }
    {
        if self.has_failed() {
            return Err(SeriesFault::Write);
        }
        match put_totals(out, &self.tally, self.settings.file_words()) {
            Ok(()) => Ok(()),
            Err(DeviceFault) => {
                self.failed = true;
                Err(SeriesFault::Write)
            }
        }
    }

    /// Reports whether all matches were played.
    pub fn is_over(&self) -> bool
        ensures { result ≡ nat_eq self.now.played self.now.settings.matches }
    {
        self.tally.matches() == self.settings.matches()
    }

    /// Reports whether a write has failed.
    pub fn has_failed(&self) -> bool
        ensures { result ≡ self.now.failed }
    {
        self.failed
    }
}
