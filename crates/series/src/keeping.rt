//! What becomes of the program of a good file: it is kept with those of the other files, or let go.

ghost use Rattle.std.specs.Prelude.{◌≡◌, ◌-◌, ◌^◌, ◌<◌, List, [], Option, Some, None};
ghost use Rattle.code.specs.Finishing.{MakerRepresentsFile, RepresentsSomeFile};
ghost use Rattle.code.specs.Generation.{Program, code_of};
ghost use Rattle.grammar.specs.Profile.{Profile};
ghost use Rattle.grammar.specs.Tree.{File};
ghost use Rattle.parser.specs.ScopedCursors.{pools_in};
ghost use Rattle.series.specs.Compiling.{listed, listing_piece};
ghost use Rattle.series.specs.Pieces.{taken_by_sinks};
ghost use Rattle.series.specs.ProgramKeeping.{CanKeep, and_program};
ghost use Rattle.series.specs.CompiledFiles.{PutsPieces};
ghost use Rattle.settings.specs.declared.settings.Mode.{Mode};
ghost use Rattle.settings.specs.declared.settings.Mode.TheVariants.{Listing};
ghost use Rattle.sinks.specs.Portions.{SinkState};
ghost use Rattle.sinks.specs.Puts.{CanFail, CountsSink};

use battles::Programs;
use code::{Maker, Program};
use grammar::Scope;
use listings::{put_code, put_listing};
use settings::Mode;
use sinks::Sink;
use tokens::DeviceFault;

/// What takes the programs of good files, in order. It has a mode: in that of listings it puts the listing of each.
pub trait TakesPrograms {
    /// The programs that it was given, unless it lets them go.
    ghost kept: { Self → Option (List Program) };

    /// Whether it puts listings.
    ghost mode: { Self → Mode };

    /// Takes the program of the file that was reported to the maker, of this name and with these names in it. Puts its
    /// listing, if listings are asked for. The scope is of no more use then, so its names may be taken too.
    fn take_program<S: Sink>(
        &mut self,
        name: &[u8],
        names: &mut Scope,
        maker: &mut Maker,
        out: &mut S,
    ) -> Result<(), DeviceFault>
        requires made { RepresentsSomeFile maker.old (pools_in names.old) }
        requires keeps { CanKeep maker.old.profile (kept self.old) }
        requires countable { CanFail (S.written out.old) }
        ensures mode { mode self.new ≡ mode self.old }
        ensures kept { (p : Profile) (file : File) → MakerRepresentsFile maker.old p (pools_in names.old) file
            → kept self.new ≡ and_program (kept self.old) (code_of p file) }
        ensures output { (p : Profile) (file : File) (faults : SinkState) → MakerRepresentsFile maker.old p (pools_in names.old) file
            → PutsPieces result (taken_by_sinks (S.written out.old) faults) (taken_by_sinks (S.written out.new) faults)
            (listed (mode self.old) (listing_piece name.now (pools_in names.old) (code_of p file))) }
        ensures count { CountsSink result (S.written out.old) (S.written out.new) };
}

/// Keeps the programs of all files, in the order of the files.
///
/// Programs are large: they are kept in place, since moving them takes stack.
#[derive(Drop)]
pub(crate) struct Keeper {
    pub(crate) programs: Programs,
    mode: Mode,
}

impl Keeper {
    /// Makes a keeper without programs.
    pub(crate) fn new(mode: Mode) -> Keeper
        ensures { result ≡ record { programs = []; mode = mode } }
    {
        Keeper {
            programs: Programs::new(),
            mode,
        }
    }
}

impl TakesPrograms for Keeper {
    ghost kept = { λ keeper. Some keeper.programs };

    ghost mode = { λ keeper. keeper.mode };

    fn take_program<S: Sink>(
        &mut self,
        name: &[u8],
        names: &mut Scope,
        maker: &mut Maker,
        out: &mut S,
    ) -> Result<(), DeviceFault> {
        let file = self.programs.len();
        let mut program = Program::default();
        maker.finish_into(names.pools(), &mut program);
        self.programs.add_translated(program);
        match self.mode {
            Mode::Listing => put_listing(out, name, names.pools(), self.programs.program(file)),
            Mode::Matches => Ok(()),
        }
    }
}

/// Lists each program and lets it go. It has no place for one: code is listed where it was made.
#[derive(Drop)]
pub(crate) struct Lister;

impl TakesPrograms for Lister {
    ghost kept = { λ lister. None };

    ghost mode = { λ lister. Listing };

    fn take_program<S: Sink>(
        &mut self,
        name: &[u8],
        names: &mut Scope,
        maker: &mut Maker,
        out: &mut S,
    ) -> Result<(), DeviceFault> {
        let names = names.pools();
        maker.end_code(names);
        put_code(
            out,
            name,
            names,
            maker.addresses(names),
            maker.instructions(),
        )
    }
}
