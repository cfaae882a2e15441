//! Programs of sources, and their operations, for tests.

ghost use Rattle.std.specs.Prelude.{◌≡◌, Some};
ghost use Rattle.operations.specs.declared.labels.Operations.{Operations};
ghost use Rattle.operations.specs.Filling.{translated};
ghost use Rattle.operations.specs.Translation.{IsTranslation};

use code::{Maker, Profile, Program};
use operations::{Operations, translate};
use parser::parse;
use std::test::Fail;
use tokens::MemoryFeed;

/// Compiles a good source.
pub fn program_of(profile: Profile, source: &[u8]) -> Result<Program, Fail> {
    let mut maker = Maker::new(profile);
    match parse(&mut MemoryFeed::new(source, 4096), &mut maker) {
        Ok(names) => Ok(maker.finish(&names)),
        Err(_) => Err("the source has a fault".into()),
    }
}

/// Translates a program, if that can be.
pub fn operations_of(program: &Program) -> Operations
    ensures { (t : Operations) → translated result ≡ Some t → IsTranslation program.now t }
{
    let mut operations = Operations::default();
    translate(program, &mut operations);
    operations
}
