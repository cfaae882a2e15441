//! How far a source gets: whether it compiles, and else where its first fault stands.

ghost use Rattle.std.specs.Prelude.{◌≡◌, Err, IfOk, false, true};
ghost use Rattle.derivations.specs.Compiling.{Compiles};
ghost use Rattle.grammar.specs.Compiled.{compiled};
ghost use Rattle.know.specs.Repairs.{GetsFurther, IsNearer, StandsBefore, a_line_down, broken, edited, lacks_function};

use crate::fixes::Fix;
use derivations::compile;
use grammar::{Code, Diagnostic, ParseFault, Profile};
use std::alloc::{AllocError, Global};
use tokens::{MemoryFeed, WINDOW_BYTES};

/// A source by a profile, its first fault, and how many bytes stand behind the token of that.
#[derive(Clone, Copy)]
pub struct Faulty<'a> {
    pub source: &'a [u8],
    pub profile: Profile,
    pub fault: &'a Diagnostic,
    pub left: usize,
}

/// Reports whether another source gets further than one with a fault. The only error is that memory is refused.
pub fn gets_further(alloc: Global, faulty: &Faulty<'_>, other: &[u8]) -> Result<bool, AllocError>
    ensures { IfOk result (λ does. does ≡ true
        → GetsFurther faulty.now.profile faulty.now.source.now faulty.now.fault.now other.now) }
{
    match compile(faulty.profile, &mut MemoryFeed::new(other, WINDOW_BYTES)) {
        Ok(_) => Ok(true),
        Err(ParseFault::Source(next)) => {
            if fits_now(faulty.fault, &next) {
                return Ok(true);
            }
            let is_nearer = is_nearer(alloc, faulty, other, &next)?;
            Ok(is_nearer)
        }
        Err(ParseFault::Device | ParseFault::Memory) => Ok(false),
    }
}

/// Reports whether each token fits with the next fault, and one doesn't with this one.
fn fits_now(fault: &Diagnostic, next: &Diagnostic) -> bool
    ensures lacks { result ≡ true → lacks_function next.now.code ≡ true }
    ensures does_not { result ≡ true → lacks_function fault.now.code ≡ false }
{
    lacks_function(next.code) && !lacks_function(fault.code)
}

/// Reports whether each token fits with the next fault, if each does with this one.
fn still_fits(fault: &Diagnostic, next: &Diagnostic) -> bool
    ensures { result ≡ true → lacks_function fault.now.code ≡ true → lacks_function next.now.code ≡ true }
{
    !lacks_function(fault.code) || lacks_function(next.code)
}

/// Reports whether a fault is of a source each of whose tokens fits: nothing defines a function.
fn lacks_function(code: Code) -> bool
    ensures { result ≡ lacks_function code }
{
    matches!(code, Code::FunctionNotDefined | Code::NoMainFunction)
}

/// Reports whether the first fault of another source, which is the next one, stands nearer to its end.
fn is_nearer(
    alloc: Global,
    faulty: &Faulty<'_>,
    other: &[u8],
    next: &Diagnostic,
) -> Result<bool, AllocError>
    ensures { IfOk result (λ is. is ≡ true → compiled faulty.now.profile other.now ≡ Err next.now
        → IsNearer faulty.now.profile faulty.now.source.now faulty.now.fault.now other.now) }
{
    let broken = broken(alloc, other, faulty.left)?;
    if still_fits(faulty.fault, next) && is_moved(faulty.profile, broken.as_slice(), next) {
        let stands_before = stands_before(alloc, faulty)?;
        Ok(stands_before)
    } else {
        Ok(false)
    }
}

/// Reports whether a fault is a source's first one and stands before its last bytes.
fn stands_before(alloc: Global, faulty: &Faulty<'_>) -> Result<bool, AllocError>
    ensures { IfOk result (λ does. does ≡ true
        → StandsBefore faulty.now.profile faulty.now.left faulty.now.source.now faulty.now.fault.now) }
{
    let Faulty {
        source,
        profile,
        fault,
        left,
    } = *faulty;
    let broken = broken(alloc, source, left)?;
    Ok(is_first(profile, source, fault) && is_first(profile, broken.as_slice(), fault))
}

/// Reports whether a fault is a source's first one, but for its line: that is the one below.
fn is_moved(profile: Profile, source: &[u8], fault: &Diagnostic) -> bool
    ensures { result ≡ true → compiled profile source.now ≡ Err (a_line_down fault.now) }
{
    match fault.line.checked_add(1) {
        Some(line) => is_first(
            profile,
            source,
            &Diagnostic {
                line,
                code: fault.code,
            },
        ),
        None => false,
    }
}

/// Reports whether a fault is a source's first one.
fn is_first(profile: Profile, source: &[u8], fault: &Diagnostic) -> bool
    ensures { result ≡ true → compiled profile source.now ≡ Err fault.now }
{
    match compile(profile, &mut MemoryFeed::new(source, WINDOW_BYTES)) {
        Err(ParseFault::Source(first)) => is_same(&first, fault),
        Ok(_) | Err(ParseFault::Device | ParseFault::Memory) => false,
    }
}

/// Reports whether two faults are the same.
fn is_same(fault: &Diagnostic, other: &Diagnostic) -> bool
    ensures { result ≡ true → fault.now ≡ other.now }
{
    fault.line == other.line && is_same_code(fault.code, other.code)
}

/// Reports whether two codes are the same.
fn is_same_code(code: Code, other: Code) -> bool
    ensures { result ≡ true → code ≡ other }
{
    code == other
}

/// Returns a source with the end of a line before its last bytes, which are so many.
fn broken(alloc: Global, source: &[u8], left: usize) -> Result<Vec<u8>, AllocError>
    ensures { IfOk result (λ bytes. bytes.items ≡ broken left source.now) }
{
    let at = source.len().saturating_sub(left);
    let mut bytes = Vec::from_slice(alloc, source.get(..at).unwrap_or(source))?;
    bytes.push(b'\n')?;
    bytes.extend_from_slice(source.get(at..).unwrap_or(&[]))?;
    Ok(bytes)
}

/// Returns a source with a fix.
pub fn edited(alloc: Global, source: &[u8], fix: &Fix) -> Result<Vec<u8>, AllocError>
    ensures { IfOk result (λ bytes. bytes.items ≡ edited source.now fix.now) }
{
    let mut bytes = Vec::from_slice(alloc, source.get(..fix.start).unwrap_or(source))?;
    bytes.extend_from_slice(fix.text.as_bytes())?;
    bytes.extend_from_slice(source.get(fix.end..).unwrap_or(&[]))?;
    Ok(bytes)
}

/// Reports whether a source compiles.
pub fn compiles(profile: Profile, source: &[u8]) -> bool
    ensures { result ≡ true → Compiles profile source.now }
{
    match compile(profile, &mut MemoryFeed::new(source, WINDOW_BYTES)) {
        Ok(_) => true,
        Err(ParseFault::Source(_) | ParseFault::Device | ParseFault::Memory) => false,
    }
}
