//! The names that are in scope at a point of a source, and what a name in each role names.

ghost use Rattle.std.specs.Prelude.{◌≡◌, ◌<◌, ◌≤◌, ℕ, List, [], ◌∷◌, ◌++◌, length, Option, Some, None, IfOk, IfErr};
ghost use Rattle.std.specs.Prelude.{IfSome, OnOk, map, nat_le, is_some, ◌==◌, true, false};
ghost use Rattle.std.specs.Str.{bytes_eq};
ghost use Rattle.std.specs.List.{position, list_any};
ghost use Rattle.grammar.specs.Intrinsics.{intrinsic_named, is_intrinsic, intrinsic_name};
ghost use Rattle.grammar.specs.Laws.Index.{NoFunctionBefore};
ghost use Rattle.grammar.specs.Laws.Naming.{line_of_undefined};
ghost use Rattle.grammar.specs.Scope.{number_of_name};
ghost use Rattle.std.specs.Prelude.{unwrap_or, if◌then◌else◌};

use crate::diagnostics::Code;
use crate::index::Index;
use crate::name_limits::MOST_NAMES;
use crate::pools::{FunctionNames, Pools};
use crate::resolved_names::{Callee, Intrinsic, Var};
use arrayvec::ArrayVec;
use std::marker::Model;
use tokens::{MOST_NAME_BYTES, Name};

/// Returns the number of a name among names.
#[inline(always)]
pub fn name_number(names: &[Name], name: &Name) -> Option<usize>
    ensures { result ≡ number_of_name name.now names.now }
{
    names.iter().position(|other| name.is_same(other))
}

/// Returns the intrinsic function of this name. Its first byte leaves few to compare it with.
#[tactic(auto, unfolding(crate::specs::Intrinsics::intrinsic_named, crate::specs::Intrinsics::intrinsic_name))]
pub fn intrinsic_named(name: &Name) -> Option<Intrinsic>
    ensures { result ≡ intrinsic_named name.now }
{
    match name.as_bytes().first()? {
        b'a' => if_named(Intrinsic::Atan, name),
        b'c' => if_named(Intrinsic::Cannon, name).or(if_named(Intrinsic::Cos, name)),
        b'd' => if_named(Intrinsic::Drive, name).or(if_named(Intrinsic::Damage, name)),
        b'l' => if_named(Intrinsic::LocX, name).or(if_named(Intrinsic::LocY, name)),
        b'r' => if_named(Intrinsic::Rand, name),
        b's' => if_named(Intrinsic::Scan, name)
            .or(if_named(Intrinsic::Speed, name))
            .or(if_named(Intrinsic::Sqrt, name))
            .or(if_named(Intrinsic::Sin, name)),
        b't' => if_named(Intrinsic::Tan, name),
        _ => None,
    }
}

/// Returns this intrinsic function if it has this name.
#[inline(always)]
fn if_named(intrinsic: Intrinsic, name: &Name) -> Option<Intrinsic>
    ensures { result ≡ (if bytes_eq name.now (intrinsic_name intrinsic) then Some intrinsic else None) }
{
    if name.has_bytes(intrinsic.name().as_bytes()) {
        Some(intrinsic)
    } else {
        None
    }
}

/// The names of a file that are in scope at a point of its source.
#[derive(Drop)]
pub struct Scope {
    pools: Pools,
    lines: ArrayVec<u32, MOST_NAMES>,
    begun: ArrayVec<u8, MOST_NAMES>,
    number: u8,
    current: FunctionNames,
    index: Index,
}

impl Model for Scope {
    ghost use Rattle.grammar.specs.Laws.Index.{IsIndexed};
    ghost use Rattle.grammar.specs.Laws.Naming.{IsScopeKept};
    ghost use Rattle.grammar.specs.Scope.{Scope};
    ghost use Rattle.grammar.specs.Laws.ScopeParts.{scope_with};

    ghost Value = { Scope };

    ghost view = { λ s. scope_with s.pools s.lines.items s.begun.items s.number s.current };

    ghost invariant = { λ s. IsScopeKept s.pools.functions s.lines.items s.begun.items
        × IsIndexed s.pools.functions s.index.earliest };
}

impl Scope {
    ghost use Rattle.grammar.specs.Grammar.{Defined, External, Parameter, Typed, Local, Called, Mentioned};
    ghost use Rattle.grammar.specs.Compiled.{main_name};
    ghost use Rattle.grammar.specs.Laws.Naming.{LearnsName, RefusesName, line_of_undefined};
    ghost use Rattle.grammar.specs.Resolved.{IsCallable, IsVariable};
    ghost use Rattle.grammar.specs.Scope.{no_names, scope_after_name, end_definition, has_begun, number_or_next, is_local_new};
    ghost use Rattle.grammar.specs.Scope.{is_external_new, with_variable, with_parameter, with_external};
    ghost use Rattle.grammar.specs.Scope.{variable_named, variable_of, callee_of, with_new_function};
    ghost use Rattle.grammar.specs.Laws.Naming.{with_begun};
    ghost use Rattle.grammar.specs.Scope.{function_number};

    /// Makes the scope before a file's first token, in which no name is in scope.
    #[tactic(auto, using(crate::proofs::ScopeLaws::kept_nothing))]
    pub fn new() -> Scope
        ensures { result ≡ no_names }
    {
        Scope {
            pools: Pools::new(),
            lines: ArrayVec::new(),
            begun: ArrayVec::new(),
            number: 0,
            current: FunctionNames::new(Name::new()),
            index: Index::new(),
        }
    }

    /// Forgets all names, as before a file's first token.
    #[tactic(auto, using(crate::proofs::ScopeLaws::kept_nothing))]
    pub fn clear(&mut self)
        ensures { self.new ≡ no_names }
    {
        self.pools.clear();
        self.lines.clear();
        self.begun.clear();
        self.number = 0;
        self.current.become_new(&Name::new());
        self.index.clear();
    }

    /// Resolves a mentioned name to its variable. A name that has none becomes the function's next local.
    #[inline(always)]
    #[tactic(auto, using(crate::proofs::ScopeLaws::names))]
    pub fn resolve_variable(&mut self, name: &Name) -> Result<Var, Code>
        ensures learned { IfOk result (λ v. (v ≡ variable_of name.now self.old)
            × ((line : ℕ) → LearnsName Mentioned name.now line self.old self.new)) }
        ensures within { IfOk result (IsVariable MOST_NAMES MOST_NAMES) }
        ensures refused { IfErr result (λ c. RefusesName Mentioned name.now self.old c) }
    {
        match self.variable_in_scope(name) {
            Some(var) => Ok(var),
            None => self.add_local(name),
        }
    }

    /// Declares a local. A name that is declared again names the same variable.
    #[tactic(auto, using(crate::proofs::ScopeLaws::names))]
    pub fn declare_local(&mut self, name: &Name) -> Result<(), Code>
        ensures learned { OnOk result ((line : ℕ) → LearnsName Local name.now line self.old self.new) }
        ensures refused { IfErr result (λ c. RefusesName Local name.now self.old c) }
    {
        if !self.is_local_new(name) {
            return Ok(());
        }
        self.add_local(name)?;
        Ok(())
    }

    /// Adds a parameter of the list. A name that is there already is a fault.
    #[tactic(auto, using(crate::proofs::ScopeLaws::names))]
    pub fn declare_parameter(&mut self, name: &Name) -> Result<(), Code>
        ensures learned { OnOk result ((line : ℕ) → LearnsName Parameter name.now line self.old self.new) }
        ensures refused { IfErr result (λ c. RefusesName Parameter name.now self.old c) }
    {
        if !self.is_local_new(name) {
            return Err(Code::BadParameterDeclaration);
        }
        check_variable_room(self.current.variables().len())?;
        self.add_parameter(name);
        Ok(())
    }

    /// Declares a parameter after the list, in which it has to be.
    pub fn declare_parameter_type(&self, name: &Name) -> Result<(), Code>
        ensures learned { OnOk result ((line : ℕ) → LearnsName Typed name.now line self.now self.now) }
        ensures refused { IfErr result (λ c. RefusesName Typed name.now self.now c) }
    {
        if self.is_local_new(name) {
            Err(Code::BadParameterDeclaration)
        } else {
            Ok(())
        }
    }

    /// Declares an external. A name that is declared again names the same variable.
    #[tactic(auto, using(crate::proofs::ScopeLaws::names))]
    pub fn declare_external(&mut self, name: &Name) -> Result<(), Code>
        ensures learned { OnOk result ((line : ℕ) → LearnsName External name.now line self.old self.new) }
        ensures refused { IfErr result (λ c. RefusesName External name.now self.old c) }
    {
        if self.is_external_new(name) {
            check_variable_room(self.pools.externals().len())?;
            self.add_external(name);
        }
        Ok(())
    }

    /// Resolves a called name. A function of the file that is new is in scope from here on, by the line of this name.
    #[tactic(auto, using(crate::proofs::ScopeLaws::names))]
    pub fn resolve_call(&mut self, name: &Name, line: u32) -> Result<Callee, Code>
        ensures learned { IfOk result (λ callee. (callee ≡ callee_of name.now self.old)
            × LearnsName Called name.now line self.old self.new) }
        ensures within { IfOk result (IsCallable MOST_NAMES) }
        ensures refused { IfErr result (λ c. RefusesName Called name.now self.old c) }
    {
        if let Some(intrinsic) = intrinsic_named(name) {
            return Ok(Callee::Intrinsic(intrinsic));
        }
        let found = self.function_number(name);
        let number = self.number_or_next(found, name, line)?;
        Ok(Callee::Function(number))
    }

    /// Begins the definition of a function at this name, on this line, and returns the function's number.
    pub fn begin_definition(&mut self, name: &Name, line: u32) -> Result<u8, Code>
        ensures number { IfOk result (λ n. (n ≡ number_or_next name.now self.old) × (n < MOST_NAMES)) }
        ensures learned { OnOk result (LearnsName Defined name.now line self.old self.new) }
        ensures refused { IfErr result (λ c. RefusesName Defined name.now self.old c) }
    {
        if intrinsic_named(name).is_some() {
            return Err(Code::IntrinsicRedefined);
        }
        let found = self.function_number(name);
        if self.has_begun(found) {
            return Err(Code::FunctionDefinedTwice);
        }
        let number = self.number_or_next(found, name, line)?;
        self.note_begun(number, name);
        Ok(number)
    }

    /// Ends the definition that began last: the names of the file then have its function's parameters and variables.
    pub fn end_definition(&mut self)
        ensures { self.new ≡ end_definition self.old }
    {
        self.pools.set_function(self.number, &self.current);
        self.index.note(self.current.name(), self.number);
        self.current.become_new(&Name::new());
    }

    /// Returns how many parameters the function that is being defined has so far.
    pub fn parameter_count(&self) -> u8
        ensures count { result ≡ self.now.current.parameters }
        ensures most { result ≤ MOST_NAMES }
    {
        self.current.parameter_count()
    }

    /// Returns how many variables that function has so far, its parameters among them.
    pub fn variable_count(&self) -> u8
        ensures count { result ≡ length self.now.current.variables }
        ensures first { self.now.current.parameters ≤ result }
        ensures most { result ≤ MOST_NAMES }
    {
        self.current.variables().len() as u8
    }

    /// Returns the line of the first mention of the earliest mentioned function whose definition didn't begin.
    pub fn undefined_line(&self) -> Option<u32>
        ensures { result ≡ line_of_undefined 0 self.now.lines self.now.begun }
    {
        line_of_undefined(self.lines.as_slice(), self.begun.as_slice())
    }

    /// Reports whether a function main was mentioned.
    pub fn has_main(&self) -> bool
        ensures { result ≡ is_some (function_number main_name self.now) }
    {
        self.function_number(&name_of_bytes(b"main")).is_some()
    }

    /// Returns the names of the file, without a copy.
    pub fn pools(&self) -> &Pools
        ensures { result.now ≡ record { externals = self.now.externals; functions = self.now.functions } }
    {
        &self.pools
    }

    /// Returns the names of the file.
    pub fn into_pools(self) -> Pools
        ensures { result ≡ record { externals = self.externals; functions = self.functions } }
    {
        self.pools
    }

    /// Returns the variable of a name: one of the function's, or else an external.
    #[inline(always)]
    fn variable_in_scope(&self, name: &Name) -> Option<Var>
        ensures value { result ≡ variable_named name.now self.now }
        ensures within { IfSome result (IsVariable MOST_NAMES MOST_NAMES) }
    {
        if let Some(number) = name_number(self.current.variables(), name) {
            return Some(Var::Local(number as u8));
        }
        let number = name_number(self.pools.externals(), name)?;
        Some(Var::External(number as u8))
    }

    /// Returns the number of a function of the file, which is the next one if it is new.
    #[tactic(auto, using(crate::proofs::ScopeLaws::calls))]
    fn number_or_next(&mut self, found: Option<usize>, name: &Name, line: u32) -> Result<u8, Code>
        requires own { intrinsic_named name.now ≡ None }
        requires number { found ≡ function_number name.now self.old }
        requires within { IfSome found (λ n. n < MOST_NAMES) }
        ensures number { IfOk result (λ n. (n ≡ number_or_next name.now self.old) × (n < MOST_NAMES)) }
        ensures learned { OnOk result (LearnsName Called name.now line self.old self.new) }
        ensures refused { IfErr result (λ c. RefusesName Called name.now self.old c) }
    {
        if let Some(number) = found {
            return Ok(number as u8);
        }
        if self.has_most_functions() {
            return Err(Code::TooManyFunctions);
        }
        Ok(self.add_function(name, line))
    }

    /// Returns the number of a function that was mentioned.
    fn function_number(&self, name: &Name) -> Option<usize>
        ensures number { result ≡ function_number name.now self.now }
        ensures within { IfSome result (λ n. n < MOST_NAMES) }
    {
        function_number(
            self.pools.functions(),
            self.index.first_candidate(name),
            name,
        )
    }

    /// Reports whether there is no room for a further function.
    fn has_most_functions(&self) -> bool
        ensures most { result ≡ nat_le MOST_NAMES (length self.now.functions) }
    {
        self.pools.functions().len() >= MOST_NAMES
    }

    /// Adds a function that is mentioned on a line, and returns its number.
    fn add_function(&mut self, name: &Name, line: u32) -> u8
        requires { length self.old.functions < MOST_NAMES }
        ensures number { result ≡ length self.old.functions }
        ensures names { self.new ≡ with_new_function name.now line self.old }
    {
        let number = self.pools.functions().len() as u8;
        self.pools.add_function(name);
        self.lines.push(line);
        self.index.note(name, number);
        number
    }

    /// Reports whether a definition of this function began before. A function that wasn't mentioned has no number.
    fn has_begun(&self, found: Option<usize>) -> bool
        ensures { result ≡ list_any (λ k. k == unwrap_or found (length self.now.functions)) self.now.begun }
    {
        match found {
            Some(number) => is_among(self.begun.as_slice(), number),
            None => false,
        }
    }

    /// Begins the definition of the function of this number and name.
    #[tactic(auto, using(crate::proofs::ScopeLaws::beginnings))]
    fn note_begun(&mut self, number: u8, name: &Name)
        requires within { number < length self.old.functions }
        requires new { list_any (λ k. k == number) self.old.begun ≡ false }
        ensures { self.new ≡ with_begun number name.now self.old }
    {
        self.begun.push(number);
        self.number = number;
        self.current.become_new(name);
    }

    /// Reports whether the function has no variable of this name.
    #[inline(always)]
    fn is_local_new(&self, name: &Name) -> bool
        ensures { result ≡ is_local_new name.now self.now }
    {
        name_number(self.current.variables(), name).is_none()
    }

    /// Reports whether the file has no external of this name.
    fn is_external_new(&self, name: &Name) -> bool
        ensures { result ≡ is_external_new name.now self.now }
    {
        name_number(self.pools.externals(), name).is_none()
    }

    /// Adds a variable to the function, if there is room, and returns it.
    fn add_local(&mut self, name: &Name) -> Result<Var, Code>
        ensures added { IfOk result (λ v. (v ≡ Var.Local (length self.old.current.variables))
            × (nat_le MOST_NAMES (length self.old.current.variables) ≡ false)
            × (self.new ≡ with_variable name.now self.old)) }
        ensures full { IfErr result (λ c. (c ≡ Code.TooManyVariables)
            × (nat_le MOST_NAMES (length self.old.current.variables) ≡ true)) }
    {
        let number = self.current.variables().len();
        check_variable_room(number)?;
        self.current.add_local(name);
        Ok(Var::Local(number as u8))
    }

    /// Adds a parameter to the function.
    fn add_parameter(&mut self, name: &Name)
        requires { length self.old.current.variables < MOST_NAMES }
        ensures { self.new ≡ with_parameter name.now self.old }
    {
        self.current.add_parameter(name);
    }

    /// Adds an external to the file.
    fn add_external(&mut self, name: &Name)
        requires { length self.old.externals < MOST_NAMES }
        ensures { self.new ≡ with_external name.now self.old }
    {
        self.pools.add_external(name);
    }
}

/// Checks that a list of `variables` variables, a function's or the externals, has room for one more.
fn check_variable_room(variables: usize) -> Result<(), Code>
    ensures room { OnOk result (nat_le MOST_NAMES variables ≡ false) }
    ensures full { IfErr result (λ c. (c ≡ Code.TooManyVariables) × (nat_le MOST_NAMES variables ≡ true)) }
{
    if variables < MOST_NAMES {
        Ok(())
    } else {
        Err(Code::TooManyVariables)
    }
}

/// Returns the number of a function that was mentioned.
#[tactic(auto, using(crate::proofs::ScopeLaws::first_there, crate::proofs::ScopeLaws::nowhere))]
fn function_number(functions: &[FunctionNames], start: usize, name: &Name) -> Option<usize>
    requires { NoFunctionBefore start name.now functions.now }
    ensures { result ≡ number_of_name name.now (map (λ f. f.name) functions.now) }
{
    for number in start..functions.len() {
        if name.is_same(functions[number].name()) {
            return Some(number);
        }
    }
    None
}

/// Makes the name of these bytes.
fn name_of_bytes(bytes: &[u8]) -> Name
    requires { length bytes.now ≤ MOST_NAME_BYTES }
    ensures { result ≡ bytes.now }
{
    let mut name = Name::new();
    for &byte in bytes {
        name.push(byte);
    }
    name
}

/// Returns the line of the first function, by number, whose definition didn't begin.
#[tactic(auto, using(crate::proofs::ScopeLaws::undefined_here))]
fn line_of_undefined(lines: &[u32], begun: &[u8]) -> Option<u32>
    requires { length lines.now ≤ MOST_NAMES }
    ensures { result ≡ line_of_undefined 0 lines.now begun.now }
{
    for (number, &line) in lines.iter().enumerate() {
        if !is_among(begun, number) {
            return Some(line);
        }
    }
    None
}

/// Reports whether a number is in a list.
fn is_among(numbers: &[u8], number: usize) -> bool
    ensures { result ≡ list_any (λ k. k == number) numbers.now }
{
    numbers.iter().any(|&other| other as usize == number)
}
