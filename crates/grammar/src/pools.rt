//! The names of a file by number, in types of fixed size.

ghost use Rattle.std.specs.Prelude.{◌≡◌, ◌+◌, ◌<◌, ◌≤◌, ℕ, List, [], ◌∷◌, ◌++◌, length, set};

use crate::name_limits::MOST_NAMES;
use arrayvec::ArrayVec;
use std::marker::Model;
use tokens::Name;

/// A function's name, and its variables: the parameters first, then the locals by first mention.
#[derive(Drop)]
pub struct FunctionNames {
    name: Name,
    parameters: u8,
    variables: ArrayVec<Name, MOST_NAMES>,
}

impl Model for FunctionNames {
    ghost use Rattle.std.specs.Prelude.{◌≤◌, length};
    ghost use Rattle.grammar.specs.Pools.{FunctionNames};
    ghost use Rattle.grammar.specs.declared.name_limits.TheConstants.{MOST_NAMES};

    ghost Value = { FunctionNames };

    ghost view = { λ f. record { name = f.name; parameters = f.parameters; variables = f.variables.items } };

    ghost invariant = { λ f. (f.parameters ≤ length f.variables.items) × (f.parameters ≤ MOST_NAMES) };
}

impl Default for FunctionNames {
    ghost is_default = { λ f. f ≡ record { name = []; parameters = 0; variables = [] } };

    fn default() -> FunctionNames {
        FunctionNames {
            name: Name::default(),
            parameters: 0,
            variables: ArrayVec::new(),
        }
    }
}

impl FunctionNames {
    /// Makes a function without variables.
    pub fn new(name: Name) -> FunctionNames
        ensures { result ≡ record { name = name; parameters = 0; variables = [] } }
    {
        FunctionNames {
            name,
            parameters: 0,
            variables: ArrayVec::new(),
        }
    }

    /// Returns the function's name.
    pub fn name(&self) -> &Name
        ensures { result.now ≡ self.now.name }
    {
        &self.name
    }

    /// Returns how many parameters the function has.
    pub fn parameter_count(&self) -> u8
        ensures count { result ≡ self.now.parameters }
        ensures most { result ≤ MOST_NAMES }
    {
        self.parameters
    }

    /// Returns the names of the function's variables by number: the parameters come first.
    pub fn variables(&self) -> &[Name]
        ensures names { result.now ≡ self.now.variables }
        ensures first { self.now.parameters ≤ length result.now }
        ensures most { length result.now ≤ MOST_NAMES }
    {
        self.variables.as_slice()
    }

    /// Adds a local, with the next number.
    pub(crate) fn add_local(&mut self, name: &Name)
        requires { length self.old.variables < MOST_NAMES }
        ensures { self.new ≡ record self.old { variables = self.old.variables ++ name.now ∷ [] } }
    {
        self.variables.push(*name);
    }

    /// Becomes a function without variables, in place: only the names that were there are cleared.
    pub(crate) fn become_new(&mut self, name: &Name)
        ensures { self.new ≡ record { name = name.now; parameters = 0; variables = [] } }
    {
        self.name = *name;
        self.parameters = 0;
        self.variables.clear();
    }

    /// Becomes the same as another function, in place: only the names that are there are copied.
    pub(crate) fn copy_from(&mut self, other: &FunctionNames)
        ensures { self.new ≡ other.now }
    {
        self.become_new(&other.name);
        for name in other.variables.as_slice() {
            self.variables.push(*name);
        }
        self.parameters = other.parameters;
    }

    /// Adds a parameter, with the next number.
    pub(crate) fn add_parameter(&mut self, name: &Name)
        requires { length self.old.variables < MOST_NAMES }
        ensures { self.new ≡ record self.old {
          parameters = self.old.parameters + 1;
          variables = self.old.variables ++ name.now ∷ [];
        } }
    {
        self.variables.push(*name);
        self.parameters += 1;
    }
}

/// The names of a file: its externals and its functions by number.
///
/// A function is made in place: the entries after the functions are blank.
#[derive(Drop)]
pub struct Pools {
    externals: ArrayVec<Name, MOST_NAMES>,
    functions: [FunctionNames; MOST_NAMES],
    count: u8,
}

impl Model for Pools {
    ghost use Rattle.std.specs.Prelude.{◌≤◌, take};
    ghost use Rattle.grammar.specs.Pools.{Pools};
    ghost use Rattle.grammar.specs.declared.name_limits.TheConstants.{MOST_NAMES};

    ghost Value = { Pools };

    ghost view = { λ p. record { externals = p.externals.items; functions = take p.count p.functions } };

    ghost invariant = { λ p. p.count ≤ MOST_NAMES };
}

impl Pools {
    ghost use Rattle.grammar.specs.Scope.{only_named};

    /// Makes pools without names.
    pub fn new() -> Pools
        ensures { result ≡ record { externals = []; functions = [] } }
    {
        Pools {
            externals: ArrayVec::new(),
            functions: Default::default(),
            count: 0,
        }
    }

    /// Forgets all names.
    pub(crate) fn clear(&mut self)
        ensures { self.new ≡ record { externals = []; functions = [] } }
    {
        self.externals.clear();
        self.count = 0;
    }

    /// Returns the names of the externals by number.
    pub fn externals(&self) -> &[Name]
        ensures names { result.now ≡ self.now.externals }
        ensures most { length result.now ≤ MOST_NAMES }
    {
        self.externals.as_slice()
    }

    /// Returns the functions by number.
    pub fn functions(&self) -> &[FunctionNames]
        ensures names { result.now ≡ self.now.functions }
        ensures most { length result.now ≤ MOST_NAMES }
    {
        &self.functions[..self.count as usize]
    }

    /// Adds a function, with the next number.
    pub fn push_function(&mut self, function: FunctionNames)
        requires { length self.old.functions < MOST_NAMES }
        ensures { self.new ≡ record {
          externals = self.old.externals;
          functions = self.old.functions ++ function ∷ [];
        } }
    {
        self.functions[self.count as usize] = function;
        self.count += 1;
    }

    /// Adds an external, with the next number.
    pub(crate) fn add_external(&mut self, name: &Name)
        requires { length self.old.externals < MOST_NAMES }
        ensures { self.new ≡ record self.old { externals = self.old.externals ++ name.now ∷ [] } }
    {
        self.externals.push(*name);
    }

    /// Adds a function without variables, with the next number.
    pub(crate) fn add_function(&mut self, name: &Name)
        requires { length self.old.functions < MOST_NAMES }
        ensures { self.new ≡ record self.old { functions = self.old.functions ++ only_named name.now ∷ [] } }
    {
        self.functions[self.count as usize].become_new(name);
        self.count += 1;
    }

    /// Makes the function of this number the same as another. Does nothing past the functions.
    #[tactic(auto, using(crate::proofs::ScopeLaws::in_place))]
    pub(crate) fn set_function(&mut self, number: u8, function: &FunctionNames)
        ensures { self.new ≡ record self.old { functions = set self.old.functions number function.now } }
    {
        if number < self.count {
            self.functions[number as usize].copy_from(function);
        }
    }
}
