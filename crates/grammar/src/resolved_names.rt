//! What a name of a resolved program names, and the intrinsic functions.

ghost use Rattle.std.specs.Prelude.{◌≡◌, ◌≤◌};
ghost use Rattle.grammar.specs.Intrinsics.{argument_count, intrinsic_name};

/// A variable by its number.
#[derive(Clone, Copy, Debug, PartialEq, Eq)]
pub enum Var {
    /// A variable of the file, numbered by declaration.
    External(u8),
    /// A variable of the function, its parameters first.
    Local(u8),
}

/// An intrinsic function: one of the machine's own.
#[derive(Clone, Copy, Debug, PartialEq, Eq)]
pub enum Intrinsic {
    /// `scan(degree, resolution)`
    Scan,
    /// `cannon(degree, range)`
    Cannon,
    /// `drive(degree, speed)`
    Drive,
    /// `damage()`
    Damage,
    /// `speed()`
    Speed,
    /// `loc_x()`
    LocX,
    /// `loc_y()`
    LocY,
    /// `rand(limit)`
    Rand,
    /// `sqrt(number)`
    Sqrt,
    /// `sin(degree)`
    Sin,
    /// `cos(degree)`
    Cos,
    /// `tan(degree)`
    Tan,
    /// `atan(ratio)`
    Atan,
}

/// What a call calls.
#[derive(Clone, Copy, Debug, PartialEq, Eq)]
pub enum Callee {
    /// A function of the file, numbered by first mention.
    Function(u8),
    /// An intrinsic function.
    Intrinsic(Intrinsic),
}

impl Intrinsic {
    /// All of them, in the order of the variants.
    pub const ALL: [Intrinsic; 13] = [
        Intrinsic::Scan,
        Intrinsic::Cannon,
        Intrinsic::Drive,
        Intrinsic::Damage,
        Intrinsic::Speed,
        Intrinsic::LocX,
        Intrinsic::LocY,
        Intrinsic::Rand,
        Intrinsic::Sqrt,
        Intrinsic::Sin,
        Intrinsic::Cos,
        Intrinsic::Tan,
        Intrinsic::Atan,
    ];

    /// Returns how many arguments the function uses: 0 to 2. Further ones are evaluated and dropped.
    pub fn argument_count(self) -> u8
        ensures value { result ≡ argument_count self }
        ensures most { result ≤ 2 }
    {
        match self {
            Intrinsic::Scan | Intrinsic::Cannon | Intrinsic::Drive => 2,
            Intrinsic::Damage | Intrinsic::Speed | Intrinsic::LocX | Intrinsic::LocY => 0,
            Intrinsic::Rand
            | Intrinsic::Sqrt
            | Intrinsic::Sin
            | Intrinsic::Cos
            | Intrinsic::Tan
            | Intrinsic::Atan => 1,
        }
    }

    /// Returns the function's name, as a program spells it and a listing prints it.
    #[tactic(auto, unfolding(crate::specs::Intrinsics::intrinsic_name))]
    pub fn name(self) -> &'static str
        ensures { result.now ≡ intrinsic_name self }
    {
        match self {
            Intrinsic::Scan => "scan",
            Intrinsic::Cannon => "cannon",
            Intrinsic::Drive => "drive",
            Intrinsic::Damage => "damage",
            Intrinsic::Speed => "speed",
            Intrinsic::LocX => "loc_x",
            Intrinsic::LocY => "loc_y",
            Intrinsic::Rand => "rand",
            Intrinsic::Sqrt => "sqrt",
            Intrinsic::Sin => "sin",
            Intrinsic::Cos => "cos",
            Intrinsic::Tan => "tan",
            Intrinsic::Atan => "atan",
        }
    }
}
