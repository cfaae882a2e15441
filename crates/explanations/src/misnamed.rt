//! Faults of names: which name it is, and which one may be meant.

use crate::comments::{nested, swallowed};
use crate::explaining::{Found, add_met};
use crate::foreign::foreign_name;
use crate::functions::on_stray_call;
use crate::heads::is_call;
use crate::hints::Hint;
use crate::indices::{is_name, name_at};
use crate::lookalikes::meant_by;
use crate::notes::Note;
use crate::spelling::{is_near, is_same_but_for_case};
use crate::texts::said_of;
use derivations::Located;
use grammar::{Code, Intrinsic};
use tokens::{Name, Punctuator, Token};

/// Names that beginners use, in small letters and without `_`, with a hint on those of each line.
const USED: &str =
    "fire shoot shot attack launch firecannon shootcannon missile bullet firebullet setfire gun firegun shootat fireat blast\tthe call is `cannon(degree, range)`
radar scanner sonar look detect search sense scanfor findenemy getrange scanarc see getenemy scanenemy ping\tthe call is `scan(degree, resolution)`
move go ahead accelerate setspeed moveto setheading setahead walk run swim driveto gotoxy steer\tthe call is `drive(degree, speed)`
stop brake halt stopmoving\tthe call is `drive(degree, 0)`
rotate forward turnleft turnright turnto backward back left right setturnright setturnleft setback turngun turngunright turngunleft turnradar turnradarright turnradarleft reverse\ta robot turns as it drives: the call is `drive(degree, speed)`
x getx posx xpos positionx locationx xcoord\tthe call is `loc_x()`
y gety posy ypos positiony locationy ycoord\tthe call is `loc_y()`
health getdamage life lives hitpoints energy gethealth getenergy armor armour hp\tthe call is `damage()`
getspeed velocity getvelocity\tthe call is `speed()`
random rnd randint randrange getrandom\tthe call is `rand(limit)`
print printf println echo log debug say write writeln display draw cout cin endl puts\ta robot writes nothing, and has no text
wait sleep delay pause yield donothing\tnothing waits by itself: a loop does, such as `while (speed() > 0) ;`
abs fabs absolute\t`abs` isn't there (there are thirteen functions): write `if (a < 0) a = -a;`, or define it as a function of the file
min minimum\t`min` isn't there (there are thirteen functions): write `if (b < a) a = b;`, or define it as a function of the file
max maximum\t`max` isn't there (there are thirteen functions): write `if (b > a) a = b;`, or define it as a function of the file
pow power\tthere are no powers: multiply, as `a * a`, or write a function of the file
round floor ceil trunc parseint toint\tall values are whole numbers: leave it out, as a quotient is one
atan2 hypot asin acos arctan arcsin arccos\tit isn't there: write it as a function of the file, by `atan(100000 * y / x)` or `sqrt(x * x + y * y)`
sign exp normalize clamp\tit isn't there: write it as a function of the file
heading direction getheading gunheading getgunheading getdirection getangle bearing getbearing facing\ta robot isn't told where it heads: keep the degree in a variable
distance dist getdistance distanceto\t`scan(degree, resolution)` answers how far a robot is; else write it as a function of the file
time clock gettime gettick ticks millis now\tnothing tells the time: count the turns of a loop
len length size append push\tthere are no arrays and no lists: use several variables
str string tostring\tthere is no text: all values are whole numbers
exit quit die\ta robot ends with the match: leave it out
hit ishit washit hitbywall gothit\tcompare `damage()` with what it was before
wall atwall hitwall nearwall border\tcompare `loc_x()` and `loc_y()` with 0 and 999
enemies robots opponents alive players count\tnothing tells how many robots are left: `scan(degree, resolution)` answers how far one is
repair heal fix mend shield\tnothing mends damage: keep away from shots and walls
reload load ammo ready\tnothing is loaded: at most two shots are in the air, and `cannon(degree, range)` answers 0 then
bounce\ta robot stops at a wall: call `drive(degree, speed)` again, away from it
loc location position pos getposition\tthe calls are `loc_x()` and `loc_y()`
inc increment\twrite `a = a + 1;`
srand seed randomize\tnothing begins the random numbers: leave it out, and call `rand(360)`
null none nil nullptr undefined\twrite 0
north south east west\t0 is east, 90 north, 180 west and 270 south
pi\thalf of a circle is 180 degrees";

/// Adds the name of a fault, and a hint on it. The functions that are defined are known by the indices of their names.
pub fn add_misnamed(note: &mut Note, found: &Found<'_>, defined: &[usize]) {
    add_met(note, found);
    let name = name_at(found.tokens, found.index).unwrap_or(Name::new());
    note.add("  hint: ");
    match on_stray_code(found) {
        Some(hint) => hint.add(note, found.source, found.tokens),
        None => add_reason(note, found, defined, &name),
    }
    note.push('\n');
}

/// Adds why a name is a fault.
fn add_reason(note: &mut Note, found: &Found<'_>, defined: &[usize], name: &Name) {
    match found.code {
        Code::FunctionDefinedTwice => add_first(note, found.tokens, defined, name),
        Code::IntrinsicRedefined => {
            note.add("every robot has a function of this name built in: give yours another name");
        }
        Code::BadParameterDeclaration => note.add(on_parameter(found)),
        Code::FunctionNotDefined => add_meant(note, found, defined, name),
        Code::NoMainFunction => add_main(note, found, defined),
        // no other fault is a name's: `explain` asks others for these
        _ => {}
    }
}

/// Returns the hint on a name that probably wasn't meant to be defined: it is in a comment that has ended, or a call is
/// outside of functions.
fn on_stray_code(found: &Found<'_>) -> Option<Hint> {
    if matches!(found.code, Code::FunctionNotDefined | Code::NoMainFunction) {
        return None;
    }
    if let Some(line) = nested(found.source, found.met.start()) {
        return Some(Hint::Nested(line));
    }
    let name = head_of(found);
    if !is_call(found.tokens, name) {
        return None;
    }
    if is_name(found.tokens, name, b"main") {
        return Some(Hint::Text("a robot begins in `main` by itself: leave the call out"));
    }
    Some(on_stray_call(found.tokens, name).unwrap_or(Hint::Text(
        "a call stands inside of a function, as `main() { .. }`",
    )))
}

/// Returns the index of the name of the function whose head has the fault.
fn head_of(found: &Found<'_>) -> usize {
    let open = Token::Punctuator(Punctuator::OpenRound);
    let mut head = found.index;
    if found.code == Code::BadParameterDeclaration {
        for (index, located) in before(found).iter().enumerate() {
            if located.token == open {
                head = index.saturating_sub(1);
            }
        }
    }
    head
}

/// Returns the tokens before that of a fault.
fn before<'a>(found: &Found<'a>) -> &'a [Located] {
    found.tokens.get(..found.index).unwrap_or(&[])
}

/// Adds the position of a function's first definition.
fn add_first(note: &mut Note, tokens: &[Located], defined: &[usize], name: &Name) {
    for index in defined {
        if let Some(first) = tokens.get(*index)
            && first.token == Token::Name(*name)
        {
            note.count("it is defined on line ", u64::from(first.line), " already");
            if name.has_bytes(b"main") {
                note.add(
                    ": a robot has only one `main`, and does one thing after the other in its loop",
                );
            } else {
                note.add(
                    ": one name is one function, whatever its parameters, so give this one another name: write `",
                );
                note.add(name.as_str());
                note.add("2`");
            }
            return;
        }
    }
    note.add("it is defined already");
}

/// Returns what is wrong with a parameter: it is twice in the list, or not in it.
fn on_parameter(found: &Found<'_>) -> &'static str {
    if ends_in_brackets(before(found)) {
        "the list has this name twice"
    } else {
        "this is not a parameter: the list in the brackets hasn't it; locals are declared after the `{`"
    }
}

/// Reports whether the last bracket among some tokens opens.
fn ends_in_brackets(tokens: &[Located]) -> bool {
    let mut is_open = false;
    for located in tokens {
        match located.token {
            Token::Punctuator(Punctuator::OpenRound) => is_open = true,
            Token::Punctuator(Punctuator::CloseRound) => is_open = false,
            _ => {}
        }
    }
    is_open
}

/// Adds which function may be meant by a name that none has.
fn add_meant(note: &mut Note, found: &Found<'_>, defined: &[usize], name: &Name) {
    if let Some(line) = swallowed(found.source, name.as_bytes()) {
        note.count(
            "a comment that isn't closed on line ",
            u64::from(line),
            " has the function in it",
        );
    } else if let Some(hint) = on_used(name) {
        note.add(hint);
    } else if let Some(intrinsic) = near_intrinsic(name) {
        add_perhaps(note, intrinsic);
    } else if let Some(function) = near_function(found.tokens, defined, name.as_bytes()) {
        add_perhaps(note, function.as_str());
    } else {
        let foreign = foreign_name(found.source, found.tokens, found.index);
        match (foreign, meant_by(name.as_bytes())) {
            (Some(foreign), _) => foreign.add(note, found.source, found.tokens),
            (None, Some(word)) => Hint::Meant(word).add(note, found.source, found.tokens),
            (None, None) => add_unknown(note, found, name),
        }
    }
}

/// Adds that a name is perhaps meant.
fn add_perhaps(note: &mut Note, name: &str) {
    note.add("perhaps ");
    note.quote(name);
    note.add(" is meant");
}

/// Returns the hint on a name that beginners use.
pub fn on_used(name: &Name) -> Option<&'static str> {
    on_used_bytes(name.as_bytes())
}

/// Returns the hint on a name that beginners use, by its bytes.
pub fn on_used_bytes(name: &[u8]) -> Option<&'static str> {
    said_of(USED, name)
}

/// Returns the name of the first intrinsic function that may be meant by another name.
fn near_intrinsic(name: &Name) -> Option<&'static str> {
    for intrinsic in &Intrinsic::ALL {
        if may_mean(name.as_bytes(), intrinsic.name().as_bytes()) {
            return Some(intrinsic.name());
        }
    }
    None
}

/// Adds why a name may be no function's: it is a variable's.
fn add_unknown(note: &mut Note, found: &Found<'_>, name: &Name) {
    if is_variable(found.tokens, name) {
        note.add("it is a variable: leave the brackets out, or call the function that is meant");
    } else if name.has_bytes(b"turn") {
        note.add("a robot turns as it drives: the call is `drive(degree, speed)`");
    } else {
        note.add(
            "neither the file nor the robot has a function of this name: write one, or call another",
        );
    }
}

/// Reports whether a name is somewhere without a bracket after it.
fn is_variable(tokens: &[Located], name: &Name) -> bool {
    let open = Token::Punctuator(Punctuator::OpenRound);
    let mut follows_name = false;
    for located in tokens {
        if follows_name && located.token != open {
            return true;
        }
        follows_name = located.token == Token::Name(*name);
    }
    false
}

/// Adds which function may be meant as `main`, or that it is in a comment.
fn add_main(note: &mut Note, found: &Found<'_>, defined: &[usize]) {
    note.add("a robot begins in its function `main`");
    if let Some(function) = near_function(found.tokens, defined, b"main") {
        add_as_main(note, &function);
    } else if let Some(line) = swallowed(found.source, b"main") {
        note.count(
            ": a comment that isn't closed on line ",
            u64::from(line),
            " has it",
        );
    } else if let Some(function) = only_of(found, defined) {
        add_as_main(note, &function);
    }
}

/// Adds that a function is perhaps to be `main`.
fn add_as_main(note: &mut Note, function: &Name) {
    note.add(": perhaps ");
    note.quote(function.as_str());
    note.add(" is to be it");
}

/// Returns the name of the function that the file has, if it is one alone.
fn only_of(found: &Found<'_>, defined: &[usize]) -> Option<Name> {
    match defined {
        [index] => name_at(found.tokens, *index),
        _ => None,
    }
}

/// Returns the first function of the file whose name is spelled nearly as another one.
fn near_function(tokens: &[Located], defined: &[usize], name: &[u8]) -> Option<Name> {
    for index in defined {
        if let Some(function) = name_at(tokens, *index)
            && may_mean(name, function.as_bytes())
        {
            return Some(function);
        }
    }
    None
}

/// Reports whether a name may be meant by another one, of at least three letters.
pub fn may_mean(name: &[u8], other: &[u8]) -> bool {
    is_same_but_for_case(name, other) || name.len() > 2 && other.len() > 2 && is_near(name, other)
}
