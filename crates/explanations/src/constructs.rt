//! Constructs of other languages, a text of each language: what begins a construct, and what a robot writes instead.
//!
//! A line of a text is a row. Before its tabulator stand words and marks that begin constructs, with blanks between them. What
//! follows on the same line stands behind a `'`: there `@` is any name or word, `9` any number, and `&` a blank. Of those that begin in the
//! same way the longer ones come first. Behind the tabulator stands what a robot writes. A `^` before that says that the head
//! of the function that follows is a line to copy, a `;` that the declaration of the name that follows is one, and a `*` or a `+`
//! that a loop is one, which counts the turns, or is a `for`. Words of C
//! are those that this language refuses, and others. Texts are smaller in the page's module than rows of texts.

/// The languages, and their constructs. Small letters stand for capital ones, too.
pub static LANGUAGES: [(&str, &str); 17] = [
    ("Go", GO),
    ("C", C),
    ("C++", CPP),
    ("Java", JAVA),
    ("C#", C_SHARP),
    ("JavaScript", JAVASCRIPT),
    ("Python", PYTHON),
    ("Basic", BASIC),
    ("Scratch", SCRATCH),
    ("Ruby", RUBY),
    ("Pascal", PASCAL),
    ("Rust", RUST),
    ("Kotlin", KOTLIN),
    ("Lua", LUA),
    ("PHP", PHP),
    ("HTML", HTML),
    ("Shell", SHELL),
];

/// The constructs of Go.
const GO: &str = "for'{\twhat is repeated for ever stands in `while (1) { .. }`
func'@\t^a function begins with its name
defer'@\tleave it out: a robot does one thing after the other";

/// The constructs of C.
const C: &str =
    "#'define #'include\tthere is no `#define` and no `#include`: write the number, or use a variable
#'if\tthere is nothing before the compiler: leave the line out
for'(;;\twhat is repeated for ever stands in `while (1) { .. }`
for\t+there is no `for`
do'9\t*there is no `do`: what is done so often stands in a `while`
do\tthere is no `do`: write `while (..) ..`
break\tthere is no `break`: end the loop by its condition, or by `return`
continue\tthere is no `continue`: put the rest of the loop into an `if`
switch\tthere is no `switch`: write `if (..) ..; else if (..) ..;`
case\tthere is no `case`: write `if (..) ..; else if (..) ..;`
default\tthere is no `default`: write an `else`
goto\tthere is no `goto`: write a `while` or an `if`
struct\tthere are no structures: use several variables
union\tthere are no unions: use several variables
typedef\tthere are no types of your own: all values are whole numbers
char'( char') float'( float') double'( double') unsigned')\tthere are no casts, as all values are whole numbers: leave the type and its brackets out
char\t;there are no characters: all values are whole numbers
float double\t;there are no fractions: all values are whole numbers
static\tleave `static` out; a variable that lasts is declared outside the functions
extern\tleave `extern` out: a robot is one file
short'int\tleave `short` out: `int` has 32 bits
short int8_t'@ uint8_t'@ int32_t'@ uint32_t'@ size_t'@\t;all values have 32 bits
unsigned'int\tleave `unsigned` out: all values have a sign
unsigned signed'@\t;all values have a sign
sizeof\tthere is no `sizeof`: all values are whole numbers of 32 bits
void')\ta function without parameters has empty brackets: `main() {`
void\t^leave `void` out
enum\tthere is no `enum`: write the number, or use a variable
inline'@\t^leave it out
printf'( puts'(\ta robot writes nothing, and has no text: leave the line out
scanf'(\ta robot reads nothing: leave the line out
volatile'@\tleave `volatile` out
proc'@ method'@ routine'@ subroutine'@ task'@\t^a function begins with its name
sleep'(\tnothing waits by itself: a loop does, such as `while (speed() > 0) ;`
NULL\twrite 0
exit'(\ta robot ends with the match: leave it out
equals\twrite `==`";

/// The constructs of C++.
const CPP: &str =
    "const'@ constexpr'@\t;there are no constants with names: write the number, or use a variable
using'@\ta robot is one file: leave the line out
bool'@\t;all values are whole numbers
std\ta name stands alone: leave `std::` out
:':\ta name stands alone: leave `::` out, with what is before it
namespace'@\tleave it out: a robot is one file
template\tleave it out: all values are whole numbers
cout'<\ta robot writes nothing, and has no text: leave the line out
nullptr\twrite 0
virtual'@\t^leave it out
delete'@\tthere are no objects: leave the line out";

/// The constructs of Java.
const JAVA: &str = "try throw'@ catch'(\tnothing is thrown: leave it out
public'class\tthere are no classes: leave the line out, and its `}`; functions stand alone
public'@ private'@ protected'@\t^leave it out
class'@\tthere are no classes: leave it out with its `{` and `}`; functions stand alone
final'@\t;there are no constants with names: write the number, or use a variable
new'@\tthere are no objects: leave the line out, or use several variables
System\ta robot writes nothing, and has no text: leave the line out
package'@\ta robot is one file: leave the line out
String'@\tthere is no text: all values are whole numbers
boolean'@\t;all values are whole numbers
null\twrite 0
extends'@\tthere are no classes: leave it out
@'@\tleave the line out
Thread'.\tnothing waits by itself: a loop does, such as `while (speed() > 0) ;`";

/// The constructs of C#.
const C_SHARP: &str = "Console\ta robot writes nothing, and has no text: leave the line out
string'@ $'\"\tthere is no text: all values are whole numbers
foreach\tthere is no `foreach`: write `i = 0; while (i < 9) { ..; i = i + 1; }`
readonly'@\t;there are no constants with names: write the number, or use a variable";

/// The constructs of JavaScript.
const JAVASCRIPT: &str = "function'@\t^a function begins with its name
let'@ var'@\t;a declaration begins with `int`
console alert'(\ta robot writes nothing, and has no text: leave the line out
Math\twhat it has stands alone here: `rand(360)`, `sqrt(9)`, `sin(45)`; all values are whole numbers
async'@ await'@\tleave it out: a robot does one thing after the other
export'@\tleave it out: a robot is one file
import'{ require'(\ta robot is one file: leave the line out
setInterval'(\twhat is repeated for ever stands in `while (1) { .. }`
setTimeout'(\tnothing waits by itself: a loop does, such as `while (speed() > 0) ;`
this'.\tthere are no objects: a name stands alone";

/// The constructs of Python.
const PYTHON: &str = "#\ta comment stands between `/*` and `*/`: `/* go east */`
def'@\t^a function begins with its name
import'@\ta robot is one file: leave the line out
from'@\tthere is no `import`: a robot is one file: leave the line out
global'@ nonlocal'@\tleave the line out: a variable of all functions is declared outside of them
elif\twrite `else if`
pass\tan empty statement is `;`
lambda'@\ta function has a name, and stands outside of others
and\twrite `&&`
or\twrite `||`
not\twrite `!`
print'(\ta robot writes nothing, and has no text: leave the line out
except raise'@\tnothing is thrown: leave it out
math\twhat it has stands alone here: `sqrt(9)`, `sin(45)`, `atan(100000)`; all values are whole numbers
__name__\tleave the line out: a robot begins in `main() {`
None\twrite 0
del'@\ta variable stays: leave the line out
assert'@\tleave the line out: nothing is checked
is'not\twrite `!=`
is\twrite `==`
input'(\ta robot reads nothing: leave the line out
time'.\tnothing waits by itself: a loop does, such as `while (speed() > 0) ;`
random'.\twhat it has stands alone here: `rand(360)` is one of 0 to 359
self'.\tthere are no objects: a name stands alone
in between\twrite `a > 1 && a < 9`
xor\twrite `^`";

/// The constructs of Basic.
const BASIC: &str = "then\tno `then` stands behind a condition
elseif\twrite `else if`
endif wend\ta block ends with `}`
end'if\ta block ends with `}`, and not with `end if`
end'while\ta block ends with `}`, and not with `end while`
next'@\ta block ends with `}`, and counts itself: `i = i + 1;`
rem'@\ta comment stands between `/*` and `*/`: `/* go east */`
dim'@\t;a declaration begins with `int`
sub'@\t^a function begins with its name
print'\" print'@\ta robot writes nothing, and has no text: leave the line out
gosub'@ call'@\ta function is called by its name: `turn(90);`
mod\tthe remainder is written `%`";

/// The constructs of Scratch.
const SCRATCH: &str = "forever\twhat is repeated for ever stands in `while (1) { .. }`
repeat'( repeat'9\t*what is done so often stands in a `while`
when'@\tleave the line out: a robot begins in `main() {`
set'@\twrite `a = 5;`";

/// The constructs of Ruby.
const RUBY: &str =
    ".'times loop'( loop'9 times'( times'9\t*what is done so often stands in a `while`
elsif\twrite `else if`
unless\twrite `if (!(..))`";

/// The constructs of Pascal.
const PASCAL: &str = "end\ta block ends with `}`
:'=\tan assignment is written with `=` alone
begin\ta block begins with `{`
procedure'@\t^a function begins with its name
program'@\tleave the line out: a robot begins in `main() {`
repeat until\twrite `while (..) {`, with the condition turned round, and `}`
div\ta quotient is written `/`
writeln\ta robot writes nothing, and has no text: leave the line out
uses'@\ta robot is one file: leave the line out
('*&\ta comment stands between `/*` and `*/`: `/* go east */`";

/// The constructs of Rust.
const RUST: &str = "fn'@\t^a function begins with its name
loop'{\twhat is repeated for ever stands in `while (1) { .. }`
mut'@\tleave it out
println\ta robot writes nothing, and has no text: leave the line out";

/// The constructs of Kotlin.
const KOTLIN: &str = "fun'@\t^a function begins with its name
when'(\twrite `if (a == 1) ..; else if (a == 2) ..;`
val'@\t;a declaration begins with `int`";

/// The constructs of Lua.
const LUA: &str = "local'@\t;a declaration begins with `int`
~'=\twrite `!=`
--'&@\ta comment stands between `/*` and `*/`: `/* go east */`";

/// The constructs of PHP.
const PHP: &str = "$'@\ta name has no `$`
echo\ta robot writes nothing, and has no text: leave the line out";

/// The constructs of HTML.
const HTML: &str = "<'!\ta comment stands between `/*` and `*/`: `/* go east */`";

/// The constructs of the shell, and of Perl.
const SHELL: &str = "gt'@ gt'9\twrite `>`
lt'@ lt'9\twrite `<`
ge\twrite `>=`
le\twrite `<=`
eq\twrite `==`
ne\twrite `!=`
fi done\ta block ends with `}`";
