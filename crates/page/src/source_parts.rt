//! What a robot's source has where: its names, and where its instructions come from.

use crate::compiled_robots::CompiledRobots;
use crate::robots::RobotFile;
use crate::rows::Row;
use crate::sheets::Sheet;
use derivations::{NamedProgram, SourcePositions};
use tokens::Name;
use watching::{Event, Field};

/// The first line of a list of places: the names of its columns.
const COLUMNS: &[u8] = b"number\trobot\tkind\ta\tb\tc\td\te\n";

/// Writes the names of each robot's source, and where the instructions of its program come from, a row each.
pub(crate) fn tell_places(compiled: &CompiledRobots, robots: &[RobotFile], sheet: &mut Sheet) {
    sheet.add(COLUMNS);
    for (robot, positions) in compiled.positions(robots).iter().enumerate() {
        let Some(named) = compiled.named(robot) else {
            return;
        };
        tell_names(robot, &named, sheet);
        if let Some(positions) = positions {
            tell_code(robot, &named, positions, sheet);
        }
    }
}

/// Writes the externals, and each function with its variables: numbers and names, where a function begins, and of which
/// function a variable is.
fn tell_names(robot: usize, named: &NamedProgram<'_>, sheet: &mut Sheet) {
    for (number, name) in named.names.externals().iter().enumerate() {
        tell(sheet, robot, number, &Event::new("external", &[text(name)]));
    }
    let begins = named.program.addresses();
    for (function, (names, begin)) in named.names.functions().iter().zip(begins).enumerate() {
        let fields = [Field::Number(i64::from(*begin)), text(names.name())];
        tell(sheet, robot, function, &Event::new("function", &fields));
        for (number, name) in names.variables().iter().enumerate() {
            let fields = [number_of(function), text(name)];
            tell(sheet, robot, number, &Event::new("variable", &fields));
        }
    }
}

/// Writes of each instruction its line, its column, whether the line is entered at it, its function, and the name in it.
fn tell_code(
    robot: usize,
    named: &NamedProgram<'_>,
    positions: &SourcePositions,
    sheet: &mut Sheet,
) {
    for (address, position) in positions.places().iter().enumerate() {
        let is_entry = named.is_entry(positions, address);
        let fields = [
            Field::Number(i64::from(position.line)),
            Field::Number(i64::from(position.column)),
            Field::Number(i64::from(is_entry)),
            number_of(named.function(address)),
            Field::Text(named.name_in(address).unwrap_or("")),
        ];
        tell(sheet, robot, address, &Event::new("code", &fields));
    }
}

/// Returns the number of a function as a field. No program has so many that it is cut off.
fn number_of(function: usize) -> Field<'static> {
    Field::Number(function.min(u32::MAX as usize) as i64)
}

/// Returns a name as a field.
fn text(name: &Name) -> Field<'_> {
    Field::Text(name.as_str())
}

/// Writes a row.
fn tell(sheet: &mut Sheet, robot: usize, number: usize, event: &Event<'_>) {
    let number = number.min(u32::MAX as usize) as u32;
    sheet.add(Row::new(number, robot, event).as_slice());
}
