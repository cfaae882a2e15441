//! The lines of diagnostics.

ghost use Rattle.std.specs.Prelude.{◌-◌, ◌^◌, ◌<◌};
ghost use Rattle.series.specs.DiagnosticLines.{diagnostic_line};
ghost use Rattle.sinks.specs.Puts.{CanFail, Puts};

use sinks::{Pen, Sink};
use tokens::DeviceFault;

/// Puts the line of a diagnostic: the file's name, the line's number and the diagnostic's text.
pub fn put_diagnostic<S: Sink>(
    sink: &mut S,
    name: &[u8],
    line: u32,
    text: &[u8],
) -> Result<(), DeviceFault>
    requires { CanFail (S.written sink.old) }
    ensures { Puts result (S.written sink.old) (S.written sink.new)
        (diagnostic_line name.now line text.now) }
{
    let mut pen = Pen::new();
    pen.add(sink, name);
    pen.add(sink, b":");
    pen.add_number(sink, line);
    pen.add(sink, b": ");
    pen.add(sink, text);
    pen.add(sink, b"\n");
    pen.finish(sink)
}
