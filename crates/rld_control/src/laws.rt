//! Laws of command lines. Each is the contract of a function that does nothing.

ghost use Rattle.rld_control.specs.Laws.{IsReadBack};

use rld_values::laws::read_back;

/// The line of a command is read as that command, whatever octets its names and ids have.
pub fn line_asks()
    ensures { IsReadBack }
{
    read_back();
}
