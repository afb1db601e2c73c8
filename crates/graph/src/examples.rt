// The worked example: a graph of three packages.
ghost use Rattle.std.specs.Prelude.{◌≡◌, Ok};
ghost use Rattle.graph.specs.Examples.{example_opened, Examples};

use crate::faults::FileFault;
use crate::opening::open_graph;
use crate::rows::Opened;

/// The file of a worked example, one record a line: the packages `app`, `core` and `gen`.
pub const EXAMPLE: [u8; 173] = *b"\
    \x04\0\0\0\x01\0\x01\0\
    \x07\0\0\0\x02\0\0\x03app\
    \x0d\0\0\0\x03\0\x01\0\0\x01\0\x04core\0\
    \x0c\0\0\0\x03\0\x02\0\x01\0\x01\x03gen\0\
    \x0e\0\0\0\x04\0\x07default\x01\x02io\
    \x19\0\0\0\x04\0\x02io\x02\x08dep:core\x09core?/std\
    \x08\0\0\0\x02\0\0\x04core\
    \x07\0\0\0\x04\0\x03std\0\
    \x0a\0\0\0\x04\0\x02rt\x01\x03std\
    \x07\0\0\0\x02\0\0\x03gen\
    \x10\0\0\0\x03\0\x01\0\0\0\0\x04core\x01\x02rt\
    \x02\0\0\0\x05\0";

/// Opens the file of the worked example, with just as many words as it needs.
pub fn open_example() -> Result<Opened, FileFault>
    ensures opened { result ≡ Ok example_opened }
    ensures table { Examples }
{
    let file = EXAMPLE;
    let mut words = [0; 54];
    open_graph(&file, &mut words)
}
