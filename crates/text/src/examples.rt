// Worked examples of feature strings.
ghost use Rattle.std.specs.Prelude.{◌↔◌, IsTrue};
ghost use Rattle.text.specs.Examples.{Examples, RefusedAt};

use crate::faults::StringFault;
use crate::strings::read_feature_string;

// Whether a string is refused at this place.
fn refused_at(text: &[u8], place: usize) -> bool
    ensures { IsTrue result ↔ RefusedAt text.now place }
{
    read_feature_string(text) == Err(StringFault::NoForm { prefix: place })
}

/// Reads each worked example of a refused feature string, and says whether all are refused where the table says.
pub fn worked_examples() -> bool
    ensures answer { IsTrue result }
    ensures table { Examples }
{
    refused_at(b"", 0) && refused_at(b"a?", 2) && refused_at(b"a??", 2) && refused_at(b"dep:a/b", 5)
}
