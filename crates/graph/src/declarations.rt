// Records of an accepted file, read again.
ghost use Rattle.std.specs.Prelude.{◌≡◌, ◌+◌, ◌^◌, ◌<◌, length, drop, Ok, option_map};
ghost use Rattle.records.specs.Frames.{frame as frame_view};
ghost use Rattle.records.specs.Fields.{view, outcome_by};
ghost use Rattle.records.specs.Bodies.{feature_view};
ghost use Rattle.graph.specs.Declarations.{feature_again, declaration_as, declaration_in};
ghost use Rattle.graph.specs.Views.{declaration_view};

use crate::contents::DeclarationRecord;
use records::{Feature, Frame, Kind, Reader, RecordFault, first_frame};

// The body of a feature record whose name was found new before.
fn feature_again<'a>(body: &mut Reader<'a>) -> Result<Feature<'a>, RecordFault>
    ensures { outcome_by feature_view result (view body.new) ≡ feature_again (view body.old) }
{
    let name = body.name()?;
    let values = body.values()?;
    Ok(Feature { name, values })
}

// What a dependency or feature record says.
fn declaration_of<'a>(frame: Frame<'a>) -> Option<DeclarationRecord<'a>>
    requires { length frame.body.now + 6 < 2 ^ 63 }
    ensures { option_map declaration_view result ≡ declaration_as (Ok (frame_view frame.entry)) }
{
    let mut body = Reader {
        rest: frame.body,
        at: 6,
    };
    match Kind::try_from(frame.kind) {
        Ok(Kind::Dependency) => body.dependency().map(DeclarationRecord::Dependency).ok(),
        Ok(Kind::Feature) => feature_again(&mut body)
            .map(DeclarationRecord::Feature)
            .ok(),
        _ => None,
    }
}

// The dependency or feature record at the front of some bytes.
fn first_declaration<'a>(bytes: &'a [u8]) -> Option<DeclarationRecord<'a>>
    ensures { option_map declaration_view result ≡ declaration_in bytes.now }
{
    declaration_of(first_frame(bytes).ok()?)
}

// The dependency or feature record at a place of the file.
pub(crate) fn declaration_at<'a>(file: &'a [u8], start: usize) -> Option<DeclarationRecord<'a>>
    ensures { option_map declaration_view result ≡ declaration_in (drop start file.now) }
{
    first_declaration(file.get(start..)?)
}
