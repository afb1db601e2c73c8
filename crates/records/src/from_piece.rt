// What a string of a record is read as: a name or a feature string.
ghost use Rattle.std.specs.Prelude.{◌≡◌, Result};
ghost use Rattle.text.specs.Forms.{Form, Piece};
ghost use Rattle.text.specs.Views.{map_ok, piece, form};
ghost use Rattle.records.specs.declared.faults.InField.{InField};
ghost use Rattle.records.specs.Fields.{name_from, form_from};

use crate::faults::InField;
use text::{FeatureString, Piece, StringFault, read_feature_string, read_name};

// What a string of a record is read as.
pub(crate) trait FromPiece<'a>: Copy {
    // what such a string says, with the bytes in the place of what refers to them
    ghost Meaning: { Type 0 };

    ghost meaning: { Self → Meaning };

    ghost reading: { Piece → Result Meaning InField };

    // A string of a record, if it is such a one.
    fn read(text: Piece<'a>) -> Result<Self, InField>
        ensures { map_ok meaning result ≡ reading (piece text.entry) };
}

// A name.
impl<'a> FromPiece<'a> for Piece<'a> {
    ghost Meaning = { Piece };

    ghost meaning = { piece };

    ghost reading = { name_from };

    fn read(text: Piece<'a>) -> Result<Piece<'a>, InField> {
        let field = text.at;
        read_name(text.bytes).map_err(|fault| InField { field, fault })?;
        Ok(text)
    }
}

// A feature string.
impl<'a> FromPiece<'a> for FeatureString<'a> {
    ghost Meaning = { Form Piece };

    ghost meaning = { form };

    ghost reading = { form_from };

    fn read(text: Piece<'a>) -> Result<FeatureString<'a>, InField> {
        let field = text.at;
        if text.bytes.is_empty() {
            let fault = StringFault::NoForm { prefix: 0 };
            return Err(InField { field, fault });
        }
        read_feature_string(text.bytes).map_err(|fault| InField { field, fault })
    }
}
