// Feature strings by their form, and how they are spelled.
ghost use Rattle.std.specs.Prelude.{◌≡◌, ◌++◌, IfOk};
ghost use Rattle.graph_files.specs.Spelling.{spelling};

use std::alloc::{AllocError, Global};

/// A feature string: `g`, `dep:n`, `n/g` or `n?/g`, for a dependency n and a feature g.
#[derive(Clone, Copy)]
pub enum FeatureString<'a> {
    Plain {
        feature: &'a [u8],
    },
    Switch {
        dependency: &'a [u8],
    },
    Strong {
        dependency: &'a [u8],
        feature: &'a [u8],
    },
    Weak {
        dependency: &'a [u8],
        feature: &'a [u8],
    },
}

// Three strings, one after the other.
fn joined(heap: Global, first: &[u8], second: &[u8], third: &[u8]) -> Result<Vec<u8>, AllocError>
    ensures { IfOk result (λ text. text.items ≡ (first.now ++ second.now) ++ third.now) }
{
    let mut text = Vec::from_slice(heap, first)?;
    text.extend_from_slice(second)?;
    text.extend_from_slice(third)?;
    Ok(text)
}

impl<'a> FeatureString<'a> {
    /// The bytes of the string.
    pub fn spelling(self, heap: Global) -> Result<Vec<u8>, AllocError>
        ensures { IfOk result (λ text. text.items ≡ spelling self.entry) }
    {
        match self {
            FeatureString::Plain { feature } => joined(heap, feature, b"", b""),
            FeatureString::Switch { dependency } => joined(heap, b"dep:", dependency, b""),
            FeatureString::Strong {
                dependency,
                feature,
            } => joined(heap, dependency, b"/", feature),
            FeatureString::Weak {
                dependency,
                feature,
            } => joined(heap, dependency, b"?/", feature),
        }
    }
}
