// The second reading: everything that is named is there.
ghost use Rattle.std.specs.Prelude.{◌≡◌};
ghost use Rattle.records.specs.Bodies.{form_in};
ghost use Rattle.graph.specs.RowLists.{its};
ghost use Rattle.graph.specs.Places.{dependencies_of};
ghost use Rattle.graph.specs.Second.{has_dependency, ends_have, is_resolved};

use crate::filled::Filled;
use text::{FeatureString, read_feature_string};

impl<'a> Filled<'a> {
    // Whether a package has a dependency of this name.
    fn has_dependency(&self, p: u32, name: &[u8]) -> bool
        ensures { result ≡ has_dependency (dependencies_of (its self.now) p) name.now }
    {
        self.named(p, name).next().is_some()
    }

    // Whether the end of every dependency of this name has this feature.
    fn ends_have(&self, p: u32, name: &[u8], feature: &[u8]) -> bool
        ensures { result ≡ ends_have (its self.now) (dependencies_of (its self.now) p) name.now feature.now }
    {
        for d in self.named(p, name) {
            if !self.has_feature(u32::from(d.dependency.end), feature) {
                return false;
            }
        }
        true
    }

    // Whether what a feature string of a package names is there.
    pub(crate) fn known(&self, p: u32, text: &[u8]) -> bool
        ensures { result ≡ is_resolved (its self.now) p (form_in text.now) }
    {
        match read_feature_string(text) {
            Ok(FeatureString::Plain { feature }) => self.has_feature(p, feature.bytes),
            Ok(FeatureString::Switch { dependency }) => self.has_dependency(p, dependency.bytes),
            Ok(
                FeatureString::Strong {
                    dependency,
                    feature,
                }
                | FeatureString::Weak {
                    dependency,
                    feature,
                },
            ) => {
                self.has_dependency(p, dependency.bytes)
                    && self.ends_have(p, dependency.bytes, feature.bytes)
            }
            // no string of an accepted file: `form_in` takes it for a plain one
            Err(_) => self.has_feature(p, text),
        }
    }
}
