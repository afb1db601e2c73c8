//! Graph files for tests, written record by record. Nothing here knows the library that reads them, so that what is
//! written is spelled a second time.

#![tactic(auto)]

mod kinds;
mod records;
mod values;

pub use kinds::{EdgeKind, NoKind, RecordKind};
pub use records::{
    DependencyHead, dependency_record, end_record, feature_record, header, package_record,
};
pub use values::FeatureString;
