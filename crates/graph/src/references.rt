// The second reading of a file: ends, asks and feature strings, in file order.
ghost use Rattle.std.specs.Prelude.{◌≡◌, ℕ, ◌+◌, ◌^◌, ◌<◌, Bool, List, Result, length};
ghost use Rattle.records.specs.declared.faults.RecordFault.{RecordFault};
ghost use Rattle.records.specs.Bodies.{texts};
ghost use Rattle.records.specs.Graphs.{Declaration};
ghost use Rattle.graph.specs.Checks.{AnswersAs, KnowsAs};
ghost use Rattle.graph.specs.RowLists.{its};
ghost use Rattle.graph.specs.Second.{check_each, check_names, check_end, check_all, declaration_places, second_reading};
ghost use Rattle.graph.specs.Views.{declaration_view};

use crate::contents::{DeclarationRecord, FEATURE_NAME};
use crate::faults::InRecord;
use crate::filled::Filled;
use records::{RecordFault, Strings};

// Where in its record the end of a dependency stands.
const END_PLACE: usize = 6;

// Where in its record the name of a dependency begins.
const DEPENDENCY_NAME: usize = 12;

// Whether each of some strings, which begin at a place of their record, is known.
fn check_each<F: Fn(&[u8]) -> bool>(
    strings: Strings,
    at: usize,
    known: F,
) -> Result<(), RecordFault>
    requires callable { F.IsAlwaysCallable known }
    requires small { at < 2 ^ 63 + 256 }
    ensures { (test : List ℕ → Bool) → KnowsAs (F.post known) test → result ≡ check_each test length at (texts strings.entry) }
{
    let mut at = at;
    for text in strings {
        if !known(text) {
            return Err(RecordFault::Unknown { field: at + 1 });
        }
        at = at + 1 + text.len();
    }
    Ok(())
}

impl<'a> Filled<'a> {
    // Whether what a record names is there.
    fn check_names(&self, p: u32, declaration: DeclarationRecord) -> Result<(), RecordFault>
        ensures { result ≡ check_names (its self.now) p (declaration_view declaration.entry) }
    {
        match declaration {
            DeclarationRecord::Dependency(d) => {
                let at = DEPENDENCY_NAME + d.name.bytes.len() + 1;
                check_each(d.asks, at, |name| self.has_feature(u32::from(d.end), name))
            }
            DeclarationRecord::Feature(f) => {
                let at = FEATURE_NAME + f.name.bytes.len() + 1;
                check_each(f.values, at, |text| self.known(p, text))
            }
        }
    }

    // Whether the end of a dependency is a package.
    fn check_end(&self, declaration: DeclarationRecord) -> Result<(), RecordFault>
        ensures { result ≡ check_end (its self.now) (declaration_view declaration.entry) }
    {
        match declaration {
            DeclarationRecord::Dependency(d)
                if u32::from(d.end) >= self.directory.counts.packages => {
                Err(RecordFault::Unknown { field: END_PLACE })
            }
            _ => Ok(()),
        }
    }

    // Puts a question to each record, with the number of its package. A fault gets the number and the start of its
    // record: the header, the packages up to the owner and `j` dependencies and features are before it.
    fn check<F: Fn(u32, DeclarationRecord<'a>) -> Result<(), RecordFault>>(
        &self,
        known: F,
    ) -> Result<(), InRecord>
        requires { F.IsAlwaysCallable known }
        ensures { (test : ℕ → Declaration → Result (Unit {0}) RecordFault) → AnswersAs (F.post known) test → result ≡ check_all (λ x. test x.owner x.declaration) (declaration_places (its self.now)) }
    {
        for (j, entry) in self.declarations().iter().enumerate() {
            let Some(declaration) = self.declaration_at(entry.start) else {
                continue;
            };
            if let Err(fault) = known(entry.owner, declaration) {
                return Err(InRecord {
                    number: j + entry.owner as usize + 2,
                    start: entry.start as usize,
                    fault,
                });
            }
        }
        Ok(())
    }

    // The second reading.
    pub(crate) fn second_reading(&self) -> Result<(), InRecord>
        ensures { result ≡ second_reading (its self.now) }
    {
        self.check(|_p, declaration| self.check_end(declaration))?;
        self.check(|p, declaration| self.check_names(p, declaration))
    }
}
