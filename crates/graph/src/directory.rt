// Filling a directory: one pass over the records of a file that the first reading has accepted.
ghost use Rattle.std.specs.Prelude.{◌≡◌, ℕ, ◌+◌, ◌^◌, ◌<◌, ◌≤◌, List, length, drop, Some, Ok, ◌≢◌};
ghost use Rattle.records.specs.declared.frames.Kind.TheVariants.{End};
ghost use Rattle.records.specs.Frames.{kind_at, frame as frame_view, frame_of};
ghost use Rattle.records.specs.Encoding.{Bytes};
ghost use Rattle.records.specs.Graphs.{Graph};
ghost use Rattle.graph.specs.Depending.{name_in, named_key, key_in, last_keys};
ghost use Rattle.graph.specs.Directory.{Places, Accepted, Tells, ReadAs};
ghost use Rattle.graph.specs.Buckets.{key_view};
ghost use Rattle.graph.specs.Limits.{max_dependencies, max_declarations};
ghost use Rattle.graph.specs.Rules.{when_some};
ghost use Rattle.graph.specs.Second.{DeclarationPlace};
ghost use Rattle.graph.specs.Views.{keys};
ghost use Rattle.graph.specs.Filling.{is_marked, tables_of, Midway};

use crate::contents::Counts;
use crate::faults::FileFault;
use crate::index::{Index, Key};
use crate::limits::{MAX_DECLARATIONS, MAX_DEPENDENCIES, MAX_FEATURES, MAX_PACKAGES};
use crate::reading::first_reading;
use crate::tables::{DeclarationEntry, Directory, PackageEntry};
use records::{Frame, Kind, Reader, first_frame};

// The records after the header begin here.
const HEADER_BYTES: usize = 8;

// The kind of a dependency record.
const DEPENDENCY: u16 = 3;

// Whether the first byte is 1, as the proc mark of a package is.
fn is_marked(body: &[u8]) -> bool
    ensures { result ≡ is_marked body.now }
{
    matches!(body, [1, ..])
}

// The name of a dependency by the body of its record: behind its end, edge kind and both switches.
fn dependency_name<'a>(body: &'a [u8]) -> Option<&'a [u8]>
    requires { length body.now + 6 < 2 ^ 63 }
    ensures { (p : ℕ) → when_some result (λ n. record { owner = p; name = n.now }) ≡ named_key p (name_in body.now) }
{
    let mut rest = Reader {
        rest: body.get(5..)?,
        at: 11,
    };
    let name = rest.name().ok()?;
    Some(name.bytes)
}

// The package and name of a record of a package, if it is a dependency. Nothing else of the record is looked at.
fn key_in<'a>(owner: u32, frame: Frame<'a>) -> Option<Key<'a>>
    requires { length frame.body.now + 6 < 2 ^ 63 }
    ensures { when_some result key_view ≡ key_in owner (Ok (frame_view frame.entry)) }
{
    if frame.kind == DEPENDENCY {
        let name = dependency_name(frame.body)?;
        Some(Key { owner, name })
    } else {
        None
    }
}

// The same of the record at the front of some bytes.
fn first_key<'a>(owner: u32, bytes: &'a [u8]) -> Option<Key<'a>>
    ensures { when_some result key_view ≡ key_in owner (frame_of bytes.now) }
{
    key_in(owner, first_frame(bytes).ok()?)
}

// The same of the record of an entry.
fn key_of<'a>(file: &'a [u8], entry: DeclarationEntry) -> Option<Key<'a>>
    ensures { when_some result key_view ≡ key_in entry.owner (frame_of (drop entry.start file.now)) }
{
    first_key(entry.owner, file.get(entry.start as usize..)?)
}

// Fills the index of dependencies from so many records of the file, from the last one to the first.
fn name_dependencies<'a>(
    named: &mut Index<'a>,
    declarations: &[DeclarationEntry; MAX_DECLARATIONS],
    count: usize,
    file: &'a [u8],
)
    requires new { named.old.lists.count ≡ 0 }
    requires told { (xs : List DeclarationPlace) × Places file.now declarations.now count xs × (count ≤ max_declarations) × (length (last_keys xs) ≤ max_dependencies) }
    ensures { (xs : List DeclarationPlace) → Places file.now declarations.now count xs → keys named.new ≡ last_keys xs }
{
    for entry in declarations[..count].iter().rev() {
        if let Some(key) = key_of(file, *entry) {
            named.add(key);
        }
    }
}

impl<'a> Directory<'a> {
    // A directory with empty tables, for a file.
    pub(crate) fn new(file: &'a [u8]) -> Directory<'a>
        ensures { (result.index.file.now ≡ file.now) × (result.index.lists.count ≡ 0) × (result.named.lists.count ≡ 0) }
    {
        let package = PackageEntry {
            proc_mark: false,
            dependency: 0,
            feature: 0,
        };
        let declaration = DeclarationEntry { start: 0, owner: 0 };
        let counts = Counts {
            read: 0,
            packages: 0,
            dependencies: 0,
            features: 0,
        };
        Directory {
            index: Index::new(file),
            named: Index::new(file),
            counts,
            packages: [package; MAX_PACKAGES],
            dependencies: [0; MAX_DEPENDENCIES],
            features: [0; MAX_FEATURES],
            declarations: [declaration; MAX_DECLARATIONS],
        }
    }

    // A package, dependency or feature record goes into the tables.
    fn note(&mut self, so_far: Counts, kind: Kind, frame: Frame<'a>) -> Counts
        requires midway { Midway self.old.index.file.now (tables_of self.old) so_far.read so_far.packages so_far.dependencies so_far.features }
        requires here { frame_of (drop so_far.read self.old.index.file.now) ≡ Ok (frame_view frame) }
        requires kind { kind_at frame.kind ≡ Some kind }
        requires inside { kind ≢ End }
        ensures same { (self.new.index ≡ self.old.index) × (self.new.named ≡ self.old.named) × (self.new.counts ≡ self.old.counts) }
        ensures start { result.read ≡ so_far.read + (length frame.entry.body.now + 6) }
        ensures midway { Midway self.new.index.file.now (tables_of self.new) result.read result.packages result.dependencies result.features }
    {
        let mut after = so_far;
        after.read = so_far.read + (frame.body.len() + 6);
        let declaration = DeclarationEntry {
            start: so_far.read as u32,
            owner: so_far.packages.saturating_sub(1),
        };
        let j = (so_far.dependencies + so_far.features) as usize;
        match kind {
            Kind::Package => {
                self.packages[so_far.packages as usize] = PackageEntry {
                    proc_mark: is_marked(frame.body),
                    dependency: so_far.dependencies,
                    feature: so_far.features,
                };
                after.packages = so_far.packages + 1;
            }
            Kind::Dependency => {
                self.dependencies[so_far.dependencies as usize] = declaration.start;
                self.declarations[j] = declaration;
                after.dependencies = so_far.dependencies + 1;
            }
            Kind::Feature => {
                self.features[so_far.features as usize] = declaration.start;
                self.declarations[j] = declaration;
                after.features = so_far.features + 1;
            }
            Kind::Header | Kind::End => {}
        }
        after
    }

    // Fills the tables from the file, which the first reading has accepted with this index and these counts. It walks
    // the records again and refuses nothing.
    fn fill(&mut self)
        requires { (g : Graph) × Accepted self.old.index self.old.counts g }
        ensures told { (g : Graph) → Accepted self.old.index self.old.counts g → Tells self.new g }
        ensures kept { (self.new.index ≡ self.old.index) × (self.new.named ≡ self.old.named) × (self.new.counts ≡ self.old.counts) }
    {
        let file = self.index.file;
        let mut so_far = Counts {
            read: HEADER_BYTES,
            packages: 0,
            dependencies: 0,
            features: 0,
        };
        loop {
            let start = so_far.read;
            let Ok(frame) = first_frame(&file[start..]) else {
                return;
            };
            let Ok(kind) = Kind::try_from(frame.kind) else {
                return;
            };
            if kind == Kind::End {
                return;
            }
            so_far = self.note(so_far, kind, frame);
        }
    }

    // The first reading of the file, which fills the tables of a directory that is new.
    pub(crate) fn read(&mut self) -> Result<(), FileFault>
        requires new { (self.old.index.lists.count ≡ 0) × (self.old.named.lists.count ≡ 0) }
        requires bytes { Bytes self.old.index.file.now }
        ensures { ReadAs self.old.index.file.now result self.new }
    {
        self.counts = first_reading(&mut self.index)?;
        self.fill();
        let count = self.counts.dependencies + self.counts.features;
        name_dependencies(
            &mut self.named,
            &self.declarations,
            count as usize,
            self.index.file,
        );
        Ok(())
    }
}
