// The first reading: each record is well formed, and may stand where it stands.
ghost use Rattle.std.specs.Prelude.{◌≡◌, ◌+◌, ◌-◌, ◌^◌, ◌<◌, ◌≤◌, length, ok_or};
ghost use Rattle.records.specs.declared.faults.RecordFault.TheVariants.{Stray};
ghost use Rattle.text.specs.Views.{map_ok};
ghost use Rattle.records.specs.Frames.{frame as frame_view};
ghost use Rattle.records.specs.Fields.{view, outcome_by};
ghost use Rattle.records.specs.Bodies.{feature_view};
ghost use Rattle.graph.specs.Reading.{kind_here, feature_field, content_of, record_at, is_end, cursor_after};
ghost use Rattle.graph.specs.Limits.{max_bytes};
ghost use Rattle.graph.specs.Gathered.{gathered_by, gathered_in, Featured};
ghost use Rattle.graph.specs.Views.{content_view, read_record_view, cursor_view, keys, Fits, locate as locate_in};

use crate::contents::{Content, Counts, Cursor, ReadRecord};
use crate::faults::{FileFault, InRecord};
use crate::index::{Index, Key};
use crate::limits::{MAX_BYTES, MAX_DEPENDENCIES, MAX_PACKAGES};
use records::{Feature, Frame, Kind, Reader, RecordFault, first_frame};

// The kind of a record, if it may stand here.
fn kind_here(number: usize, packages: u32, kind: u16) -> Result<Kind, RecordFault>
    ensures { result ≡ ok_or (kind_here number packages kind) Stray }
{
    let kind = Kind::try_from(kind)?;
    let may_stand = match kind {
        Kind::Header => number == 0,
        Kind::Package | Kind::End => number > 0,
        Kind::Dependency | Kind::Feature => number > 0 && packages > 0,
    };
    if may_stand {
        Ok(kind)
    } else {
        Err(RecordFault::Stray)
    }
}

// The body of a feature record of a package.
fn feature<'a>(
    index: &Index<'a>,
    owner: u32,
    body: &mut Reader<'a>,
) -> Result<Feature<'a>, RecordFault>
    ensures { outcome_by feature_view result (view body.new) ≡ feature_field (keys index.now) owner (view body.old) }
{
    let name = body.name()?;
    if index.has(Key {
        owner,
        name: name.bytes,
    }) {
        return Err(RecordFault::Twice { field: name.at });
    }
    let values = body.values()?;
    Ok(Feature { name, values })
}

// What a record says, where it stands.
fn content<'a>(
    index: &Index<'a>,
    cursor: Cursor,
    frame: Frame<'a>,
) -> Result<Content<'a>, RecordFault>
    requires small { length frame.body.now + 6 < 2 ^ 63 }
    ensures { map_ok content_view result ≡ content_of (cursor_view cursor (keys index.now)) (frame_view frame.entry) }
{
    let kind = kind_here(cursor.number, cursor.packages, frame.kind)?;
    let mut body = Reader {
        rest: frame.body,
        at: 6,
    };
    match kind {
        Kind::Header => {
            body.header()?;
            Ok(Content::Header)
        }
        Kind::Package if cursor.packages as usize >= MAX_PACKAGES => Err(RecordFault::Many),
        Kind::Package => Ok(Content::Package(body.package()?)),
        Kind::Dependency if cursor.dependencies as usize >= MAX_DEPENDENCIES => Err(
            RecordFault::Many,
        ),
        Kind::Dependency => Ok(Content::Dependency(body.dependency()?)),
        Kind::Feature if index.is_full() => Err(RecordFault::Many),
        Kind::Feature => {
            let owner = cursor.packages.saturating_sub(1);
            Ok(Content::Feature(feature(index, owner, &mut body)?))
        }
        Kind::End => {
            body.end()?;
            Ok(Content::End)
        }
    }
}

// A record's fault, with the record's number and start.
fn locate<T>(cursor: Cursor, answer: Result<T, RecordFault>) -> Result<T, InRecord>
    ensures { result ≡ locate_in cursor answer }
{
    answer.map_err(|fault| InRecord {
        number: cursor.number,
        start: cursor.start,
        fault,
    })
}

// The record at the front of the bytes.
fn read_record<'a>(
    index: &Index<'a>,
    cursor: Cursor,
    bytes: &'a [u8],
) -> Result<ReadRecord<'a>, InRecord>
    requires small { length bytes.now < 2 ^ 62 }
    ensures { map_ok read_record_view result ≡ record_at (cursor_view cursor (keys index.now)) bytes.now }
{
    let frame = locate(cursor, first_frame(bytes))?;
    let content = locate(cursor, content(index, cursor, frame))?;
    Ok(ReadRecord { content, frame })
}

// How the reading stands after a record. A feature goes into the index.
fn cursor_after<'a>(index: &mut Index<'a>, cursor: Cursor, found: ReadRecord<'a>) -> Cursor
    requires fits { Fits index.old.lists.count found.content }
    requires small { (cursor.start + (length found.frame.body.now + 6) ≤ max_bytes) × (cursor.number ≤ max_bytes) × (cursor.packages ≤ max_bytes) × (cursor.dependencies ≤ max_bytes) × (length index.old.file.now ≤ max_bytes) }
    ensures cursor { cursor_view result (keys index.new) ≡ cursor_after (cursor_view cursor (keys index.old)) (read_record_view found.entry) }
    ensures file { index.new.file.now ≡ index.old.file.now }
{
    let number = cursor.number + 1;
    let start = cursor.start + (found.frame.body.len() + 6);
    let mut packages = cursor.packages;
    let mut dependencies = cursor.dependencies;
    match found.content {
        Content::Header | Content::End => {}
        Content::Package(_) => packages += 1,
        Content::Dependency(_) => dependencies += 1,
        Content::Feature(f) => {
            index.add(Key {
                owner: packages.saturating_sub(1),
                name: f.name.bytes,
            });
        }
    }
    Cursor {
        number,
        start,
        packages,
        dependencies,
    }
}

fn is_end(content: Content) -> bool
    ensures { result ≡ is_end (content_view content.entry) }
{
    matches!(content, Content::End)
}

// The first reading of the file that an empty index is for. It fills the index.
pub(crate) fn first_reading<'a>(index: &mut Index<'a>) -> Result<Counts, FileFault>
    requires empty { index.old.lists.count ≡ 0 }
    ensures value { gathered_by result (keys index.new) ≡ gathered_in index.old.file.now }
    ensures file { index.new.file.now ≡ index.old.file.now }
    ensures featured { Featured result index.new.lists.count }
{
    let file = index.file;
    if file.len() > MAX_BYTES {
        return Err(FileFault::Size);
    }
    let mut cursor = Cursor {
        number: 0,
        start: 0,
        packages: 0,
        dependencies: 0,
    };
    // A record begins where the one before it ends, and its number and place go into its refusal.
    loop {
        let start = cursor.start;
        let found = read_record(index, cursor, &file[start..])?;
        if is_end(found.content) {
            return Ok(Counts {
                read: start + (found.frame.body.len() + 6),
                packages: cursor.packages,
                dependencies: cursor.dependencies,
                features: u32::from(index.lists.count),
            });
        }
        cursor = cursor_after(index, cursor, found);
    }
}
