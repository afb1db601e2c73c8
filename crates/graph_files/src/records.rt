// The records of graph files, as bytes. A count or length that its bytes cannot hold is written as the greatest that
// they can.
ghost use Rattle.std.specs.Prelude.{◌≡◌, ◌++◌, IfOk, OnOk, length};
ghost use Rattle.graph_files.specs.Bytes.{
  record_bytes,
  byte_of,
  string_bytes,
  names_bytes,
  values_bytes,
  header_bytes,
  package_bytes,
  dependency_bytes,
  feature_bytes,
  end_bytes,
};

use crate::kinds::{EdgeKind, RecordKind};
use crate::values::FeatureString;
use std::alloc::{AllocError, Global};

fn count_byte(len: usize) -> u8
    ensures { result ≡ byte_of len }
{
    u8::try_from(len).unwrap_or(u8::MAX)
}

// A record of that kind: its length, which counts what follows it, its kind and its body.
fn record(heap: Global, kind: RecordKind, body: &[u8]) -> Result<Vec<u8>, AllocError>
    ensures { IfOk result (λ bytes. bytes.items ≡ record_bytes kind body.now) }
{
    let length = u32::try_from(body.len().saturating_add(2)).unwrap_or(u32::MAX);
    let mut bytes = Vec::from_slice(heap, &length.to_le_bytes())?;
    bytes.extend_from_slice(&(kind as u16).to_le_bytes())?;
    bytes.extend_from_slice(body)?;
    Ok(bytes)
}

fn add_string(body: &mut Vec<u8>, string: &[u8]) -> Result<(), AllocError>
    ensures { OnOk result (body.new.items ≡ body.old.items ++ string_bytes string.now) }
{
    body.push(count_byte(string.len()))?;
    body.extend_from_slice(string)
}

// A count, and that many names.
fn add_names(body: &mut Vec<u8>, names: &[&[u8]]) -> Result<(), AllocError>
    ensures { OnOk result (body.new.items ≡ body.old.items ++ names_bytes names.now) }
{
    body.push(count_byte(names.len()))?;
    for name in names {
        add_string(body, name)?;
    }
    Ok(())
}

// A count, and that many feature strings.
fn add_values(
    heap: Global,
    body: &mut Vec<u8>,
    values: &[FeatureString<'_>],
) -> Result<(), AllocError>
    ensures { OnOk result (body.new.items ≡ body.old.items ++ values_bytes values.now) }
{
    body.push(count_byte(values.len()))?;
    for value in values {
        let spelling = value.spelling(heap)?;
        add_string(body, spelling.as_slice())?;
    }
    Ok(())
}

/// The record that a file begins with.
pub fn header(heap: Global) -> Result<Vec<u8>, AllocError>
    ensures { IfOk result (λ bytes. bytes.items ≡ header_bytes) }
{
    record(heap, RecordKind::Header, &[1, 0])
}

/// A package: its procedural macro mark and its name.
pub fn package_record(heap: Global, proc_mark: bool, name: &[u8]) -> Result<Vec<u8>, AllocError>
    ensures { IfOk result (λ bytes. bytes.items ≡ package_bytes proc_mark name.now) }
{
    let mut body = Vec::from_slice(heap, &[u8::from(proc_mark)])?;
    add_string(&mut body, name)?;
    record(heap, RecordKind::Package, body.as_slice())
}

/// What a dependency record has before its name: the number of the package that it leads to, its kind and both switches.
#[derive(Clone, Copy)]
pub struct DependencyHead {
    pub end: u16,
    pub kind: EdgeKind,
    pub optional: bool,
    pub defaults: bool,
}

/// A dependency: its head, its name, and what it asks for.
pub fn dependency_record(
    heap: Global,
    head: DependencyHead,
    name: &[u8],
    asks: &[&[u8]],
) -> Result<Vec<u8>, AllocError>
    ensures { IfOk result (λ bytes. bytes.items ≡ dependency_bytes head name.now asks.now) }
{
    let mut body = Vec::from_slice(heap, &head.end.to_le_bytes())?;
    body.push(head.kind as u8)?;
    body.push(u8::from(head.optional))?;
    body.push(u8::from(head.defaults))?;
    add_string(&mut body, name)?;
    add_names(&mut body, asks)?;
    record(heap, RecordKind::Dependency, body.as_slice())
}

/// A feature: its name and its values.
pub fn feature_record(
    heap: Global,
    name: &[u8],
    values: &[FeatureString<'_>],
) -> Result<Vec<u8>, AllocError>
    ensures { IfOk result (λ bytes. bytes.items ≡ feature_bytes name.now values.now) }
{
    let mut body = Vec::new(heap);
    add_string(&mut body, name)?;
    add_values(heap, &mut body, values)?;
    record(heap, RecordKind::Feature, body.as_slice())
}

/// The record that a file ends with.
pub fn end_record(heap: Global) -> Result<Vec<u8>, AllocError>
    ensures { IfOk result (λ bytes. bytes.items ≡ end_bytes) }
{
    record(heap, RecordKind::End, &[])
}
