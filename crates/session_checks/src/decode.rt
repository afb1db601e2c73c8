// The bytes of a lawful file, taken apart.
use crate::spelled::{SpelledDependency, SpelledFeature, SpelledPackage};
use anyhow::{Context, Result, bail};
use graph_files::{EdgeKind, FeatureString};
use std::alloc::Global;

// What is left of some bytes.
#[derive(Clone, Copy)]
struct Cursor<'a> {
    rest: &'a [u8],
}

impl<'a> Cursor<'a> {
    fn take(&mut self, count: usize) -> Result<&'a [u8]> {
        let (taken, rest) = self
            .rest
            .split_at_checked(count)
            .context("bytes are missing")?;
        self.rest = rest;
        Ok(taken)
    }

    fn byte(&mut self) -> Result<usize> {
        match self.take(1)? {
            [byte] => Ok(usize::from(*byte)),
            _ => bail!("no byte"),
        }
    }

    // A number of two bytes, lowest first.
    fn short(&mut self) -> Result<usize> {
        match self.take(2)? {
            [low, high] => Ok(usize::from(*low) + 256 * usize::from(*high)),
            _ => bail!("no number"),
        }
    }

    // A number of four bytes.
    fn long(&mut self) -> Result<usize> {
        let low = self.short()?;
        let high = self.short()?;
        Ok(high.saturating_mul(65_536).saturating_add(low))
    }

    fn switch(&mut self) -> Result<bool> {
        Ok(self.byte()? == 1)
    }

    fn string(&mut self) -> Result<&'a [u8]> {
        let length = self.byte()?;
        self.take(length)
    }

    // A count, and that many strings.
    fn strings(&mut self, heap: Global) -> Result<Vec<&'a [u8]>> {
        let mut strings = Vec::new(heap);
        for _ in 0..self.byte()? {
            let string = self.string()?;
            strings.push(string)?;
        }
        Ok(strings)
    }

    fn dependency(&mut self, heap: Global) -> Result<SpelledDependency<'a>> {
        let end = self.short()?;
        let kind = match self.byte()? {
            0 => EdgeKind::Normal,
            1 => EdgeKind::Build,
            _ => EdgeKind::Dev,
        };
        Ok(SpelledDependency {
            end,
            kind,
            optional: self.switch()?,
            defaults: self.switch()?,
            name: self.string()?,
            asks: self.strings(heap)?,
        })
    }

    fn feature(&mut self, heap: Global) -> Result<SpelledFeature<'a>> {
        let name = self.string()?;
        let mut values = Vec::new(heap);
        for string in self.strings(heap)? {
            values.push(value_of(string))?;
        }
        Ok(SpelledFeature { name, values })
    }
}

// A feature string by its form.
fn value_of<'a>(string: &'a [u8]) -> FeatureString<'a> {
    if let Some(dependency) = string.strip_prefix(b"dep:") {
        return FeatureString::Switch { dependency };
    }
    let Some(slash) = string.iter().position(|byte| *byte == b'/') else {
        return FeatureString::Plain { feature: string };
    };
    let dependency = &string[..slash];
    let feature = &string[slash + 1..];
    match dependency.strip_suffix(b"?") {
        Some(dependency) => FeatureString::Weak {
            dependency,
            feature,
        },
        None => FeatureString::Strong {
            dependency,
            feature,
        },
    }
}

// Adds a record to the packages; true if it is the last.
fn add_record<'a>(
    heap: Global,
    packages: &mut Vec<SpelledPackage<'a>>,
    kind: usize,
    body: &'a [u8],
) -> Result<bool> {
    let mut body = Cursor { rest: body };
    match (kind, packages.last_mut()) {
        (1, _) => {}
        (2, _) => packages.push(SpelledPackage {
            proc_mark: body.switch()?,
            name: body.string()?,
            dependencies: Vec::new(heap),
            features: Vec::new(heap),
        })?,
        (3, Some(owner)) => owner.dependencies.push(body.dependency(heap)?)?,
        (4, Some(owner)) => owner.features.push(body.feature(heap)?)?,
        (5, _) => return Ok(true),
        _ => bail!("a record that may not stand here"),
    }
    Ok(false)
}

// The packages of a lawful file.
pub fn decode<'a>(heap: Global, file: &'a [u8]) -> Result<Vec<SpelledPackage<'a>>> {
    let mut packages = Vec::new(heap);
    let mut cursor = Cursor { rest: file };
    for _ in 0..file.len() {
        let length = cursor.long()?;
        let kind = cursor.short()?;
        let body = cursor.take(length.saturating_sub(2))?;
        if add_record(heap, &mut packages, kind, body)? {
            break;
        }
    }
    Ok(packages)
}
