// Names replaced by numbers: maps from the names of each package to what it owns.
use crate::graphs::{Dependency, Feature, Graph, Link, Package, Value};
use crate::spelled::{SpelledDependency, SpelledFeature, SpelledPackage};
use anyhow::{Context, Result};
use graph_files::FeatureString;
use std::alloc::{AllocError, Global};
use std::collections::BTreeMap;

// What a package owns, by name: one feature each, and any number of dependencies.
#[derive(Drop)]
struct Names {
    proc_mark: bool,
    dependencies: BTreeMap<Vec<u8>, Vec<usize>>,
    features: BTreeMap<Vec<u8>, usize>,
}

// The names of all packages, and the end of each dependency.
#[derive(Drop)]
struct Register {
    heap: Global,
    names: Vec<Names>,
    ends: Vec<usize>,
    features: usize,
}

impl Register {
    fn name_dependencies(
        &mut self,
        package: &SpelledPackage<'_>,
    ) -> Result<BTreeMap<Vec<u8>, Vec<usize>>, AllocError> {
        let mut named: BTreeMap<Vec<u8>, Vec<usize>> = BTreeMap::new(self.heap);
        for dependency in package.dependencies.iter() {
            let name = Vec::from_slice(self.heap, dependency.name)?;
            let numbers = named.entry(name)?.or_insert(Vec::new(self.heap));
            numbers.push(self.ends.len())?;
            self.ends.push(dependency.end)?;
        }
        Ok(named)
    }

    fn name_features(
        &mut self,
        package: &SpelledPackage<'_>,
    ) -> Result<BTreeMap<Vec<u8>, usize>, AllocError> {
        let mut named = BTreeMap::new(self.heap);
        for feature in package.features.iter() {
            let name = Vec::from_slice(self.heap, feature.name)?;
            named.insert(name, self.features)?;
            self.features = self.features.saturating_add(1);
        }
        Ok(named)
    }

    fn new(heap: Global, packages: &[SpelledPackage<'_>]) -> Result<Register, AllocError> {
        let mut register = Register {
            heap,
            names: Vec::new(heap),
            ends: Vec::new(heap),
            features: 0,
        };
        for package in packages {
            let names = Names {
                proc_mark: package.proc_mark,
                dependencies: register.name_dependencies(package)?,
                features: register.name_features(package)?,
            };
            register.names.push(names)?;
        }
        Ok(register)
    }

    fn names_of(&self, package: usize) -> Result<&Names> {
        self.names.get(package).context("no such package")
    }

    // The number of the feature of that name.
    fn feature(&self, package: usize, name: &[u8]) -> Result<usize> {
        self.names_of(package)?
            .features
            .get(name)
            .copied()
            .context("no such feature")
    }

    // The numbers of all dependencies of that name.
    fn dependencies(&self, package: usize, name: &[u8]) -> Result<&Vec<usize>> {
        self.names_of(package)?
            .dependencies
            .get(name)
            .context("no such dependency")
    }

    // Each dependency of that name, with the feature of its end.
    fn links(&self, package: usize, name: &[u8], feature: &[u8]) -> Result<Vec<Link>> {
        let mut links = Vec::new(self.heap);
        for dependency in self.dependencies(package, name)?.iter() {
            let end = self.ends.get(*dependency).context("no such end")?;
            links.push(Link {
                dependency: *dependency,
                feature: self.feature(*end, feature)?,
            })?;
        }
        Ok(links)
    }

    fn value(&self, owner: usize, value: FeatureString<'_>) -> Result<Value> {
        Ok(match value {
            FeatureString::Plain { feature } => Value::Plain(self.feature(owner, feature)?),
            FeatureString::Switch { dependency } => {
                Value::Switch(self.dependencies(owner, dependency)?.clone()?)
            }
            FeatureString::Strong {
                dependency,
                feature,
            } => Value::Strong(self.links(owner, dependency, feature)?),
            FeatureString::Weak {
                dependency,
                feature,
            } => Value::Weak(self.links(owner, dependency, feature)?),
        })
    }

    fn number_feature(&self, owner: usize, feature: &SpelledFeature<'_>) -> Result<Feature> {
        let mut values = Vec::new(self.heap);
        for value in feature.values.iter() {
            values.push(self.value(owner, *value)?)?;
        }
        Ok(Feature { owner, values })
    }

    fn number_dependency(
        &self,
        owner: usize,
        dependency: &SpelledDependency<'_>,
    ) -> Result<Dependency> {
        let end = dependency.end;
        let mut asks = Vec::new(self.heap);
        for ask in dependency.asks.iter() {
            asks.push(self.feature(end, ask)?)?;
        }
        Ok(Dependency {
            owner,
            end,
            to_macro: self.names_of(end)?.proc_mark,
            kind: dependency.kind,
            optional: dependency.optional,
            defaults: dependency.defaults,
            default: self.names_of(end)?.features.get(&b"default"[..]).copied(),
            asks,
        })
    }
}

impl Graph {
    fn add_dependencies(
        &mut self,
        register: &Register,
        owner: usize,
        spelled: &[SpelledDependency<'_>],
    ) -> Result<Vec<usize>> {
        let mut numbers = Vec::new(register.heap);
        for dependency in spelled {
            numbers.push(self.dependencies.len())?;
            let dependency = register.number_dependency(owner, dependency)?;
            self.dependencies.push(dependency)?;
        }
        Ok(numbers)
    }

    fn add_features(
        &mut self,
        register: &Register,
        owner: usize,
        spelled: &[SpelledFeature<'_>],
    ) -> Result<Vec<usize>> {
        let mut numbers = Vec::new(register.heap);
        for feature in spelled {
            numbers.push(self.features.len())?;
            let feature = register.number_feature(owner, feature)?;
            self.features.push(feature)?;
        }
        Ok(numbers)
    }

    // The graph of these packages.
    pub fn number(heap: Global, packages: &[SpelledPackage<'_>]) -> Result<Graph> {
        let register = Register::new(heap, packages)?;
        let mut graph = Graph {
            packages: Vec::new(heap),
            dependencies: Vec::new(heap),
            features: Vec::new(heap),
        };
        for (owner, package) in packages.iter().enumerate() {
            let dependencies = graph.add_dependencies(
                &register,
                owner,
                package.dependencies.as_slice(),
            )?;
            let features = graph.add_features(&register, owner, package.features.as_slice())?;
            graph.packages.push(Package {
                dependencies,
                features,
            })?;
        }
        Ok(graph)
    }
}
