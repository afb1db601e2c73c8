// On which side a dependency's end is built, and mistakes that are easily made.
use crate::graphs::Dependency;
use crate::items::Side;
use graph_files::EdgeKind;

// How sides are kept apart: whether host and target are split, and whether dev dependencies are left out.
#[derive(Clone, Copy)]
pub struct Separation {
    pub split: bool,
    pub no_dev: bool,
}

pub const UNIFIED: Separation = Separation {
    split: false,
    no_dev: false,
};

pub const SPLIT: Separation = Separation {
    split: true,
    no_dev: false,
};

pub const UNIFIED_NO_DEV: Separation = Separation {
    split: false,
    no_dev: true,
};

pub const SPLIT_NO_DEV: Separation = Separation {
    split: true,
    no_dev: true,
};

impl Separation {
    // The side of the end of a dependency that is on some side; none if it is cut.
    pub fn leads(self, dependency: &Dependency, side: Side) -> Option<Side> {
        if self.no_dev && dependency.kind == EdgeKind::Dev {
            return None;
        }
        let for_build = dependency.kind == EdgeKind::Build || dependency.to_macro;
        if self.split && for_build {
            Some(Side::Host)
        } else {
            Some(side)
        }
    }
}

// What a resolver may get wrong.
#[derive(Clone, Copy, PartialEq, Eq, Debug)]
pub enum Mistake {
    None,
    // a weak value is tried only when its feature is first worked
    WeakTriedOnce,
    // a weak value turns on its dependency
    WeakSwitches,
    // a strong value does not
    StrongWaits,
    // a normal dependency of a host package leads to the target
    HostNormalToTarget,
    // a procedural macro is built on the side of whoever needs it
    MacroStays,
    // of the dependencies on a package, the last one's defaults switch wins
    LastDefaultsWin,
    // a value speaks of the first dependency of its name only
    FirstOfName,
    // a value turns on mandatory dependencies too
    MandatorySwitched,
    // what a dependency asks for is turned on on its own side
    AsksStay,
    // a dependency that is cut is still turned on
    CutTurnedOn,
    // a feature is turned on on both sides
    SidesShared,
    // a feature turns on the unit of its package
    FeatureBuilds,
}

pub const MISTAKES: [Mistake; 12] = [
    Mistake::WeakTriedOnce,
    Mistake::WeakSwitches,
    Mistake::StrongWaits,
    Mistake::HostNormalToTarget,
    Mistake::MacroStays,
    Mistake::LastDefaultsWin,
    Mistake::FirstOfName,
    Mistake::MandatorySwitched,
    Mistake::AsksStay,
    Mistake::CutTurnedOn,
    Mistake::SidesShared,
    Mistake::FeatureBuilds,
];

// A separation that is followed with or without a mistake.
#[derive(Clone, Copy)]
pub struct Manner {
    pub separation: Separation,
    pub mistake: Mistake,
}

impl Manner {
    pub fn right(separation: Separation) -> Manner {
        Manner {
            separation,
            mistake: Mistake::None,
        }
    }

    pub fn makes(self, mistake: Mistake) -> bool {
        self.mistake == mistake
    }

    pub fn leads(self, dependency: &Dependency, side: Side) -> Option<Side> {
        let goal = self.separation.leads(dependency, side)?;
        let normal = dependency.kind == EdgeKind::Normal;
        match self.mistake {
            Mistake::HostNormalToTarget if normal && !dependency.to_macro => Some(Side::Target),
            Mistake::MacroStays if dependency.kind != EdgeKind::Build => Some(side),
            _ => Some(goal),
        }
    }
}
