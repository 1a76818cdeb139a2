ghost use Rattle.std.specs.Prelude.{◌≡◌, ◌≤◌, ◌∷◌, ◌<◌, [], ◌++◌, length};

use arrayvec::ArrayVec;
use cloak_model::Region;
use std::marker::Model;

/// Regions as they were read, at most 16 in any order.
#[derive(Drop)]
pub struct RegionList {
    list: ArrayVec<Region, 16>,
}

impl Model for RegionList {
    ghost use Rattle.std.specs.Prelude.{List};
    ghost use Rattle.cloak_model.specs.declared.resource.Region.{Region};

    ghost Value = { List Region };

    ghost view = { λ r. r.list.items };
}

impl RegionList {
    /// There are none.
    pub fn new() -> RegionList
        ensures { result ≡ [] }
    {
        RegionList {
            list: ArrayVec::new(),
        }
    }

    /// One more.
    pub fn push(&mut self, g: Region)
        requires { length self.old < 16 }
        ensures { self.new ≡ self.old ++ g ∷ [] }
    {
        self.list.push(g);
    }

    /// All of them.
    pub fn as_slice(&self) -> &[Region]
        ensures { result.now ≡ self.now }
    {
        self.list.as_slice()
    }
}
