use crate::joint::Joint;
use cloak_base::Violation;
use cloak_pager::Pager;
use cloaked_side::Memory;
use host_calls::{Disk, Hart};
use hypercalls::Domain;
use multi_shadow::ShadowCounts;

/// What a joint machine has, part by part.
#[derive(Drop)]
pub struct JointParts {
    pub harts: Vec<Hart>,
    pub memory: Memory,
    /// Each program at the place of its number.
    pub domains: Vec<Domain>,
    pub disk: Disk,
    /// For each number of a domain, what ended it.
    pub ended: [Option<Violation>; 4],
    /// How often a resuming was refused of which no domain was left to end, up to 2^64 - 1.
    pub refused: u64,
}

impl Joint {
    ghost use Rattle.std.specs.Prelude.{◌≡◌, ◌≤◌, ℕ, [], length, true};
    ghost use Rattle.cloak_model.specs.Parts as model;
    ghost use Rattle.cloaked_side.specs.Tracking.{Tracks};
    ghost use Rattle.joint_machine.specs.Standing.{AllOutside, LendsPager, StandsForJoint, harts_of};
    ghost use Rattle.shadow_fold.specs.Fold.{fresh_fold};

    /// The pager with the frames of the machine and the pages of its programs.
    #[tactic(auto, using(crate::proofs::Lent::lends_pager))]
    pub fn pager(&self) -> &Pager
        ensures lends { (j : model.Joint) → StandsForJoint self.now j → LendsPager result.now j.memory }
        ensures own { result.now ≡ self.now.memory.pager }
    {
        &self.memory.pager
    }

    /// Begins to count accesses: translations that are known end, and from now on accesses without paging are kept too.
    pub fn count_accesses(&mut self)
        ensures stands { (j : model.Joint) → StandsForJoint self.old j → StandsForJoint self.new j }
        ensures harts { harts_of self.new ≡ harts_of self.old }
        ensures outside { AllOutside self.old → AllOutside self.new }
        ensures pager { self.new.memory.pager ≡ self.old.memory.pager }
        ensures counting { self.new.memory.counting ≡ true }
        ensures empty { self.new.memory.shadows.live ≡ [] }
        ensures tracks { AllOutside self.old → (frames : ℕ) → Tracks self.new.memory (fresh_fold frames) }
    {
        self.memory.count_accesses();
    }

    /// How often a translation was asked for, was not known, and all that were known ended for want of room.
    pub fn counts(&self) -> ShadowCounts
        ensures { result ≡ self.now.memory.shadows.counts }
    {
        self.memory.shadows.counts()
    }

    /// The bytes of the disk.
    pub fn disk(&self) -> &[u8]
        ensures { result.now ≡ self.now.disk }
    {
        self.disk.bytes()
    }

    /// Ends the machine, and returns its parts.
    pub fn into_parts(self) -> JointParts
        ensures harts { result.harts ≡ self.harts }
        ensures memory { result.memory ≡ self.memory }
        ensures domains { result.domains ≡ self.domains }
        ensures disk { result.disk ≡ self.disk }
        ensures ended { result.ended ≡ self.ended }
        ensures refused { result.refused ≡ self.refused }
        ensures few { length result.domains.items ≤ 4 }
    {
        let Joint {
            harts,
            memory,
            domains,
            disk,
            ended,
            refused,
            ..
        } = self;
        JointParts {
            harts,
            memory,
            domains,
            disk,
            ended,
            refused,
        }
    }
}
