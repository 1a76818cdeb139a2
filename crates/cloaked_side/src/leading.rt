//! Where an access leads: by a translation that is known, or else by a walk, which makes one known.
ghost use Rattle.std.specs.Prelude.{◌≡◌, ◌≢◌, ◌<◌, ◌^◌, ◌/◌, ◌%◌, [], ◌∷◌, false, IsTrue, IfOk, Option, None, Some, Ok};
ghost use Rattle.shadow_fold.specs.Agreement.{satp_in, access_in};
ghost use Rattle.cloaked_side.specs.Leading.{entry_to};

use crate::side::Side;
use cloak_base::{Frame, Kind, Mode, PageId, RAM_START, frame_of};
use cloak_model::{Access, Emit, Walked, access_fault, has_bit};
use multi_shadow::{Entry, Regime, is_table};
use sv32_walk::walk;

/// Where an access leads.
#[derive(Clone, Copy)]
pub(crate) struct Led {
    /// The address in RAM.
    pub pa: u32,
    /// The walk that led there through outside tables, if this access must make its translation known: none was known
    /// and paging is on, or the one that was known is of another page.
    pub walked: Option<Walked>,
    /// The look missed, so that no translation is known.
    pub missed: bool,
}

/// What a look for an access finds.
#[derive(Clone, Copy)]
pub(crate) enum Found {
    /// The address in RAM to which it leads, with its frame: by a translation of its page, or of none if it is not
    /// cloaked, or without paging.
    Straight { pa: u32, frame: Frame },
    /// The walk of a translation of another page, or of none if it is cloaked, which leads to an address in RAM.
    Other(Walked),
    /// It leads to no address in RAM.
    Fault,
    /// No translation is known: the look missed.
    Missed,
}

fn satp_of(regime: &Regime) -> u32
    ensures { result ≡ satp_in regime.now }
{
    match *regime {
        Regime::Outside { satp, .. } => satp,
        Regime::Inside { satp, .. } => satp,
    }
}

fn access_of(regime: &Regime, va: u32, kind: Kind) -> Access
    ensures { result ≡ access_in regime.now va kind }
{
    match *regime {
        Regime::Outside { mode, sum, mxr, .. } => Access {
            mode,
            sum,
            mxr,
            va,
            kind,
        },
        Regime::Inside { sum, mxr, .. } => Access {
            mode: Mode::U,
            sum,
            mxr,
            va,
            kind,
        },
    }
}

/// The entry of a walk.
fn entry_of(
    regime: &Regime,
    va: u32,
    kind: Kind,
    frame: Frame,
    walked: &Walked,
    cloaked: Option<PageId>,
) -> Entry
    ensures { result ≡ entry_to regime.now va kind frame walked.now.pt1 walked.now.pt0 cloaked }
{
    Entry {
        regime: *regime,
        page: va / 4096,
        kind,
        frame,
        pt1: walked.pt1,
        pt0: walked.pt0,
        cloaked,
    }
}

/// Where an entry of another page leads, with its walk. Kept out of line, so that no room is made for a walk when there
/// is none.
#[cold]
#[inline(never)]
pub(crate) fn handed_on(pa: u64, pt1: Option<Frame>, pt0: Option<Frame>) -> Led
    requires { pa < 2 ^ 32 }
    ensures { result ≡ record { pa = pa; walked = Some (record { pa = pa; pt1 = pt1; pt0 = pt0 }); missed = false } }
{
    Led {
        pa: pa as u32,
        walked: Some(Walked { pa, pt1, pt0 }),
        missed: false,
    }
}

impl<'m, 'e, E: Emit> Side<'m, 'e, E> {
    ghost use Rattle.cloak_base.specs.declared.names.PageId.{PageId as AnyPage};
    ghost use Rattle.cloak_model.specs.Ask.{opened};
    ghost use Rattle.cloak_model.specs.Events.{Look};
    ghost use Rattle.cloak_model.specs.Walk.{has_paging};
    ghost use Rattle.cloak_model.specs.Asking.{Keeps};
    ghost use Rattle.cloak_base.specs.Constants.{frame_of, is_in_frames};
    ghost use Rattle.cloak_model.specs.World.{World, is_clashed, noted};
    ghost use Rattle.cloak_pager.specs.State.{held_in};
    ghost use Rattle.cloaked_side.specs.Holding.{frames_of};
    ghost use Rattle.cloaked_side.specs.Leading.{found_to, IsFoundInside, IsFoundSo, IsRightFound};
    ghost use Rattle.cloaked_side.specs.Leading.{IsLedInside, IsLedSo, IsUnknownIfMissed, Leads};
    ghost use Rattle.cloaked_side.specs.Leading.{IsRegimeIn, Learns, LearnsOnly, LearnsPage, LearnsWalk, WalkLeaves};
    ghost use Rattle.cloaked_side.specs.Leading.{asked_led};
    ghost use Rattle.cloaked_side.specs.Seeing.{Sees, SeesWalking, StaysWithin, space_in};
    ghost use Rattle.shadow_fold.specs.Table.{is_known};

    /// No translation is looked for: without paging an access leads to its own address, unless accesses are counted.
    #[inline(always)]
    fn is_bare(&self, regime: &Regime) -> bool
        ensures bare { IsTrue result → has_paging (satp_in regime.now) ≡ false }
        ensures uncounted { IsTrue result → self.now.memory.now.counting ≡ false }
    {
        !self.memory.counting && !has_bit(satp_of(regime), 31)
    }

    /// What is found for an access without paging, if accesses are not counted.
    #[inline(always)]
    fn look_bare(&mut self, regime: &Regime, va: u32, kind: Kind) -> Found
        requires bare { has_paging (satp_in regime.now) ≡ false }
        requires uncounted { self.old.memory.now.counting ≡ false }
        ensures found { (first : _) (w : World) (cloaked : Option AnyPage) → Sees E.gave first self.old w →
            IsRegimeIn (space_in self.old.regime) regime.now →
            IsFoundSo E.gave first self.new w regime.now va kind cloaked (found_to kind result) }
        ensures same { self.new ≡ self.old }
        ensures known { result ≢ Found.Missed }
        ensures placed { IsRightFound result }
        ensures inside { IsFoundInside (frames_of self.new.memory.now) va kind result }
    {
        if self.memory.is_inside(va as u64) {
            Found::Straight {
                pa: va,
                frame: frame_of(va),
            }
        } else {
            Found::Fault
        }
    }

    /// What is found of an access that is of this page, or not cloaked, among the translations that are known.
    #[inline(always)]
    fn look_up(&mut self, regime: &Regime, va: u32, kind: Kind, cloaked: Option<PageId>) -> Found
        ensures found { (first : _) (w : World) → Sees E.gave first self.old w →
            IsRegimeIn (space_in self.old.regime) regime.now →
            IsFoundSo E.gave first self.new w regime.now va kind cloaked (found_to kind result) }
        ensures unknown { result ≡ Found.Missed →
            is_known regime.now (va / 4096) kind self.new.memory.now.shadows ≡ false }
        ensures placed { IsRightFound result }
        ensures keeps { Keeps (StaysWithin E.gave) self.old self.new }
        ensures inside { IsFoundInside (frames_of self.new.memory.now) va kind result }
        ensures same_count { frames_of self.new.memory.now ≡ frames_of self.old.memory.now }
    {
        let Some(e) = self.memory.shadows.find(regime, va / 4096, kind) else {
            return Found::Missed;
        };
        let pa = RAM_START as u64 + 4096 * e.frame.0 as u64 + (va % 4096) as u64;
        if !self.memory.is_inside(pa) {
            return Found::Fault;
        }
        if e.cloaked == cloaked {
            return Found::Straight {
                pa: pa as u32,
                frame: e.frame,
            };
        }
        Found::Other(Walked {
            pa,
            pt1: e.pt1,
            pt0: e.pt0,
        })
    }

    /// What is found of an access of the context that asks, which is of this page, or not cloaked.
    #[inline(always)]
    pub(crate) fn look(&mut self, va: u32, kind: Kind, cloaked: Option<PageId>) -> Found
        ensures found { (first : _) (w : World) → Sees E.gave first self.old w →
            IsFoundSo E.gave first self.new w self.old.regime va kind cloaked (found_to kind result) }
        ensures unknown { result ≡ Found.Missed →
            is_known self.old.regime (va / 4096) kind self.new.memory.now.shadows ≡ false }
        ensures placed { IsRightFound result }
        ensures keeps { Keeps (StaysWithin E.gave) self.old self.new }
        ensures inside { IsFoundInside (frames_of self.new.memory.now) va kind result }
        ensures same_count { frames_of self.new.memory.now ≡ frames_of self.old.memory.now }
    {
        let regime = self.regime;
        if self.is_bare(&regime) {
            return self.look_bare(&regime, va, kind);
        }
        self.look_up(&regime, va, kind, cloaked)
    }

    /// Where an access leads by a walk, or the cause of its fault, after a look that missed. The walk reads at most the
    /// two words of page tables that the miss pays for.
    #[inline(never)]
    pub(crate) fn led_by_walk(&mut self, regime: &Regime, va: u32, kind: Kind) -> Result<Led, u32>
        requires unknown { is_known regime.now (va / 4096) kind self.old.memory.now.shadows ≡ false }
        ensures leads { (first : _) (w : World) (cloaked : Option AnyPage) →
            SeesWalking E.gave first self.old (noted (Look (satp_in regime.now) (access_in regime.now va kind) ∷ []) w) →
            let told = asked_led regime.now va kind w in is_clashed told.world ≡ false →
            Leads E.gave first self.new regime.now va kind cloaked result told }
        ensures inside { IfOk result (IsLedInside (frames_of self.new.memory.now) va) }
        ensures leaves { WalkLeaves E.gave self.old self.new regime.now va kind }
    {
        let a = access_of(regime, va, kind);
        let walked = walk(satp_of(regime), a.mode, a.sum, a.mxr, a.va, a.kind, self)?;
        if !self.memory.is_inside(walked.pa) {
            return Err(access_fault(kind));
        }
        Ok(Led {
            pa: walked.pa as u32,
            walked: Some(walked),
            missed: true,
        })
    }

    /// Where an access leads for which this was found, or the cause of its fault.
    #[inline(always)]
    fn led_from(&mut self, regime: &Regime, va: u32, kind: Kind, found: Found) -> Result<Led, u32>
        requires unknown { found ≡ Found.Missed →
            is_known regime.now (va / 4096) kind self.old.memory.now.shadows ≡ false }
        requires placed { IsRightFound found }
        requires inside { IsFoundInside (frames_of self.old.memory.now) va kind found }
        ensures leads { (first : _) (w : World) (cloaked : Option AnyPage) →
            IsFoundSo E.gave first self.old w regime.now va kind cloaked (found_to kind found) →
            let told = asked_led regime.now va kind w in is_clashed told.world ≡ false →
            Leads E.gave first self.new regime.now va kind cloaked result told }
        ensures keeps { Keeps (StaysWithin E.gave) self.old self.new }
        ensures inside { IfOk result (IsLedInside (frames_of self.new.memory.now) va) }
        ensures same_count { frames_of self.new.memory.now ≡ frames_of self.old.memory.now }
        ensures missed { IfOk result (λ led. IsUnknownIfMissed self.new.memory.now regime.now va kind led.missed) }
    {
        match found {
            Found::Straight { pa, .. } => Ok(Led {
                pa,
                walked: None,
                missed: false,
            }),
            Found::Other(walked) => Ok(handed_on(walked.pa, walked.pt1, walked.pt0)),
            Found::Fault => Err(access_fault(kind)),
            Found::Missed => self.led_by_walk(regime, va, kind),
        }
    }

    /// Where an access that is of this page, or not cloaked, leads, or the cause of its fault. There is a way with
    /// paging and one without, instead of one after a `look`, so that each stays short.
    #[inline(always)]
    pub(crate) fn led(
        &mut self,
        regime: &Regime,
        va: u32,
        kind: Kind,
        cloaked: Option<PageId>,
    ) -> Result<Led, u32>
        ensures leads { (first : _) (w : World) → Sees E.gave first self.old w →
            IsRegimeIn (space_in self.old.regime) regime.now →
            let told = asked_led regime.now va kind w in is_clashed told.world ≡ false →
            Leads E.gave first self.new regime.now va kind cloaked result told }
        ensures keeps { Keeps (StaysWithin E.gave) self.old self.new }
        ensures inside { IfOk result (IsLedInside (frames_of self.new.memory.now) va) }
        ensures same_count { frames_of self.new.memory.now ≡ frames_of self.old.memory.now }
        ensures missed { IfOk result (λ led. IsUnknownIfMissed self.new.memory.now regime.now va kind led.missed) }
    {
        if self.is_bare(regime) {
            let found = self.look_bare(regime, va, kind);
            return self.led_from(regime, va, kind, found);
        }
        let found = self.look_up(regime, va, kind, cloaked);
        self.led_from(regime, va, kind, found)
    }

    /// Makes a translation known.
    #[inline(always)]
    fn learn(&mut self, e: Entry)
        ensures sees { Learns E.gave self.old self.new e }
        ensures leaves { LearnsOnly E.gave self.old self.new }
    {
        self.memory.shadows.learn(e);
    }

    /// Makes known a translation that a look has missed.
    #[inline(always)]
    fn learn_missed(&mut self, e: Entry)
        requires unknown { is_known e.regime e.page e.kind self.old.memory.now.shadows ≡ false }
        ensures sees { Learns E.gave self.old self.new e }
        ensures leaves { LearnsOnly E.gave self.old self.new }
    {
        self.memory.shadows.learn_missed(e);
    }

    /// Settles the frame to which an access was led that is not cloaked. Its translation is known then.
    #[inline(always)]
    pub(crate) fn settle_led(&mut self, regime: &Regime, va: u32, kind: Kind, led: &Led)
        requires inside { IsTrue (is_in_frames (frames_of self.old.memory.now) led.now.pa) }
        requires missed { IsUnknownIfMissed self.old.memory.now regime.now va kind led.now.missed }
        ensures sees { (first : _) (w : World) (walked : _) → Sees E.gave first self.old w →
            IsRegimeIn (space_in self.old.regime) regime.now →
            IsLedSo self.old.memory.now w regime.now va kind None walked led.now →
            Sees E.gave first self.new (opened (satp_in regime.now) (access_in regime.now va kind) walked w) }
        ensures keeps { Keeps (StaysWithin E.gave) self.old self.new }
        ensures same_count { frames_of self.new.memory.now ≡ frames_of self.old.memory.now }
        ensures outside { held_in self.new.memory.now.pager (frame_of led.now.pa) ≡ None }
    {
        let f = frame_of(led.pa);
        self.settle(f);
        if let Some(walked) = led.walked {
            self.learn_walk(regime, va, kind, f, walked.pt1, walked.pt0, led.missed);
        }
    }

    /// Makes known the translation of a walk to a frame that is not cloaked. If accesses are not counted, the table
    /// need not follow the fold: nothing is learnt of what would be ended before it is found.
    #[inline(always)]
    fn learn_walk(
        &mut self,
        regime: &Regime,
        va: u32,
        kind: Kind,
        f: Frame,
        pt1: Option<Frame>,
        pt0: Option<Frame>,
        missed: bool,
    )
        requires unknown { IsUnknownIfMissed self.old.memory.now regime.now va kind missed }
        ensures sees { LearnsWalk E.gave self.old self.new (entry_to regime.now va kind f pt1 pt0 None) }
        ensures leaves { LearnsOnly E.gave self.old self.new }
    {
        if missed && !self.memory.counting && !self.memory.shadows.is_worth_learning() {
            return;
        }
        self.keep_walk(regime, va, kind, f, pt1, pt0, missed);
    }

    /// The same, whether it is worth it or not. Kept out of line, as `learn_walked_page` is.
    #[inline(never)]
    fn keep_walk(
        &mut self,
        regime: &Regime,
        va: u32,
        kind: Kind,
        f: Frame,
        pt1: Option<Frame>,
        pt0: Option<Frame>,
        missed: bool,
    )
        requires unknown { IsUnknownIfMissed self.old.memory.now regime.now va kind missed }
        ensures sees { LearnsWalk E.gave self.old self.new (entry_to regime.now va kind f pt1 pt0 None) }
        ensures leaves { LearnsOnly E.gave self.old self.new }
    {
        let e = Entry {
            regime: *regime,
            page: va / 4096,
            kind,
            frame: f,
            pt1,
            pt0,
            cloaked: None,
        };
        if missed {
            self.learn_missed(e);
        } else {
            self.learn(e);
        }
    }

    /// Makes known the translation that led the context that asks to a cloaked page, which its frame holds now. One
    /// through its own frame is not kept.
    #[inline(always)]
    pub(crate) fn learn_page(&mut self, q: PageId, va: u32, kind: Kind, led: &Led)
        requires inside { IsTrue (is_in_frames (frames_of self.old.memory.now) led.now.pa) }
        ensures sees { LearnsPage E.gave self.old self.new q va kind led.now }
        ensures leaves { LearnsOnly E.gave self.old self.new }
    {
        match led.walked {
            Some(_) => {
                let led = *led;
                self.learn_walked_page(q, va, kind, &led);
            }
            None => {}
        }
    }

    /// The same. Kept out of line, so that a hit makes no room for an entry.
    #[inline(never)]
    fn learn_walked_page(&mut self, q: PageId, va: u32, kind: Kind, led: &Led)
        requires inside { IsTrue (is_in_frames (frames_of self.old.memory.now) led.now.pa) }
        ensures sees { LearnsPage E.gave self.old self.new q va kind led.now }
        ensures leaves { LearnsOnly E.gave self.old self.new }
    {
        let f = frame_of(led.pa);
        if let Some(walked) = &led.walked {
            let e = entry_of(&self.regime, va, kind, f, walked, Some(q));
            if !is_table(f, &e) {
                self.learn(e);
            }
        }
    }
}
