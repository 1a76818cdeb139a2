//! The answers to the questions of a cloaked program.
ghost use Rattle.std.specs.Prelude.{◌≡◌, ◌≢◌, ◌<◌, ◌%◌, ◌^◌, ◌*◌, ◌/◌, false, Ok, Err, None};
ghost use Rattle.cloak_model.specs.AskPages as inside;
ghost use Rattle.cloak_model.specs.Effect.{IsWidth};

use crate::leading::{Found, Led, handed_on};
use crate::program_side::ProgramSide;
use crate::side::Side;
use cloak_base::{Frame, Kind, PageId, Violation, frame_of};
use cloak_model::{Answer, Emit, Item, access_fault};

/// The lowest bytes of a value.
fn low_bytes(width: u32, v: u32) -> u32
    requires { IsWidth width }
    ensures { result ≡ v % 2 ^ (8 * width) }
{
    match width {
        1 => v % 0x100,
        2 => v % 0x1_0000,
        _ => v,
    }
}

fn is_store(kind: Kind) -> bool
    ensures { result ≡ inside.is_store kind }
{
    match kind {
        Kind::Store => true,
        _ => false,
    }
}

impl<'m, 'e, E: Emit> Side<'m, 'e, E> {
    ghost use Rattle.cloak_model.specs.Items as item;
    ghost use Rattle.cloak_model.specs.World.{written};
    ghost use Rattle.cloaked_side.specs.Seeing.{Becomes, WritesOnly};

    /// Writes that a value was stored.
    fn write_put(&mut self, pa: u32, width: u32, v: u32)
        requires { IsWidth width }
        ensures sees { Becomes E.gave self.old self.new (written (item.Put pa width (v % 2 ^ (8 * width)))) }
        ensures leaves { WritesOnly E.gave self.old self.new }
    {
        let (address, width, value) = (pa, width as u8, low_bytes(width, v));
        let put = Item::Put {
            address,
            width,
            value,
        };
        self.emitter.item(&put);
    }
}

impl<'m, 'e, E: Emit> ProgramSide<'m, 'e, E> {
    ghost use Rattle.std.specs.Prelude.{IsTrue, Some};
    ghost use Rattle.cloak_model.specs.Items as item;
    ghost use Rattle.cloak_model.specs.World.{World, is_clashed, written};
    ghost use Rattle.cloak_model.specs.Asking.{FollowsFrom, Keeps};
    ghost use Rattle.cloak_base.specs.Constants.{is_in_frames, frame_of};
    ghost use Rattle.cloak_model.specs.AskPages.{replies, if_drawn, get_at, put_at, reached};
    ghost use Rattle.cloak_model.specs.AskPages.{reach_by_table, get_by_table, put_by_table};
    ghost use Rattle.cloaked_side.specs.Holding.{IsValueOutside, frames_of};
    ghost use Rattle.cloaked_side.specs.Leading.{IsLedSo, Reaches, ReachLeaves};
    ghost use Rattle.shadow_fold.specs.Table.{is_known};
    ghost use Rattle.cloaked_side.specs.Seeing.{Sees, Becomes, FollowsAlways, FollowsInside, IsOwnPage, StaysWithin};
    ghost use Rattle.cloaked_side.specs.Seeing.{WritesOnly, space_in};

    /// Writes that a page is absent.
    fn write_absent(&mut self, cause: u32)
        ensures sees { Becomes E.gave self.old.side self.new.side (written (item.Absent self.old.side.domain cause)) }
        ensures leaves { WritesOnly E.gave self.old.side self.new.side }
    {
        let domain = self.side.domain;
        self.side.emitter.item(&Item::Absent { domain, cause });
    }

    /// Writes that a question was stopped.
    fn write_stopped(&mut self)
        ensures sees { Becomes E.gave self.old.side self.new.side (written (item.Stopped self.old.side.domain)) }
        ensures leaves { WritesOnly E.gave self.old.side self.new.side }
    {
        let domain = self.side.domain;
        self.side.emitter.item(&Item::Stopped { domain });
    }

    /// Writes that a question was granted.
    #[inline(always)]
    fn write_ok(&mut self)
        ensures sees { Becomes E.gave self.old.side self.new.side (written (item.Ok self.old.side.domain)) }
        ensures leaves { WritesOnly E.gave self.old.side self.new.side }
    {
        let domain = self.side.domain;
        self.side.emitter.item(&Item::Ok { domain });
    }

    /// Writes a value that was asked for.
    #[inline(always)]
    fn write_word(&mut self, value: u32)
        ensures sees { Becomes E.gave self.old.side self.new.side (written (item.Word self.old.side.domain value)) }
        ensures leaves { WritesOnly E.gave self.old.side self.new.side }
    {
        let domain = self.side.domain;
        self.side.emitter.item(&Item::Word { domain, value });
    }

    /// Writes an answer.
    #[inline(always)]
    fn write_answer(&mut self, a: Answer)
        ensures sees { Becomes E.gave self.old.side self.new.side
            (written (inside.answer_item self.old.side.domain a)) }
        ensures leaves { WritesOnly E.gave self.old.side self.new.side }
    {
        match a {
            Answer::Ok => self.write_ok(),
            Answer::Absent(cause) => self.write_absent(cause),
            Answer::Word(value) => self.write_word(value),
            Answer::Stopped => self.write_stopped(),
        }
    }

    /// Answers a question, and writes the answer.
    #[inline(always)]
    pub(crate) fn answer(&mut self, a: Answer) -> Answer
        ensures told { FollowsAlways E.gave self.old.side self.new.side result (replies a) }
        ensures leaves { WritesOnly E.gave self.old.side self.new.side }
        ensures value { result ≡ a }
    {
        self.write_answer(a);
        a
    }

    /// Answers that a question met a violation, which ends the program, or a missing draw, which stops the run. Kept
    /// out of line, so that a question that is granted stays short.
    #[cold]
    #[inline(never)]
    fn stop(&mut self) -> Answer
        ensures told { FollowsAlways E.gave self.old.side self.new.side result (replies Answer.Stopped) }
        ensures leaves { WritesOnly E.gave self.old.side self.new.side }
        ensures value { result ≡ Answer.Stopped }
    {
        self.answer(Answer::Stopped)
    }

    /// Answers with the value at a settled address, unless a draw was missing.
    fn get_settled(&mut self, pa: u32, width: u32) -> Answer
        requires value { IsValueOutside self.old.side.memory.now pa width }
        ensures told { FollowsAlways E.gave self.old.side self.new.side result (if_drawn (get_at pa width)) }
        ensures keeps { Keeps (StaysWithin E.gave) self.old.side self.new.side }
    {
        if self.side.memory.missed {
            return self.answer(Answer::Stopped);
        }
        let value = self.side.read_settled(pa, width);
        self.answer(Answer::Word(low_bytes(width, value)))
    }

    /// The value at an address that is not cloaked.
    pub(crate) fn get_value(&mut self, va: u32, width: u32) -> Answer
        requires width { IsWidth width }
        requires aligned { va % width ≡ 0 }
        ensures follows { FollowsInside E.gave self.old.side self.new.side result (get_by_table va width) }
        ensures keeps { Keeps (StaysWithin E.gave) self.old.side self.new.side }
    {
        let regime = self.side.regime;
        let to = self.side.led(&regime, va, Kind::Load, None);
        if self.side.memory.missed {
            return self.answer(Answer::Stopped);
        }
        match to {
            Err(cause) => self.answer(Answer::Absent(cause)),
            Ok(led) => {
                self.side.settle_led(&regime, va, Kind::Load, &led);
                self.get_settled(led.pa, width)
            }
        }
    }

    /// Stores a value at a settled address, and writes that, unless a draw was missing.
    fn put_settled(&mut self, pa: u32, width: u32, v: u32) -> Answer
        requires value { IsValueOutside self.old.side.memory.now pa width }
        ensures told { FollowsAlways E.gave self.old.side self.new.side result (if_drawn (put_at pa width v)) }
        ensures keeps { Keeps (StaysWithin E.gave) self.old.side self.new.side }
    {
        if self.side.memory.missed {
            return self.answer(Answer::Stopped);
        }
        self.side.write_settled(pa, width, v);
        self.side.write_put(pa, width, v);
        self.answer(Answer::Ok)
    }

    /// Stores a value at an address that is not cloaked.
    pub(crate) fn put_value(&mut self, va: u32, width: u32, v: u32) -> Answer
        requires width { IsWidth width }
        requires aligned { va % width ≡ 0 }
        ensures follows { FollowsInside E.gave self.old.side self.new.side result (put_by_table va width v) }
        ensures keeps { Keeps (StaysWithin E.gave) self.old.side self.new.side }
    {
        let regime = self.side.regime;
        let to = self.side.led(&regime, va, Kind::Store, None);
        if self.side.memory.missed {
            return self.answer(Answer::Stopped);
        }
        match to {
            Err(cause) => self.answer(Answer::Absent(cause)),
            Ok(led) => {
                self.side.settle_led(&regime, va, Kind::Store, &led);
                self.put_settled(led.pa, width, v)
            }
        }
    }

    /// Answers that a page was reached in this frame.
    #[inline(always)]
    fn grant(&mut self, g: Frame) -> Answer
        ensures told { FollowsAlways E.gave self.old.side self.new.side result (replies Answer.Ok) }
        ensures leaves { WritesOnly E.gave self.old.side self.new.side }
        ensures value { result ≡ Answer.Ok }
        ensures reached { self.new.reached ≡ g }
    {
        let a = self.answer(Answer::Ok);
        self.reached = g;
        a
    }

    /// Brings a page to where its access was led.
    #[inline(always)]
    fn reached(&mut self, q: PageId, va: u32, kind: Kind, led: &Led, g: Frame) -> Answer
        requires frame { g.0 ≡ frame_of led.now.pa }
        requires inside { IsTrue (is_in_frames (frames_of self.old.side.memory.now) led.now.pa) }
        requires page { IsOwnPage self.old.side q }
        requires drawn { self.old.side.memory.now.missed ≡ false }
        ensures told { (first : _) (w : World) (s : _) (walked : _) → Sees E.gave first self.old.side w →
            space_in self.old.side.regime ≡ Some s →
            IsLedSo self.old.side.memory.now w self.old.side.regime va kind (Some q) walked led.now →
            is_clashed (reached q va kind (Ok walked) w).world ≡ false →
            FollowsFrom (Sees E.gave first) self.new.side result (reached q va kind (Ok walked) w) }
        ensures leaves { ReachLeaves E.gave self.old self.new q kind result }
    {
        let side = &mut self.side;
        if side.memory.offer(q, g, is_store(kind), side.emitter) {
            self.side.learn_page(q, va, kind, led);
            return self.grant(g);
        }
        // Tested last, since a page that is granted missed no draw.
        if self.side.memory.missed {
            return self.stop();
        }
        self.side.violation = Some(Violation::Page { page: q, frame: g });
        self.stop()
    }

    /// Brings a page to where its access was led, unless a draw was missing.
    #[inline(always)]
    fn reach_led(&mut self, q: PageId, va: u32, kind: Kind, led: &Led, g: Frame) -> Answer
        requires frame { g.0 ≡ frame_of led.now.pa }
        requires inside { IsTrue (is_in_frames (frames_of self.old.side.memory.now) led.now.pa) }
        requires page { IsOwnPage self.old.side q }
        ensures told { Reaches E.gave self.old.side self.new.side result q va kind (Some (Ok led.now)) }
        ensures leaves { ReachLeaves E.gave self.old self.new q kind result }
    {
        if self.side.memory.missed {
            return self.stop();
        }
        self.reached(q, va, kind, led, g)
    }

    /// Answers with the cause of a fault, unless a draw was missing.
    fn answer_fault(&mut self, cause: u32) -> Answer
        ensures told { FollowsAlways E.gave self.old.side self.new.side result
            (if_drawn (replies (Answer.Absent cause))) }
        ensures keeps { Keeps (StaysWithin E.gave) self.old.side self.new.side }
        ensures refused { result ≢ Answer.Ok }
    {
        if self.side.memory.missed {
            return self.answer(Answer::Stopped);
        }
        self.answer(Answer::Absent(cause))
    }

    /// Brings a page to where a translation of another page leads. Kept out of line, so that a hit makes no room for a
    /// walk.
    #[inline(never)]
    fn reach_other(
        &mut self,
        q: PageId,
        va: u32,
        kind: Kind,
        pa: u64,
        pt1: Option<Frame>,
        pt0: Option<Frame>,
    ) -> Answer
        requires low { pa < 2 ^ 32 }
        requires inside { IsTrue (is_in_frames (frames_of self.old.side.memory.now) pa) }
        requires page { IsOwnPage self.old.side q }
        ensures told { Reaches E.gave self.old.side self.new.side result q va kind
            (Some (Ok (record { pa = pa; walked = Some (record { pa = pa; pt1 = pt1; pt0 = pt0 }); missed = false }))) }
        ensures leaves { ReachLeaves E.gave self.old self.new q kind result }
    {
        let led = handed_on(pa, pt1, pt0);
        self.reach_led(q, va, kind, &led, frame_of(led.pa))
    }

    /// Brings a page to where a walk leads, after a look that missed. Kept out of line, as `reach_other` is.
    #[inline(never)]
    fn reach_walking(&mut self, q: PageId, va: u32, kind: Kind) -> Answer
        requires unknown { is_known self.old.side.regime (va / 4096) kind self.old.side.memory.now.shadows ≡ false }
        requires page { IsOwnPage self.old.side q }
        ensures told { Reaches E.gave self.old.side self.new.side result q va kind None }
        ensures leaves { ReachLeaves E.gave self.old self.new q kind result }
    {
        let regime = self.side.regime;
        match self.side.led_by_walk(&regime, va, kind) {
            Err(cause) => self.answer_fault(cause),
            Ok(led) => self.reach_led(q, va, kind, &led, frame_of(led.pa)),
        }
    }

    /// Brings the page to where the kernel's page table leads from this address.
    #[inline(always)]
    pub(crate) fn reach_page(&mut self, q: PageId, va: u32, kind: Kind) -> Answer
        requires page { IsOwnPage self.old.side q }
        ensures follows { FollowsInside E.gave self.old.side self.new.side result (reach_by_table q va kind) }
        ensures leaves { ReachLeaves E.gave self.old self.new q kind result }
    {
        match self.side.look(va, kind, Some(q)) {
            Found::Straight { pa, frame } => {
                let led = Led {
                    pa,
                    walked: None,
                    missed: false,
                };
                self.reach_led(q, va, kind, &led, frame)
            }
            Found::Other(walked) => {
                self.reach_other(q, va, kind, walked.pa, walked.pt1, walked.pt0)
            }
            Found::Fault => self.answer_fault(access_fault(kind)),
            Found::Missed => self.reach_walking(q, va, kind),
        }
    }
}
