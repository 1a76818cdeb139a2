//! The machines that run alone on the items of a record: the kernel, and each program.
ghost use Rattle.cloak_model.specs.Items.{item_of};
ghost use Rattle.std.specs.Prelude.{◌≡◌, ◌++◌, [], ◌∷◌, List, IfOk, option_copied, slice_get};
ghost use Rattle.cloak_model.specs.Bundle.{IsInGrammar};
ghost use Rattle.cloak_model.specs.Record.{IsItem};
ghost use Rattle.cloak_model.specs.declared.image.Bundle.{Bundle};
ghost use Rattle.cloak_model.specs.Items.{Item as AnyItem};
ghost use Rattle.cloak_model.specs.KernelAlone.{kernel_alone, kernel_hart};
ghost use Rattle.alone_views.specs.KernelStages.{stood_stage};
ghost use Rattle.replayed_run.specs.Alone as alone;
ghost use Rattle.replayed_run.specs.Leading as leading;
ghost use Rattle.replayed_run.specs.Questions as question;
ghost use Rattle.replayed_run.specs.Machines.{ProgramsStand, ProgramsTake, StandAlone, TakeAlone};

use crate::frames::{PresentedPage, Tables, frame_at, tables_of};
use crate::questions::access_in;
use crate::silent::Silent;
use alone_views::{AskedAccess, DomainAlone, KernelAlone, KernelStage, Unfit};
use cloak_base::{HartId, Kind, Mode, NoMemory, PageId};
use cloak_model::{Bundle, Item};
use host_calls::Hart;
use std::alloc::Global;

/// The kernel and the programs of a guest image, each alone, as far as they took the items of a record.
#[derive(Drop)]
pub struct Machines {
    pub kernel: KernelAlone,
    pub programs: Vec<DomainAlone>,
}

/// A context as its program has it.
#[derive(Clone, Copy)]
pub struct StandingContext {
    /// Its space, counted from 8 times the number of its program on.
    pub space: u32,
    /// The hart on which it runs.
    pub on: Option<HartId>,
}

/// What a hart says as it asks to resume a context.
#[derive(Clone, Copy)]
pub struct HartWords {
    pub ctx: u32,
    /// Its page table.
    pub satp: u32,
}

/// What this hart says.
fn words_of(hart: &Hart) -> HartWords
    ensures { result ≡ alone.words_of hart.now }
{
    HartWords {
        ctx: hart.regs.get(5),
        satp: hart.csrs.satp(),
    }
}

/// The programs of a bundle, each alone.
fn open_programs(alloc: Global, bundle: &Bundle) -> Result<Vec<DomainAlone>, NoMemory>
    requires { IsInGrammar bundle.now }
    ensures { IfOk result (λ programs. ProgramsStand bundle.now [] programs.items) }
{
    let programs = bundle.programs.as_slice();
    let mut opened = Vec::new(alloc);
    for number in 0..programs.len() {
        let program = DomainAlone::open(alloc, &bundle.kernel, number as u32, &programs[number])?;
        opened.push(program)?;
    }
    Ok(opened)
}

/// Gives an item to each program, up to the first that it does not fit.
fn give_programs(programs: &mut [DomainAlone], item: &Item<'_>) -> Result<(), Unfit>
    ensures { (b : Bundle) (items : List AnyItem) → ProgramsStand b items programs.old →
        ProgramsTake b (items ++ (item_of item.now) ∷ []) programs.new result }
{
    for number in 0..programs.len() {
        if let Err(unfit) = programs[number].take(item) {
            return Err(unfit);
        }
    }
    Ok(())
}

impl Machines {
    /// The machines of a bundle before the first item.
    pub fn open(alloc: Global, bundle: &Bundle) -> Result<Machines, NoMemory>
        requires { IsInGrammar bundle.now }
        ensures { IfOk result (StandAlone bundle.now []) }
    {
        Ok(Machines {
            kernel: KernelAlone::open(alloc, &bundle.kernel)?,
            programs: open_programs(alloc, bundle)?,
        })
    }

    /// Takes the next item. Once one did not fit, the machines are of no more use.
    pub fn take(&mut self, item: &Item<'_>) -> Result<(), Unfit>
        ensures { (b : Bundle) (items : List AnyItem) → IsItem (item_of item.now) → StandAlone b items self.old →
            TakeAlone b items (item_of item.now) self.new result }
    {
        if let Err(unfit) = self.kernel.take(item, &mut Silent {}) {
            return Err(unfit);
        }
        give_programs(self.programs.as_mut_slice(), item)
    }

    /// Where the items of the kernel stand.
    pub fn stage(&self) -> KernelStage
        ensures { (b : Bundle) (items : List AnyItem) → StandAlone b items self.now →
            stood_stage result ≡ (kernel_alone b.kernel items).stage }
    {
        self.kernel.stage()
    }

    /// What a hart says; of a number without a hart what one says as a run begins.
    pub fn words_of(&self, hart: usize) -> HartWords
        ensures { (b : Bundle) (items : List AnyItem) → StandAlone b items self.now →
            result ≡ alone.words_of (kernel_hart (kernel_alone b.kernel items).kernel hart) }
    {
        let harts = self.kernel.harts();
        if hart < harts.len() {
            words_of(&harts[hart])
        } else {
            words_of(&Hart::start(0, 0))
        }
    }

    /// The hart of a number.
    pub fn hart_at(&self, number: usize) -> Option<&Hart>
        ensures { (b : Bundle) (items : List AnyItem) → StandAlone b items self.now →
            option_copied result ≡ slice_get (kernel_alone b.kernel items).kernel.harts number }
    {
        self.kernel.harts().get(number)
    }

    /// The page tables of a hart.
    fn tables_at(&self, number: usize) -> Option<Tables>
        ensures { (b : Bundle) (items : List AnyItem) → StandAlone b items self.now →
            result ≡ leading.tables_by (slice_get (kernel_alone b.kernel items).kernel.harts number) }
    {
        match self.hart_at(number) {
            None => None,
            Some(hart) => Some(tables_of(hart)),
        }
    }

    /// The page tables of the hart whose step is open.
    pub fn tables(&self) -> Option<Tables>
        ensures { (b : Bundle) (items : List AnyItem) → StandAlone b items self.now →
            result ≡ leading.tables_in (kernel_alone b.kernel items) }
    {
        match self.stage() {
            KernelStage::Outside { hart } => self.tables_at(hart),
            KernelStage::Inside { hart, .. } => self.tables_at(hart),
            KernelStage::Between => None,
            KernelStage::Left => None,
        }
    }

    /// The frames as the kernel sees them.
    pub fn frames(&self) -> &[[u8; 4096]]
        ensures { (b : Bundle) (items : List AnyItem) → StandAlone b items self.now →
            result.now ≡ (kernel_alone b.kernel items).kernel.ram }
    {
        self.kernel.frames()
    }

    /// The frame that an address of a program leads to.
    pub fn frame_for(&self, tables: Tables, address: u32, kind: Kind) -> Option<usize>
        ensures { (b : Bundle) (items : List AnyItem) → StandAlone b items self.now →
            result ≡ leading.frame_for (kernel_alone b.kernel items).kernel.ram tables address kind }
    {
        frame_at(self.frames(), tables, Mode::U, address, kind)
    }

    /// The page of a question, and the frame in which the kernel presents it.
    fn presented_under(
        &self,
        tables: Option<Tables>,
        page: PageId,
        address: u32,
        kind: Kind,
    ) -> Option<PresentedPage>
        ensures { (b : Bundle) (items : List AnyItem) → StandAlone b items self.now →
            result ≡ leading.presented_under (kernel_alone b.kernel items).kernel.ram tables page address kind }
    {
        match tables {
            None => None,
            Some(tables) => match self.frame_for(tables, address, kind) {
                None => None,
                Some(frame) => Some(PresentedPage {
                    page,
                    address,
                    kind,
                    frame,
                }),
            },
        }
    }

    /// The page of this question of a program, and the frame in which the kernel presents it.
    pub fn presented(&self, question: AskedAccess) -> Option<PresentedPage>
        ensures { (b : Bundle) (items : List AnyItem) → StandAlone b items self.now →
            result ≡ leading.presented_by (kernel_alone b.kernel items) question }
    {
        match question {
            AskedAccess::Page {
                page,
                address,
                kind,
            } => self.presented_under(self.tables(), page, address, kind),
            AskedAccess::Nothing => None,
            AskedAccess::Uncloaked { .. } => None,
        }
    }

    /// A context, if there is one of this number.
    pub fn context(&self, ctx: u32) -> Option<StandingContext>
        ensures { (b : Bundle) (items : List AnyItem) → StandAlone b items self.now →
            result ≡ alone.standing_told b items ctx }
    {
        let programs = self.programs.as_slice();
        let number = (ctx / 8) as usize;
        if number < programs.len() {
            match programs[number].context(ctx % 8) {
                Some(told) => Some(StandingContext {
                    space: ctx / 8 * 8 + told.0,
                    on: told.1,
                }),
                None => None,
            }
        } else {
            None
        }
    }

    /// There is a resource of this number in a program.
    pub fn has_resource(&self, domain: u32, resource: u32) -> bool
        ensures { (b : Bundle) (items : List AnyItem) → StandAlone b items self.now →
            result ≡ alone.has_resource b items domain resource }
    {
        let programs = self.programs.as_slice();
        let number = domain as usize;
        if number < programs.len() {
            programs[number].has_resource(resource)
        } else {
            false
        }
    }

    /// What the open step of a program asks for after this many answers.
    fn question(&self, domain: u8, answers: usize) -> AskedAccess
        ensures { (b : Bundle) (items : List AnyItem) → StandAlone b items self.now →
            result ≡ question.question_in b items domain answers }
    {
        let programs = self.programs.as_slice();
        let number = domain as usize;
        if number < programs.len() {
            access_in(&programs[number], answers)
        } else {
            AskedAccess::Nothing
        }
    }

    /// The question for which an item is the answer, after this many answers in the step.
    pub fn question_for(&self, item: &Item<'_>, answers: usize) -> AskedAccess
        ensures { (b : Bundle) (items : List AnyItem) → StandAlone b items self.now →
            result ≡ question.question_for b items answers (item_of item.now) }
    {
        match *item {
            Item::Ok { domain } => self.question(domain, answers),
            Item::Absent { domain, .. } => self.question(domain, answers),
            Item::Word { domain, .. } => self.question(domain, answers),
            Item::Stopped { domain } => self.question(domain, answers),
            _ => AskedAccess::Nothing,
        }
    }
}
