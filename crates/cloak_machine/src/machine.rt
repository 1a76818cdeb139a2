ghost use Rattle.std.specs.Prelude.{◌≡◌, ◌≢◌, ◌+◌, ◌<◌, ◌≤◌, ◌^◌, ◌++◌, ℕ, List, [], Ok, All, IfOk, None, false, length, map};
ghost use Rattle.cloak_base.specs.Random.{Random};
ghost use Rattle.cloak_model.specs.declared.image.Bundle.{Bundle};
ghost use Rattle.cloak_model.specs.Beginning.{Beginning, opening_from};
ghost use Rattle.cloak_model.specs.Bundle.{IsInGrammar};
ghost use Rattle.cloak_model.specs.Cloaking.{owed_in};
ghost use Rattle.cloak_model.specs.Exchange.{Emits, EmitsSome, shown_each};
ghost use Rattle.cloak_model.specs.Joint.{Moment, joint_step};
ghost use Rattle.cloak_model.specs.Opening.{RunEdge};
ghost use Rattle.cloak_model.specs.Run.{closing, first_moment, most_steps};
ghost use Rattle.cloak_model.specs.StoredFiles.{IsTable, StandsForFiles};
ghost use Rattle.cloak_model.specs.StoredRun.{contents_of};
ghost use Rattle.joint_machine.specs.Freezing.{AreOwedOrOutside};
ghost use Rattle.joint_machine.specs.Placings.{placing};
ghost use Rattle.joint_machine.specs.Standing.{AllOutside, LendsPager, harts_of, shown_byte};
ghost use Rattle.kernel_report.specs.Console.{ConsoleShows};

use crate::closing::end_of;
use crate::end::RunEnd;
use crate::schedule::Schedule;
use arrayvec::ArrayVec;
use cloak_base::Stop;
use cloak_model::{Emit, Item, KernelImage, Program, Sequence};
use cloak_pager::Pager;
use io_traits::Stream;
use joint_machine::{Joint, OpenFault, Placing, StoredFault, placings_of};
use kernel_report::Console;
use multi_shadow::ShadowCounts;
use protect_meta::FileTable;
use std::alloc::Global;

/// A machine as its run goes on.
#[derive(Drop)]
pub struct Machine {
    pub(crate) joint: Joint,
    pub(crate) schedule: Schedule,
    pub(crate) steps: u32,
    pub(crate) console: Console,
    /// Where the programs are placed, which is asked for once, by the opening.
    pub(crate) placings: ArrayVec<Placing, 4>,
    ghost turns: { All (λ h. h < harts_of joint) schedule.turns.items },
    ghost counted: { console.count ≤ steps },
    ghost settled: { steps ≡ 0 → AreOwedOrOutside joint.memory.pager },
    ghost outside: { steps ≡ 0 → placings.items ≢ [] → AllOutside joint },
}

/// Shows the byte of a step, if there is one.
fn show<E: Emit>(console: &mut Console, byte: Option<u8>, e: &mut E)
    requires { console.old.count + 1 < 2 ^ 64 }
    ensures count { console.new.count ≤ console.old.count + 1 }
    ensures shows { (bytes : List ℕ) → ConsoleShows console.old bytes →
        ConsoleShows console.new (bytes ++ shown_byte byte) }
    ensures emits { Emits E.gave e.old e.new (shown_each (shown_byte byte)) }
{
    if let Some(b) = byte {
        console.put(b);
        e.console(b);
    }
}

impl Machine {
    ghost use Rattle.cloak_machine.specs.Standing.{FinishesAs, MakesTurn, Opens, OpensStored, ShowsOpening};
    ghost use Rattle.cloak_machine.specs.Standing.{StandsForMoment, length_of_disk, placings_of, steps_made};
    ghost use Rattle.cloak_machine.specs.Counting.{CountsAccesses, spent_by};
    ghost use Rattle.shadow_fold.specs.Events.{after_step, asked_in};
    ghost use Rattle.shadow_fold.specs.Fold.{Fold, fresh_fold};
    ghost use Rattle.shadow_fold.specs.Reads.{SpendsFor, reads_due};

    /// The machine of a guest image, before its first step. Its keys are the first draws of the stream, one for each
    /// number up to the greatest that a program has, and each page of a program takes the next one. The memory of the
    /// image is taken over or given back: the bytes of a program as its pages are placed.
    pub fn open(
        alloc: Global,
        kernel: KernelImage,
        programs: Sequence<Program>,
        s: Stream,
    ) -> Result<Machine, OpenFault>
        requires { IsInGrammar (record { kernel = kernel; programs = programs }) }
        ensures opens { Opens (record { kernel = kernel; programs = programs }) s result }
        ensures placings { IfOk result (λ machine. placings_of machine ≡ map placing programs) }
        ensures no_step { IfOk result (λ machine. steps_made machine ≡ 0) }
    {
        let schedule = Schedule::open(alloc, kernel.schedule.as_slice())?;
        let placings = placings_of(programs.as_slice());
        let joint = match Joint::open(alloc, kernel, programs, s) {
            Ok(joint) => joint,
            Err(fault) => return Err(fault),
        };
        Ok(Machine {
            joint,
            schedule,
            steps: 0,
            console: Console::new(),
            placings,
        })
    }

    /// The machine of a guest image over the files of an earlier run, of which the table tells, before its first step. The
    /// keys are handed in, and each page of a program takes the next draw of the stream. The memory of the image is taken
    /// over or given back. Want of room for a file is told before want of a draw.
    pub fn open_stored(
        alloc: Global,
        kernel: KernelImage,
        programs: Sequence<Program>,
        s: Stream,
        keys: [[u8; 16]; 4],
        files: &FileTable,
    ) -> Result<Machine, StoredFault>
        requires image { IsInGrammar (record { kernel = kernel; programs = programs }) }
        requires table { IsTable files.now }
        ensures opens { OpensStored (record { kernel = kernel; programs = programs }) keys s files.now result }
        ensures placings { IfOk result (λ machine. placings_of machine ≡ map placing programs) }
        ensures no_step { IfOk result (λ machine. steps_made machine ≡ 0) }
    {
        let schedule = Schedule::open(alloc, kernel.schedule.as_slice())?;
        let placings = placings_of(programs.as_slice());
        let joint = match Joint::open_stored(alloc, kernel, programs, s, keys, files) {
            Ok(joint) => joint,
            Err(fault) => return Err(fault),
        };
        Ok(Machine {
            joint,
            schedule,
            steps: 0,
            console: Console::new(),
            placings,
        })
    }

    /// Emits what the kernel is shown as the run begins: each frame that holds a page of a program. Nothing is shown once
    /// a step was made.
    pub fn opening<E: Emit>(&mut self, e: &mut E)
        ensures steps { steps_made self.new ≡ steps_made self.old }
        ensures placings { placings_of self.new ≡ placings_of self.old }
        ensures emits_some { EmitsSome E.gave e.old e.new }
        ensures shows { (b : Bundle) (from : Beginning) (o : RunEdge) → opening_from b from ≡ Ok o →
            placings_of self.old ≡ map placing b.programs → StandsForMoment self.old (first_moment b o.joint) →
            ShowsOpening E.gave e.old e.new self.new b o }
    {
        if self.steps == 0 && !self.placings.as_slice().is_empty() {
            self.joint.show_opening(self.placings.as_slice(), e);
        }
    }

    /// Begins to count accesses: what is known of translations ends, and from now on accesses without paging are kept too.
    /// Is called before the first step.
    pub fn count_accesses(&mut self)
        ensures steps { steps_made self.new ≡ steps_made self.old }
        ensures placings { placings_of self.new ≡ placings_of self.old }
        ensures stands { (m : Moment) → StandsForMoment self.old m → StandsForMoment self.new m }
        ensures counts { steps_made self.old ≡ 0 → (m : Moment) → StandsForMoment self.old m →
            ((f : ℕ) → owed_in m.joint.memory f ≡ None) →
            CountsAccesses self.new (fresh_fold (length m.joint.memory.ram)) }
    {
        self.joint.count_accesses();
    }

    /// How often a translation was asked for, was not known, and all that were known ended for want of room.
    pub fn counts(&self) -> ShadowCounts
        ensures counted { (s : Fold) → CountsAccesses self.now s → result ≡ s.table.counts }
        ensures misses { result.misses ≡ (spent_by self.now).misses }
    {
        self.joint.counts()
    }

    /// Makes the next step of the schedule, and returns why it stopped the run, if it did: for a halt, or because a draw
    /// was missing. A violation stops no run: the step ends its domain. Frames are read no more often than its questions
    /// and what the kernel is shown call for, and twice for each look that misses, for the words of page tables. Of a
    /// step's looks at most two miss, and each that does is counted.
    #[inline(always)]
    pub fn step<E: Emit>(&mut self, e: &mut E) -> Option<Stop>
        requires { steps_made self.old < most_steps }
        ensures steps { steps_made self.new ≡ steps_made self.old + 1 }
        ensures emits_some { EmitsSome E.gave e.old e.new }
        ensures makes { (m : Moment) → StandsForMoment self.old m →
            (joint_step m).joint.memory.ledger.clashed ≡ false →
            MakesTurn E.gave e.old e.new self.new result m (joint_step m) }
        ensures counts { (m : Moment) (s : Fold) → StandsForMoment self.old m → CountsAccesses self.old s →
            (joint_step m).joint.memory.ledger.clashed ≡ false → CountsAccesses self.new (after_step m s) }
        ensures reads { (m : Moment) → StandsForMoment self.old m → (joint_step m).joint.memory.ledger.clashed ≡ false →
            SpendsFor 2 0 (reads_due (asked_in m)) (spent_by self.old) (spent_by self.new) }
    {
        let number = self.schedule.next();
        self.steps += 1;
        e.item(&Item::Step { number: self.steps });
        let turned = self.joint.turn(number, e);
        show(&mut self.console, turned.console, e);
        turned.stop
    }

    /// The machine's own pager.
    pub fn pager(&self) -> &Pager
        ensures lends { (m : Moment) → StandsForMoment self.now m → LendsPager result.now m.joint.memory }
        ensures reads { result.now.reads ≡ (spent_by self.now).reads }
    {
        self.joint.pager()
    }

    /// How many bytes the disk has.
    pub fn disk_length(&self) -> usize
        ensures { result ≡ length_of_disk self.now }
    {
        self.joint.disk().len()
    }

    /// Makes the closing of a run that this stopped, and tells what the files hold at the end, in an empty table, and the
    /// bytes of the disk.
    pub fn finish_stored<E: Emit>(
        self,
        stop: Stop,
        e: &mut E,
        files: &mut FileTable,
        disk: &mut [u8],
    ) -> RunEnd
        requires empty { files.old ≡ [] }
        requires disk { length disk.old ≡ length_of_disk self }
        ensures emits_some { EmitsSome E.gave e.old e.new }
        ensures ends { (m : Moment) → StandsForMoment self m →
            FinishesAs E.gave e.old e.new result stop m (closing m.joint) }
        ensures table { IsTable files.new }
        ensures disk { (m : Moment) → StandsForMoment self m → disk.new ≡ (closing m.joint).joint.disk }
        ensures stores { result.stop ≢ Stop.NoRandom → (m : Moment) → StandsForMoment self m →
            StandsForFiles m.joint.memory.ledger.keys files.new (contents_of (closing m.joint).joint) }
    {
        let Machine {
            joint: mut closed,
            steps,
            console,
            ..
        } = self;
        disk.copy_from_slice(closed.disk());
        e.item(&Item::Close { steps });
        closed.close(e);
        e.item(&Item::End);
        closed.store_files(files);
        end_of(closed.into_parts(), stop, steps, console)
    }

    /// Makes the closing of a run that this stopped.
    pub fn finish<E: Emit>(self, stop: Stop, e: &mut E) -> RunEnd
        ensures emits_some { EmitsSome E.gave e.old e.new }
        ensures ends { (m : Moment) → StandsForMoment self m →
            FinishesAs E.gave e.old e.new result stop m (closing m.joint) }
    {
        let Machine {
            mut joint,
            steps,
            console,
            ..
        } = self;
        e.item(&Item::Close { steps });
        joint.close(e);
        e.item(&Item::End);
        end_of(joint.into_parts(), stop, steps, console)
    }
}
