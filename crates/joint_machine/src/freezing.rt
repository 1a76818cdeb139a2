//! A machine that is frozen: what it goes on with later, without a plain byte of any program.
ghost use Rattle.std.specs.Prelude.{◌≡◌, ◌≤◌, ◌<◌, ◌+◌, ◌*◌, ◌++◌, ℕ, Bool, [], false, IfSome, IsTrue, length, map, option_map, slice_index_or, vec_capacity};
ghost use Rattle.cloak_base.specs.declared.names.PageId.{PageId as AnyPage};
ghost use Rattle.cloak_model.specs.Cloaking.{CloakedMemory, owed_in};
ghost use Rattle.cloak_model.specs.DomainState as program;
ghost use Rattle.cloak_model.specs.Parts as model;
ghost use Rattle.protect_meta.specs.Pages.{IsIn};
ghost use Rattle.protect_meta.specs.Table.{domains_of, meta_at};
ghost use Rattle.thread_context.specs.Recorded.{root_at};
ghost use Rattle.frozen_state.specs.FrozenState as frozen;
ghost use Rattle.frozen_state.specs.FrozenState.{by_draw, pages_of_domains, pages_of_resource, pages_of_resources};
ghost use Rattle.cloak_pager.specs.State.{bytes_in, held_in, owed_at};
ghost use Rattle.cloak_pager.specs.Relation.{StandsForMemory};
ghost use Rattle.cloak_pager.specs.Turns.{IsReadOnce, StaysBut};
ghost use Rattle.joint_machine.specs.Freezing.{AreOwedOrOutside, DrawsAs, HasRoom, TellsDomains, TellsFrame, TellsFrames, TellsKeys};
ghost use Rattle.joint_machine.specs.Freezing.{TellsDomain, page_known, pages_known};
ghost use Rattle.joint_machine.specs.Standing.{LendsPager};

use crate::joint::Joint;
use cloak_base::{Frame, Meta, PageId, SpaceId, Violation};
use cloak_pager::Pager;
use frozen_state::{Frozen, FrozenDomain, FrozenFrame, FrozenHart, FrozenPage, FrozenRoom};
use host_calls::{Hart, Reservations};
use hypercalls::Domain;
use io_traits::Stream;
use sha2::{Digest, Sha256};
use thread_context::Roots;

/// Makes a frame outside that is owed nothing. Nothing is drawn.
fn reseal(pager: &mut Pager, s: &mut Stream, f: Frame)
    requires { f.0 < length pager.old.frames }
    ensures stays { StaysBut f.0 pager.old pager.new }
    ensures owed { owed_at pager.new f.0 ≡ owed_at pager.old f.0 }
    ensures held { held_in pager.new f.0 ≡ owed_at pager.old f.0 }
    ensures stream { s.new ≡ s.old }
    ensures stands { (wiped : AnyPage → Bool) (m : CloakedMemory) → StandsForMemory pager.old wiped m →
        m.ledger.stream ≡ s.old → StandsForMemory pager.new wiped m }
{
    if !pager.owed(f) {
        pager.touch(f, s);
    }
}

/// Makes all frames outside that are owed nothing. Nothing is drawn.
fn reseal_all(pager: &mut Pager, s: &mut Stream)
    ensures count { length pager.new.frames ≡ length pager.old.frames }
    ensures domains { domains_of pager.new.table ≡ domains_of pager.old.table }
    ensures settled { AreOwedOrOutside pager.new }
    ensures lends { (m : CloakedMemory) → LendsPager pager.old m → m.ledger.stream ≡ s.old →
        LendsPager pager.new m }
{
    for f in 0..pager.count() {
        reseal(pager, s, Frame(f));
    }
    pager.whole();
}

/// The bytes of an outside frame.
fn bytes_of(pager: &mut Pager, f: Frame) -> [u8; 4096]
    requires inside { f.0 < length pager.old.frames }
    requires outside { held_in pager.old f.0 ≡ None }
    ensures read { IsReadOnce pager.old pager.new }
    ensures bytes { result ≡ bytes_in pager.old f.0 }
{
    *pager.read_outside(f)
}

/// A frame as it is frozen: a page that it is owed is shown under the next vector. None if there is none.
fn freeze_frame(pager: &mut Pager, ivs: &mut Stream, f: Frame) -> Option<FrozenFrame>
    requires inside { f.0 < length pager.old.frames }
    requires settled { held_in pager.old f.0 ≡ owed_at pager.old f.0 }
    ensures stays { StaysBut f.0 pager.old pager.new }
    ensures metas { (q : AnyPage) → meta_at pager.new.table q ≡ meta_at pager.old.table q }
    ensures draws { (m : CloakedMemory) → TellsFrame pager.old m f.0 → TellsKeys pager.old m →
        DrawsAs result ivs.new (frozen.frame_under m (slice_index_or m.ram f.0 []) (owed_in m f.0) ivs.old) }
{
    match pager.holds(f) {
        None => Some(FrozenFrame {
            bytes: bytes_of(pager, f),
            owed: None,
        }),
        Some(q) => {
            let iv = ivs.draw()?;
            let meta = pager.freeze_frame(f, iv);
            Some(FrozenFrame {
                bytes: bytes_of(pager, f),
                owed: Some((q, meta)),
            })
        }
    }
}

/// All frames as they are frozen, by rising number. None if there are too few vectors.
fn freeze_frames(
    pager: &mut Pager,
    ivs: &mut Stream,
    room: Vec<FrozenFrame>,
) -> Option<Vec<FrozenFrame>>
    requires empty { room.items ≡ [] }
    requires room { length pager.old.frames ≤ vec_capacity room }
    requires settled { AreOwedOrOutside pager.old }
    ensures domains { domains_of pager.new.table ≡ domains_of pager.old.table }
    ensures metas { (q : AnyPage) → meta_at pager.new.table q ≡ meta_at pager.old.table q }
    ensures draws { (m : CloakedMemory) → TellsFrames pager.old m →
        DrawsAs (option_map (λ frames. frames.items) result) ivs.new (frozen.frames_from m 0 m.ram ivs.old) }
{
    let mut frames = room;
    for f in 0..pager.count() {
        frames.push_reserved(freeze_frame(pager, ivs, Frame(f))?);
    }
    Some(frames)
}

/// The page tables of a domain's spaces.
fn roots_of(roots: &Roots, domain: u32) -> [Option<u32>; 8]
    ensures { result ≡ frozen.roots_of (root_at roots.now) domain }
{
    let mut all = [None; 8];
    for number in 0..8 {
        all[number as usize] = roots.root(SpaceId { domain, number });
    }
    all
}

/// A program as it is frozen: its page is shown under the next vector. None if there is none.
fn freeze_domain(
    pager: &Pager,
    roots: &Roots,
    violation: Option<Violation>,
    number: u32,
    domain: &Domain,
    ivs: &mut Stream,
) -> Option<FrozenDomain>
    ensures { (j : model.Joint) (d : program.Domain) → TellsDomain pager.now roots.now violation number domain.now d j →
        DrawsAs result ivs.new (by_draw (frozen.domain_under j number d) ivs.old) }
{
    let iv = ivs.draw()?;
    let mut page = [0; 4096];
    domain.state(&mut page);
    pager.seal_bytes(number, &iv, &mut page);
    let digest = Sha256::digest(page.as_slice());
    Some(FrozenDomain {
        violation,
        roots: roots_of(roots, number),
        meta: Meta { iv, digest },
        page,
    })
}

/// All programs as they are frozen, by rising number. None if there are too few vectors.
fn freeze_domains(
    pager: &Pager,
    roots: &Roots,
    ended: &[Option<Violation>; 4],
    domains: &[Domain],
    ivs: &mut Stream,
    room: Vec<FrozenDomain>,
) -> Option<Vec<FrozenDomain>>
    requires few { length domains.now ≤ 4 }
    requires empty { room.items ≡ [] }
    requires room { length domains.now ≤ vec_capacity room }
    ensures { (j : model.Joint) → TellsDomains pager.now roots.now ended.now domains.now j →
        DrawsAs (option_map (λ frozen. frozen.items) result) ivs.new (frozen.domains_from j 0 j.domains ivs.old) }
{
    let mut frozen = room;
    for (number, domain) in domains.iter().enumerate() {
        frozen.push_reserved(freeze_domain(
            pager,
            roots,
            ended[number],
            number as u32,
            domain,
            ivs,
        )?);
    }
    Some(frozen)
}

/// A hart as it is frozen.
#[tactic(auto, unfolding(frozen_state::specs::FrozenState::hart_with))]
fn freeze_hart(h: &Hart, marks: &Reservations) -> FrozenHart
    ensures { result ≡ frozen.hart_with marks.now h.now }
{
    FrozenHart {
        mode: h.mode,
        pc: h.pc,
        timer: h.timer,
        inside: h.inside,
        regs: h.regs,
        csrs: h.csrs.words(),
        mark: marks.marked(h.id),
    }
}

/// All harts as they are frozen, by rising number.
fn freeze_harts(harts: &[Hart], marks: &Reservations, room: Vec<FrozenHart>) -> Vec<FrozenHart>
    requires empty { room.items ≡ [] }
    requires room { length harts.now ≤ vec_capacity room }
    ensures { result.items ≡ map (frozen.hart_with marks.now) harts.now }
{
    let mut frozen = room;
    for h in harts {
        frozen.push_reserved(freeze_hart(h, marks));
    }
    frozen
}

/// What is known of a page, if something is.
fn freeze_page(pager: &Pager, page: PageId, frozen: &mut Vec<FrozenPage>)
    requires page { IsIn (domains_of pager.now.table) page }
    requires room { length frozen.old.items + 1 ≤ vec_capacity frozen.old }
    ensures capacity { vec_capacity frozen.new ≡ vec_capacity frozen.old }
    ensures few { length frozen.new.items ≤ length frozen.old.items + 1 }
    ensures added { frozen.new.items ≡ frozen.old.items ++ page_known page (meta_at pager.now.table page) }
{
    if let Some(meta) = pager.meta(page) {
        frozen.push_reserved(FrozenPage { page, meta });
    }
}

/// What is known of the pages of a resource, by rising number.
fn freeze_pages(pager: &Pager, domain: u32, resource: u32, frozen: &mut Vec<FrozenPage>)
    requires domain { domain < domains_of pager.now.table }
    requires resource { resource < 16 }
    requires room { length frozen.old.items + 1024 ≤ vec_capacity frozen.old }
    ensures capacity { vec_capacity frozen.new ≡ vec_capacity frozen.old }
    ensures few { length frozen.new.items ≤ length frozen.old.items + 1024 }
    ensures added { frozen.new.items ≡ frozen.old.items ++
        pages_known pager.now.table (pages_of_resource domain resource 1024) }
{
    for page in 0..1024 {
        let q = PageId {
            domain,
            resource,
            page,
        };
        freeze_page(pager, q, frozen);
    }
}

/// What is known of the pages of a program, by rising resource and page.
fn freeze_resources(pager: &Pager, domain: u32, frozen: &mut Vec<FrozenPage>)
    requires domain { domain < domains_of pager.now.table }
    requires room { length frozen.old.items + 16384 ≤ vec_capacity frozen.old }
    ensures capacity { vec_capacity frozen.new ≡ vec_capacity frozen.old }
    ensures few { length frozen.new.items ≤ length frozen.old.items + 16384 }
    ensures added { frozen.new.items ≡ frozen.old.items ++ pages_known pager.now.table (pages_of_resources domain 16) }
{
    for resource in 0..16 {
        freeze_pages(pager, domain, resource, frozen);
    }
}

/// What is known of the pages of all programs, by rising domain, resource and page.
fn freeze_recorded(pager: &Pager, domains: u32, room: Vec<FrozenPage>) -> Vec<FrozenPage>
    requires domains { domains ≡ domains_of pager.now.table }
    requires empty { room.items ≡ [] }
    requires room { domains * 16384 ≤ vec_capacity room }
    ensures known { result.items ≡ pages_known pager.now.table (pages_of_domains domains) }
    ensures few { length result.items ≤ domains * 16384 }
{
    let mut frozen = room;
    for domain in 0..domains {
        freeze_resources(pager, domain, &mut frozen);
    }
    frozen
}

/// These lists are empty, and have room for a machine of this many harts, frames and programs.
fn has_room(harts: usize, frames: usize, domains: usize, room: &FrozenRoom) -> bool
    requires few { domains ≤ 4 }
    ensures enough { IsTrue result → HasRoom harts frames domains room.now }
    ensures short { result ≡ false → HasRoom harts frames domains room.now → ⊥ }
{
    room.domains.is_empty()
        && room.harts.is_empty()
        && room.frames.is_empty()
        && room.recorded.is_empty()
        && domains <= room.domains.capacity()
        && harts <= room.harts.capacity()
        && frames <= room.frames.capacity()
        && domains * 16384 <= room.recorded.capacity()
}

impl Joint {
    ghost use Rattle.joint_machine.specs.Standing.{StandsForJoint};

    /// The state of the machine after this many steps, under these vectors: one for each program by rising number, and
    /// then one for each frame that is owed a page. None if there are too few, or no room. Frames that are owed nothing
    /// are resealed before that, and nothing is drawn from the run's stream. No memory is taken: the state has the
    /// memory of the room and of the disk. After a draw that was missing nothing is told, since the newest bytes of a
    /// page were lost.
    pub fn freeze(self, steps: u32, ivs: &mut Stream, room: FrozenRoom) -> Option<Frozen>
        ensures state { (j : model.Joint) → StandsForJoint self j → j.memory.ledger.missed ≡ false →
            HasRoom (length j.harts) (length j.memory.ram) (length j.domains) room →
            result ≡ frozen.frozen_of j steps ivs.old }
        ensures few { IfSome result (λ f. length f.recorded ≤ 65536) }
    {
        let Joint {
            harts,
            mut memory,
            domains,
            roots,
            disk,
            ended,
            refused,
            ..
        } = self;
        let count = memory.pager.count() as usize;
        if !has_room(harts.len(), count, domains.len(), &room) {
            return None;
        }
        let FrozenRoom {
            domains: domain_room,
            harts: hart_room,
            frames: frame_room,
            recorded: page_room,
        } = room;
        reseal_all(&mut memory.pager, &mut memory.stream);
        let frozen = freeze_domains(
            &memory.pager,
            &roots,
            &ended,
            domains.as_slice(),
            ivs,
            domain_room,
        )?;
        let recorded = freeze_recorded(&memory.pager, domains.len() as u32, page_room);
        let frames = freeze_frames(&mut memory.pager, ivs, frame_room)?;
        let filled = FrozenRoom {
            domains: frozen,
            harts: freeze_harts(harts.as_slice(), &memory.reservations, hart_room),
            frames,
            recorded,
        };
        Some(filled.fill(steps, memory.draws, refused, disk.into_bytes()))
    }
}
