//! The lines of programs in the report.
ghost use Rattle.std.specs.Prelude.{◌≡◌, ◌+◌, ◌<◌, ◌≤◌, ◌^◌, [], ◌∷◌, ◌++◌, List, map, length, All};
ghost use Rattle.cloak_model.specs.DomainState as model;
ghost use Rattle.cloak_model.specs.DomainState.{domain_line};
ghost use Rattle.hypercalls.specs.Standing.{StandsFor};
ghost use Rattle.joint_machine.specs.Standing.{AreDomains};

use hypercalls::Domain;

/// The line of a program.
#[derive(Clone, Copy)]
pub struct DomainLine {
    pub(crate) bytes: [u8; 256],
    /// The bytes after it are not used.
    pub(crate) end: usize,
    ghost fits: { end ≤ 256 },
}

/// The lines of up to four programs, in the order of their numbers.
#[derive(Drop)]
pub struct DomainLines {
    pub(crate) lines: [DomainLine; 4],
    /// The lines after it are not used.
    pub(crate) count: usize,
    ghost few: { count ≤ 4 },
}

impl DomainLine {
    ghost use Rattle.cloak_machine.specs.Lines.{line_text};

    fn empty() -> DomainLine {
        DomainLine {
            bytes: [0; 256],
            end: 0,
        }
    }

    /// Ends a program, and returns its line.
    fn of(domain: Domain) -> DomainLine
        ensures { (d : model.Domain) → StandsFor domain d → length d.loads < 2 ^ 64 → line_text result ≡ domain_line d }
    {
        let mut bytes = [0; 256];
        let end = domain.line(&mut bytes);
        DomainLine { bytes, end }
    }

    pub fn text(&self) -> &[u8]
        ensures { result.now ≡ line_text self.now }
    {
        &self.bytes[..self.end]
    }
}

impl DomainLines {
    ghost use Rattle.cloak_machine.specs.Lines.{line_text, lines_kept, line_of_program};

    fn new() -> DomainLines
        ensures none { lines_kept result ≡ [] }
        ensures count { result.count ≡ 0 }
    {
        DomainLines {
            lines: [DomainLine::empty(); 4],
            count: 0,
        }
    }

    /// All lines.
    pub fn all(&self) -> &[DomainLine]
        ensures { map line_text result.now ≡ lines_kept self.now }
    {
        &self.lines[..self.count]
    }

    /// The line of a program, and nothing if there is no such program.
    pub fn line(&self, d: u32) -> &[u8]
        ensures { result.now ≡ line_of_program self.now d }
    {
        match self.all().get(d as usize) {
            None => &[],
            Some(line) => line.text(),
        }
    }

    /// Adds a line.
    fn add(&mut self, line: DomainLine)
        requires { self.old.count < 4 }
        ensures count { self.new.count ≡ self.old.count + 1 }
        ensures lines { lines_kept self.new ≡ lines_kept self.old ++ line_text line ∷ [] }
    {
        self.lines[self.count] = line;
        self.count += 1;
    }

    /// Ends the programs. Their lines stand in the order of their numbers.
    pub fn of(domains: Vec<Domain>) -> DomainLines
        requires { length domains.items ≤ 4 }
        ensures { (ds : List model.Domain) → AreDomains domains.items ds → All (λ d. length d.loads < 2 ^ 64) ds →
            lines_kept result ≡ map domain_line ds }
    {
        let mut lines = DomainLines::new();
        for domain in domains {
            lines.add(DomainLine::of(domain));
        }
        lines
    }
}
