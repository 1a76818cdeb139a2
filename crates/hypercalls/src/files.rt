//! The files of a domain, for who knows them from an earlier run or hands them on to a later one.
ghost use Rattle.std.specs.Prelude.{◌≡◌, ◌<◌, ◌≤◌, ℕ, None, IfErr, IfOk, IfSome, length};
ghost use Rattle.cloak_model.specs.DomainState as model;
ghost use Rattle.cloak_model.specs.Files as spec;
ghost use Rattle.cloak_model.specs.Resources.{resource_at};
ghost use Rattle.resource_map.specs.Kept.{IsSound};
ghost use Rattle.hypercalls.specs.Filing.{AddsFile, file_at};

use crate::control::Control;
use crate::domain::Domain;
use cloak_model::{MapFault, Owner};
use cloaked_files::file_resource;

impl Control {
    /// A file of this number and size.
    #[tactic(auto, using(crate::proofs::Fitted::fits_with))]
    fn add_file(&mut self, number: u32, pages: u32) -> Result<u32, MapFault>
        ensures value { record { answer = result; resources = self.new.resources } ≡
            spec.file_resource number pages self.old.resources }
        ensures rest { self.new ≡ record self.old { resources = self.new.resources } }
        ensures numbers { length self.old.resources.held ≡ 16 }
    {
        // No effect at run time. The proof reads from it that there are sixteen numbers.
        let _ = self.resources.resource(0);
        file_resource(&mut self.resources, number, pages)
    }
}

impl Domain {
    ghost use Rattle.hypercalls.specs.Standing.{StandsFor, control_of, number_of};

    /// The domain has a file of this number and size, by the rule of the hypercall FILE. Returns the number of the file's
    /// resource. A refusal changes nothing.
    pub fn add_file(&mut self, number: u32, pages: u32) -> Result<u32, MapFault>
        ensures adds { (d : model.Domain) → StandsFor self.old d → AddsFile self.new d result
            (spec.file_resource number pages d.control.resources) }
        ensures answer { result ≡ (spec.file_resource number pages (control_of self.old).resources).answer }
        ensures control { control_of self.new ≡ record (control_of self.old) {
          resources = (spec.file_resource number pages (control_of self.old).resources).resources;
        } }
        ensures inside { IfOk result (λ n. n < 16) }
        ensures refused { IfErr result (λ fault. self.new ≡ self.old) }
        ensures freed { (n : ℕ) → resource_at (control_of self.new).resources n ≡ None →
            resource_at (control_of self.old).resources n ≡ None }
        ensures number { number_of self.new ≡ number_of self.old }
    {
        self.control.add_file(number, pages)
    }

    /// Number and count of pages of the file that is this resource, none exactly if it is no file.
    pub fn file(&self, resource: u32) -> Option<(u32, u32)>
        ensures value { result ≡ file_at (control_of self.now).resources resource }
        ensures inside { IfSome result (λ told. resource < 16) }
        ensures some_pages { IfSome result (λ told. 1 ≤ told.1) }
        ensures few_pages { IfSome result (λ told. told.1 ≤ 1024) }
        ensures sound { IsSound (control_of self.now).resources }
    {
        match self.control.resources.resource(resource)? {
            (Owner::File(number), pages) => Some((number, pages)),
            _ => None,
        }
    }
}
