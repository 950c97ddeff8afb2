//! Jobs and results of either kind, as they go to those who work on tiles and come back.
ghost use Rattle.std.specs.Prelude.{◌≡◌, ◌↔◌, is_some, IsTrue};
ghost use Rattle.draft_model.specs.Designs.{Fits};
ghost use Rattle.tile_rebuild.specs.Dones.{done_bits, done_colours, done_parts, done_tile, IsDoneRight};
ghost use Rattle.tile_rebuild.specs.Jobs.{job_bits, job_colours, job_parts, job_tile};
ghost use Rattle.tile_rebuild.specs.Tiles.{parts_of};

use crate::bind_job::{BindDone, BindJob};
use crate::check_job::{CheckDone, CheckJob};
use draft_model::design::Design;

/// A tile to bind, or one to check.
#[derive(Drop)]
pub enum Job {
    Bind(BindJob),
    Check(CheckJob),
}

/// A tile that was bound, or one that was checked.
#[derive(Drop)]
pub enum Done {
    Bind(BindDone),
    Check(CheckDone),
}

impl Job {
    /// The tile to bind or to check.
    pub fn tile(&self) -> u32
        ensures { result ≡ job_tile self.now }
    {
        match self {
            Job::Bind(job) => job.tile(),
            Job::Check(job) => job.tile(),
        }
    }

    /// Whether the tile is to be bound.
    pub fn is_bind(&self) -> bool
        ensures { result ≡ is_some (job_colours self.now) }
    {
        match self {
            Job::Bind(_) => true,
            Job::Check(_) => false,
        }
    }

    /// Whether the kept parts are those of a design. It takes no memory.
    pub fn is_of(&self, design: &Design) -> bool
        ensures { IsTrue result ↔ (job_parts self.now ≡ parts_of design.now) }
    {
        match self {
            Job::Bind(job) => job.is_of(design),
            Job::Check(job) => job.is_of(design),
        }
    }

    /// Binds or checks the tile by a design whose parts are the kept ones, whole lines at a time. It takes no memory.
    pub fn run(self, design: &Design) -> Done
        requires fits { Fits design.now }
        requires of { job_parts self ≡ parts_of design.now }
        ensures parts { done_parts result ≡ job_parts self }
        ensures tile { done_tile result ≡ job_tile self }
        ensures colours { done_colours result ≡ job_colours self }
        ensures bits { done_bits result ≡ job_bits self }
    {
        match self {
            Job::Bind(job) => Done::Bind(job.run(design)),
            Job::Check(job) => Done::Check(job.run(design)),
        }
    }
}

impl Done {
    /// The tile that was bound or checked.
    pub fn tile(&self) -> u32
        ensures tile { result ≡ done_tile self.now }
        ensures right { IsDoneRight self.now }
    {
        match self {
            Done::Bind(done) => done.tile(),
            Done::Check(done) => done.tile(),
        }
    }

    /// Whether the kept parts are those of a design. It takes no memory.
    pub fn is_of(&self, design: &Design) -> bool
        ensures { IsTrue result ↔ (done_parts self.now ≡ parts_of design.now) }
    {
        match self {
            Done::Bind(done) => done.is_of(design),
            Done::Check(done) => done.is_of(design),
        }
    }
}
