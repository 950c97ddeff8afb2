//! The digests of a version's cloth, one for each face.
ghost use Rattle.std.specs.Prelude.{◌≡◌, IfOk, OnOk};
ghost use Rattle.draft_model.specs.Designs.{Fits, IsPaperOf};
ghost use Rattle.mill_base.specs.declared.face.Face.{Face as AFace};
ghost use Rattle.loom_threads.specs.Woven.{lifted as lifted_of};
ghost use Rattle.audit_report.specs.Checkers.{AreDigests, digest_by, turned};

use draft_model::cloth::Cloth;
use draft_model::design::Design;
use draft_model::drawdown::drawdown;
use loom_threads::digest::digest_of_cloth;
use mill_base::face::Face;
use mill_base::memory::OutOfMemory;
use point_paper::paper::Paper;
use std::alloc::Global;

/// The digests of the cloths that looms of the two faces weave of one version.
#[derive(Clone, Copy)]
pub struct Digests {
    pub up: [u8; 32],
    pub down: [u8; 32],
}

impl Digests {
    /// The digests of a paper. The cloth is drawn down once.
    pub fn of(alloc: Global, design: &Design, paper: &Paper) -> Result<Digests, OutOfMemory>
        requires fits { Fits design.now }
        requires paper { IsPaperOf design.now paper.now }
        ensures { IfOk result (AreDigests design.now paper.now) }
    {
        loom_threads::laws::lifted_rows_are_the_drawdown();
        let _ = design.casting.hooks();
        let mut cloth = drawdown(alloc, design, paper)?;
        let up = digest_of_cloth(alloc, &cloth)?;
        turn(alloc, &mut cloth)?;
        let down = digest_of_cloth(alloc, &cloth)?;
        Ok(Digests { up, down })
    }

    /// The digest for a face.
    pub fn face(&self, face: Face) -> &[u8; 32]
        ensures { result.now ≡ digest_by self.now face }
    {
        match face {
            Face::Up => &self.up,
            Face::Down => &self.down,
        }
    }
}

/// The cloth that a loom of a face weaves of a paper, as a weaver draws it down.
pub fn lifted(
    alloc: Global,
    design: &Design,
    face: Face,
    paper: &Paper,
) -> Result<Cloth, OutOfMemory>
    requires fits { Fits design.now }
    requires paper { IsPaperOf design.now paper.now }
    ensures { IfOk result (λ cloth. cloth ≡ lifted_of design.now face paper.now) }
{
    match face {
        Face::Up => lifted_face_up(alloc, design, paper),
        Face::Down => lifted_face_down(alloc, design, paper),
    }
}

fn lifted_face_up(alloc: Global, design: &Design, paper: &Paper) -> Result<Cloth, OutOfMemory>
    requires fits { Fits design.now }
    requires paper { IsPaperOf design.now paper.now }
    ensures { IfOk result (λ cloth. cloth ≡ lifted_of design.now AFace.Up paper.now) }
{
    loom_threads::laws::lifted_rows_are_the_drawdown();
    let _ = design.casting.hooks();
    let cloth = drawdown(alloc, design, paper)?;
    Ok(cloth)
}

fn lifted_face_down(alloc: Global, design: &Design, paper: &Paper) -> Result<Cloth, OutOfMemory>
    requires fits { Fits design.now }
    requires paper { IsPaperOf design.now paper.now }
    ensures { IfOk result (λ cloth. cloth ≡ lifted_of design.now AFace.Down paper.now) }
{
    loom_threads::laws::lifted_rows_are_the_drawdown();
    let _ = design.casting.hooks();
    let mut cloth = drawdown(alloc, design, paper)?;
    turn(alloc, &mut cloth)?;
    Ok(cloth)
}

// Turns each cell the other way round, as the other side of the cloth shows it.
fn turn(alloc: Global, cloth: &mut Cloth) -> Result<(), OutOfMemory>
    ensures { OnOk result (cloth.new ≡ turned cloth.old) }
{
    for pick in 0..cloth.picks() {
        let mut row = cloth.row(pick).copy()?;
        row.negate();
        cloth.set_row(pick, &row);
    }
    Ok(())
}
