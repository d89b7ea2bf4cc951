//! What is shown, from one instant to the next.

ghost use Rattle.std.specs.Prelude.{◌≡◌, [], IfOk, OnOk, string_bytes};
ghost use Rattle.ass_num.specs.Limits.{IsFrameSize};
ghost use Rattle.blend.specs.Canvases.{black};
ghost use Rattle.mask_keys.specs.Keys.{IsValidPlan};
ghost use Rattle.mask_keys.specs.Outlines.{glyph_counts};
ghost use Rattle.mask_keys.specs.Pictures.{picture};
ghost use Rattle.single_run.specs.ChangeReports.{IsChangeFound, IsChangeLine};

use crate::change_lines::change_line;
use ass_num::{Items, Mem, Size};
use blend::Canvas;
use frame_change::{ChangeKind, Changed, change, changed_box};
use local_caches::LocalCaches;
use mask_keys::Plan;
use std::alloc::Global;

/// Draws, and the picture that they make.
#[derive(Drop)]
pub struct Screen {
    pub plan: Plan,
    pub canvas: Canvas,
}

/// A screen without draws, which is black.
pub fn blank(alloc: Global, size: &Size) -> Mem<Screen>
    requires { IsFrameSize size.now }
    ensures draws { IfOk result (λ screen. screen.plan.draws ≡ []) }
    ensures picture { IfOk result (λ screen. screen.canvas ≡ black size.now.w size.now.h) }
{
    Ok(Screen {
        plan: Plan {
            draws: Items::new(alloc),
        },
        canvas: Canvas::new(alloc, size)?,
    })
}

/// The picture of a plan.
#[tactic(auto, using(crate::proofs::ChangePictures::painted))]
fn painted(alloc: Global, local: &mut LocalCaches, plan: &Plan, size: &Size) -> Mem<Canvas>
    requires size { IsFrameSize size.now }
    requires plan { IsValidPlan (glyph_counts local.old.fonts) plan.now.draws }
    ensures picture { IfOk result (λ canvas. canvas ≡ picture local.old.fonts size.now plan.now.draws) }
    ensures fonts { local.new.fonts ≡ local.old.fonts }
{
    let mut canvas = Canvas::new(alloc, size)?;
    local.paint(alloc, plan, &mut canvas)?;
    Ok(canvas)
}

/// How draws differ from those before, and the least box of the pixels that do.
#[derive(Clone, Copy, Debug)]
pub struct ScreenChange {
    pub kind: ChangeKind,
    pub part: Option<Changed>,
}

/// Shows a plan, and finds what changed by that.
#[tactic(auto, using(crate::proofs::LineLemmas::changed_found, crate::proofs::LineLemmas::unchanged_found, crate::proofs::ChangePictures::picture_bytes))]
pub fn find_change(
    alloc: Global,
    local: &mut LocalCaches,
    size: &Size,
    plan: Plan,
    screen: &mut Screen,
) -> Mem<ScreenChange>
    requires size { IsFrameSize size.now }
    requires plan { IsValidPlan (glyph_counts local.old.fonts) plan.draws }
    requires screen { screen.old.canvas ≡ picture local.old.fonts size.now screen.old.plan.draws }
    ensures fonts { local.new.fonts ≡ local.old.fonts }
    ensures draws { OnOk result (screen.new.plan.draws ≡ plan.draws) }
    ensures picture { OnOk result (screen.new.canvas ≡ picture local.old.fonts size.now screen.new.plan.draws) }
    ensures change { IfOk result (λ change. IsChangeFound local.old.fonts size.now screen.old.plan.draws plan.draws change) }
{
    let kind = change(&screen.plan, &plan);
    if kind == ChangeKind::Same {
        return Ok(ScreenChange { kind, part: None });
    }
    let canvas = painted(alloc, local, &plan, size)?;
    let part = changed_box(size, screen.canvas.pixels(), canvas.pixels());
    *screen = Screen { plan, canvas };
    Ok(ScreenChange { kind, part })
}

/// Shows a plan from the instant `t` on, and tells in a line what changed by that.
#[tactic(auto, using(crate::proofs::LineLemmas::found_line))]
pub fn show(
    alloc: Global,
    local: &mut LocalCaches,
    size: &Size,
    t: u64,
    plan: Plan,
    screen: &mut Screen,
) -> Mem<String>
    requires size { IsFrameSize size.now }
    requires plan { IsValidPlan (glyph_counts local.old.fonts) plan.draws }
    requires screen { screen.old.canvas ≡ picture local.old.fonts size.now screen.old.plan.draws }
    ensures fonts { local.new.fonts ≡ local.old.fonts }
    ensures draws { OnOk result (screen.new.plan.draws ≡ plan.draws) }
    ensures picture { OnOk result (screen.new.canvas ≡ picture local.old.fonts size.now screen.new.plan.draws) }
    ensures line { IfOk result (λ line. IsChangeLine local.old.fonts size.now t screen.old.plan.draws plan.draws (string_bytes line)) }
{
    let change = find_change(alloc, local, size, plan, screen)?;
    change_line(alloc, t, change.kind, change.part)
}
