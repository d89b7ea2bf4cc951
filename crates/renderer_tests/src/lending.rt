//! Passes that are split off the first one, and joined to it again.

ghost use Rattle.std.specs.Prelude.{IfSome};
ghost use Rattle.renderer_tests.specs.Passes.{IsFirstOfRenderer, IsIdle};

use renderer::{RenderPass, Renderer};

/// A new pass.
pub fn lend(renderer: &Renderer, first: RenderPass) -> (RenderPass, Option<RenderPass>)
    requires { IsFirstOfRenderer renderer.now first }
    ensures first { IsFirstOfRenderer renderer.now result.0 }
    ensures lent { IfSome result.1 (IsIdle renderer.now) }
{
    match renderer.split(first) {
        Ok((first, new)) => (first, Some(new)),
        Err(first) => (first, None),
    }
}

/// Takes it in again.
pub fn take_back(renderer: &Renderer, first: RenderPass, lent: Option<RenderPass>) -> RenderPass
    requires first { IsFirstOfRenderer renderer.now first }
    requires lent { IfSome lent (IsIdle renderer.now) }
    ensures { IsFirstOfRenderer renderer.now result }
{
    match lent {
        Some(pass) => renderer.join(first, pass),
        None => first,
    }
}
