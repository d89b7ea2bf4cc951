//! What a pass knows of the caches.
ghost use Rattle.renderer.specs.Keeping.{CachesAreKept};
ghost use Rattle.renderer.specs.Passes.{IsPassOfRenderer};

use crate::passes::RenderPass;
use crate::renderer::Renderer;

impl Renderer {
    /// What the pass has seen of each shard is legal: the unpinned cost is within the budget, and no key is filled twice without an
    /// eviction between. It does nothing: its contract is the law.
    pub fn proof_kept(&self, pass: &RenderPass)
        requires { IsPassOfRenderer self.now pass.now }
        ensures { CachesAreKept self.now pass.now }
    {
        self.caches.proof_legal(&pass.caches);
    }
}
