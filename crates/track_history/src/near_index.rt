//! The spans of all live events, so that what matters at an instant is found without a walk over all of them.

ghost use Rattle.std.specs.Prelude.{◌≡◌, ◌≢◌, ◌+◌, ◌<◌, ◌≤◌, [], ◌∷◌, ◌++◌, All, IfOk, OnOk, OnErr, length, take, drop, slice_index_or};
ghost use Rattle.ass_events.specs.Histories.{Pairwise};
ghost use Rattle.ass_events.specs.NearEvents.{AreNear};
ghost use Rattle.near_events.specs.Spans.{StandsBefore, span_at};
ghost use Rattle.track_history.specs.Blocks.{IsNearIndex, IsInserted, spans_of};
ghost use Rattle.near_events.specs.Walks.{first_walk, walk_of, walked_spans};

use crate::blocks::Block;
use ass_num::Mem;
use near_events::{EventSpan, Walk, sort_in_time};
use std::alloc::Global;

/// Spans by layer, then start, then ReadOrder, in blocks of some hundred.
#[derive(Drop)]
pub struct NearIndex {
    pub blocks: Vec<Block>,
}

impl NearIndex {
    /// An index without spans.
    pub fn new(alloc: Global) -> NearIndex
        ensures { result.blocks.items ≡ [] }
    {
        NearIndex {
            blocks: Vec::new(alloc),
        }
    }

    /// Drops all spans.
    pub fn clear(&mut self)
        ensures { self.new.blocks.items ≡ [] }
    {
        self.blocks.clear();
    }

    /// Puts in a span whose ReadOrder no other has. Where memory runs out, the spans stay as they are.
    pub fn insert(&mut self, alloc: Global, span: EventSpan) -> Mem<()>
        requires index { IsNearIndex self.old.blocks.items }
        requires new { All (λ s. s.order ≢ span.order) (spans_of self.old.blocks.items) }
        ensures index { IsNearIndex self.new.blocks.items }
        ensures ok { OnOk result (IsInserted (spans_of self.old.blocks.items) span (spans_of self.new.blocks.items)) }
        ensures err { OnErr result (spans_of self.new.blocks.items ≡ spans_of self.old.blocks.items) }
    {
        if self.blocks.is_empty() {
            let block = Block::of_one(alloc, span)?;
            self.blocks.push(block)?;
            return Ok(());
        }
        let at = self.block_of(&span);
        if !self.blocks[at].is_full() {
            return self.insert_into(at, span);
        }
        self.split(alloc, at)?;
        let at = self.block_of(&span);
        self.insert_into(at, span)
    }

    /// The block in which the span has its place.
    fn block_of(&self, span: &EventSpan) -> usize
        requires index { IsNearIndex self.now.blocks.items }
        requires some { 0 < length self.now.blocks.items }
        requires new { All (λ s. s.order ≢ span.now.order) (spans_of self.now.blocks.items) }
        ensures within { result < length self.now.blocks.items }
        ensures before { All (λ s. StandsBefore s span.now) (spans_of (take result self.now.blocks.items)) }
        ensures behind { All (λ s. StandsBefore span.now s) (spans_of (drop (result + 1) self.now.blocks.items)) }
    {
        let mut low = 0;
        let mut high = self.blocks.len();
        'search: while high - low > 1 {
            let middle = low + (high - low) / 2;
            if self.blocks[middle].spans[0].is_before(span) {
                low = middle;
            } else {
                high = middle;
            }
        }
        low
    }

    /// Splits a block in two. The last one keeps all but one of its spans, since most events come in order.
    fn split(&mut self, alloc: Global, at: usize) -> Mem<()>
        requires index { IsNearIndex self.old.blocks.items }
        requires within { at < length self.old.blocks.items }
        ensures index { IsNearIndex self.new.blocks.items }
        ensures spans { spans_of self.new.blocks.items ≡ spans_of self.old.blocks.items }
        ensures some { 0 < length self.new.blocks.items }
    {
        let count = self.blocks[at].spans.len();
        let cut = if at + 1 == self.blocks.len() {
            count - 1
        } else {
            count / 2
        };
        if cut == 0 {
            return Ok(());
        }
        let tail = self.blocks[at].tail(alloc, cut)?;
        self.blocks.insert(at + 1, tail)?;
        self.blocks[at].cut(cut);
        Ok(())
    }

    /// Puts the span into the block in which it has its place.
    fn insert_into(&mut self, at: usize, span: EventSpan) -> Mem<()>
        requires index { IsNearIndex self.old.blocks.items }
        requires new { All (λ s. s.order ≢ span.order) (spans_of self.old.blocks.items) }
        requires within { at < length self.old.blocks.items }
        requires before { All (λ s. StandsBefore s span) (spans_of (take at self.old.blocks.items)) }
        requires behind { All (λ s. StandsBefore span s) (spans_of (drop (at + 1) self.old.blocks.items)) }
        ensures index { IsNearIndex self.new.blocks.items }
        ensures ok { OnOk result (IsInserted (spans_of self.old.blocks.items) span (spans_of self.new.blocks.items)) }
        ensures err { OnErr result (spans_of self.new.blocks.items ≡ spans_of self.old.blocks.items) }
    {
        let count = self.blocks[at].count_before(&span);
        self.blocks[at].insert(count, span)
    }

    /// Finds what matters at an instant: a walk over the blocks that may have some of it, the last one first.
    fn walk(&self, alloc: Global, t: i64) -> Mem<Walk>
        requires { IsNearIndex self.now.blocks.items }
        ensures { IfOk result (λ walk. walk_of walk ≡ walked_spans t (first_walk t) (spans_of self.now.blocks.items)) }
    {
        let mut walk = Walk::new(alloc, t);
        let mut rest = self.blocks.len();
        'down: while rest > 0 {
            rest -= 1;
            let block = &self.blocks[rest];
            if block.first <= t && walk.least < block.last {
                walk.go_over(t, block.spans.as_slice())?;
            }
        }
        Ok(walk)
    }

    /// The spans that matter at an instant, by start and then ReadOrder.
    pub fn near(&self, alloc: Global, t: i64) -> Mem<Vec<EventSpan>>
        requires { IsNearIndex self.now.blocks.items }
        ensures near { IfOk result (λ near. AreNear span_at (spans_of self.now.blocks.items) t near.items) }
        ensures orders { IfOk result (λ near. Pairwise (λ a b. a.order ≢ b.order) near.items) }
    {
        let Walk {
            mut found,
            layer: _,
            least: _,
        } = self.walk(alloc, t)?;
        sort_in_time(&mut found);
        Ok(found)
    }
}
