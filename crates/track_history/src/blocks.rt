//! Blocks of spans.

ghost use Rattle.std.specs.Prelude.{◌≡◌, ◌≢◌, ◌<◌, ◌≤◌, ◌≤ℤ◌, ◌∷◌, [], ◌++◌, All, IfOk, OnOk, OnErr, length, nat_le, take, drop, slice_index_or};
ghost use Rattle.std.specs.List.{insert};
ghost use Rattle.ass_events.specs.Histories.{Pairwise};
ghost use Rattle.near_events.specs.Spans.{StandsBefore};
ghost use Rattle.track_history.specs.Blocks.{IsSpanBlock, most_spans};

use ass_num::Mem;
use near_events::EventSpan;
use std::alloc::Global;

/// The most spans of a block.
const MOST: usize = 512;

/// Some spans in order. None begins before `first` or ends after `last`.
#[derive(Drop)]
pub struct Block {
    pub spans: Vec<EventSpan>,
    pub first: i64,
    pub last: i64,
}

impl Block {
    /// The block of one span.
    pub fn of_one(alloc: Global, span: EventSpan) -> Mem<Block>
        ensures block { IfOk result IsSpanBlock }
        ensures spans { IfOk result (λ block. block.spans.items ≡ span ∷ []) }
    {
        let mut spans = Vec::new(alloc);
        spans.push(span)?;
        Ok(Block {
            spans,
            first: span.start,
            last: span.end,
        })
    }

    /// The block of these spans.
    pub fn of_all(spans: Vec<EventSpan>) -> Block
        requires { 0 < length spans.items }
        ensures block { IsSpanBlock result }
        ensures spans { result.spans.items ≡ spans.items }
    {
        let (first, last) = bounds_of(spans.as_slice());
        Block { spans, first, last }
    }

    /// Whether the block takes no further span.
    pub fn is_full(&self) -> bool
        ensures { result ≡ nat_le most_spans (length self.now.spans.items) }
    {
        self.spans.len() >= MOST
    }

    /// How many of the spans stand before this one.
    pub fn count_before(&self, span: &EventSpan) -> usize
        requires sorted { Pairwise StandsBefore self.now.spans.items }
        requires new { All (λ s. s.order ≢ span.now.order) self.now.spans.items }
        ensures within { result ≤ length self.now.spans.items }
        ensures before { All (λ s. StandsBefore s span.now) (take result self.now.spans.items) }
        ensures behind { All (λ s. StandsBefore span.now s) (drop result self.now.spans.items) }
    {
        let mut low = 0;
        let mut high = self.spans.len();
        'search: while low < high {
            let middle = low + (high - low) / 2;
            if self.spans[middle].is_before(span) {
                low = middle + 1;
            } else {
                high = middle;
            }
        }
        low
    }

    /// Inserts the span at this place.
    pub fn insert(&mut self, at: usize, span: EventSpan) -> Mem<()>
        requires block { IsSpanBlock self.old }
        requires within { at ≤ length self.old.spans.items }
        ensures block { IsSpanBlock self.new }
        ensures ok { OnOk result (self.new.spans.items ≡ insert self.old.spans.items at span) }
        ensures err { OnErr result (self.new.spans.items ≡ self.old.spans.items) }
    {
        self.spans.insert(at, span)?;
        self.first = self.first.min(span.start);
        self.last = self.last.max(span.end);
        Ok(())
    }

    /// A copy of the spans from this place on, as a block.
    pub fn tail(&self, alloc: Global, at: usize) -> Mem<Block>
        requires { at < length self.now.spans.items }
        ensures block { IfOk result IsSpanBlock }
        ensures spans { IfOk result (λ block. block.spans.items ≡ drop at self.now.spans.items) }
    {
        let mut spans = Vec::with_capacity(alloc, MOST)?;
        spans.extend_from_slice(&self.spans[at..])?;
        Ok(Block::of_all(spans))
    }

    /// Drops the spans from this place on.
    pub fn cut(&mut self, at: usize)
        requires block { IsSpanBlock self.old }
        requires some { 0 < at }
        ensures block { IsSpanBlock self.new }
        ensures spans { self.new.spans.items ≡ take at self.old.spans.items }
    {
        self.spans.truncate(at);
        let (first, last) = bounds_of(self.spans.as_slice());
        self.first = first;
        self.last = last;
    }
}

/// The earliest start and the latest end of some spans.
fn bounds_of(spans: &[EventSpan]) -> (i64, i64)
    requires { 0 < length spans.now }
    ensures first { All (λ s. result.0 ≤ℤ s.start) spans.now }
    ensures last { All (λ s. s.end ≤ℤ result.1) spans.now }
{
    let mut first = spans[0].start;
    let mut last = spans[0].end;
    'all: for span in spans {
        let wider = wider(first, last, *span);
        first = wider.0;
        last = wider.1;
    }
    (first, last)
}

/// The earliest start and the latest end with one span more.
fn wider(first: i64, last: i64, span: EventSpan) -> (i64, i64)
    ensures first { result.0 ≤ℤ first × result.0 ≤ℤ span.start }
    ensures last { last ≤ℤ result.1 × span.end ≤ℤ result.1 }
{
    (first.min(span.start), last.max(span.end))
}
