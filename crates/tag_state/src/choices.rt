//! What the tags of a text say of the whole event.

ghost use Rattle.std.specs.Prelude.{◌≡◌, ◌≤◌, pos, true, false, [], ◌∷◌, ◌++◌, List, map, reverse, unwrap_or, All, IfOk, IfSome, OnOk};
ghost use Rattle.std.specs.Int.RustNames.{unsigned_abs};
ghost use Rattle.std.specs.Option.{option_map, option_or};
ghost use Rattle.ass_num.specs.Limits.{one_16};
ghost use Rattle.event_instants.specs.Instants.{transform_weight as rule_weight};
ghost use Rattle.override_tags.specs.Ranges.{IsHeldItem, IsHeldTag};
ghost use Rattle.override_tags.specs.Singles.{is_wrap_style, whole as rule_whole};
ghost use Rattle.override_tags.specs.declared.item.Item.{Item};
ghost use Rattle.override_tags.specs.declared.item.ItemKind.TheVariants as item;
ghost use Rattle.tag_state.specs.Setters.{Effect, Gradual, effects_of_tag};
ghost use Rattle.tag_state.specs.Steps.{wrap_said, wrap_step, clip_step, IsNoClip};
ghost use Rattle.tag_state.specs.Choices as rule;

use ass_num::{Mem, Milli};
use ass_script::Header;
use event_instants::{fad_at, fade_at, move_at, moved, transform_weight};
use override_tags::{ClipTag, GradualTag, Item, ItemKind, Num, Tag, whole};
use std::alloc::Global;

/// The alignment that a tag says.
fn align_said(tag: &Tag) -> Option<u8>
    ensures { result ≡ rule.align_said tag.now }
{
    match tag {
        Tag::Align(key) => Some(*key),
        _ => None,
    }
}

/// The alignment that was said before, or else that of a tag.
fn first_align(before: Option<u8>, tag: &Tag) -> Option<u8>
    ensures { result ≡ option_or before (rule.align_said tag.now) }
{
    match before {
        Some(key) => Some(key),
        None => align_said(tag),
    }
}

/// The point that a tag says.
fn point_said(tag: &Tag, duration: i64, elapsed: i64) -> Option<(Milli, Milli)>
    ensures { result ≡ rule.point_said duration elapsed tag.now }
{
    match tag {
        Tag::Pos(x, y) => Some((*x, *y)),
        Tag::Move(path, t1, t2) => Some(move_at(path, *t1, *t2, duration, elapsed)),
        _ => None,
    }
}

/// The point that was said before, or else that of a tag.
fn first_point(
    before: Option<(Milli, Milli)>,
    tag: &Tag,
    duration: i64,
    elapsed: i64,
) -> Option<(Milli, Milli)>
    ensures { result ≡ option_or before (rule.point_said duration elapsed tag.now) }
{
    match before {
        Some(point) => Some(point),
        None => point_said(tag, duration, elapsed),
    }
}

/// Whether an item is a `\pos` or a `\move`.
fn is_point(kind: &ItemKind) -> bool
    ensures { result ≡ rule.is_point kind.now }
{
    match kind {
        ItemKind::Tag(Tag::Pos(_, _)) => true,
        ItemKind::Tag(Tag::Move(_, _, _)) => true,
        _ => false,
    }
}

/// Whether the items of a text say a point.
pub fn has_point(items: &[Item]) -> bool
    ensures { result ≡ rule.has_point items.now }
{
    items.iter().any(|item| is_point(&item.kind))
}

/// The origin that a tag says.
fn origin_said(tag: &Tag) -> Option<(Milli, Milli)>
    ensures { result ≡ rule.origin_said tag.now }
{
    match tag {
        Tag::Org(x, y) => Some((*x, *y)),
        _ => None,
    }
}

/// The origin that was said before, or else that of a tag.
fn first_origin(before: Option<(Milli, Milli)>, tag: &Tag) -> Option<(Milli, Milli)>
    ensures { result ≡ option_or before (rule.origin_said tag.now) }
{
    match before {
        Some(point) => Some(point),
        None => origin_said(tag),
    }
}

/// The fade that a tag says.
fn fade_said(tag: &Tag, duration: i64, elapsed: i64) -> Option<u8>
    ensures { option_map (λ fade. pos fade) result ≡ rule.fade_said duration elapsed tag.now }
{
    match tag {
        Tag::Fad(fade_in, fade_out) => Some(fad_at(*fade_in, *fade_out, duration, elapsed)),
        Tag::Fade(numbers) => Some(fade_at(numbers, elapsed)),
        _ => None,
    }
}

/// The fade that was said before, or else that of a tag.
fn first_fade(before: Option<u8>, tag: &Tag, duration: i64, elapsed: i64) -> Option<u8>
    ensures { option_map (λ fade. pos fade) result ≡ option_or (option_map (λ fade. pos fade) before) (rule.fade_said duration elapsed tag.now) }
{
    match before {
        Some(fade) => Some(fade),
        None => fade_said(tag, duration, elapsed),
    }
}

/// The wrap style that a tag sets, or restores where it has none.
fn wrap_said(tag: &Tag) -> Option<Option<Milli>>
    ensures { result ≡ wrap_said tag.now }
{
    match tag {
        Tag::Number(Num::Wrap, value) => Some(*value),
        _ => None,
    }
}

/// A wrap style that is set, or else the script's.
fn wrap_by(value: Option<Milli>, scripted: u8) -> u8
    requires { IfSome value (λ v. is_wrap_style v ≡ true) }
    ensures { result ≡ unwrap_or (option_map (λ v. unsigned_abs (rule_whole v)) value) scripted }
{
    match value {
        Some(value) => whole(value) as u8,
        None => scripted,
    }
}

/// The wrap style of a tag, or else the one before.
fn last_wrap(before: u8, tag: &Tag, scripted: u8) -> u8
    requires { IsHeldTag tag.now }
    ensures { result ≡ wrap_step (wrap_said tag.now) scripted before }
{
    match wrap_said(tag) {
        Some(value) => wrap_by(value, scripted),
        None => before,
    }
}

/// The rectangle from which a clip moves: the one in force, or else the whole canvas.
fn corners_from(header: &Header, clip: &Option<ClipTag>) -> [Milli; 4]
    ensures { result ≡ rule.corners_from header.now clip.now }
{
    match clip {
        Some(ClipTag::Rect(corners, _)) => *corners,
        _ => [
            0,
            0,
            1_000 * i64::from(header.res_x),
            1_000 * i64::from(header.res_y),
        ],
    }
}

/// A rectangle that a weight moves.
fn corners_moved(old: &[Milli; 4], new: &[Milli; 4], weight: u32) -> [Milli; 4]
    requires { weight ≤ one_16 }
    ensures { result ≡ rule.corners_moved old.now new.now weight }
{
    [
        moved(old[0], new[0], weight),
        moved(old[1], new[1], weight),
        moved(old[2], new[2], weight),
        moved(old[3], new[3], weight),
    ]
}

/// The clip behind a tag of a transform of a weight.
fn moved_clip(
    header: &Header,
    clip: Option<ClipTag>,
    tag: GradualTag,
    weight: u32,
) -> Option<ClipTag>
    requires { weight ≤ one_16 }
    ensures { result ≡ clip_step header.now weight tag clip }
{
    match tag {
        GradualTag::Clip(corners, inverse) => {
            let from = corners_from(header, &clip);
            Some(ClipTag::Rect(corners_moved(&from, &corners, weight), inverse))
        }
        _ => clip,
    }
}

/// The clip behind a transform of a weight.
fn transformed(
    header: &Header,
    clip: Option<ClipTag>,
    tags: &[GradualTag],
    weight: u32,
) -> Option<ClipTag>
    requires { weight ≤ one_16 }
    ensures { (before : List Effect) → clip ≡ rule.clip_at header.now before
        → result ≡ rule.clip_at header.now (reverse (map (Gradual weight) tags.now) ++ before) }
{
    let mut clip = clip;
    for tag in tags {
        clip = moved_clip(header, clip, *tag, weight);
    }
    clip
}

/// Whether a tag of a transform is a clip.
fn is_clip(tag: &GradualTag) -> bool
    ensures { result ≡ false → IsNoClip tag.now }
{
    match tag {
        GradualTag::Clip(_, _) => true,
        _ => false,
    }
}

/// Whether a tag of a transform is a clip. Without one its weight isn't needed for the clip.
fn has_clip(tags: &[GradualTag]) -> bool
    ensures { result ≡ false → All IsNoClip tags.now }
{
    for tag in tags {
        if is_clip(tag) {
            return true;
        }
    }
    false
}

/// A copy of a clip.
#[tactic(auto, using(crate::proofs::Copies::clip_tag_same))]
fn clip_copy(alloc: Global, clip: &ClipTag) -> Mem<ClipTag>
    ensures { IfOk result (λ copy. copy ≡ clip.now) }
{
    Ok(clip.clone()?)
}

/// Sets the clip behind a transform.
#[inline]
fn transform_clip(
    clip: &mut Option<ClipTag>,
    header: &Header,
    times: Option<(i64, i64)>,
    quarters: u32,
    tags: &[GradualTag],
    duration: i64,
    elapsed: i64,
)
    requires slow { 1 ≤ quarters }
    requires fast { quarters ≤ 32 }
    ensures { (before : List Effect) → clip.old ≡ rule.clip_at header.now before
        → clip.new ≡ rule.clip_at header.now (reverse (map (Gradual (rule_weight times duration quarters elapsed)) tags.now) ++ before) }
{
    if has_clip(tags) {
        let weight = transform_weight(times, duration, quarters, elapsed);
        *clip = transformed(header, clip.take(), tags, weight);
    }
}

/// Sets the clip behind a tag.
#[inline]
fn set_clip(
    alloc: Global,
    clip: &mut Option<ClipTag>,
    header: &Header,
    tag: &Tag,
    duration: i64,
    elapsed: i64,
) -> Mem<()>
    requires { IsHeldTag tag.now }
    ensures { (before : List Effect) → clip.old ≡ rule.clip_at header.now before
        → OnOk result (clip.new ≡ rule.clip_at header.now (reverse (effects_of_tag duration elapsed tag.now) ++ before)) }
{
    match tag {
        Tag::Clip(new) => {
            *clip = Some(clip_copy(alloc, new)?);
            Ok(())
        }
        Tag::Transform(times, quarters, tags) => {
            transform_clip(
                clip,
                header,
                *times,
                *quarters,
                tags.as_slice(),
                duration,
                elapsed,
            );
            Ok(())
        }
        _other => Ok(()),
    }
}

/// What the tags of a text say of the whole event, where they say it.
#[derive(Drop)]
pub struct Said {
    /// The first alignment.
    pub align: Option<u8>,
    /// The point of the first position or movement.
    pub pos: Option<(Milli, Milli)>,
    /// The first origin of turning.
    pub org: Option<(Milli, Milli)>,
    /// The first fade.
    pub fade: Option<u8>,
    /// The last wrap style, or else the script's.
    pub wrap: u8,
    /// The last clip.
    pub clip: Option<ClipTag>,
}

impl Said {
    /// What no tag says.
    fn new(scripted: u8) -> Said
        ensures { result ≡ record { align = None; pos = None; org = None; fade = None; wrap = scripted; clip = None } }
    {
        Said {
            align: None,
            pos: None,
            org: None,
            fade: None,
            wrap: scripted,
            clip: None,
        }
    }

    /// Takes what one more tag says.
    #[inline]
    fn hear(
        &mut self,
        alloc: Global,
        header: &Header,
        tag: &Tag,
        duration: i64,
        elapsed: i64,
    ) -> Mem<()>
        requires { IsHeldTag tag.now }
        ensures { (items : List Item) (i : Item) → i.kind ≡ item.Tag tag.now → rule.IsSaid header.now duration elapsed items self.old
            → OnOk result (rule.IsSaid header.now duration elapsed (items ++ i ∷ []) self.new) }
    {
        self.align = first_align(self.align, tag);
        self.pos = first_point(self.pos, tag, duration, elapsed);
        self.org = first_origin(self.org, tag);
        self.fade = first_fade(self.fade, tag, duration, elapsed);
        self.wrap = last_wrap(self.wrap, tag, header.wrap);
        set_clip(alloc, &mut self.clip, header, tag, duration, elapsed)?;
        Ok(())
    }
}

/// What the tags of a text say of an event of a duration, when so much of it has passed.
pub fn said_of(
    alloc: Global,
    header: &Header,
    items: &[Item],
    duration: i64,
    elapsed: i64,
) -> Mem<Said>
    requires { All IsHeldItem items.now }
    ensures { IfOk result (rule.IsSaid header.now duration elapsed items.now) }
{
    let mut said = Said::new(header.wrap);
    for item in items {
        match &item.kind {
            ItemKind::Tag(tag) => said.hear(alloc, header, tag, duration, elapsed)?,
            _other => {}
        }
    }
    Ok(said)
}
