//! Images of one colour each, copied into the caller's arrays.

ghost use Rattle.std.specs.Prelude.{◌≡◌, ◌≤◌, ◌+◌, ◌++◌, length, take, flat_map};
ghost use Rattle.ass_num.specs.Limits.{IsWithin, max_instant};
ghost use Rattle.frame_view.specs.FrameViews.{IsFrameView, plain_frame};
ghost use Rattle.plain_images.specs.declared.plain.PlainImage.{PlainImage};
ghost use Rattle.player.specs.Players.{mask_bytes};
ghost use Rattle.vimalorua_c.specs.Calls as rule;
ghost use Rattle.vimalorua_c.specs.Calls.{AreCopied, AreImagesCopied, AreImagesTold, IsBadView, IsBeyond, IsCall, IsGoodCall};
ghost use Rattle.vimalorua_c.specs.Views.{view_numbered};

use crate::handle::Handle;
use crate::ranges::may_be_shown;
use crate::status::{BAD_CALL, CLOSED, DONE, NO_FONT, OUT_OF_MEMORY, change_number};
use crate::taking::{put_back, take};
use crate::views::{ViewNumbers, may_be_seen, view_numbered};
use ass_num::Size;
use frame_view::FrameView;
use plain_images::PlainImage;
use player::Player;
use std::alloc::Global;

/// An image as numbers: its box in the frame, its colour, a 0 where C would leave a gap, and where its bytes begin among those
/// of all masks.
#[repr(C)]
#[derive(Clone, Copy)]
pub struct ImageNumbers {
    pub x: i32,
    pub y: i32,
    pub w: u32,
    pub h: u32,
    pub r: u8,
    pub g: u8,
    pub b: u8,
    pub a: u8,
    pub unused: u32,
    pub at: usize,
}

/// The numbers of an image whose bytes begin at a place.
fn numbers_of(image: &PlainImage, at: usize) -> ImageNumbers
    ensures { result ≡ rule.image_numbers image.now at }
{
    ImageNumbers {
        x: image.mask.x(),
        y: image.mask.y(),
        w: image.mask.w(),
        h: image.mask.h(),
        r: image.colour.r,
        g: image.colour.g,
        b: image.colour.b,
        a: image.colour.a,
        unused: 0,
        at,
    }
}

/// Puts bytes among others from a place on, and tells the place behind them.
fn put_bytes(masks: &mut [u8], at: usize, bytes: &[u8]) -> usize
    requires { at + length bytes.now ≤ length masks.old }
    ensures next { result ≡ at + length bytes.now }
    ensures count { length masks.new ≡ length masks.old }
    ensures front { take result masks.new ≡ take at masks.old ++ bytes.now }
{
    let next = at + bytes.len();
    masks[at..next].copy_from_slice(bytes);
    next
}

/// Copies images into arrays that have just room for them.
fn copy_images(images: &[PlainImage], numbers: &mut [ImageNumbers], masks: &mut [u8])
    requires count { length numbers.old ≡ length images.now }
    requires bytes { length masks.old ≡ mask_bytes images.now }
    ensures numbers { numbers.new ≡ rule.all_numbers images.now 0 }
    ensures masks { masks.new ≡ flat_map (λ (image : PlainImage). image.mask.bytes) images.now }
{
    let mut at = 0;
    for (i, image) in images.iter().enumerate() {
        numbers[i] = numbers_of(image, at);
        at = put_bytes(masks, at, image.mask.bytes());
    }
}

/// Copies images whose masks have so many bytes into arrays, where these have just room for them.
pub(crate) fn copy_listed(
    listed: &[PlainImage],
    bytes: usize,
    images: &mut [ImageNumbers],
    masks: &mut [u8],
) -> i32
    requires { bytes ≡ mask_bytes listed.now }
    ensures { AreCopied listed.now images.old images.new masks.old masks.new result }
{
    if images.len() == listed.len() && masks.len() == bytes {
        copy_images(listed, images, masks);
        DONE
    } else {
        BAD_CALL
    }
}

/// Lists what is shown at an instant, and tells how the list differs from the one before.
fn listed(alloc: Global, player: &mut Player, at: i64, frame: &FrameView, change: &mut i32) -> i32
    requires instant { IsWithin max_instant at }
    requires frame { IsFrameView frame.now }
    ensures { AreImagesTold at frame.now result change.old change.new (length player.new.images) (mask_bytes player.new.images) player.old player.new }
{
    if player.font_count() == 0 {
        return NO_FONT;
    }
    match player.images_in(alloc, at, frame) {
        Ok(kind) => {
            *change = change_number(kind);
            DONE
        }
        Err(_) => OUT_OF_MEMORY,
    }
}

/// Lists what is shown at an instant in a frame, and tells of the list.
fn list_behind(
    alloc: Global,
    handle: &mut Handle,
    at: i64,
    frame: &FrameView,
    change: &mut i32,
    count: &mut usize,
    bytes: &mut usize,
) -> i32
    requires instant { IsWithin max_instant at }
    requires frame { IsFrameView frame.now }
    ensures { IsGoodCall ((change.new ≡ change.old) × (count.new ≡ count.old) × (bytes.new ≡ bytes.old))
        (AreImagesTold at frame.now result change.old change.new count.new bytes.new) result handle.old.value handle.new.value }
{
    let Ok(kept) = take(alloc, handle) else {
        return OUT_OF_MEMORY;
    };
    let mut kept = kept;
    let status = match &mut kept.player {
        Some(player) => {
            let status = listed(alloc, player, at, frame, change);
            *count = player.listed_images().len();
            *bytes = player.listed_bytes();
            status
        }
        None => CLOSED,
    };
    put_back(handle, kept);
    status
}

/// Lists what is shown at an instant as images of one colour each, and tells how the list differs from the one before, how many
/// images it has and how many bytes their masks have together.
#[unsafe(no_mangle)]
pub extern "C" fn vimalorua_images(
    alloc: Global,
    handle: &mut Handle,
    at: i64,
    w: u32,
    h: u32,
    change: &mut i32,
    count: &mut usize,
    bytes: &mut usize,
) -> i32
    ensures { IsCall (IsBeyond at (record { w = w; h = h })) ((change.new ≡ change.old) × (count.new ≡ count.old) × (bytes.new ≡ bytes.old))
        (AreImagesTold at (plain_frame (record { w = w; h = h })) result change.old change.new count.new bytes.new) result handle.old.value handle.new.value }
{
    let size = Size { w, h };
    if !may_be_shown(at, &size) {
        return BAD_CALL;
    }
    list_behind(
        alloc,
        handle,
        at,
        &FrameView::plain(size),
        change,
        count,
        bytes,
    )
}

/// The same in a frame as the script sees it. c/vimalorua.c makes the numbers whole.
#[unsafe(no_mangle)]
pub extern "C" fn vimalorua_images_by_numbers(
    alloc: Global,
    handle: &mut Handle,
    at: i64,
    numbers: &ViewNumbers,
    change: &mut i32,
    count: &mut usize,
    bytes: &mut usize,
) -> i32
    ensures { IsCall (IsBadView at numbers.now) ((change.new ≡ change.old) × (count.new ≡ count.old) × (bytes.new ≡ bytes.old))
        (AreImagesTold at (view_numbered numbers.now) result change.old change.new count.new bytes.new) result handle.old.value handle.new.value }
{
    if !may_be_seen(at, numbers) {
        return BAD_CALL;
    }
    list_behind(
        alloc,
        handle,
        at,
        &view_numbered(numbers),
        change,
        count,
        bytes,
    )
}

/// Copies the images that were listed last, in order, and the bytes of their masks one after the other, into arrays of just these
/// lengths.
#[unsafe(no_mangle)]
pub extern "C" fn vimalorua_copy_images_proved(
    alloc: Global,
    handle: &mut Handle,
    images: &mut [ImageNumbers],
    masks: &mut [u8],
) -> i32
    ensures { IsCall ⊥ ((images.new ≡ images.old) × (masks.new ≡ masks.old)) (AreImagesCopied images.old images.new masks.old masks.new result) result
        handle.old.value handle.new.value }
{
    let Ok(kept) = take(alloc, handle) else {
        return OUT_OF_MEMORY;
    };
    let status = match &kept.player {
        Some(player) => copy_listed(player.listed_images(), player.listed_bytes(), images, masks),
        None => CLOSED,
    };
    put_back(handle, kept);
    status
}
