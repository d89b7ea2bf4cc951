//! A renderer that two threads share: one feeds it, while the other draws. What all of the events show is printed as rows of signs.

ghost use Rattle.std.specs.Prelude.{IfSome, IsSomeAnd};
ghost use Rattle.std.specs.Arc.{arc_value};
ghost use Rattle.ass_events.specs.Histories.{live};
ghost use Rattle.ass_num.specs.Limits.{IsFrameSize, IsWithin, max_instant};
ghost use Rattle.ass_script.specs.Ranges.{IsScript};
ghost use Rattle.frame_view.specs.FrameViews.{plain_frame};
ghost use Rattle.picture_plan.specs.Pictures.{IsPictureAt};
ghost use Rattle.text_layout.specs.Fonts.{IsLayoutFontSet};
ghost use Rattle.renderer.specs.Passes.{HoldsNothing, IsFirstPass, IsPassOfRenderer};
ghost use Rattle.track_history.specs.Calls.{history_of};

use crate::showing::{FONT, FRAME, show};
use ass_io::MAX_FILE_BYTES;
use ass_num::{Items, Size};
use ass_script::{Script, read_script};
use bdf_font::{FontSet, read_fonts};
use blend::Canvas;
use renderer::{RenderPass, Renderer, laws, paint};
use std::alloc::Global;
use std::io;
use std::sync::{Arc, Wait};
use std::thread::{Threads, join_mut};
use test_hook::NoHook;

const SCRIPT: &[u8] = b"[Script Info]
PlayResX: 13
PlayResY: 9
[Events]
";

/// Two events, as a stream of Matroska has them.
const CHUNKS: [&[u8]; 2] = [
    b"0,0,,,0,0,0,,{\\an7\\pos(1,1)\\fs7\\bord0\\shad0}H",
    b"1,0,,,0,0,0,,{\\an7\\pos(7,1)\\fs7\\bord0\\shad0}i",
];

/// The script.
fn script_of(alloc: Global) -> Option<Arc<Script>>
    ensures { IfSome result (λ script. IsScript (arc_value script)) }
{
    if SCRIPT.len() > MAX_FILE_BYTES {
        return None;
    }
    match read_script(alloc, SCRIPT) {
        Ok(script) => Arc::new(alloc, script).ok(),
        Err(_) => None,
    }
}

/// The fonts of the file, as a set.
fn fonts_of(alloc: Global) -> Option<Arc<FontSet>>
    ensures { IfSome result (λ set. IsLayoutFontSet (arc_value set).fonts) }
{
    if FONT.len() > MAX_FILE_BYTES {
        return None;
    }
    let Ok(bytes) = Vec::from_slice(alloc, FONT) else {
        return None;
    };
    match read_fonts(alloc, Items::from_vec(bytes)) {
        Ok(fonts) => Arc::new(alloc, FontSet { fonts }).ok(),
        Err(_) => None,
    }
}

/// A renderer of the script with the font, and its first pass.
fn opened(alloc: Global) -> Option<(Renderer, RenderPass)>
    ensures { IfSome result (λ r. IsPassOfRenderer r.0 r.1 × IsFirstPass r.1) }
{
    let Some(script) = script_of(alloc) else {
        return None;
    };
    match fonts_of(alloc) {
        Some(fonts) => Renderer::open(alloc, script, fonts, 1_000_000).ok(),
        None => None,
    }
}

/// Feeds a chunk, which is shown in the first second.
fn feed<R: Wait>(
    rt: &R,
    alloc: Global,
    renderer: &Renderer,
    pass: RenderPass,
    chunk: &[u8],
) -> RenderPass
    requires { IsPassOfRenderer renderer.now pass × HoldsNothing renderer.now pass }
    ensures { IsPassOfRenderer renderer.now result × HoldsNothing renderer.now result }
{
    if chunk.len() > MAX_FILE_BYTES {
        return pass;
    }
    let (pass, _answer) = renderer.feed(rt, alloc, pass, chunk, 0, 1_000);
    pass
}

/// Feeds all chunks with the pass in this place.
fn feed_all<R: Wait>(rt: &R, alloc: Global, renderer: &Renderer, place: &mut Option<RenderPass>)
    requires { IsSomeAnd place.old (λ pass. IsPassOfRenderer renderer.now pass × HoldsNothing renderer.now pass) }
    ensures { IsSomeAnd place.new (λ pass. IsPassOfRenderer renderer.now pass × HoldsNothing renderer.now pass) }
{
    let Some(mut pass) = place.take() else {
        unreachable!()
    };
    for chunk in CHUNKS {
        pass = feed(rt, alloc, renderer, pass, chunk);
    }
    let before = place.replace(pass);
    let None = before else { unreachable!() };
}

/// The picture of all that the pass has seen then. There is none where memory runs out.
fn draw<R: Wait>(
    rt: &R,
    alloc: Global,
    renderer: &Renderer,
    pass: RenderPass,
    t: i64,
    size: &Size,
) -> (RenderPass, Option<Canvas>)
    requires pass { IsPassOfRenderer renderer.now pass }
    requires first { IsFirstPass pass }
    requires instant { IsWithin max_instant t }
    requires size { IsFrameSize size.now }
    ensures pass { IsPassOfRenderer renderer.now result.0 }
    ensures first { IsFirstPass result.0 }
    ensures picture { IfSome result.1 (IsPictureAt renderer.now.script renderer.now.fonts (live (history_of result.0.track.seen)) t (plain_frame size.now)) }
{
    laws::frames_are_given_back();
    let (pass, frame) = renderer.frame(rt, alloc, pass, t, size, &NoHook);
    match frame {
        Ok(frame) => match paint(alloc, &frame) {
            Ok(canvas) => (renderer.release(rt, pass, frame), Some(canvas)),
            Err(_) => (renderer.release(rt, pass, frame), None),
        },
        Err(_) => (pass, None),
    }
}

/// Draws some pictures of what was fed so far, with the pass in this place.
fn draw_some<R: Wait>(rt: &R, alloc: Global, renderer: &Renderer, place: &mut Option<RenderPass>)
    requires { IsSomeAnd place.old (λ pass. IsPassOfRenderer renderer.now pass × IsFirstPass pass) }
    ensures { IsSomeAnd place.new (λ pass. IsPassOfRenderer renderer.now pass × IsFirstPass pass) }
{
    let Some(mut pass) = place.take() else {
        unreachable!()
    };
    for t in 0..10u8 {
        let (next, _canvas) = draw(rt, alloc, renderer, pass, i64::from(t), &FRAME);
        pass = next;
    }
    let before = place.replace(pass);
    let None = before else { unreachable!() };
}

/// Draws and feeds at once.
fn draw_and_feed<R: Threads + Wait + Sync>(
    rt: &R,
    alloc: Global,
    renderer: &Renderer,
    first: &mut Option<RenderPass>,
    second: &mut Option<RenderPass>,
)
    requires first { IsSomeAnd first.old (λ pass. IsPassOfRenderer renderer.now pass × IsFirstPass pass) }
    requires second { IsSomeAnd second.old (λ pass. IsPassOfRenderer renderer.now pass × HoldsNothing renderer.now pass) }
    ensures first { IsSomeAnd first.new (λ pass. IsPassOfRenderer renderer.now pass × IsFirstPass pass) }
    ensures second { IsSomeAnd second.new (λ pass. IsPassOfRenderer renderer.now pass × HoldsNothing renderer.now pass) }
{
    let mut drawing = ||
        requires { IsSomeAnd first.now (λ pass. IsPassOfRenderer renderer.now pass × IsFirstPass pass) }
        ensures { IsSomeAnd first.exit.now (λ pass. IsPassOfRenderer renderer.entry.now pass × IsFirstPass pass) }
    { draw_some(rt, alloc, renderer, first) };
    let mut feeding = ||
        requires { IsSomeAnd second.now (λ pass. IsPassOfRenderer renderer.now pass × HoldsNothing renderer.now pass) }
        ensures { IsSomeAnd second.exit.now (λ pass. IsPassOfRenderer renderer.entry.now pass × HoldsNothing renderer.entry.now pass) }
    { feed_all(rt, alloc, renderer, second) };
    join_mut(rt, &mut drawing, &mut feeding);
}

/// The picture of all events, which one thread feeds while the other draws, with the renderer's first pass.
fn picture_of_all<R: Threads + Wait + Sync>(
    rt: &R,
    alloc: Global,
    renderer: &Renderer,
    first: RenderPass,
) -> (RenderPass, Option<Canvas>)
    requires { IsPassOfRenderer renderer.now first × IsFirstPass first }
    ensures { IsPassOfRenderer renderer.now result.0 × IsFirstPass result.0 }
{
    let (first, second) = match renderer.split(first) {
        Ok(passes) => passes,
        Err(first) => return (first, None),
    };
    let mut first = Some(first);
    let mut second = Some(second);
    draw_and_feed(rt, alloc, renderer, &mut first, &mut second);
    let Some(first) = first else { unreachable!() };
    let Some(second) = second else { unreachable!() };
    let first = renderer.join(first, second);
    draw(rt, alloc, renderer, first, 500, &FRAME)
}

/// Prints the picture of all events.
pub fn run<R: Threads + Wait + Sync + Print>(rt: &R, alloc: Global) -> io::Result<()> {
    let Some((renderer, first)) = opened(alloc) else {
        return println!(rt; "no renderer");
    };
    let (first, canvas) = picture_of_all(rt, alloc, &renderer, first);
    renderer.close(first);
    match canvas {
        Some(canvas) => show(rt, alloc, canvas.pixels(), 3),
        None => println!(rt; "no picture"),
    }
}
