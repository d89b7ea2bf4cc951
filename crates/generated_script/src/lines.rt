//! Generated lines.

ghost use Rattle.std.specs.Prelude.{◌≡◌, ◌<◌, ◌≤◌, ◌^◌, IfOk, string_bytes};
ghost use Rattle.generated_script.specs.Draws.{state_after_draws};
ghost use Rattle.generated_script.specs.Lines.{form_of, line_text, minutes_text, moved_text, line_numbers, placed_text, seconds_text, span_text, event_text};
ghost use Rattle.generated_script.specs.Lines.{hundredths_text};

use crate::draws::Draws;
use ass_num::Mem;
use std::alloc::Global;

/// What a line shows.
#[derive(Clone, Copy)]
pub enum Form {
    /// Words of a size.
    Words,
    /// A word at a place.
    Placed,
    /// A word that moves.
    Moved,
    /// Syllables that are sung, faded in and out.
    Sung,
}

/// The numbers of a line. `length` is in hundredths of a second, `size`, `x` and `y` in script pixels.
#[derive(Clone, Copy)]
pub struct LineNumbers {
    pub layer: u32,
    pub length: u32,
    pub size: u32,
    pub x: u32,
    pub y: u32,
    pub form: Form,
}

/// The form of a number below 4.
fn form_of(n: u32) -> Form
    ensures { result ≡ form_of n }
{
    if n == 0 {
        Form::Words
    } else if n == 1 {
        Form::Placed
    } else if n == 2 {
        Form::Moved
    } else {
        Form::Sung
    }
}

/// Draws the numbers of a line.
pub fn draw_line(draws: &mut Draws) -> LineNumbers
    ensures numbers { result ≡ line_numbers draws.old.state }
    ensures state { draws.new.state ≡ state_after_draws 6 draws.old.state }
    ensures length { result.length ≤ 250 }
{
    let layer = draws.below(3);
    let length = 50 + draws.below(200);
    let size = 8 + draws.below(9);
    let x = draws.below(320);
    let y = draws.below(180);
    let form = form_of(draws.below(4));
    LineNumbers {
        layer,
        length,
        size,
        x,
        y,
        form,
    }
}

/// The hours and minutes in so many hundredths of a second.
fn minutes_text(alloc: Global, t: u64) -> Mem<String>
    ensures { IfOk result (λ text. string_bytes text ≡ minutes_text t) }
{
    let hours = t / 360_000;
    let ten_minutes = t / 60_000 % 6;
    let minutes = t / 6_000 % 10;
    Ok(format!(in alloc; "{hours}:{ten_minutes}{minutes}")?)
}

/// The seconds and hundredths.
fn seconds_text(alloc: Global, t: u64) -> Mem<String>
    ensures { IfOk result (λ text. string_bytes text ≡ seconds_text t) }
{
    let ten_seconds = t / 1_000 % 6;
    let seconds = t / 100 % 10;
    let tenths = t / 10 % 10;
    let hundredths = t % 10;
    Ok(format!(in alloc; "{ten_seconds}{seconds}.{tenths}{hundredths}")?)
}

/// So many hundredths of a second as a time of a script.
fn hundredths_text(alloc: Global, t: u64) -> Mem<String>
    ensures { IfOk result (λ text. string_bytes text ≡ hundredths_text t) }
{
    let minutes = minutes_text(alloc, t)?;
    let seconds = seconds_text(alloc, t)?;
    Ok(format!(in alloc; "{minutes}:{seconds}")?)
}

/// When a line begins and when it ends.
fn span_text(alloc: Global, begin: u64, length: u32) -> Mem<String>
    requires { begin < 2 ^ 63 }
    ensures { IfOk result (λ text. string_bytes text ≡ span_text begin length) }
{
    let start = hundredths_text(alloc, begin)?;
    let end = hundredths_text(alloc, begin + u64::from(length))?;
    Ok(format!(in alloc; "{start},{end}")?)
}

/// A word of a size at a place.
fn placed_text(alloc: Global, z: u32, x: u32, y: u32) -> Mem<String>
    ensures { IfOk result (λ text. string_bytes text ≡ placed_text z x y) }
{
    Ok(format!(in alloc; "{{\\pos({x},{y})\\fs{z}}}abc")?)
}

/// A word that moves.
fn moved_text(alloc: Global, x: u32, y: u32) -> Mem<String>
    ensures { IfOk result (λ text. string_bytes text ≡ moved_text x y) }
{
    Ok(format!(in alloc; "{{\\move({x},{y},{y},{x})\\bord1}}ab")?)
}

/// The text of the event.
fn event_text(alloc: Global, numbers: &LineNumbers) -> Mem<String>
    ensures { IfOk result (λ text. string_bytes text ≡ event_text numbers.now) }
{
    let z = numbers.size;
    match numbers.form {
        Form::Words => Ok(format!(in alloc; "{{\\fs{z}}}ab cd ef")?),
        Form::Placed => placed_text(alloc, z, numbers.x, numbers.y),
        Form::Moved => moved_text(alloc, numbers.x, numbers.y),
        Form::Sung => Ok(String::from_str(alloc, "{\\an8\\fad(100,100)\\kf20}ab{\\kf20}cd")?),
    }
}

/// The line at a place, which starts a tenth of a second after the one before.
pub fn line_text(alloc: Global, i: u32, numbers: &LineNumbers) -> Mem<String>
    ensures { IfOk result (λ text. string_bytes text ≡ line_text i numbers.now) }
{
    let layer = numbers.layer;
    let span = span_text(alloc, 10 * u64::from(i), numbers.length)?;
    let text = event_text(alloc, numbers)?;
    Ok(format!(in alloc; "Dialogue: {layer},{span},Default,,0,0,0,,{text}\n")?)
}
