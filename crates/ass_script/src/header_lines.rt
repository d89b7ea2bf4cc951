//! The lines of the header.

ghost use Rattle.std.specs.Prelude.{◌≡◌, ◌≤◌, IfSome, Some};
ghost use Rattle.ass_num.specs.Wholes.{whole_of};
ghost use Rattle.ass_script.specs.Ranges.{IsScriptHeader, IsCanvasSide, IsHeaderLines};
ghost use Rattle.ass_script.specs.Scripts.{canvas_side_of, wrap_style_of, scaled_of, width_of, canvas_height};
ghost use Rattle.ass_script.specs.Walk.{no_header_lines, header_lines_after, made_header};

use crate::lines::Key;
use crate::matrix::{ScriptMatrix, matrix_in};
use crate::script::Header;
use crate::words::same_name;
use ass_num::read_whole;
use ass_num::text_blanks::trimmed;

/// The widest and the highest canvas.
const MAX_SIDE: u32 = 16_384;

/// A whole number from 1 to 16,384.
#[tactic(auto, unfolding(crate::specs::Scripts::canvas_side_of))]
fn side(value: &str) -> Option<u32>
    ensures value { result ≡ canvas_side_of value.now }
    ensures range { IfSome result IsCanvasSide }
{
    let number = read_whole(value.as_bytes())?;
    if 1 <= number && number <= MAX_SIDE as i32 {
        return Some(number as u32);
    }
    None
}

/// A wrap style, or else 0.
#[tactic(auto, unfolding(crate::specs::Scripts::wrap_style_of))]
fn wrap(value: &str) -> u8
    ensures value { result ≡ wrap_style_of value.now }
    ensures range { result ≤ 3 }
{
    match read_whole(value.as_bytes()) {
        Some(number) if 0 <= number && number <= 3 => number as u8,
        _ => 0,
    }
}

/// `yes`, or a number above 0.
#[tactic(auto, unfolding(crate::specs::Scripts::scaled_of))]
fn scaled(value: &str) -> bool
    ensures { result ≡ scaled_of value.now }
{
    if same_name(trimmed(value), "yes") {
        return true;
    }
    match read_whole(value.as_bytes()) {
        Some(number) => 0 < number,
        None => false,
    }
}

/// What the last line of each key of the header said.
#[derive(Clone, Copy)]
pub struct HeaderLines {
    pub res_x: Option<u32>,
    pub res_y: Option<u32>,
    pub wrap: u8,
    pub scaled: bool,
    pub matrix: ScriptMatrix,
}

impl HeaderLines {
    /// Before the first line.
    pub fn new() -> HeaderLines
        ensures new { result ≡ no_header_lines }
        ensures range { IsHeaderLines result }
    {
        HeaderLines {
            res_x: None,
            res_y: None,
            wrap: 0,
            scaled: false,
            matrix: ScriptMatrix::Unsaid,
        }
    }

    /// A line; it replaces what an earlier one of its key said.
    pub fn line(&mut self, key: Key, value: &str)
        requires { IsHeaderLines self.old }
        ensures read { self.new ≡ header_lines_after key value.now self.old }
        ensures range { IsHeaderLines self.new }
    {
        match key {
            Key::ResX => self.res_x = side(value),
            Key::ResY => self.res_y = side(value),
            Key::Wrap => self.wrap = wrap(value),
            Key::Scaled => self.scaled = scaled(value),
            Key::Matrix => self.matrix = matrix_in(value),
            _ => {}
        }
    }

    /// The width, also where it is missing.
    fn width(&self) -> u32
        requires { IsHeaderLines self.now }
        ensures value { result ≡ width_of self.now.res_x self.now.res_y }
        ensures range { IsCanvasSide result }
    {
        match (self.res_x, self.res_y) {
            (Some(width), _) => width,
            (None, Some(1_024)) => 1_280,
            (None, Some(height)) => (height * 4 / 3).min(MAX_SIDE),
            (None, None) => 384,
        }
    }

    /// The height, also where it is missing.
    fn height(&self) -> u32
        requires { IsHeaderLines self.now }
        ensures value { result ≡ canvas_height self.now.res_x self.now.res_y }
        ensures range { IsCanvasSide result }
    {
        match (self.res_x, self.res_y) {
            (_, Some(height)) => height,
            (Some(1_280), None) => 1_024,
            (Some(width), None) => (width * 3 / 4).max(1),
            (None, None) => 288,
        }
    }

    /// The header that the lines make.
    pub fn made(&self) -> Header
        requires { IsHeaderLines self.now }
        ensures made { result ≡ made_header self.now }
        ensures range { IsScriptHeader result }
    {
        Header {
            res_x: self.width(),
            res_y: self.height(),
            wrap: self.wrap,
            scaled: self.scaled,
            matrix: self.matrix,
        }
    }
}
