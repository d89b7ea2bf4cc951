//! Small scripts, whose font is one dot.
ghost use Rattle.std.specs.Prelude.{IfOk};
ghost use Rattle.world_vectors.specs.Given.{AreInputs};

use crate::inputs::{Inputs, inputs_of};
use ass_num::Size;
use bdf_font::read_font;
use std::alloc::Global;
use std::test::Fail;

/// A blank, and a dot of one pixel.
const DOT: &str = "STARTFONT 2.1\nFONT dot\nSIZE 1 75 75\nFONTBOUNDINGBOX 1 1 0 0\n\
    STARTPROPERTIES 2\nFONT_ASCENT 1\nFONT_DESCENT 0\nENDPROPERTIES\nCHARS 2\n\
    STARTCHAR space\nENCODING 32\nSWIDTH 1000 0\nDWIDTH 1 0\nBBX 0 0 0 0\nBITMAP\nENDCHAR\n\
    STARTCHAR x\nENCODING 120\nSWIDTH 1000 0\nDWIDTH 1 0\nBBX 1 1 0 0\nBITMAP\n80\nENDCHAR\nENDFONT\n";

/// The lines before those that are shown: four by three pixels, in white without a border.
const HEAD: &str =
    "[Script Info]\nScriptType: v4.00+\nPlayResX: 4\nPlayResY: 3\nWrapStyle: 2\n[V4+ Styles]\n\
    Style: Default,dot,1,&H00FFFFFF,&H000000FF,&H00000000,&H00000000,0,0,0,0,100,100,0,0,1,0,0,7,0,0,0,1\n\
    [Events]\n";

/// Lines that overlap: dots, half a dot, a soft one, one that a drawing cuts, and one with a border.
pub const LINES: [&str; 6] = [
    "Dialogue: 0,0:00:00.00,0:00:00.06,Default,,0,0,0,,x\n",
    "Dialogue: 0,0:00:00.01,0:00:00.05,Default,,0,0,0,,{\\pos(1,1)\\fscx50}x\n",
    "Dialogue: 0,0:00:00.02,0:00:00.04,Default,,0,0,0,,{\\pos(2,1)\\be1}x\n",
    "Dialogue: 0,0:00:00.00,0:00:00.03,Default,,0,0,0,,{\\pos(1,2)\\clip(m 0 0 l 2 0 2 2 0 3)}x\n",
    "Dialogue: 0,0:00:00.02,0:00:00.06,Default,,0,0,0,,{\\pos(2,2)\\bord1\\3c&H0000FF&}x\n",
    "Dialogue: 1,0:00:00.00,0:00:00.06,Default,,0,0,0,,{\\an9\\1c&HFF00FF&}x\n",
];

/// A script of these lines, and the keys of what it draws at an instant in milliseconds.
pub fn dot_inputs(alloc: Global, lines: &str, t: u16) -> Result<Inputs, Fail>
    ensures { IfOk result AreInputs }
{
    let text = format!(in alloc; "{HEAD}{lines}")?;
    let font = read_font(alloc, DOT.as_bytes())?;
    inputs_of(alloc, text.as_bytes(), font, Size { w: 4, h: 3 }, t)
}

/// How many other lines there are.
const OTHERS: u32 = 24;

/// Adds a line that shows a dot of such a width, in percent, at the instant of 25 milliseconds.
fn add_other(lines: &mut String, alloc: Global, width: u32) -> Result<(), Fail> {
    let line = format!(in alloc;
        "Dialogue: 2,0:00:00.02,0:00:00.03,Default,,0,0,0,,{{\\pos(0,0)\\fscx{width}}}x\n"
    )?;
    lines.push_str(line.as_str())?;
    Ok(())
}

/// All lines and the others.
fn crowd_of(alloc: Global) -> Result<String, Fail> {
    let mut lines = lines_of(alloc, &[0, 1, 2, 3, 4, 5])?;
    for i in 0..OTHERS {
        add_other(&mut lines, alloc, i.wrapping_mul(3).wrapping_add(10))?;
    }
    Ok(lines)
}

/// A script of all lines and of others, whose keys are in the way of those of the lines; and the keys of what all of them draw.
pub fn crowd_inputs(alloc: Global) -> Result<Inputs, Fail>
    ensures { IfOk result AreInputs }
{
    let lines = crowd_of(alloc)?;
    dot_inputs(alloc, lines.as_str(), 25)
}

/// Those of the lines whose numbers are wanted, in order.
pub fn lines_of(alloc: Global, wanted: &[usize]) -> Result<String, Fail> {
    let mut lines = String::new(alloc);
    for (i, line) in LINES.iter().enumerate() {
        if wanted.contains(&i) {
            lines.push_str(line)?;
        }
    }
    Ok(lines)
}
