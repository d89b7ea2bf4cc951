//! A path that grows command by command.

ghost use Rattle.std.specs.Prelude.{◌≡◌, List, [], ◌++◌, take, OnOk};
ghost use Rattle.drawing_path.specs.Paths.{end_of};
ghost use Rattle.drawing_path.specs.Sketches.{IsSketch, FollowsCommand};

use crate::command::Command;
use ass_num::{Items, Mem, Point, Seg};
use std::alloc::Global;

/// A path so far, and the place of the last spline of its last figure.
#[derive(Drop)]
pub struct Sketch {
    segs: Vec<Seg>,
    spline: Option<usize>,
}

/// The last point of a segment.
fn end_of(seg: &Seg) -> Option<Point>
    ensures { result ≡ end_of seg.now }
{
    match seg {
        Seg::Move(point) | Seg::Line(point) | Seg::Cubic(_, _, point) => Some(*point),
        Seg::Spline(points, _) => points.as_slice().last().copied(),
    }
}

/// Adds the first three control points at the end.
fn close(control: &mut Items<Point>) -> Mem<()>
    ensures { OnOk result (control.new ≡ control.old ++ take 3 control.old) }
{
    for k in 0..control.len().min(3) {
        let point = control.as_slice()[k];
        control.push(point)?;
    }
    Ok(())
}

/// Adds the points at the end.
fn extend(control: &mut Items<Point>, points: &[Point]) -> Mem<()>
    ensures { OnOk result (control.new ≡ control.old ++ points.now) }
{
    for point in points {
        control.push(*point)?;
    }
    Ok(())
}

impl Sketch {
    /// The path without segments.
    pub fn new(alloc: Global) -> Sketch
        ensures empty { result.segs.items ≡ [] }
        ensures place { IsSketch result }
    {
        Sketch {
            segs: Vec::new(alloc),
            spline: None,
        }
    }

    /// The segments.
    pub fn into_segs(self) -> Items<Seg>
        ensures { result ≡ self.segs.items }
    {
        let Sketch { segs, spline: _ } = self;
        Items::from_vec(segs)
    }

    /// Does a command with its points.
    pub fn apply(&mut self, alloc: Global, command: Command, points: &[Point]) -> Mem<()>
        requires { IsSketch self.old }
        ensures { OnOk result (FollowsCommand self.old self.new command points.now) }
    {
        match command {
            Command::Begin => self.begin(points),
            Command::Lines => self.add_lines(points),
            Command::Cubics => self.add_cubics(points),
            Command::NewSpline => self.add_spline(alloc, points),
            Command::Extend => self.extend_spline(points),
            Command::Close => self.close_spline(),
        }
    }

    /// Begins a figure with each of the points.
    fn begin(&mut self, points: &[Point]) -> Mem<()>
        requires { IsSketch self.old }
        ensures { OnOk result (FollowsCommand self.old self.new Command.Begin points.now) }
    {
        if points.is_empty() {
            return Ok(());
        }
        for point in points {
            self.segs.push(Seg::Move(*point))?;
        }
        self.spline = None;
        Ok(())
    }

    /// Adds a line to each of the points.
    fn add_lines(&mut self, points: &[Point]) -> Mem<()>
        requires { IsSketch self.old }
        ensures { OnOk result (FollowsCommand self.old self.new Command.Lines points.now) }
    {
        if self.segs.is_empty() {
            return Ok(());
        }
        for point in points {
            self.segs.push(Seg::Line(*point))?;
        }
        Ok(())
    }

    /// Adds a cubic curve by each three points.
    fn add_cubics(&mut self, points: &[Point]) -> Mem<()>
        requires { IsSketch self.old }
        ensures { OnOk result (FollowsCommand self.old self.new Command.Cubics points.now) }
    {
        if self.segs.is_empty() {
            return Ok(());
        }
        let mut rest = points;
        while let [first, second, end, more @ ..] = rest {
            self.segs.push(Seg::Cubic(*first, *second, *end))?;
            rest = more;
        }
        Ok(())
    }

    /// Adds a spline from the last vertex by the points, which are three or more.
    fn add_spline(&mut self, alloc: Global, points: &[Point]) -> Mem<()>
        requires { IsSketch self.old }
        ensures { OnOk result (FollowsCommand self.old self.new Command.NewSpline points.now) }
    {
        if points.len() < 3 {
            return Ok(());
        }
        let Some(vertex) = self.segs.last().and_then(end_of) else {
            return Ok(());
        };
        let mut control = Vec::with_capacity(alloc, points.len() + 1)?;
        control.push(vertex)?;
        control.extend_from_slice(points)?;
        let place = self.segs.len();
        self.segs
            .push(Seg::Spline(Items::from_vec(control), false))?;
        self.spline = Some(place);
        Ok(())
    }

    /// Adds the points to the last spline of the figure.
    fn extend_spline(&mut self, points: &[Point]) -> Mem<()>
        requires { IsSketch self.old }
        ensures { OnOk result (FollowsCommand self.old self.new Command.Extend points.now) }
    {
        if let Some(place) = self.spline {
            if let Seg::Spline(control, _) = &mut self.segs[place] {
                extend(control, points)?;
            }
        }
        Ok(())
    }

    /// Closes the last spline of the figure.
    fn close_spline(&mut self) -> Mem<()>
        requires { IsSketch self.old }
        ensures { OnOk result ((points : List Point) → FollowsCommand self.old self.new Command.Close points) }
    {
        if let Some(place) = self.spline {
            if let Seg::Spline(control, closed) = &mut self.segs[place] {
                close(control)?;
                *closed = true;
            }
        }
        Ok(())
    }
}
