//! The laws of layouts and of the numbers of draws. The functions do nothing: their contracts are the laws.

ghost use Rattle.draw_laws.specs.Rounding.{ClipBoundsAreRounded, PensAreRounded, WidthsAreRounded};
ghost use Rattle.draw_laws.specs.Stacks.{LayoutsAreStacked};

/// The lines of a layout lie below one another, from the top of its block to the bottom, each as its alignment says. A line has its
/// items side by side, and is as long as they are together.
pub fn layouts_are_stacked()
    ensures { LayoutsAreStacked }
{}

/// Borders, shadows and blurs are as wide as the script says at the frame's scale, in whole samples, passes or pixels, and held within
/// their ranges. So are pens, which stand in a pixel under a phase, and the bounds of clips.
pub fn numbers_are_rounded()
    ensures widths { WidthsAreRounded }
    ensures pens { PensAreRounded }
    ensures bounds { ClipBoundsAreRounded }
{}
