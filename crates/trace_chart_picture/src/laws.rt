//! What holds of every drawing.
ghost use Rattle.trace_chart_picture.specs.declared.line.Trace.{Trace};
ghost use Rattle.trace_chart_picture.specs.Inside.{MarksLieInside};
ghost use Rattle.trace_chart_picture.specs.Strokes.{StrokesAgree, LostEndInCrosses};

/// All marks of a drawing lie inside the picture: their places, and where their arrows end.
pub fn marks_lie_inside()
    ensures { (t : Trace) → MarksLieInside t }
{}

/// An arrow from host to host is drawn as its frame's, never as a forged one; where it is drawn as lost it ends in a cross, and a
/// cross stands only on a way that is drawn as lost, or on none that is known.
pub fn strokes_agree()
    ensures kinds { (t : Trace) → StrokesAgree t }
    ensures crosses { (t : Trace) → LostEndInCrosses t }
{}
