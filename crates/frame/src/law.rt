// Theorems of the definitions.
ghost use Rattle.frame.specs.Law.{FrameLaw, Harmless};
ghost use Rattle.std.specs.Prelude.{true, false};
ghost use Rattle.frame.specs.Example.{Met};
ghost use Rattle.frame.specs.Worked.{Worked};

// Rows above the first late one show the page's picture, and all others are dark.
pub fn frame_law()
    ensures { FrameLaw }
{}

// Reads, pen strokes and refused writes leave a frame as it was.
pub fn harmless_calls()
    ensures { Harmless }
{}

// The definitions at the edges.
pub fn worked_cases()
    ensures { Worked }
{}

// The law speaks of something: its hypotheses hold of a frame whose one row is in time, and of one whose row is late.
pub fn law_is_met()
    ensures { Met 2 true × Met 3 false }
{}
