//! What is kept is what the definitions say.

ghost use Rattle.trace_tables.specs.frames.Frames as frames;
ghost use Rattle.trace_tables.specs.frames.Here as here;
ghost use Rattle.trace_tables.specs.frames.Ledger as ledger;
ghost use Rattle.trace_tables.specs.frames.Waiting as waiting;

/// What is kept of frames is what the definitions of a right trace say, before the first row and over each event and out.
pub fn frames_go_on()
    ensures { frames.GoesOn }
{}

/// So is what is kept of writes that wait for a frame.
pub fn waiting_goes_on()
    ensures { waiting.GoesOn }
{}

/// All that is kept goes on over rows.
pub fn ledger_goes_on()
    ensures { ledger.GoesOn }
{}

/// What is kept of the newest row's outs goes on over outs, and tells which places were live, both ways.
pub fn here_goes_on()
    ensures { here.GoesOn }
{}
