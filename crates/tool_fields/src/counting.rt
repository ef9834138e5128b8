// What was counted on the way, and the line that says it.
use crate::dropped::Run;
use crate::saying;
use std::io;

// No input is so long that a count wraps.
#[derive(Clone, Copy, Default)]
pub struct Counts {
    pub messages: u64,
    pub repeating: u64,
    pub dropped: u64,
    pub runs: u64,
    pub line_breaks: u64,
}

impl Counts {
    pub fn with_run(self, run: Run) -> Counts {
        let line_breaks = run.leading.wrapping_add(run.trailing);
        Counts {
            dropped: self.dropped.wrapping_add(run.length),
            runs: self.runs.wrapping_add(u64::from(0 < run.length)),
            line_breaks: self.line_breaks.wrapping_add(line_breaks),
            ..self
        }
    }

    pub fn with_message(self, repeats: bool) -> Counts {
        Counts {
            messages: self.messages.wrapping_add(1),
            repeating: self.repeating.wrapping_add(u64::from(repeats)),
            ..self
        }
    }
}

pub fn summary(rt: &impl Print, counts: Counts) -> io::Result<()> {
    saying::counted(rt, counts.messages, " message", " messages")?;
    if 0 < counts.repeating {
        print!(rt;
            ", {} with a tag that stands more than once",
            counts.repeating
        )?;
    }
    print!(rt; "; ")?;
    saying::counted(rt, counts.dropped, " byte dropped", " bytes dropped")?;
    if 0 < counts.runs {
        print!(rt; " in ")?;
        saying::counted(rt, counts.runs, " run", " runs")?;
    }
    if 0 < counts.line_breaks {
        print!(rt; "; ")?;
        saying::counted(rt, counts.line_breaks, " byte", " bytes")?;
        print!(rt; " of line breaks outside messages")?;
    }
    println!(rt;)
}
