// What the reader, the program `ranges` and the writer make of files, counted.
use crate::verdict::Verdict;
use crate::{endings, judge, writing};
use file_printing::MOST_TEXT_BYTES;
use limits::MOST_DAYS;
use std::fmt;

// How many are taken, and how many are refused with each number.
#[derive(Clone, Copy, Default)]
struct Counts {
    taken: usize,
    refused: [usize; 14],
}

impl Counts {
    fn count(&mut self, verdict: Verdict) {
        match verdict {
            Verdict::Taken => self.taken = self.taken.wrapping_add(1),
            Verdict::Refused(number) => {
                if let Some(times) = self.refused.get_mut(usize::from(number)) {
                    *times = times.wrapping_add(1);
                }
            }
            Verdict::Other => {}
        }
    }
}

// Those taken, and the refusals that occur.
impl fmt::Display for Counts {
    fn fmt<W: fmt::Write>(&self, f: &mut fmt::Formatter<W>) -> fmt::Result {
        write!(f, "{}", self.taken)?;
        for (number, times) in self.refused.iter().enumerate() {
            if *times != 0 {
                write!(f, ", refused {number}: {times}")?;
            }
        }
        Ok(())
    }
}

// How many files; what the reader answers, what the text says, and what the writer makes of what was read; how many differences.
#[derive(Clone, Copy, Default)]
pub(crate) struct Tally {
    files: usize,
    read: Counts,
    printed: Counts,
    written: Counts,
    differences: usize,
}

// The reader's verdict is not the judge's; the text is neither ranges nor a refusal; the reader refuses, and the text does not say so. What was read is
// written otherwise; the writer does not refuse as the text says, though the text does not say 8, for which the writer does not look.
fn differences(read: Verdict, judged: Verdict, printed: Verdict, written: Verdict) -> usize {
    let is_read = read == Verdict::Taken;
    usize::from(read != judged)
        + usize::from(printed == Verdict::Other)
        + usize::from(!is_read && read != printed)
        + usize::from(is_read && written == Verdict::Other)
        + usize::from(is_read && written != printed && printed != Verdict::Refused(8))
}

impl Tally {
    // Reads the file, prints its ranges, and writes it back.
    pub(crate) fn note(&mut self, file: &[u8]) {
        let mut floors = [0i16; MOST_DAYS];
        let mut ceilings = [0i16; MOST_DAYS];
        let mut rises = [0i16; MOST_DAYS - 1];
        let answer = file_reading::read(file, &mut floors, &mut ceilings, &mut rises);
        let mut text = [0u8; MOST_TEXT_BYTES];
        let length = file_printing::print_ranges(file, &mut text);
        let read = Verdict::of(&answer);
        let printed = endings::ending(&text[..length]);
        let written = writing::written(file, &answer, &floors, &ceilings, &rises);
        let found = differences(read, judge::judged(file), printed, written);
        self.files = self.files.wrapping_add(1);
        self.read.count(read);
        self.printed.count(printed);
        self.written.count(written);
        self.differences = self.differences.wrapping_add(found);
    }
}

impl fmt::Display for Tally {
    fn fmt<W: fmt::Write>(&self, f: &mut fmt::Formatter<W>) -> fmt::Result {
        writeln!(f, "{}, taken: {}", self.files, self.read)?;
        writeln!(f, "ranges: {}", self.printed)?;
        write!(
            f,
            "written back: {}, differences: {}",
            self.written, self.differences
        )
    }
}
