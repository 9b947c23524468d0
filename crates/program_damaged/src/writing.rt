// What the writer makes of what was read of a file.
use crate::LONGEST;
use crate::verdict::Verdict;
use file_reading::Contents;
use refusals::Refusal;

// Other where it writes something else than the file, or nothing was read.
pub(crate) fn written(
    file: &[u8],
    read: &Result<Contents, Refusal>,
    floors: &[i16],
    ceilings: &[i16],
    rises: &[i16],
) -> Verdict {
    let Ok(contents) = read else {
        return Verdict::Other;
    };
    let numbers = contents.numbers;
    let days = numbers.days;
    if days == 0 {
        return Verdict::Other;
    }
    let (Some(floors), Some(ceilings), Some(rises)) = (
        floors.get(..days),
        ceilings.get(..days),
        rises.get(..days - 1),
    ) else {
        return Verdict::Other;
    };
    // No longer than the longer file, so that the writer is seen to take an output that just fits.
    let mut out = [0u8; LONGEST];
    let answer = file_writing::write(numbers, floors, ceilings, rises, contents.sheet, &mut out);
    match answer {
        Ok(length) if out.get(..length) != Some(file) => Verdict::Other,
        _ => Verdict::of(&answer),
    }
}
