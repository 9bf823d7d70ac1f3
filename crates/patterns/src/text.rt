// Columns on standard output.
use pattern::Verdict;
use std::io;

// Writes the text in quotes, and spaces where it is shorter than `width`.
pub fn quoted(rt: &impl Print, text: &[u8], width: usize) -> io::Result<()> {
    let fill = width.saturating_sub(text.len());
    print!(rt; "\"")?;
    rt.write_all(text)?;
    print!(rt; "\"{:fill$}", "")
}

// Writes yes or no and the steps.
pub fn verdict(rt: &impl Print, verdict: Verdict) -> io::Result<()> {
    let answer = if verdict.matched { "yes" } else { "no" };
    print!(rt; "  {answer:<3} {:>2}", verdict.steps)
}
