// Document 01's table of patterns under "Checked examples", and the invalid patterns beside it.
use crate::{answer_of, text, verdict_of};
use pattern::Verdict;
use protocol::Refusal;
use std::io;

// The table's rows: a pattern, a key, and the paper's yes or no and steps.
const TABLE: [(&[u8], &[u8], bool, usize); 12] = [
    (b"iface.*.mtu", b"iface.eth0.mtu", true, 14),
    (b"iface.*.mtu", b"iface.bridge0.port1.mtu", false, 15),
    (b"iface.*", b"iface.bridge0.port1.mtu", true, 7),
    (b"iface.*", b"iface.", true, 7),
    (b"(a|ab)c", b"abc", false, 2),
    (b"(ab|a)c", b"ac", true, 4),
    (b"", b"", true, 0),
    (b"", b"a", false, 0),
    (b"*?", b"xy", false, 1),
    (b"*.b", b"a.x.b", false, 3),
    (b"*", b"", true, 1),
    (b"((((a))))", b"a", true, 1),
];

// The invalid patterns.
const INVALID: [&[u8]; 5] = [b"(((((a)))))", b"**", b"*(a)", b"a\\", b"a|b"];

// Whether what was computed is what the paper says, at the end of a line.
fn agreement(agrees: bool) -> &'static str {
    if agrees { "ok" } else { "DIFFERS" }
}

// Prints the table's rows: the paper's yes or no and steps, and what was computed.
pub fn print_table(rt: &impl Print) -> io::Result<()> {
    println!(rt; "pattern        key                        paper   computed")?;
    for &(pattern, key, matched, steps) in &TABLE {
        let stated = Verdict { matched, steps };
        let computed = pattern::matches(pattern, key);
        text::quoted(rt, pattern, 11)?;
        print!(rt; "  ")?;
        text::quoted(rt, key, 23)?;
        text::verdict(rt, stated)?;
        text::verdict(rt, verdict_of(computed))?;
        println!(rt; "  {}", agreement(computed == Ok(stated)))?;
    }
    Ok(())
}

// Prints the invalid patterns: the paper's 101, and the answer that was computed.
pub fn print_invalid(rt: &impl Print) -> io::Result<()> {
    println!(rt; "\ninvalid        paper  computed")?;
    for pattern in INVALID {
        let computed = pattern::matches(pattern, b"a");
        text::quoted(rt, pattern, 11)?;
        print!(rt; "  101    {}", answer_of(computed))?;
        println!(rt; "  {}", agreement(computed == Err(Refusal::Parameter)))?;
    }
    Ok(())
}
