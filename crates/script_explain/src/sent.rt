//! What is sent behind a line, with the rules that orders broke.
use crate::frames::push;
use fix_fields::number;
use fix_write::digits::push_number;
use venue_words::{NoMemory, RULES, Rule};

/// The field in which a report names the rule that was broken.
const RULE_NUMBER: &[u8] = b"|9702=";

/// The number of the rule that a line of output names.
fn rule_number_in(line: &[u8]) -> Option<u32> {
    for place in 0..line.len() {
        if let Some(behind) = line[place..].strip_prefix(RULE_NUMBER) {
            let size = behind.iter().position(|byte| *byte == b'|')?;
            return number(behind.get(..size)?);
        }
    }
    None
}

/// The rule of a number.
fn rule_of(number: u32) -> Option<Rule> {
    RULES.get((number as usize).checked_sub(1)?).copied()
}

/// Appends a line of output, and which rule it names.
fn push_line(out: &mut Vec<u8>, line: &[u8]) -> Result<(), NoMemory> {
    push(out, "  > ")?;
    out.extend_from_slice(line)?;
    push(out, "\n")?;
    let Some(rule) = rule_number_in(line).and_then(rule_of) else {
        return Ok(());
    };
    push(out, "    rule ")?;
    push_number(out, u64::from(rule.number()))?;
    push(out, ": ")?;
    push(out, rule.text())?;
    push(out, "\n")
}

/// Appends what is sent behind a line.
pub fn push_sent(out: &mut Vec<u8>, sent: &[u8]) -> Result<(), NoMemory> {
    for line in sent.split(|byte| *byte == b'\n') {
        if !line.is_empty() {
            push_line(out, line)?;
        }
    }
    Ok(())
}
