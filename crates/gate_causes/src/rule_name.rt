//! Which rule or word a name that nothing has may stand for.
use crate::text::nearest;
use gate_bytes::Memory;
use gate_rules::rules;
use std::alloc::Global;

/// The shortest word that something is near to, in bytes.
const SHORTEST: usize = 4;

/// The name or the token of a rule or word that is near to a word: one that it is a few edits away from, or else the first
/// that it is a part of.
pub fn rule_near(alloc: Global, word: &str) -> Result<Option<&'static str>, Memory> {
    // A short word is near to many.
    if word.len() < SHORTEST {
        return Ok(None);
    }
    let table = rules(alloc)?;
    let mut known = Vec::with_capacity(alloc, 2 * table.len())?;
    for rule in table.as_slice() {
        known.push(rule.token)?;
        known.push(rule.name)?;
    }
    if let Some(near) = nearest(alloc, word, known.as_slice())? {
        return Ok(Some(near));
    }
    Ok(
        known
            .as_slice()
            .iter()
            .copied()
            .find(|name| name.contains(word)),
    )
}
