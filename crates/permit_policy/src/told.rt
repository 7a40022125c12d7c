//! What a policy's change opens and closes, as lines.

use crate::changes::Changes;
use crate::groups::Group;
use crate::wording::{relation_words, stage_words, stopped_word, timing_words};
use permit_base::words::{Action, Role, Word};
use std::alloc::{AllocError, Global};

/// A group, with its facts in words.
#[derive(Drop)]
struct Line<'a> {
    facts: String,
    group: &'a Group,
}

/// The facts of a group in words that `--facts` reads: ROLE,RELATIONS,ACTION,STAGE,STOPPED,TIMING.
fn facts_text(
    alloc: Global,
    role: Role,
    action: Action,
    group: &Group,
) -> Result<String, AllocError> {
    let role = role.word();
    let action = action.word();
    let relations = relation_words(alloc, group.region.relations)?;
    let stage = stage_words(alloc, group.region.stages)?;
    let stopped = stopped_word(group.region.stopped);
    let timing = timing_words(alloc, group.region.timings)?;
    format!(in alloc; "{role},{relations},{action},{stage},{stopped},{timing}")
}

/// Adds the lines of the groups of a role and an action.
fn push_lines<'a>(
    alloc: Global,
    changes: &'a Changes,
    lines: &mut Vec<Line<'a>>,
) -> Result<(), AllocError> {
    for group in &changes.groups {
        lines.push(Line {
            facts: facts_text(alloc, changes.role, changes.action, group)?,
            group,
        })?;
    }
    Ok(())
}

/// Adds a line: what the change does to the facts, how many combinations there are, and who decides now and decided before.
fn push_line(text: &mut String, line: &Line<'_>, width: usize) -> Result<(), AllocError> {
    let group = line.group;
    let verb = if group.opens() { "opens " } else { "closes" };
    let facts = line.facts.as_str();
    let size = group.region.size();
    let by = &group.by;
    let was = &group.was;
    let by = by.rule.as_str();
    let was = was.rule.as_str();
    writeln!(text, "{verb} {facts:width$} {size:4} by {by} was {was}")
}

/// What a policy's change opens and closes: a line for each group, and how many combinations of facts it opens and closes. It
/// fails only where memory runs out.
pub fn changes_text(alloc: Global, all: &[Changes]) -> Result<String, AllocError> {
    let mut lines = Vec::new(alloc);
    for changes in all {
        push_lines(alloc, changes, &mut lines)?;
    }
    let width = lines.iter().map(|line| line.facts.len()).max().unwrap_or(0);
    let mut text = String::new(alloc);
    let mut opens = 0usize;
    let mut closes = 0usize;
    for line in &lines {
        push_line(&mut text, line, width)?;
        if line.group.opens() {
            opens = opens.saturating_add(line.group.region.size());
        } else {
            closes = closes.saturating_add(line.group.region.size());
        }
    }
    writeln!(text, "opens {opens} closes {closes}")?;
    Ok(text)
}
