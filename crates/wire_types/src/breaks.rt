//! Where the formatter breaks a line of code that has no room: at the brackets, at `=>` and at `=`.
use crate::layout::Line;
use std::alloc::{AllocError, Global};
use wire_definitions::{CALL_WIDTH, WIDTH};

// What stands between two brackets.
#[derive(Clone, Copy)]
struct Group {
    open: usize,
    close: usize,
}

/// What the formatter makes of a line of code, or nothing where it leaves it as it is.
pub fn broken(alloc: Global, line: &Line) -> Result<Option<Vec<Line>>, AllocError> {
    let text = line.text.as_str();
    let start = start_of(text);
    if is_left(text) || line.width() <= WIDTH && (is_head(text) || !is_wide(alloc, text, start)?) {
        return Ok(None);
    }
    if let Some(at) = equals_sign(line) {
        return at_sign(alloc, line, at, 2);
    }
    if text.starts_with("impl") {
        if let Some(at) = text.find(" for ") {
            if line.margin.saturating_add(at) <= WIDTH {
                return at_sign(alloc, line, at, 0);
            }
        }
    }
    let arrow = text.find(" => ");
    if let (Some(at), true) = (arrow, text.contains(" => \"")) {
        return at_sign(alloc, line, at, 3);
    }
    if let (Some(at), Some(group)) = (arrow, group_of(text, 0)) {
        // (the pattern by itself)
        if group.open < at && !has_room(line, at.saturating_add(2)) {
            return in_brackets(alloc, line, group);
        }
    }
    let sign = sign_of(text);
    match (last_group(line, start), sign) {
        (Some(group), None) => in_brackets(alloc, line, group),
        (Some(group), _) if has_room(line, group.open) => in_brackets(alloc, line, group),
        (_, Some((at, length))) => at_sign(alloc, line, at, length),
        (None, None) => Ok(None),
    }
}

// Where the sign is behind which a line is broken whose brackets have no room, and its length.
fn sign_of(text: &str) -> Option<(usize, usize)> {
    match (text.find(" => "), text.find(" = ")) {
        _ if text.ends_with(" {") => None,
        (Some(at), _) => Some((at, 3)),
        (None, Some(at)) => Some((at, 2)),
        (None, None) => None,
    }
}

// The lines that the formatter does not break.
fn is_left(text: &str) -> bool {
    ["//", "use ", "ghost ", "#[", "ensures", "requires"]
        .iter()
        .any(|it| text.starts_with(*it))
}

/// Whether it is the head of a function.
pub fn is_head(text: &str) -> bool {
    ["fn ", "pub fn ", "pub(crate) fn "]
        .iter()
        .any(|it| text.starts_with(*it))
}

fn part(text: &str, from: usize, to: usize) -> &str {
    text.get(from..to).unwrap_or("")
}

// Where that begins which may be broken: behind the pattern, or what is set.
fn start_of(text: &str) -> usize {
    if is_head(text) || text.ends_with(" {") {
        return 0;
    }
    match (text.find(" => "), text.find(" = ")) {
        (Some(at), _) => at.saturating_add(4),
        (None, Some(at)) => at.saturating_add(3),
        (None, None) => 0,
    }
}

// Where a line is broken behind its `=`.
fn equals_sign(line: &Line) -> Option<usize> {
    let text = line.text.as_str();
    let at = text.find(" = ")?;
    let is_constant = text.starts_with("const ") || text.starts_with("pub const ");
    if is_constant && text.ends_with(';') {
        return Some(at);
    }
    let is_set = text.contains(" => *self = ") && has_room(line, at.saturating_add(1));
    if is_set { Some(at) } else { None }
}

fn has_room(line: &Line, place: usize) -> bool {
    line.margin.saturating_add(place) < WIDTH
}

// Breaks a line behind a sign of this length, the rest further to the right.
fn at_sign(
    alloc: Global,
    line: &Line,
    at: usize,
    length: usize,
) -> Result<Option<Vec<Line>>, AllocError> {
    let text = line.text.as_str();
    let end = at.saturating_add(length);
    let mut lines = Vec::new(alloc);
    lines.push(Line::new(alloc, line.margin, part(text, 0, end))?)?;
    let rest = part(text, end, text.len()).trim_start();
    lines.push(Line::new(alloc, line.margin.saturating_add(4), rest)?)?;
    Ok(Some(lines))
}

// Whether several arguments of a call are too wide for one line.
fn is_wide(alloc: Global, text: &str, start: usize) -> Result<bool, AllocError> {
    let mut from = start;
    for _ in 0..text.len() {
        let Some(group) = group_of(text, from) else {
            return Ok(false);
        };
        from = group.open.saturating_add(1);
        let inner = part(text, from, group.close);
        if is_call(text, group) {
            if items(alloc, inner)?.len() > 1 {
                if inner.len() > CALL_WIDTH {
                    return Ok(true);
                }
                from = group.close.saturating_add(1);
            }
        } else {
            from = group.close.saturating_add(1);
        }
    }
    Ok(false)
}

// The first brackets from a place on, and what is between them.
fn group_of(text: &str, start: usize) -> Option<Group> {
    let mut depth: usize = 0;
    let mut open: usize = 0;
    let mut is_quoted = false;
    let mut last = ' ';
    for (place, letter) in text.char_indices() {
        if letter == '"' {
            is_quoted = !is_quoted;
        }
        let is_arrow = letter == '>' && (last == '-' || last == '=');
        last = letter;
        if is_quoted || is_arrow || place < start {
            continue;
        }
        if matches!(letter, '(' | '<' | '[') {
            if depth == 0 {
                open = place;
            }
            depth = depth.saturating_add(1);
        } else if matches!(letter, ')' | '>' | ']') && depth > 0 {
            depth = depth.saturating_sub(1);
            if depth == 0 {
                return Some(Group { open, close: place });
            }
        }
    }
    None
}

// What stands in a text, by the commas there that are in no brackets.
fn items(alloc: Global, text: &str) -> Result<Vec<Group>, AllocError> {
    let mut items = Vec::new(alloc);
    let mut depth: usize = 0;
    let mut open: usize = 0;
    for (place, letter) in text.char_indices() {
        if matches!(letter, '(' | '<' | '[' | '{') {
            depth = depth.saturating_add(1);
        } else if matches!(letter, ')' | '>' | ']' | '}') {
            depth = depth.saturating_sub(1);
        } else if letter == ',' && depth == 0 {
            items.push(Group { open, close: place })?;
            open = place.saturating_add(1);
        }
    }
    if open < text.len() {
        let close = text.len();
        items.push(Group { open, close })?;
    }
    Ok(items)
}

// Whether the brackets are those of a call, with or without types before them.
fn is_call(text: &str, group: Group) -> bool {
    let before = part(text, 0, group.open);
    part(text, group.open, text.len()).starts_with('(')
        && before.ends_with(|it: char| it.is_ascii_alphanumeric() || matches!(it, '_' | '!' | '>'))
}

// Whether the brackets are those of a function that is called by its name alone, and that is all of
// a line or of an arm: its arguments stand in a line each.
fn is_of_name(text: &str, group: Group) -> bool {
    let before = part(text, 0, group.open);
    let name = |it: char| it.is_ascii_alphanumeric() || it == '_';
    let ahead = before.trim_end_matches(name);
    ahead.is_empty() || ahead.ends_with("=> ")
}

// The last brackets with something between them whose head has room; of the head of a function the
// first, and of `<A<B> as C>` those of `A`.
fn last_group(line: &Line, start: usize) -> Option<Group> {
    let text = line.text.as_str();
    let mut found = None;
    let mut from = start;
    for _ in 0..text.len() {
        let Some(outer) = group_of(text, from) else {
            return found;
        };
        from = outer.close.saturating_add(1);
        let within = outer.open.saturating_add(1);
        let inner = part(text, within, outer.close);
        let is_index = part(text, outer.open, within) == "[";
        if inner.is_empty() || is_index {
            continue;
        }
        if is_head(text) {
            return Some(outer);
        }
        let is_type = inner.contains(" as ") && part(text, outer.open, within) == "<";
        let group = if is_type {
            group_of(text, within)
        } else {
            Some(outer)
        };
        if let Some(group) = group {
            if found.is_none() || has_room(line, group.open) {
                found = Some(group);
            }
        }
    }
    found
}

// The lines before, between and behind these brackets. One call within another begins behind it,
// where it has room.
fn in_brackets(alloc: Global, line: &Line, group: Group) -> Result<Option<Vec<Line>>, AllocError> {
    let text = line.text.as_str();
    let within = group.open.saturating_add(1);
    let inner = part(text, within, group.close);
    let is_macro = part(text, 0, group.open).ends_with('!');
    let parts = items(alloc, inner)?;
    let mut lines = Vec::new(alloc);
    if let (1, true, Some(call)) = (parts.len(), is_call(text, group), group_of(inner, 0)) {
        let open = call.open.saturating_add(1);
        let is_whole = call.close.saturating_add(1) == inner.len() && is_call(inner, call);
        let end = within.saturating_add(open);
        // (a statement leaves two columns free)
        let most = if text.ends_with(';') { 98 } else { WIDTH };
        if is_whole && open <= CALL_WIDTH && line.margin.saturating_add(end) <= most {
            lines.push(Line::new(alloc, line.margin, part(text, 0, end))?)?;
            push_items(
                alloc,
                line.margin,
                part(inner, open, call.close),
                is_macro,
                &mut lines,
            )?;
            let close = within.saturating_add(call.close);
            lines.push(Line::new(alloc, line.margin, part(text, close, text.len()))?)?;
            return Ok(Some(lines));
        }
    }
    lines.push(Line::new(alloc, line.margin, part(text, 0, within))?)?;
    let is_short = inner.len() <= CALL_WIDTH && is_call(text, group) && !is_head(text);
    if is_short && parts.len() > 1 && !is_of_name(text, group) {
        let mut arguments = Line::new(alloc, line.margin.saturating_add(4), inner)?;
        arguments.text.push(',')?;
        lines.push(arguments)?;
    } else {
        push_items(alloc, line.margin, inner, is_macro, &mut lines)?;
    }
    lines.push(Line::new(alloc, line.margin, part(text, group.close, text.len()))?)?;
    Ok(Some(lines))
}

// A line for each of the items of a text, with a comma, but for the last one of a macro.
fn push_items(
    alloc: Global,
    margin: usize,
    text: &str,
    is_macro: bool,
    lines: &mut Vec<Line>,
) -> Result<(), AllocError> {
    let items = items(alloc, text)?;
    for (index, item) in items.iter().enumerate() {
        let item = part(text, item.open, item.close).trim();
        let mut line = Line::new(alloc, margin.saturating_add(4), item)?;
        if !is_macro || index.saturating_add(1) < items.len() {
            line.text.push(',')?;
        }
        lines.push(line)?;
    }
    Ok(())
}
