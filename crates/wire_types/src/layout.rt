//! The layout of code: what the formatter makes of the lines that have no room.
use crate::breaks::{broken, is_head};
use std::alloc::{AllocError, Global};
use wire_definitions::{CALL_WIDTH, WIDTH};
use wire_schema::GenerateError;

/// A line of code, without the spaces before it.
#[derive(Drop)]
pub struct Line {
    pub margin: usize,
    pub text: String,
}

impl Line {
    pub fn new(alloc: Global, margin: usize, text: &str) -> Result<Line, AllocError> {
        Ok(Line {
            margin,
            text: String::from_str(alloc, text)?,
        })
    }

    /// How many columns it takes.
    pub fn width(&self) -> usize {
        self.margin.saturating_add(self.text.chars().count())
    }
}

// What was seen of a module so far.
#[derive(Drop)]
struct Layout {
    alloc: Global,
    code: String,
    /// The line that ends what is left as it is.
    left_until: Option<String>,
    /// The line that ends a block that stands further to the right.
    moved_until: Option<String>,
    /// A line whose arguments are put behind it.
    joined: Option<Line>,
    /// Whether the last line ends a pattern of several lines.
    is_opened: bool,
    /// The line behind such a one.
    waiting: Option<Line>,
}

/// The code of a module as the formatter lays it out.
pub fn laid_out(alloc: Global, code: &str) -> Result<String, GenerateError> {
    let mut layout = Layout {
        alloc,
        code: String::new(alloc),
        left_until: None,
        moved_until: None,
        joined: None,
        is_opened: false,
        waiting: None,
    };
    let (lines, _) = code.rsplit_once('\n').unwrap_or((code, ""));
    for line in lines.split('\n') {
        layout.add(line)?;
    }
    Ok(layout.code)
}

impl Layout {
    fn add(&mut self, line: &str) -> Result<(), GenerateError> {
        let text = line.trim_start();
        let margin = line.len().saturating_sub(text.len());
        if let Some(end) = &self.left_until {
            if end.as_str() == line {
                self.left_until = None;
            }
            return self.put_line(0, line);
        }
        if line.starts_with("macro_rules!") {
            self.left_until = Some(String::from_str(self.alloc, "}")?);
            return self.put_line(0, line);
        }
        let is_clause = text.starts_with("ensures") || text.starts_with("requires");
        if is_clause && !line.ends_with('}') {
            let end = spaced(self.alloc, margin.saturating_sub(4), "{")?;
            self.left_until = Some(end);
        }
        if is_clause || text.is_empty() {
            return self.put_line(0, line);
        }
        let line = Line::new(self.alloc, margin, text)?;
        self.join(line)
    }

    // The arguments of a call whose head has no room are put behind it.
    fn join(&mut self, line: Line) -> Result<(), GenerateError> {
        let Some(mut head) = std::mem::replace(&mut self.joined, None) else {
            let is_call = line.text.ends_with('(') && !is_head(&line.text);
            if is_call && line.width() > WIDTH {
                self.joined = Some(line);
                return Ok(());
            }
            return self.open(line);
        };
        if line.text.starts_with(')') {
            let mut whole = String::from_str(self.alloc, head.text.trim_end_matches(','))?;
            whole.push_str(&line.text)?;
            head.text = whole;
            return self.open(head);
        }
        if !head.text.ends_with('(') {
            head.text.push(' ')?;
        }
        head.text.push_str(&line.text)?;
        self.joined = Some(head);
        Ok(())
    }

    // An expression alone behind a pattern of several lines stands in the last of these.
    fn open(&mut self, line: Line) -> Result<(), GenerateError> {
        if let Some(inner) = std::mem::replace(&mut self.waiting, None) {
            if line.text.as_str() == "}" {
                let code = self.code.trim_end_matches('\n');
                let mut code = String::from_str(self.alloc, code)?;
                for part in [" ", inner.text.as_str(), " }\n"] {
                    code.push_str(part)?;
                }
                self.code = code;
                return Ok(());
            }
            self.shift(inner)?;
        }
        let is_alone = !line.text.ends_with(';') && !line.text.ends_with('{');
        if std::mem::replace(&mut self.is_opened, false) && is_alone {
            self.waiting = Some(line);
            return Ok(());
        }
        self.shift(line)
    }

    // What is between braces stands further to the right where what is before them has no room.
    fn shift(&mut self, mut line: Line) -> Result<(), GenerateError> {
        let whole = spaced(self.alloc, line.margin, &line.text)?;
        let right = line.margin.saturating_add(4);
        if let Some(end) = &self.moved_until {
            let is_end = end.as_str() == whole.as_str();
            let is_call = line.text.as_str() == "})";
            if is_end {
                self.moved_until = None;
            }
            if is_end && is_call {
                self.put_line(right, "},")?;
                return self.put_line(line.margin, ")");
            }
            line.margin = right;
            return self.put(line);
        }
        let text = line.text.as_str();
        if !text.ends_with(" {") || text.starts_with("//") {
            return self.put(line);
        }
        if let Some(inner) = text.strip_prefix("Ok(") {
            if inner.len() > CALL_WIDTH {
                self.moved_until = Some(spaced(self.alloc, line.margin, "})")?);
                self.put_line(line.margin, "Ok(")?;
                return self.put(Line::new(self.alloc, right, inner)?);
            }
        }
        if let (Some((set, held)), true) = (text.split_once(" = "), line.width() > WIDTH) {
            let has_room = line.margin.saturating_add(set.len()) < WIDTH.saturating_sub(1);
            if has_room || text.contains("const ") {
                self.moved_until = Some(spaced(self.alloc, line.margin, "};")?);
                let mut head = Line::new(self.alloc, line.margin, set)?;
                head.text.push_str(" =")?;
                self.put_line(head.margin, &head.text)?;
                return self.put(Line::new(self.alloc, right, held)?);
            }
        }
        self.put(line)
    }

    // Breaks a line, and what comes of it, until each has room.
    fn put(&mut self, line: Line) -> Result<(), GenerateError> {
        let most = line.text.len().saturating_add(1);
        let mut pending = Vec::new(self.alloc);
        pending.push(line)?;
        for _ in 0..most {
            let Some(line) = pending.pop() else {
                return Ok(());
            };
            match broken(self.alloc, &line)? {
                Some(lines) => {
                    self.is_opened |= line.text.ends_with(" => {");
                    for line in lines.into_iter().rev() {
                        pending.push(line)?;
                    }
                }
                None => self.put_line(line.margin, &line.text)?,
            }
        }
        for line in pending.into_iter().rev() {
            self.put_line(line.margin, &line.text)?;
        }
        Ok(())
    }

    fn put_line(&mut self, margin: usize, text: &str) -> Result<(), GenerateError> {
        self.code.push_str(&spaced(self.alloc, margin, text)?)?;
        self.code.push('\n')?;
        Ok(())
    }
}

// A text behind so many spaces.
fn spaced(alloc: Global, margin: usize, text: &str) -> Result<String, AllocError> {
    let mut line = String::new(alloc);
    for _ in 0..margin {
        line.push(' ')?;
    }
    line.push_str(text)?;
    Ok(line)
}
