//! `tests/data/pyarrow/table.txt`: a line for each sample.

/// The lines of the table. Those that begin with `#` explain it.
const TABLE: &[u8] = include_bytes!("pyarrow/table.txt");

/// A line of the table: the name of a sample, and what is expected of its stream and of its file, `-` if there is none.
#[derive(Clone, Copy)]
pub struct Line {
    pub name: &'static str,
    pub stream: &'static str,
    pub file: &'static str,
}

/// Returns the line of a text, or `None` if it explains the table. A missing word is empty.
fn parse_line(text: &'static str) -> Option<Line> {
    let mut words = text.split_whitespace();
    let name = words.next()?;
    if name.starts_with('#') {
        return None;
    }
    let _needs = words.next();
    Some(Line {
        name,
        stream: words.next().unwrap_or(""),
        file: words.next().unwrap_or(""),
    })
}

/// Returns the text of the table.
pub fn table_text() -> &'static str {
    str::from_utf8(TABLE).unwrap_or("")
}

/// Returns the first line of a sample.
pub fn line_of(name: &str) -> Option<Line> {
    for text in table_text().lines() {
        if let Some(line) = parse_line(text) {
            if line.name == name {
                return Some(line);
            }
        }
    }
    None
}

/// Returns the number of streams and files that the table expects.
pub fn sample_count() -> usize {
    let mut count = 0;
    for text in table_text().lines() {
        if let Some(line) = parse_line(text) {
            count += (line.stream != "-") as usize + (line.file != "-") as usize;
        }
    }
    count
}
