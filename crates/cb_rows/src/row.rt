//! A row: the words of a command, its files, and what it is to answer.

use std::alloc::{AllocError, Global};

// Where the lines of a row go.
#[derive(Clone, Copy)]
enum Section {
    File,
    Out,
    Err,
}

/// A row, as far as it has been read.
#[derive(Drop)]
pub struct Row {
    /// The line on which it begins.
    pub line: u64,
    pub words: Vec<String>,
    pub files: Vec<(String, Vec<u8>)>,
    /// The reads that fail, and the writes on standard output and on standard error that do, by their numbers.
    pub reads: Vec<u64>,
    pub writes: Vec<u64>,
    pub complaints: Vec<u64>,
    /// None where it isn't stated.
    pub status: Option<u8>,
    /// What is printed on standard output.
    pub out: Vec<u8>,
    /// What is printed on standard error.
    pub err: Vec<u8>,
    section: Section,
    // whether a line's end is due before the next line of the file
    ended: bool,
}

impl Row {
    /// The row of these words, with no file.
    pub fn new(alloc: Global, line: u64, words: &str) -> Result<Row, AllocError> {
        let mut all = Vec::new(alloc);
        for word in words.split_whitespace() {
            all.push(String::from_str(alloc, word)?)?;
        }
        Ok(Row {
            line,
            words: all,
            files: Vec::new(alloc),
            reads: Vec::new(alloc),
            writes: Vec::new(alloc),
            complaints: Vec::new(alloc),
            status: None,
            out: Vec::new(alloc),
            err: Vec::new(alloc),
            section: Section::File,
            ended: false,
        })
    }

    /// Takes the next line of the row.
    pub fn add(&mut self, alloc: Global, line: &str) -> Result<(), AllocError> {
        match line.strip_prefix("%% ") {
            Some("err") => self.section = Section::Err,
            Some("cut") => self.cut(),
            Some(rest) => {
                if let Some((verb, argument)) = rest.split_once(' ') {
                    self.direct(alloc, verb, argument)?;
                }
            }
            None => self.add_line(line)?,
        }
        Ok(())
    }

    // Takes the end of the last line away.
    fn cut(&mut self) {
        let _end = match self.section {
            Section::Err => self.err.pop(),
            _ => self.out.pop(),
        };
    }

    fn add_line(&mut self, line: &str) -> Result<(), AllocError> {
        match self.section {
            Section::File => self.add_to_file(line),
            Section::Out => put_line(&mut self.out, line),
            Section::Err => put_line(&mut self.err, line),
        }
    }

    fn add_to_file(&mut self, line: &str) -> Result<(), AllocError> {
        if let Some(file) = self.files.last_mut() {
            if self.ended {
                file.1.push(b'\n')?;
            }
            file.1.extend_from_slice(line.as_bytes())?;
            self.ended = true;
        }
        Ok(())
    }

    fn direct(&mut self, alloc: Global, verb: &str, argument: &str) -> Result<(), AllocError> {
        match verb {
            "file" => {
                self.ended = false;
                self.files
                    .push((String::from_str(alloc, argument)?, Vec::new(alloc)))?;
            }
            "times" => self.add_times(argument)?,
            "each" => self.add_each(alloc, argument)?,
            "read" => self.reads.push(number_of(argument))?,
            "write" => self.writes.push(number_of(argument))?,
            "complain" => self.complaints.push(number_of(argument))?,
            _ => {
                self.status = argument.parse::<u8>().ok();
                self.section = Section::Out;
            }
        }
        Ok(())
    }

    fn add_times(&mut self, argument: &str) -> Result<(), AllocError> {
        self.ended = false;
        if let (Some((count, piece)), Some(file)) = (
            argument.split_once(' '),
            self.files.last_mut(),
        ) {
            for _ in 0..count.parse::<u32>().unwrap_or(0) {
                file.1.extend_from_slice(piece.as_bytes())?;
            }
        }
        Ok(())
    }

    fn add_each(&mut self, alloc: Global, argument: &str) -> Result<(), AllocError> {
        if let Some((count, text)) = argument.split_once(' ') {
            for number in 1..=count.parse::<u32>().unwrap_or(0) {
                let number = format!(in alloc; "{number}")?;
                let line = text.replace(alloc, "@", number.as_str())?;
                self.add_line(line.as_str())?;
            }
        }
        Ok(())
    }
}

fn number_of(argument: &str) -> u64 {
    argument.parse::<u64>().unwrap_or(0)
}

fn put_line(text: &mut Vec<u8>, line: &str) -> Result<(), AllocError> {
    text.extend_from_slice(line.as_bytes())?;
    text.push(b'\n')?;
    Ok(())
}
