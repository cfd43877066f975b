// Answers by number, of which those that follow one another and are the same are told once.
use mdbox_base::NoMemory;
use std::alloc::Global;

/// What is told of numbers that rise by one: lines as `~ NAME 1-12: ANSWER`.
#[derive(Drop)]
pub struct Spans {
    alloc: Global,
    name: &'static str,
    told: String,
    first: u64,
    last: u64,
    answer: Option<String>,
}

impl Spans {
    /// None so far. The name stands before each.
    pub fn of(alloc: Global, name: &'static str) -> Spans {
        Spans {
            alloc,
            name,
            told: String::new(alloc),
            first: 0,
            last: 0,
            answer: None,
        }
    }

    /// Adds the answer for the next number.
    pub fn add(&mut self, number: u64, answer: String) -> Result<(), NoMemory> {
        if !self.goes_on(answer.as_str()) {
            self.close()?;
            self.first = number;
            self.answer = Some(answer);
        }
        self.last = number;
        Ok(())
    }

    /// Whether the last number has this answer.
    fn goes_on(&self, answer: &str) -> bool {
        match &self.answer {
            Some(before) => before.as_str() == answer,
            None => false,
        }
    }

    /// Tells the answer of the last numbers.
    fn close(&mut self) -> Result<(), NoMemory> {
        let line = match &self.answer {
            Some(answer) => {
                let (name, first, last) = (self.name, self.first, self.last);
                let answer = answer.as_str();
                format!(in self.alloc; "~ {name} {first}-{last}: {answer}\n")?
            }
            None => return Ok(()),
        };
        self.told.push_str(line.as_str())?;
        self.answer = None;
        Ok(())
    }

    /// Adds all lines to a text.
    pub fn put(self, out: &mut String) -> Result<(), NoMemory> {
        let mut spans = self;
        spans.close()?;
        out.push_str(spans.told.as_str())?;
        Ok(())
    }
}
