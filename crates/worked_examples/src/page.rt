// A page of Markdown, as files and commands.
use crate::content::content;
use crate::example::{Example, Output};
use crate::memory_files::{Entry, MemoryFiles};
use crate::page_fault::PageFault;
use crate::program::Program;
use crate::running::try_example;
use crate::tally::Tally;
use std::alloc::{AllocError, Global};

/// What the blocks of a page say. The text between them says nothing.
#[derive(Drop)]
struct Page<'a> {
    files: MemoryFiles,
    examples: Vec<Example<'a>>,
}

impl<'a> Page<'a> {
    /// The page of this text.
    fn read(alloc: Global, text: &'a str) -> Result<Page<'a>, PageFault<'a>> {
        let mut page = Page {
            files: MemoryFiles::new(alloc),
            examples: Vec::new(alloc),
        };
        let mut is_block = false;
        for part in text.split("\n```") {
            if is_block {
                page.take_block(alloc, part)?;
            }
            is_block = !is_block;
        }
        if !is_block {
            return Err(PageFault::Line("the last block has no end"));
        }
        if page.examples.is_empty() {
            return Err(PageFault::Line("no command"));
        }
        Ok(page)
    }

    /// Takes a block: its head, and the lines below.
    fn take_block(&mut self, alloc: Global, block: &'a str) -> Result<(), PageFault<'a>> {
        let (head, lines) = block.split_once('\n').unwrap_or((block, ""));
        if head == "console" {
            for line in lines.lines() {
                self.take_line(alloc, line)?;
            }
            return Ok(());
        }
        let Some((kind, role)) = head.split_once(' ') else {
            return Err(PageFault::Line(head));
        };
        let Some(bytes) = content(alloc, kind, lines)? else {
            return Err(PageFault::Line(head));
        };
        if let Some(name) = role.strip_prefix("file ") {
            self.files.put(Entry::of(alloc, name, bytes)?)?;
            return Ok(());
        }
        if let Some(example) = self.examples.last_mut() {
            if role == "stdout" && example.takes_output(Output::Block(bytes)) {
                return Ok(());
            }
        }
        Err(PageFault::Line(head))
    }

    /// Takes a line of a console.
    fn take_line(&mut self, alloc: Global, line: &'a str) -> Result<(), PageFault<'a>> {
        if let Some(command) = line.strip_prefix("$ mapchain") {
            if !command.is_empty() && !command.starts_with(' ') {
                return Err(PageFault::Line(line));
            }
            self.examples.push(Example::of(alloc, command))?;
            return Ok(());
        }
        let Some(example) = self.examples.last_mut() else {
            return Err(PageFault::Line(line));
        };
        let Some(note) = line.strip_prefix("# ") else {
            return Ok(example.take_line(line)?);
        };
        if !example.takes_note(note) {
            return Err(PageFault::Line(line));
        }
        Ok(())
    }

    /// Runs each command, in order.
    fn try_examples<P: Program>(
        &mut self,
        alloc: Global,
        program: &P,
        tally: &mut Tally,
    ) -> Result<(), AllocError> {
        for example in self.examples.iter() {
            if let Some(file) = try_example(alloc, program, &self.files, example, tally)? {
                self.files.put(file)?;
            }
        }
        Ok(())
    }
}

/// Tries the examples of a page on a program.
pub fn try_page<P: Program>(alloc: Global, program: &P, text: &str) -> Result<Tally, AllocError> {
    let mut tally = Tally::new(alloc);
    match Page::read(alloc, text) {
        Ok(mut page) => page.try_examples(alloc, program, &mut tally)?,
        Err(PageFault::Line(line)) => tally.print(format!(in alloc; "cannot be read: {line}")?)?,
        Err(PageFault::Memory(error)) => return Err(error),
    }
    Ok(tally)
}
