//! What was read of a text so far.

ghost use Rattle.std.specs.Prelude.{◌≡◌, ◌^◌, ◌<◌, IfOk, OnOk, option_map, None};
ghost use Rattle.asm_lines.specs.Said.{said, said_data, IsInRange};
ghost use Rattle.asm_program.specs.Held.{part_of, program_of, Makes};
ghost use Rattle.asm_program.specs.Program as model;

use crate::labels::Labels;
use crate::part::Part;
use asm_lines::{AsmKind, Data, Statement, read_statement};
use std::alloc::{AllocError, Global};

/// The label at which a program begins.
#[derive(Drop)]
pub struct Entry<'a> {
    /// The line that says it.
    pub line: u32,
    /// The label's name.
    pub name: &'a [u8],
}

/// What was read of a text so far.
#[derive(Drop)]
pub struct Program<'a> {
    pub alloc: Global,
    /// The segments that are complete, in the order of the text.
    pub done: Vec<Part<'a>>,
    /// The segment that lines add to.
    pub last: Option<Part<'a>>,
    pub labels: Labels<'a>,
    pub entry: Option<Entry<'a>>,
}

// A function that answers `Option<AsmKind>` adds to the program, or answers the fault of the line
// and leaves the program as it was. The only error is that memory ran out.
impl<'a> Program<'a> {
    /// Nothing.
    pub fn new(alloc: Global) -> Program<'a>
        ensures { program_of result ≡ model.no_program }
    {
        Program {
            alloc,
            done: Vec::new(alloc),
            last: None,
            labels: Labels::new(alloc),
            entry: None,
        }
    }

    /// Adds what a line says.
    pub fn add_line(&mut self, line: u32, text: &'a [u8]) -> Result<Option<AsmKind>, AllocError>
        ensures { IfOk result (λ fault.
            Makes (model.with_line (program_of self.old) line text.now) fault
            (program_of self.old) (program_of self.new)) }
    {
        match read_statement(self.last.is_some(), text) {
            Ok(says) => self.add(line, says),
            Err(kind) => Ok(Some(kind)),
        }
    }

    /// Adds a statement.
    fn add(&mut self, line: u32, says: Statement<'a>) -> Result<Option<AsmKind>, AllocError>
        requires { IsInRange (said says) }
        ensures { IfOk result (λ fault.
            Makes (model.with_statement (program_of self.old) line (said says.entry)) fault
            (program_of self.old) (program_of self.new)) }
    {
        match says {
            Statement::Nothing => Ok(None),
            Statement::Label(name) => self.add_label(name),
            Statement::Segment { at, flags, size } => {
                self.add_part(at, flags, size)?;
                Ok(None)
            }
            Statement::Entry(name) => Ok(self.add_entry(line, name)),
            Statement::Data(says) => self.add_piece(line, says),
        }
    }

    /// Adds a label at the address of what comes next, where it isn't defined.
    fn add_label(&mut self, name: &'a [u8]) -> Result<Option<AsmKind>, AllocError>
        ensures { IfOk result (λ fault.
            Makes (model.with_label (program_of self.old) name.now) fault
            (program_of self.old) (program_of self.new)) }
    {
        if self.labels.address_of(name).is_some() {
            return Ok(Some(AsmKind::TwiceDefined));
        }
        let here = self.here();
        self.labels.define(name, here)?;
        Ok(None)
    }

    /// The address of what comes next, below 2^65.
    fn here(&self) -> u128
        ensures value { result ≡ model.here (option_map part_of self.now.last) }
        ensures within { result < 2 ^ 65 }
    {
        match &self.last {
            None => 0,
            Some(part) => part.end(),
        }
    }

    /// Begins a segment.
    fn add_part(&mut self, at: u64, flags: u32, size: u64) -> Result<(), AllocError>
        ensures { OnOk result (program_of self.new
            ≡ model.with_part (program_of self.old) at flags size) }
    {
        self.complete()?;
        self.last = Some(Part::new(self.alloc, at, flags, size));
        Ok(())
    }

    /// Puts the last segment with those that are complete.
    pub fn complete(&mut self) -> Result<(), AllocError>
        ensures { OnOk result (program_of self.new ≡ model.complete (program_of self.old)) }
    {
        if let Some(part) = self.last.take() {
            self.done.push(part)?;
        }
        Ok(())
    }

    /// Lets the program begin at the label, where it has no entry.
    fn add_entry(&mut self, line: u32, name: &'a [u8]) -> Option<AsmKind>
        ensures { Makes (model.with_entry (program_of self.old) line name.now) result
            (program_of self.old) (program_of self.new) }
    {
        if self.entry.is_some() {
            return Some(AsmKind::TwiceDefined);
        }
        self.entry = Some(Entry { line, name });
        None
    }

    /// Adds bytes to the last segment, where there is one and they fit.
    fn add_piece(&mut self, line: u32, says: Data<'a>) -> Result<Option<AsmKind>, AllocError>
        requires { IsInRange (said_data says) }
        ensures { IfOk result (λ fault.
            Makes (model.with_piece (program_of self.old) line (said_data says.entry)) fault
            (program_of self.old) (program_of self.new)) }
    {
        match &mut self.last {
            None => Ok(Some(AsmKind::BadShape)),
            Some(part) => part.add(line, says),
        }
    }
}
