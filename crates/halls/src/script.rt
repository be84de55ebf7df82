// A script: its lines read and put in order.
ghost use Rattle.std.specs.Prelude.{◌≡◌, IfOk, OnOk};
ghost use Rattle.halls.specs.Lines.{request_seen};
ghost use Rattle.halls.specs.Scripts.{course_of, let_in, stage_then, noted, line_added, script_of, Ordered};

use crate::parsing::{is_idle, request};
use crate::requests::{Kind, Reason, Request};
use crate::stages::Stage;
use bank::Record;
use std::alloc::{AllocError, Global};

// A line that asks for something: its number, the stage in which it is met, and its request, or why it is refused.
#[derive(Drop)]
pub struct Step {
    pub line: usize,
    pub stage: Stage,
    pub asked: Result<Request, Reason>,
}

// The kind of bank, the records of a recording, and the steps, whose stages do not go back.
#[derive(Drop)]
pub struct Script {
    pub kind: Kind,
    pub records: Vec<Record>,
    pub steps: Vec<Step>,
    stage: Stage,
}

impl Script {
    // Reads a script of lines that end with a line feed, which the last may lack.
    pub fn read(heap: Global, text: &[u8]) -> Result<Script, AllocError>
        ensures value { IfOk result (λ s. course_of s ≡ script_of text.now) }
        ensures ordered { IfOk result (λ s. Ordered (course_of s).steps) }
    {
        let mut script = Script {
            kind: Kind::Dials,
            records: Vec::new(heap),
            steps: Vec::new(heap),
            stage: Stage::Opening,
        };
        for (above, line) in text.split(|byte| *byte == b'\n').enumerate() {
            script.add(heap, above.saturating_add(1), line)?;
        }
        Ok(script)
    }

    // Adds one line, unless it asks for nothing.
    fn add(&mut self, heap: Global, number: usize, line: &[u8]) -> Result<(), AllocError>
        ensures { OnOk result (course_of self.new ≡ line_added (course_of self.old) number line.now) }
    {
        if is_idle(line) {
            return Ok(());
        }
        let read = request(heap, line)?;
        let asked = self.admitted(read);
        self.note(&asked)?;
        self.steps.push(Step {
            line: number,
            stage: self.stage,
            asked,
        })?;
        Ok(())
    }

    // A request that comes in its order and suits the bank; else why it is refused, which alters nothing.
    #[tactic(auto, using(crate::proofs::AskedFor::belongs_asked, crate::proofs::AskedFor::suits_asked))]
    fn admitted(&mut self, read: Result<Request, Reason>) -> Result<Request, Reason>
        ensures answer { request_seen result ≡ let_in (course_of self.old) (request_seen read) }
        ensures after { course_of self.new ≡ record (course_of self.old) { stage = stage_then (course_of self.old) (request_seen read) } }
    {
        let request = read?;
        self.stage = self.stage.after(request.stage(), request.suits(self.kind))?;
        Ok(request)
    }

    // Keeps the kind of bank, and a record.
    fn note(&mut self, asked: &Result<Request, Reason>) -> Result<(), AllocError>
        ensures { OnOk result (course_of self.new ≡ noted (course_of self.old) (request_seen asked.now)) }
    {
        match asked {
            Ok(Request::Bank(kind)) => self.kind = *kind,
            Ok(Request::Record(record)) => self.records.push(*record)?,
            _ => {}
        }
        Ok(())
    }
}
