// Goes through a script's steps, stage by stage, and collects a reply for each.
ghost use Rattle.std.specs.Prelude.{◌≡◌, ◌<◌, [], ◌∷◌, ◌++◌, IfSome, IfOk, OnOk, cond, is_ok, length, map, nat_lt, position, vec_items};
ghost use Rattle.halls.specs.Stages.{rank};
ghost use Rattle.halls.specs.Scripts.{met_of, course_of};
ghost use Rattle.halls.specs.Said.{reply_of, reply_text, lines_text};
ghost use Rattle.std.specs.Io.KnownBytes.{Appends, Keeps, append_known};
ghost use Rattle.halls.specs.Bases.{base_of, chosen};
ghost use Rattle.halls.specs.Stands.{new_box, shown};
ghost use Rattle.halls.specs.Replies.{reply_to, stand_then, replies_by, stand_after, upto, beyond, replies_over, replies_of, printed_for, EachReplied};
ghost use Rattle.junction.specs.Gather.{boxed};

use crate::answering::Answering;
use crate::answers::Answer;
use crate::beneath::{Beneath, Fitted};
use crate::printing::Reply;
use crate::requests::Kind;
use crate::script::{Script, Step};
use crate::stages::Stage;
use bank::{CountedBank, Dials, GaugeBank, Recording};
use junction::JunctionBox;
use std::alloc::{AllocError, Global};
use std::io::{self, Read, Write};
use terminal::Terminal;

// From so many bytes on a block of lines is printed.
const BLOCK: usize = 8192;

// The place of the first step that comes after a stage.
fn first_after(steps: &[Step], stage: Stage) -> Option<usize>
    ensures { result ≡ position (λ s. nat_lt (rank stage) (rank s.stage)) steps.now }
{
    steps.iter().position(|step| step.stage.is_after(stage))
}

// The steps up to the end of a stage, and those after it.
fn through(steps: &[Step], stage: Stage) -> (&[Step], &[Step])
    ensures within { map met_of result.0.now ≡ upto stage (map met_of steps.now) }
    ensures after { map met_of result.1.now ≡ beyond stage (map met_of steps.now) }
{
    let end = first_after(steps, stage).unwrap_or(steps.len());
    steps.split_at(end)
}

// The reply of a stand to a step. Where there is no memory for it, nothing was done.
fn reply<'a, S: Answering>(
    heap: Global,
    stand: &mut S,
    step: &'a Step,
) -> Result<Reply<'a>, AllocError>
    ensures reply { IfOk result (λ r. reply_of r ≡ reply_to (S.stand stand.old) (met_of step.now)) }
    ensures after { S.stand stand.new ≡ cond (is_ok result) (stand_then (S.stand stand.old) (met_of step.now).said) (S.stand stand.old) }
{
    let answer = match &step.asked {
        Ok(request) => stand.answer(heap, request)?,
        Err(reason) => Answer::Refused(*reason),
    };
    Ok(Reply {
        line: step.line,
        answer,
    })
}

// Has each step answered in turn, and adds the replies to those so far.
fn answer_all<'a, S: Answering>(
    heap: Global,
    stand: &mut S,
    steps: &'a [Step],
    so_far: &mut Vec<Reply<'a>>,
) -> Result<(), AllocError>
    ensures replies { OnOk result (map reply_of (vec_items so_far.new) ≡ map reply_of (vec_items so_far.old) ++ replies_by (S.stand stand.old) (map met_of steps.now)) }
    ensures after { OnOk result (S.stand stand.new ≡ stand_after (S.stand stand.old) (map met_of steps.now)) }
{
    for step in steps {
        so_far.push(reply(heap, stand, step)?)?;
    }
    Ok(())
}

// A new box on a bank, joined as the steps up to the end of a stage say, and the steps after those. Its counts are kept for what stands on it, so that a question goes no deeper than one box.
fn raised<'a, B: GaugeBank + Drop>(
    heap: Global,
    bank: B,
    stage: Stage,
    steps: &'a [Step],
    so_far: &mut Vec<Reply<'a>>,
) -> Result<(CountedBank<JunctionBox<B>>, &'a [Step]), AllocError>
    ensures replies { OnOk result (map reply_of (vec_items so_far.new) ≡ map reply_of (vec_items so_far.old) ++ replies_by (new_box (B.shows bank)) (upto stage (map met_of steps.now))) }
    ensures bank { IfOk result (λ p. boxed p.0.below.feeds (B.shows p.0.below.below) ≡ shown (stand_after (new_box (B.shows bank)) (upto stage (map met_of steps.now)))) }
    ensures left { IfOk result (λ p. map met_of p.1.now ≡ beyond stage (map met_of steps.now)) }
{
    let (joining, steps) = through(steps, stage);
    let mut junction = JunctionBox::new(bank);
    answer_all(heap, &mut junction, joining, so_far)?;
    Ok((CountedBank::over(junction), steps))
}

// Fits out the bank of a kind, stands four boxes on it, asks the topmost, and has a terminal over that obey and serve. There is a call for each box, since the type of a box names that of the bank beneath it, and a loop has one type.
fn build<'a, D: Fitted + Drop, R: Fitted + Drop>(
    heap: Global,
    kind: Kind,
    dials: D,
    recording: R,
    steps: &'a [Step],
) -> Result<Vec<Reply<'a>>, AllocError>
    ensures { IfOk result (λ rs. map reply_of (vec_items rs) ≡ replies_over (base_of D.base R.base (chosen kind dials recording)) (map met_of steps.now)) }
{
    let mut so_far = Vec::new(heap);
    let mut beneath = Beneath::of_kind(kind, dials, recording);
    let (fitting, steps) = through(steps, Stage::Fitting);
    answer_all(heap, &mut beneath, fitting, &mut so_far)?;
    let (bank, steps) = raised(heap, beneath, Stage::FirstBox, steps, &mut so_far)?;
    let (bank, steps) = raised(heap, bank, Stage::SecondBox, steps, &mut so_far)?;
    let (bank, steps) = raised(heap, bank, Stage::ThirdBox, steps, &mut so_far)?;
    let (mut top, steps) = raised(heap, bank, Stage::FourthBox, steps, &mut so_far)?;
    let (asking, talking) = through(steps, Stage::Asking);
    answer_all(heap, &mut top, asking, &mut so_far)?;
    answer_all(heap, &mut Terminal::new(top), talking, &mut so_far)?;
    Ok(so_far)
}

// What a script is answered by, in the order of its lines.
pub fn replies<'a>(heap: Global, script: &'a Script) -> Result<Vec<Reply<'a>>, AllocError>
    ensures value { IfOk result (λ rs. map reply_of (vec_items rs) ≡ replies_of (course_of script.now)) }
    ensures law { IfOk result (λ rs. EachReplied (course_of script.now).steps (map reply_of (vec_items rs))) }
{
    build(
        heap,
        script.kind,
        Dials::new(),
        Recording::new(script.records.as_slice()),
        script.steps.as_slice(),
    )
}

// Adds the line of a reply to a block.
fn add_line(reply: &Reply<'_>, block: &mut Vec<u8>) -> io::Result<()>
    ensures { OnOk result (vec_items block.new ≡ vec_items block.old ++ (reply_text (reply_of reply.now) ++ 10 ∷ [])) }
{
    writeln!(block, "{reply}")
}

// Hands a block of lines on once it is long enough: less than a block is kept back.
fn hand_on<W: Write>(block: &mut Vec<u8>, output: &mut W) -> io::Result<()>
    ensures bytes { OnOk result (Keeps (append_known (W.contents output.old) (vec_items block.old)) (append_known (W.contents output.new) (vec_items block.new))) }
    ensures kept_back { OnOk result (length (vec_items block.new) < 8192) }
{
    if block.len() >= BLOCK {
        output.write_all(block.as_slice())?;
        block.clear();
    }
    Ok(())
}

// Prints a line for each reply, in their order. The lines are gathered in blocks, since standard output would be written at each fragment of a line.
fn print_all<W: Write>(heap: Global, replies: &[Reply<'_>], output: &mut W) -> io::Result<()>
    ensures { OnOk result (Appends (W.contents output.old) (W.contents output.new) (lines_text (map reply_of replies.now))) }
{
    let mut block = Vec::with_capacity(heap, BLOCK)?;
    for reply in replies {
        add_line(reply, &mut block)?;
        hand_on(&mut block, output)?;
    }
    output.write_all(block.as_slice())
}

// Reads a script from the input to its end, and prints a line for each request.
pub fn play<R: Read + Drop, W: Write>(heap: Global, mut input: R, output: &mut W) -> io::Result<()>
    ensures { OnOk result (IfSome (R.remaining input) (λ xs. Appends (W.contents output.old) (W.contents output.new) (printed_for xs))) }
{
    let mut text = Vec::new(heap);
    input.read_to_end(&mut text)?;
    let script = Script::read(heap, text.as_slice())?;
    print_all(heap, replies(heap, &script)?.as_slice(), output)
}
