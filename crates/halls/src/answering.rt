// Who answers the requests of each stage: the bank, a box, the topmost bank, the terminal.
ghost use Rattle.std.specs.Prelude.{◌≡◌, IfOk, cond, is_ok, take, vec_items};
ghost use Rattle.command.specs.Cuts.{cut_of};
ghost use Rattle.terminal.specs.Buses.{bus, told, uttered};
ghost use Rattle.terminal.specs.Serves.{served, afters};
ghost use Rattle.halls.specs.Lines.{asked};
ghost use Rattle.halls.specs.Said.{said};
ghost use Rattle.halls.specs.Bases.{base_of};
ghost use Rattle.halls.specs.Stands.{Stand, OfBase, OfBox, OfTop, OfTerminal, cut_said, word_said, run_said, any_answer, answer_of, left_by};

use crate::answers::Answer;
use crate::beneath::{Beneath, Fitted};
use crate::requests::{Reason, Request, Talk};
use bank::{CountedBank, GaugeBank};
use command::split;
use junction::JunctionBox;
use std::alloc::{AllocError, Global};
use terminal::Terminal;

// What answers requests.
pub trait Answering {
    // What it is to those who ask it.
    ghost stand: { Self → Stand };

    // The answer to a request; one of another stage is out of order. Where there is no memory for it, nothing was done.
    fn answer<'a>(&mut self, heap: Global, request: &'a Request) -> Result<Answer<'a>, AllocError>
        ensures answer { IfOk result (λ a. said a ≡ answer_of (stand self.old) (asked request.now)) }
        ensures after { stand self.new ≡ cond (is_ok result) (left_by (stand self.old) (asked request.now)) (stand self.old) };
}

// The answer to a split.
fn split_answer(bytes: &[u8]) -> Answer<'_>
    ensures { said result ≡ cut_said (cut_of bytes.now) }
{
    match split(bytes) {
        Ok((bytes, used)) => Answer::Cut { used, bytes },
        Err(fault) => Answer::Faulty(fault),
    }
}

// The answer to a request that belongs to any stage.
fn anywhere(request: &Request) -> Answer<'_>
    ensures { said result ≡ any_answer (asked request.now) }
{
    match request {
        Request::Split(bytes) => split_answer(bytes.as_slice()),
        _ => Answer::Refused(Reason::OutOfOrder),
    }
}

impl<D: Fitted, R: Fitted> Answering for Beneath<D, R> {
    ghost stand = { λ s. OfBase (base_of D.Fitted.base R.Fitted.base s) };

    fn answer<'a>(
        &mut self,
        _heap: Global,
        request: &'a Request,
    ) -> Result<Answer<'a>, AllocError> {
        match request {
            Request::Bank(_) | Request::Record(_) => Ok(Answer::Done),
            Request::Fit { port, thousandths } => Ok(self.fit(*port, *thousandths).into()),
            Request::Set {
                port,
                digits,
                conversions,
            } => match self.set(*port, *digits, *conversions) {
                Some(placed) => Ok(placed.into()),
                None => Ok(Answer::Refused(Reason::OtherBank)),
            },
            _ => Ok(anywhere(request)),
        }
    }
}

impl<B: GaugeBank> Answering for JunctionBox<B> {
    ghost stand = { λ s. OfBox (B.GaugeBank.shows s.below) s.feeds };

    fn answer<'a>(
        &mut self,
        _heap: Global,
        request: &'a Request,
    ) -> Result<Answer<'a>, AllocError> {
        match request {
            Request::Join { join, .. } => Ok(self.join(join.below, join.above).into()),
            _ => Ok(anywhere(request)),
        }
    }
}

// The topmost bank, on which the terminal will stand.
impl<B: GaugeBank> Answering for CountedBank<B> {
    ghost stand = { λ s. OfTop (λ p. B.GaugeBank.shows s.below p) };

    fn answer<'a>(
        &mut self,
        _heap: Global,
        request: &'a Request,
    ) -> Result<Answer<'a>, AllocError> {
        match request {
            Request::Gauges(port) => Ok(self.gauges(*port).map(u16::from).into()),
            Request::Waiting(port) => Ok(self.waiting(*port).into()),
            Request::Take(port) => Ok(self.take(*port).into()),
            _ => Ok(anywhere(request)),
        }
    }
}

// Room for an answer, cut to what was written: a script may ask for 64 KiB in each of its lines, and the answers stand until all are printed.
fn cut_to(bytes: &mut Vec<u8>, written: usize)
    ensures { vec_items bytes.new ≡ take written (vec_items bytes.old) }
{
    bytes.truncate(written);
    bytes.shrink_to_fit();
}

// Has a terminal obey, with room for its answer.
fn obeying<'a, B: GaugeBank>(
    terminal: &mut Terminal<B>,
    heap: Global,
    talk: &'a Talk,
) -> Result<Answer<'a>, AllocError>
    ensures answer { IfOk result (λ a. said a ≡ word_said (uttered talk.now.room (bus B.shows terminal.old) (vec_items talk.now.bytes))) }
    ensures after { bus B.shows terminal.new ≡ cond (is_ok result) (told talk.now.room (bus B.shows terminal.old) (vec_items talk.now.bytes)) (bus B.shows terminal.old) }
{
    let mut bytes = vec![in heap; 0u8; talk.room]?;
    let obeyed = terminal.obey(talk.bytes.as_slice(), bytes.as_mut_slice());
    cut_to(&mut bytes, obeyed.written);
    Ok(Answer::Obeying { obeyed, bytes })
}

// Has a terminal serve, with room for its answers.
fn serving<'a, B: GaugeBank>(
    terminal: &mut Terminal<B>,
    heap: Global,
    talk: &'a Talk,
) -> Result<Answer<'a>, AllocError>
    ensures answer { let b = bus B.shows terminal.old in let run = vec_items talk.now.bytes in IfOk result (λ a. said a ≡ run_said b run (served talk.now.room b run)) }
    ensures after { let b = bus B.shows terminal.old in bus B.shows terminal.new ≡ cond (is_ok result) (afters b (served talk.now.room b (vec_items talk.now.bytes))) b }
{
    let mut bytes = vec![in heap; 0u8; talk.room]?;
    let served = terminal.serve(talk.bytes.as_slice(), bytes.as_mut_slice());
    cut_to(&mut bytes, served.written);
    Ok(Answer::Serving { served, bytes })
}

impl<B: GaugeBank> Answering for Terminal<B> {
    ghost stand = { λ s. OfTerminal (bus B.GaugeBank.shows s) };

    fn answer<'a>(&mut self, heap: Global, request: &'a Request) -> Result<Answer<'a>, AllocError> {
        match request {
            Request::Obey(talk) => obeying(self, heap, talk),
            Request::Serve(talk) => serving(self, heap, talk),
            _ => Ok(anywhere(request)),
        }
    }
}
